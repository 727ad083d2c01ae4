//! The commands, run.
ghost use Rattle.std.specs.Prelude.{◌≡◌, None, IsTrue, string_bytes, length};
ghost use Rattle.descriptor_lines.specs.Commands.{IsRunnable};
ghost use Rattle.descriptor_lines.specs.LayoutTables.{key_of, layout_named};
ghost use Rattle.descriptor_lines.specs.LineStates.{line_state};
ghost use Rattle.descriptor_lines.specs.Orders.{Limit, Layout as NewLayout, Script, order_of};
ghost use Rattle.descriptor_lines.specs.Programs.{CanAnswer, Does, DoesOrder, RunsAs};
ghost use Rattle.descriptor_script.specs.Scripted.Raw.{script_meaning};
ghost use Rattle.descriptor_script.specs.Sessions.Steps.{StepsTo};

use super::Program;
use crate::answer;
use crate::command::Command;
use crate::device::LineDevice;
use crate::layouts::Layout;
use descriptor_script::{Answer, Command as SessionCommand, Reply, ScriptLayout, Session};
use gpu_descriptor_types::new_pool_size;
use std::alloc::AllocError;
use std::string::String;
use std::vec::Vec;

impl<D: LineDevice> Program<D> {
    /// Runs a command, and puts its answer into the empty text. An error changes nothing.
    pub(super) fn run(
        &mut self,
        command: Command<'_>,
        answer: &mut String,
    ) -> Result<(), AllocError>
        requires can { CanAnswer (string_bytes answer.old) (line_state D.ledger D.script self.old) }
        requires begun { IsTrue self.old.has_begun }
        requires runnable { IsRunnable self.old.layouts command }
        ensures runs { RunsAs (DoesOrder (order_of command.entry)) result (string_bytes answer.new)
            (line_state D.ledger D.script self.old) (line_state D.ledger D.script self.new) }
    {
        match command {
            Command::Limit { max } => self.set_limit(max, answer),
            Command::Layout { name, layout } => self.add_layout(name, layout, answer),
            Command::Size {
                counts,
                total,
                wanted,
            } => {
                let (counts, sets) = new_pool_size(&counts, total, wanted);
                answer::size_answer(answer, &counts, sets)
            }
            Command::Script { script } => self.load(script, answer),
            Command::Alloc { layout, count } => {
                self.ask(SessionCommand::Allocate { layout, count }, answer)
            }
            Command::Free { tickets } => self.ask(SessionCommand::Free { tickets }, answer),
            Command::Cleanup => self.ask(SessionCommand::Cleanup, answer),
            Command::Show => self.show(answer),
        }
    }

    /// Begins with this limit on marked descriptors, and puts the answer into the empty text.
    fn set_limit(&mut self, max: u32, answer: &mut String) -> Result<(), AllocError>
        requires can { CanAnswer (string_bytes answer.old) (line_state D.ledger D.script self.old) }
        requires fresh { length self.old.layouts.by_name.entries ≡ 0 }
        ensures runs { RunsAs (DoesOrder (Limit max)) result (string_bytes answer.new)
            (line_state D.ledger D.script self.old) (line_state D.ledger D.script self.new) }
    {
        writeln!(answer, "limit {max}")?;
        self.session = Session::new(self.alloc, max);
        Ok(())
    }

    /// Keeps a layout, and puts the answer into the empty text.
    fn add_layout(
        &mut self,
        name: &str,
        layout: Layout,
        answer: &mut String,
    ) -> Result<(), AllocError>
        requires can { CanAnswer (string_bytes answer.old) (line_state D.ledger D.script self.old) }
        requires begun { IsTrue self.old.has_begun }
        requires absent { layout_named self.old.layouts name.now ≡ None }
        ensures runs { RunsAs (DoesOrder (NewLayout name.now (key_of layout))) result
            (string_bytes answer.new) (line_state D.ledger D.script self.old)
            (line_state D.ledger D.script self.new) }
    {
        let total = layout.counts.total();
        writeln!(answer, "layout {name} total {total}")?;
        let name = self.layouts.kept_name(name)?;
        self.layouts.reserve()?;
        let Layout { counts, mark } = layout;
        let scripted = ScriptLayout { counts, mark };
        match self.session.add_layout(scripted, counts, scripted.flags()) {
            Ok(_) => {
                self.layouts.push(name, layout);
                Ok(())
            }
            Err(_) => Err(AllocError),
        }
    }

    /// Gives the device a new script, and puts the answer into the empty text.
    fn load(&mut self, script: Vec<Answer>, answer: &mut String) -> Result<(), AllocError>
        requires can { CanAnswer (string_bytes answer.old) (line_state D.ledger D.script self.old) }
        ensures runs { RunsAs (DoesOrder (Script script.items)) result (string_bytes answer.new)
            (line_state D.ledger D.script self.old) (line_state D.ledger D.script self.new) }
    {
        let words = script.len();
        writeln!(answer, "script {words}")?;
        self.device.load(script);
        Ok(())
    }

    /// Runs a command of the session, and puts its answer into the empty text.
    fn ask(&mut self, command: SessionCommand, answer: &mut String) -> Result<(), AllocError>
        requires can { CanAnswer (string_bytes answer.old) (line_state D.ledger D.script self.old) }
        ensures runs { RunsAs (Does (StepsTo script_meaning command)) result
            (string_bytes answer.new) (line_state D.ledger D.script self.old)
            (line_state D.ledger D.script self.new) }
    {
        // The answer has its memory before the command is run.
        answer.reserve(answer::reserve_for(&command))?;
        match self.session.run(&mut self.device, &[command])?.pop() {
            Some(Reply::NoMemory) => Err(AllocError),
            Some(reply) => {
                answer::reply_answer(answer, &self.session, &reply);
                Ok(())
            }
            None => unreachable!(),
        }
    }
}
