//! The program: lines in, answers out.
ghost use Rattle.gpu_descriptor_types.specs.Ledger.{Ledger};
ghost use Rattle.descriptor_script.specs.declared.answer.Answer.{Answer};
ghost use Rattle.std.specs.Prelude.{◌≡◌, ◌≢◌, ℕ, List, [], Some, Err, IsFalse, IsTrue, IfErr};
ghost use Rattle.std.specs.Prelude.{string_bytes};
ghost use Rattle.std.specs.Io.KnownBytes.{Appends, IsAtEnd};
ghost use Rattle.descriptor_script.specs.Scripted.Device.{empty_ledger};
ghost use Rattle.descriptor_lines.specs.Outcomes.{EndsInFault};
ghost use Rattle.descriptor_lines.specs.LineBuffers.{unread};
ghost use Rattle.descriptor_lines.specs.LineStates.{line_state};
ghost use Rattle.descriptor_lines.specs.Lines.{lines_of};
ghost use Rattle.descriptor_lines.specs.Orders.{line_in};
ghost use Rattle.descriptor_lines.specs.Programs.{CanAnswer, CanRun, DoesLine, IsFresh, IsReasonFor, RunsAs};
ghost use Rattle.descriptor_lines.specs.Transcripts.{RunsLines, Says};
ghost use Rattle.descriptor_lines.specs.Words.{words};

mod output;
mod run;
mod show;

use crate::command::Command;
use crate::device::LineDevice;
use crate::exit::Exit;
use crate::input::{InputFault, LineBuffer, MAX_READS};
use crate::layouts::LayoutTable;
use crate::words::{Fault, Refusal};
use descriptor_script::{RawPool, RawSet, ScriptLayout, ScriptedDevice, Session};
use output::answer_line;
pub use output::write_bytes;
use std::alloc::Global;
use std::io::{Read, Write};
use std::string::String;
use std::vec::Vec;

/// Enough bytes for most answers and for every line of a fault.
const ANSWER_LEN: usize = 1024;

/// The session that the lines speak to.
pub type LineSession = Session<ScriptLayout, RawPool, RawSet>;

/// What the lines so far made.
#[derive(Drop)]
pub struct Program<D> {
    alloc: Global,
    layouts: LayoutTable,
    session: LineSession,
    device: D,

    /// Whether a line had a command. From then on a limit comes too late.
    has_begun: bool,
}

impl<D: LineDevice> Program<D> {
    /// A program without layouts and sets, whose limit is the greatest.
    fn new(alloc: Global, device: D) -> Self
        requires ledger { D.ledger device ≡ empty_ledger }
        requires script { D.script device ≡ [] }
        ensures ready { CanRun (line_state D.ledger D.script result) }
        ensures fresh { IsFresh (line_state D.ledger D.script result) }
        ensures device { result.device ≡ device }
    {
        Program {
            alloc,
            layouts: LayoutTable::new(alloc),
            session: Session::new(alloc, u32::MAX),
            device,
            has_begun: false,
        }
    }

    /// Runs a line, and puts its answer into the empty text. An error changes nothing but whether a line
    /// had a command.
    fn run_line(&mut self, line: &[u8], answer: &mut String) -> Result<(), Refusal>
        requires can { CanAnswer (string_bytes answer.old) (line_state D.ledger D.script self.old) }
        ensures runs { RunsAs (DoesLine (line_in self.old.layouts self.old.has_begun (words line.now)))
            result (string_bytes answer.new) (line_state D.ledger D.script self.old)
            (line_state D.ledger D.script self.new) }
        ensures reason { IfErr result (IsReasonFor (line_in self.old.layouts self.old.has_begun
            (words line.now)) (words line.now)) }
        ensures begun { result ≡ Err Refusal.NoMemory → IsTrue self.new.has_begun }
    {
        self.device.hear(line);
        match Command::parse(self.alloc, line, &self.layouts, self.has_begun) {
            Ok(None) => Ok(()),
            Ok(Some(command)) => {
                self.has_begun = true;
                self.run(command, answer)?;
                Ok(())
            }
            Err(refusal) => {
                self.has_begun = true;
                Err(refusal)
            }
        }
    }
}

/// Runs the lines that are to come, and says how that ends.
fn run_to_end<D: LineDevice, R: Read, W: Write>(
    program: &mut Program<D>,
    lines: &mut LineBuffer,
    answer: &mut String,
    input: &mut R,
    output: &mut W,
) -> Exit
    requires can { CanAnswer (string_bytes answer.old) (line_state D.ledger D.script program.old) }
    requires open { IsFalse lines.old.is_at_end }
    ensures writes { (bytes : List ℕ) → unread lines.old (R.remaining input.old) ≡ Some bytes
        → (said : List ℕ) × Appends (W.contents output.old) (W.contents output.new) said
        × Says result 1 (lines_of bytes) said (line_state D.ledger D.script program.old)
        (line_state D.ledger D.script program.new) }
    ensures done { result ≡ Exit.Done → IsAtEnd (R.remaining input.new) }
    ensures bad_line { result ≡ Exit.BadLine → EndsInFault (W.contents output.old)
        (W.contents output.new) }
    ensures memory { result ≢ Exit.NoMemory }
    ensures whole { result ≢ Exit.WriteFault → IsFalse (D.lost program.old.device)
        → IsFalse (D.lost program.new.device) }
{
    for number in 1..=u64::MAX {
        let outcome = match lines.next_line(input) {
            Ok(None) => return Exit::Done,
            Ok(Some(span)) => program.run_line(lines.line(span), answer),
            Err(InputFault::LineTooLong) => Err(Refusal::Fault(Fault::LineTooLong)),
            Err(InputFault::Read) => return Exit::ReadFault,
        };
        if program.device.has_lost() {
            return Exit::WriteFault;
        }
        if let Err(exit) = answer_line(output, answer, number, outcome) {
            return exit;
        }
    }
    Exit::ReadFault
}

/// Reads lines from `input` to its end, and writes the answer of each to `output` before the next
/// is run. It ends early without memory to begin, at a faulty line, at a read or a write that
/// fails, of whatever kind, and after 100000000 read calls.
pub fn run_lines<R: Read, W: Write>(alloc: Global, input: &mut R, output: &mut W) -> Exit
    ensures runs { (ledger : Ledger) × (script : List Answer)
        × RunsLines (R.remaining input.old) (R.remaining input.new) result
        (W.contents output.old) (W.contents output.new) ledger script }
{
    let device = ScriptedDevice::new(alloc, Vec::new(alloc));
    let (exit, _) = run_lines_on(alloc, device, input, output);
    exit
}

/// The same on any device that has nothing live yet and no script. The device is returned. It ends
/// with [`Exit::WriteFault`] where the device lost something that it was to write down.
pub fn run_lines_on<D: LineDevice + Drop, R: Read, W: Write>(
    alloc: Global,
    device: D,
    input: &mut R,
    output: &mut W,
) -> (Exit, D)
    requires ledger { D.ledger device ≡ empty_ledger }
    requires script { D.script device ≡ [] }
    ensures runs { RunsLines (R.remaining input.old) (R.remaining input.new) result.0
        (W.contents output.old) (W.contents output.new) (D.ledger result.1) (D.script result.1) }
    ensures whole { result.0 ≢ Exit.WriteFault → IsFalse (D.lost device)
        → IsFalse (D.lost result.1) }
{
    let Ok(mut lines) = LineBuffer::new(alloc, MAX_READS) else {
        return (Exit::NoMemory, device);
    };
    let Ok(mut answer) = String::with_capacity(alloc, ANSWER_LEN) else {
        return (Exit::NoMemory, device);
    };
    let mut program = Program::new(alloc, device);
    let exit = run_to_end(&mut program, &mut lines, &mut answer, input, output);
    (exit, program.device)
}
