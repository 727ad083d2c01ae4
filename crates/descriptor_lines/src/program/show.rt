//! The command that shows the pools and the counters.
ghost use Rattle.std.specs.Prelude.{◌≡◌, ◌++◌, OnOk, string_bytes};
ghost use Rattle.descriptor_script.specs.Sessions.Session.{value_of};
ghost use Rattle.descriptor_lines.specs.LineStates.{line_state};
ghost use Rattle.descriptor_lines.specs.Shown.{pools_answer, show_answer};

use super::Program;
use crate::answer;
use crate::device::LineDevice;
use crate::layouts::Layout;
use std::alloc::AllocError;
use std::string::String;

impl<D: LineDevice> Program<D> {
    /// Puts the pools of each key after the text, under the first layout that has it, and then the
    /// counters, the held sets and the marked load.
    pub(super) fn show(&self, answer: &mut String) -> Result<(), AllocError>
        ensures { OnOk result (string_bytes answer.new ≡ string_bytes answer.old
            ++ show_answer (line_state D.ledger D.script self.now)) }
    {
        for (name, entry) in self.layouts.iter() {
            if entry.is_first {
                self.show_pools(name.as_str(), &entry.layout, answer)?;
            }
        }
        answer::device_answer(answer, &self.device)?;
        let marked = self.session.allocator().update_after_bind_descriptors();
        answer::held_answer(answer, self.session.held(), marked)
    }

    /// Puts the pools of a layout after the text, oldest first.
    fn show_pools(&self, name: &str, layout: &Layout, answer: &mut String) -> Result<(), AllocError>
        ensures { OnOk result (string_bytes answer.new ≡ string_bytes answer.old
            ++ pools_answer (value_of self.now.session).allocator.table (name.now, layout.now)) }
    {
        let allocator = self.session.allocator();
        for index in 0..allocator.pool_count(&layout.counts, layout.mark) {
            if let Some(pool) = allocator.pool(&layout.counts, layout.mark, index) {
                answer::pool_answer(answer, name, &pool)?;
            }
        }
        Ok(())
    }
}
