//! The sets of a list of tickets, one after another.
ghost use Rattle.std.specs.Prelude.{length};
ghost use Rattle.std.specs.Iterator.{at_most};

use crate::slots::Slots;
use gpu_descriptor::DescriptorSet;
use std::slice::Iter;

/// Takes the sets of these tickets out of their slots.
#[derive(Drop)]
pub(crate) struct Taking<'a, S> {
    pub(crate) slots: Slots<S>,
    pub(crate) tickets: Iter<'a, usize>,
}

impl<S: Drop> Iterator for Taking<'_, S> {
    ghost use Rattle.std.specs.Slice.Iter.{iter_rest};
    ghost use Rattle.descriptor_script.specs.Inner.Taking.{TakesNext};
    ghost use Rattle.descriptor_script.specs.Sessions.Tickets.{AreHeldOnce};

    type Item = DescriptorSet<S>;

    ghost can_next = { λ s. AreHeldOnce s.slots.sets.items (iter_rest s.tickets) };

    ghost next_gives = { TakesNext };

    ghost remaining = { λ s. at_most (length (iter_rest s.tickets)) };

    fn next(&mut self) -> Option<DescriptorSet<S>> {
        let ticket = self.tickets.next()?;
        self.slots.take(*ticket)
    }
}
