//! The sets that are freed when the device is done with a frame.
ghost use Rattle.std.specs.Prelude.{◌≡◌};
ghost use Rattle.std.specs.Iterator.{item_count};
ghost use Rattle.descriptor_frames.specs.Inner.Due.{TakesDue};

use crate::retired::Retired;
use gpu_descriptor::DescriptorSet;
use std::collections::VecDeque;

/// Takes sets off the front of the list, up to the first of a later frame. The rest of the list is
/// neither read nor moved.
#[derive(Drop)]
pub(crate) struct Due<'a, S> {
    pub(crate) retired: &'a mut VecDeque<Retired<S>>,
    pub(crate) frame: u64,
}

impl<S> Iterator for Due<'_, S> {
    type Item = DescriptorSet<S>;

    ghost next_gives = { TakesDue };

    ghost remaining = { item_count (λ s. s.retired.now.items) };

    fn next(&mut self) -> Option<DescriptorSet<S>> {
        if self.retired.front()?.frame > self.frame {
            return None;
        }
        let Retired { frame: _, set } = self.retired.pop_front()?;
        Some(set)
    }
}

impl<S> Due<'_, S> {
    /// Ends the borrow of the list.
    pub(crate) fn end(self)
        ensures { self.exit.0.now ≡ self.entry.retired.now }
    {}
}
