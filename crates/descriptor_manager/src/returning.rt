//! Sets on their way back to their pools.
ghost use Rattle.std.specs.Prelude.{◌≡◌, length};
ghost use Rattle.std.specs.Iterator.{at_most};
ghost use Rattle.descriptor_manager.specs.WholeSets.{GivesNext, whole_sets};

use descriptor_table::{Group, SetTable};
use gpu_descriptor::{CompactDescriptorSet, DescriptorSet};

/// Takes the sets of a group out of their slots, one by one, until none is left.
#[derive(Drop)]
pub(crate) struct Returning<'a, S> {
    pub(crate) table: &'a mut SetTable<CompactDescriptorSet<S>>,
    pub(crate) group: Group,
}

impl<S> Iterator for Returning<'_, S> {
    type Item = DescriptorSet<S>;

    ghost next_gives = { GivesNext };

    ghost remaining = { λ s. at_most (length (whole_sets s.table.now)) };

    #[inline(always)]
    fn next(&mut self) -> Option<DescriptorSet<S>> {
        let (id, set) = self.table.take_of(self.group)?;
        Some(set.with_id(id))
    }
}

impl<S> Returning<'_, S> {
    /// Ends the borrow of the table.
    pub(crate) fn end(self)
        ensures { self.exit.0.now ≡ self.entry.table.now }
    {}
}
