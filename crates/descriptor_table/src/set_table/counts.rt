//! How many slots there are, how many sets are in each use, and how many of a layout are kept at most.
ghost use Rattle.std.specs.Prelude.{◌≡◌, ◌≤◌, ℕ, length};

use super::SetTable;
use crate::group::Group;

impl<T> SetTable<T> {
    ghost use Rattle.descriptor_table.specs.Slots.{is_kept_of, waits};
    ghost use Rattle.descriptor_table.specs.Places.{count};
    ghost use Rattle.descriptor_table.specs.Tables.{OnlySettings, is_kept};
    ghost use Rattle.descriptor_table.specs.Tables.{settings_of, slots_of};

    /// Sets how many sets of a layout are kept at most. When it is called, no more than `max` of any
    /// are.
    pub fn set_max_kept(&mut self, max: u32)
        requires { (layout : ℕ) → count (is_kept_of layout) (slots_of self.old) ≤ max }
        ensures { OnlySettings (record (settings_of self.old) { keep = max }) self.old self.new }
    {
        self.keep = max;
    }

    /// How many sets of a layout are kept at most.
    #[inline]
    pub(super) fn max_kept(&self) -> u32
        ensures { result ≡ self.now.keep }
    {
        self.keep
    }

    /// How many sets are kept. It visits the layouts.
    pub fn kept_total(&self) -> u64
        ensures { result ≡ count is_kept (slots_of self.now) }
    {
        let mut total = 0;
        for layout in 0..self.lists.kept.len() {
            total += u64::from(self.count(Group::KeptOf(layout)));
        }
        total
    }

    /// How many sets wait for a frame.
    #[inline]
    pub fn waiting_total(&self) -> u64
        ensures { result ≡ count waits (slots_of self.now) }
    {
        u64::from(self.waiting.list.count)
    }
}
