//! Layouts that are added and removed, and sets that age.
ghost use Rattle.std.specs.Prelude.{◌≡◌, ◌+◌, ◌<◌, ℕ, false, true, IfSome, IsOk, None, OnOk, length};

use super::{MAX_LAYOUTS, SetTable};
use std::alloc::AllocError;

impl<T> SetTable<T> {
    ghost use Rattle.descriptor_table.specs.Slots.{is_kept_of, slot_at};
    ghost use Rattle.descriptor_table.specs.Tables.{AreNoneFree, At, Becomes, Changes, HasLayout};
    ghost use Rattle.descriptor_table.specs.Tables.{HasListRoom, OnlySettings, Renewed, Turns, aged};
    ghost use Rattle.descriptor_table.specs.Tables.{layouts_of, removed_of, removed_as, settings_of};
    ghost use Rattle.descriptor_table.specs.Tables.{slots_of};

    /// Reserves memory for one more layout. It fails if there are 2^31.
    pub fn reserve_layout(&mut self) -> Result<(), AllocError>
        ensures room { OnOk result (HasListRoom self.new) }
        ensures fits { HasListRoom self.old → IsOk result }
        ensures only { OnlySettings (settings_of self.old) self.old self.new }
    {
        if self.lists.kept.len() >= MAX_LAYOUTS {
            return Err(AllocError);
        }
        self.lists.kept.reserve(1)?;
        self.users.reserve()
    }

    /// Adds a layout under the next number, in reserved memory.
    pub fn add_layout(&mut self)
        requires room { HasListRoom self.old }
        ensures { OnlySettings (record (settings_of self.old)
            { layouts = layouts_of self.old + 1 }) self.old self.new }
    {
        self.lists.add();
        self.users.add();
    }

    /// Adds a layout under the number of a removed one of which no set is left. `None` if there is no
    /// such number.
    #[inline]
    pub fn renew_layout(&mut self) -> Option<u32>
        ensures renews { IfSome result (λ layout. Renewed layout self.old self.new) }
        ensures none { result ≡ None → AreNoneFree self.old × OnlySettings (settings_of self.old)
            self.old self.new }
        ensures room { HasListRoom self.old → HasListRoom self.new }
    {
        let layout = self.users.take()?;
        self.lists.renew(layout);
        Some(layout)
    }

    /// The set of a slot isn't kept once it is freed.
    #[inline]
    fn age_at(&mut self, place: usize)
        requires { place < length (slots_of self.old) }
        ensures { Changes (At place aged) self.old self.new }
    {
        self.slots.age(place);
    }

    /// All sets that there are aren't kept once they are freed.
    pub fn age(&mut self)
        ensures { Changes (Turns (λ slot. true) (Becomes aged)) self.old self.new }
    {
        for place in 0..self.slots.len() {
            self.age_at(place);
        }
    }

    /// Removes a layout that has no kept set. Its other sets aren't kept once they are freed. No layout gets
    /// its number before all of them are.
    pub fn remove_layout(&mut self, layout: u32)
        requires layout { HasLayout layout self.old }
        requires none_kept { (p : ℕ) → is_kept_of layout (slot_at (slots_of self.old) p) ≡ false }
        ensures { OnlySettings (record (settings_of self.old)
            { removed = removed_as true layout (removed_of self.old) }) self.old self.new }
    {
        self.lists.remove(layout);
        self.users.leave(layout as usize);
    }
}
