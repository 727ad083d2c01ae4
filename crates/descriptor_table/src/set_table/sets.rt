//! Sets that are put into slots, get handles, and leave.
ghost use Rattle.std.specs.Prelude.{◌≡◌, ◌⊎◌, ◌==◌, if◌then◌else◌, ℕ, ◌+◌, ◌<◌, [], ◌∷◌, ◌++◌, length, true, None, Some, option_map};

use super::SetTable;
use super::queue::enqueue;
use crate::group::Group;
use crate::handle::{SetHandle, SetName};
use crate::slot::Use;

impl<T> SetTable<T> {
    ghost use Rattle.descriptor_table.specs.Groups.{is_of};
    ghost use Rattle.descriptor_table.specs.declared.slot.Use.{Use};
    ghost use Rattle.descriptor_table.specs.Slots.{Slots, filled, frame_of, is_live, no_slot, slot_at, space_in};
    ghost use Rattle.descriptor_table.specs.Places.{count};
    ghost use Rattle.descriptor_table.specs.Tables.{AreAllUsed, At, Changes, GivesAny, HasLayout, HasPlaces};
    ghost use Rattle.descriptor_table.specs.Tables.{HasRoom, HasTaken, ids_of, Puts, Renews, Stays, is_usable};
    ghost use Rattle.descriptor_table.specs.Tables.{layouts_of, settings_of, slots_of, used_for, vacated};

    /// Adds a slot without a set, in reserved memory. It is out of line, so that a set that gets a slot that is
    /// there saves no registers for it.
    #[inline(never)]
    fn add_place(&mut self)
        requires room { HasPlaces 1 self.old }
        requires layouts { 0 < layouts_of self.old }
        ensures { Changes (λ old new. new ≡ old ++ used_for Use.Vacant no_slot ∷ []) self.old self.new }
    {
        let place = self.slots.len();
        self.slots.push();
        self.link_vacant(place);
    }

    /// Leaves a slot vacant that has no set, and that a call has taken.
    #[inline]
    fn link_vacant(&mut self, place: usize)
        requires within { place < length (slots_of self.old) }
        requires taken { (slot_at (slots_of self.old) place).used ≡ Use.Taken }
        requires empty { (slot_at (slots_of self.old) place).set ≡ None }
        requires next { (slot_at (slots_of self.old) place).generation < 4294967295 }
        ensures { Changes (At place (used_for Use.Vacant)) self.old self.new }
    {
        self.slots.link(place, self.lists.vacant.first, Use::Vacant);
        self.lists.vacant.push(place as u32);
    }

    /// Takes the set out of a slot that had its last generation, with its id, so the slot is never used again.
    #[cold]
    fn retire(&mut self, place: usize) -> Option<(u64, T)>
        requires taken { HasTaken place (slots_of self.old) }
        requires last { (slot_at (slots_of self.old) place).generation ≡ 4294967295 }
        ensures set { result ≡ option_map (λ set. (
          ids_of self.old (slot_at (slots_of self.old) place).layout,
          set,
        )) (slot_at (slots_of self.old) place).set }
        ensures changes { Changes (At place vacated) self.old self.new }
    {
        let slot = self.slots.at(place);
        let next = slot.next;
        let id = self.users.leave(slot.layout() as usize);
        let set = self.slots.vacate(place, next)?;
        Some((id, set))
    }

    /// Takes the set out of a slot that a call has taken, with its id, and leaves the slot vacant. The slot is
    /// reused, unless it had its last generation.
    #[inline]
    fn take_out(&mut self, place: usize) -> Option<(u64, T)>
        requires taken { HasTaken place (slots_of self.old) }
        ensures set { result ≡ option_map (λ set. (
          ids_of self.old (slot_at (slots_of self.old) place).layout,
          set,
        )) (slot_at (slots_of self.old) place).set }
        ensures changes { Changes (At place vacated) self.old self.new }
    {
        let slot = self.slots.at(place);
        if slot.generation == u32::MAX {
            return self.retire(place);
        }
        let id = self.users.leave(slot.layout() as usize);
        let set = self.slots.vacate(place, self.lists.vacant.first);
        self.lists.vacant.push(place as u32);
        Some((id, set?))
    }

    /// Takes a set of a group out of its list, and out of its slot, with the id of its layout's sets.
    #[inline]
    pub fn take_of(&mut self, group: Group) -> Option<(u64, T)>
        ensures { Changes (GivesAny (is_of group) (λ slot. option_map (λ set. (
          ids_of self.old slot.layout,
          set,
        )) slot.set) result) self.old self.new }
    {
        let place = self.pick(group)?;
        self.take_out(place)
    }
}

impl<T: Drop> SetTable<T> {
    ghost use Rattle.descriptor_table.specs.Groups.{is_of};
    ghost use Rattle.descriptor_table.specs.Slots.{Slots, filled, frame_of, is_live, no_slot, slot_at, space_in};
    ghost use Rattle.descriptor_table.specs.Places.{count};
    ghost use Rattle.descriptor_table.specs.Tables.{AreAllUsed, At, Changes, GivesAny, HasLayout, HasPlaces};
    ghost use Rattle.descriptor_table.specs.Tables.{HasRoom, HasTaken, ids_of, Puts, Renews, Stays, is_usable};
    ghost use Rattle.descriptor_table.specs.Tables.{layouts_of, settings_of, slots_of, used_for, vacated};

    /// Puts a set into a slot, in reserved memory, and to a use, and returns its name. `take_of` gives this id
    /// with all sets of the layout. In the list of those that go, sets of one id come next to each other.
    #[inline(always)]
    pub fn put<N: SetName<T>>(&mut self, layout: u32, id: u64, set: T, used: Use) -> N
        requires room { HasRoom 1 self.old }
        requires layout { HasLayout layout self.old }
        requires live { is_live (frame_of used) true used ≡ true }
        ensures puts { (mid : Slots T) × Puts layout set (N.handle_of result).place
            (slots_of self.old) mid × Renews self.old.number (N.handle_of result).place used
            (N.handle_of result) mid (slots_of self.new) }
        ensures grows { (length (slots_of self.new) ≡ length (slots_of self.old))
            ⊎ AreAllUsed (slots_of self.old) }
        ensures fits { N.fit result (Some set) ≡ true }
        ensures reserve { (n : ℕ) → HasRoom (n + 1) self.old → HasRoom n self.new }
        ensures settings { settings_of self.new ≡ settings_of self.old }
        ensures ids { (n : ℕ) → ids_of self.new n ≡ (if n == layout then id else ids_of self.old n) }
    {
        if self.lists.vacant.count == 0 {
            self.add_place();
        }
        self.fill(layout, id, set, used)
    }

    /// Puts a set into a slot that has none, and to a use, and returns its name.
    #[inline(always)]
    fn fill<N: SetName<T>>(&mut self, layout: u32, id: u64, set: T, used: Use) -> N
        requires some { 0 < count is_usable (slots_of self.old) }
        requires layout { HasLayout layout self.old }
        requires live { is_live (frame_of used) true used ≡ true }
        ensures usable { is_usable (slot_at (slots_of self.old) (N.handle_of result).place) ≡ true }
        ensures renews { (mid : Slots T) × At (N.handle_of result).place (filled layout
            set) (slots_of self.old) mid × Renews self.old.number
            (N.handle_of result).place used (N.handle_of result) mid (slots_of self.new) }
        ensures fits { N.fit result (Some set) ≡ true }
        ensures settings { settings_of self.new ≡ settings_of self.old }
        ensures space { space_in self.new.slots ≡ space_in self.old.slots }
        ensures ids { (n : ℕ) → ids_of self.new n ≡ (if n == layout then id else ids_of self.old n) }
    {
        let near = self.place_for(used);
        let place = self.lists.vacant.first;
        let slot = self.slots.at(place as usize);
        let handle = SetHandle {
            manager: self.number,
            place,
            generation: slot.generation + 1,
        };
        self.lists.vacant.pop(slot.next);
        let name = N::of(handle, Some(&set));
        let group = (id % 256) as u8;
        self.slots.fill(place as usize, handle.generation, layout, group, set, used);
        self.users.join(layout as usize, id);
        enqueue(&mut self.slots, &mut self.waiting, near, place, used);
        name
    }
}
