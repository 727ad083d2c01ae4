//! The lists of slots without a set, of sets that go back to their pools, and of kept sets.
ghost use Rattle.std.specs.Prelude.{◌≡◌, ◌==◌, ◌+◌, ◌<◌, ◌≤◌, IfSome, IsSome, IsTrue, None, is_some, length, true, false, ℕ};

use super::queue::enqueue;
use super::{GROUPS, SetTable};
use crate::group::Group;
use crate::handle::{SetHandle, SetName};
use crate::slot::Use;

impl<T> SetTable<T> {
    ghost use Rattle.descriptor_table.specs.Groups.{is_of, list_of};
    ghost use Rattle.descriptor_table.specs.Lists.{HasList};
    ghost use Rattle.descriptor_table.specs.Slots.{IsNowhere, chain_at, frame_at, frame_of, goes, is_kept_of, is_live, last_up_to, nexts_in, places_in, slot_at, waits_for};
    ghost use Rattle.descriptor_table.specs.Places.{count};
    ghost use Rattle.descriptor_table.specs.Tables.{At, Changes, HasLayout, PicksAny, Renews, Stays};
    ghost use Rattle.descriptor_table.specs.Tables.{removed_of, slots_of, used_for};

    /// How many sets are in a group.
    #[inline]
    pub(super) fn count(&self, group: Group) -> u32
        ensures { result ≡ count (is_of group) (slots_of self.now) }
    {
        self.lists.get(group).count
    }

    /// Takes the first set out of the list of a group.
    #[inline]
    pub(super) fn pick(&mut self, group: Group) -> Option<usize>
        ensures { Changes (PicksAny (is_of group) result) self.old self.new }
    {
        let list = self.lists.get(group);
        if list.count == 0 {
            return None;
        }
        let place = list.first as usize;
        let next = self.slots.at(place).next;
        self.slots.set_use(place, Use::Taken);
        self.lists.pop(group, next);
        Some(place)
    }

    /// Puts a set that is in no list first in that of a group.
    #[inline]
    pub(super) fn link(&mut self, group: Group, place: usize, used: Use)
        requires within { place < length (slots_of self.old) }
        requires idle { IsNowhere (slot_at (slots_of self.old) place).used }
        requires goes { is_of group (used_for used (slot_at (slots_of self.old) place)) ≡ true }
        requires there { HasList group self.old.lists }
        requires few { 2 ≤ list_of group → count (is_of group) (slots_of self.old) < self.old.keep }
        ensures { Changes (At place (used_for used)) self.old self.new }
    {
        self.slots.link(place, self.lists.first(group), used);
        self.lists.push(group, place as u32);
    }

    /// Whether a set of a group goes at a place.
    #[inline]
    fn goes(&self, place: u32, group: u8) -> bool
        ensures { IsTrue result → goes (slot_at (slots_of self.now) place) ≡ true }
    {
        match self.slots.get(place) {
            Some(slot) => slot.group == group && slot.set.is_some() && slot.used().goes(),
            None => false,
        }
    }

    /// Lets a set go that is in no list, after one that goes.
    #[inline]
    fn link_after(&mut self, near: usize, place: usize)
        requires near { goes (slot_at (slots_of self.old) near) ≡ true }
        requires within { place < length (slots_of self.old) }
        requires idle { IsNowhere (slot_at (slots_of self.old) place).used }
        requires full { is_some (slot_at (slots_of self.old) place).set ≡ true }
        ensures { Changes (At place (used_for Use.Going)) self.old self.new }
    {
        self.slots.link_after(near, place as u32, Use::Going);
        self.lists.going.count += 1;
    }

    /// Lets a set go that is in no list, after the last one of its group if that goes.
    #[inline(always)]
    pub(super) fn let_go(&mut self, place: usize)
        requires within { place < length (slots_of self.old) }
        requires idle { IsNowhere (slot_at (slots_of self.old) place).used }
        requires full { is_some (slot_at (slots_of self.old) place).set ≡ true }
        ensures { Changes (At place (used_for Use.Going)) self.old self.new }
    {
        let group = self.slots.at(place).group;
        let index = usize::from(group) % GROUPS;
        let near = self.near[index];
        self.near[index] = place as u32;
        if self.goes(near, group) {
            self.link_after(near as usize, place);
            return;
        }
        self.link(Group::Going, place, Use::Going);
    }

    /// Takes a kept set of a layout, puts it to a use under its next handle, and returns its name.
    #[inline(always)]
    pub fn hold_kept<N: SetName<T>>(&mut self, layout: u32, used: Use) -> N
        requires some { 0 < count (is_kept_of layout) (slots_of self.old) }
        requires live { is_live (frame_of used) true used ≡ true }
        ensures kept { is_kept_of layout (slot_at (slots_of self.old) (N.handle_of result).place)
            ≡ true }
        ensures renews { Renews self.old.number (N.handle_of result).place used
            (N.handle_of result) (slots_of self.old) (slots_of self.new) }
        ensures fits { N.fit result (slot_at (slots_of self.new) (N.handle_of result).place).set ≡ true }
        ensures stays { Stays self.old self.new }
    {
        let near = self.place_for(used);
        self.hold_after(layout, used, near)
    }

    /// Takes a kept set of a layout for a frame, as `hold_kept` does, if one is kept and no set waits for a
    /// later frame. `None` otherwise, and then nothing changes.
    #[inline(always)]
    pub fn hold_for_frame<N: SetName<T>>(&mut self, layout: u32, frame: u64) -> Option<N>
        requires layout { HasLayout layout self.old }
        ensures kept { IfSome result (λ name. is_kept_of layout (slot_at (slots_of self.old)
            (N.handle_of name).place) ≡ true) }
        ensures some { IsSome result → 0 < count (is_kept_of layout) (slots_of self.old) }
        ensures meets { 0 < count (is_kept_of layout) (slots_of self.old) → ((p : ℕ) → frame_at
            (slots_of self.old) p ≤ frame) → IsSome result }
        ensures renews { IfSome result (λ name. Renews self.old.number (N.handle_of name).place
            (Use.InFrame frame) (N.handle_of name) (slots_of self.old) (slots_of self.new)) }
        ensures fits { IfSome result (λ name. N.fit name (slot_at (slots_of self.new)
            (N.handle_of name).place).set ≡ true) }
        ensures none { result ≡ None → self.new ≡ self.old }
        ensures stays { Stays self.old self.new }
    {
        if self.kept_count(layout) == 0 {
            return None;
        }
        let used = Use::InFrame(frame);
        if self.waiting.list.count == 0 {
            return Some(self.hold_after(layout, used, None));
        }
        let last = self.waiting.last;
        if self.slots.frame(last as usize) > frame {
            return None;
        }
        Some(self.hold_after(layout, used, Some(last)))
    }

    /// Takes a kept set of a layout, puts it to a use under its next handle, and returns its name. If it waits for
    /// a frame it comes into the queue after `near`.
    #[inline(always)]
    fn hold_after<N: SetName<T>>(&mut self, layout: u32, used: Use, near: Option<u32>) -> N
        requires some { 0 < count (is_kept_of layout) (slots_of self.old) }
        requires live { is_live (frame_of used) true used ≡ true }
        requires near { waits_for (λ frame. true) used ≡ true → near ≡ last_up_to (slots_of self.old)
            (frame_of used) (places_in (nexts_in self.old.slots) self.old.waiting) }
        ensures kept { is_kept_of layout (slot_at (slots_of self.old) (N.handle_of result).place)
            ≡ true }
        ensures renews { Renews self.old.number (N.handle_of result).place used
            (N.handle_of result) (slots_of self.old) (slots_of self.new) }
        ensures fits { N.fit result (slot_at (slots_of self.new) (N.handle_of result).place).set ≡ true }
        ensures stays { Stays self.old self.new }
    {
        let group = Group::KeptOf(layout as usize);
        let place = self.lists.first(group);
        self.lists.pop(group, self.slots.at(place as usize).next);
        let generation = self.slots.renew(place as usize, used);
        let handle = SetHandle {
            manager: self.number,
            place,
            generation,
        };
        let name = N::of(handle, self.slots.at(place as usize).set.as_ref());
        enqueue(&mut self.slots, &mut self.waiting, near, place, used);
        name
    }

    /// How many sets of a layout are kept.
    #[inline]
    pub fn kept_count(&self, layout: u32) -> u32
        requires { HasLayout layout self.now }
        ensures count { result ≡ count (is_kept_of layout) (slots_of self.now) }
        ensures few { result ≤ self.now.keep }
    {
        self.lists.kept[layout as usize].count
    }

    /// Whether a group is empty.
    #[inline]
    pub fn is_empty(&self, group: Group) -> bool
        ensures { result ≡ (count (is_of group) (slots_of self.now) == 0) }
    {
        self.count(group) == 0
    }
}
