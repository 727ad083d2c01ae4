//! Held sets that are put to another use by their names, all or none.
ghost use Rattle.std.specs.Prelude.{◌≡◌, ◌≢◌, ◌<◌, ◌≤◌, ◌==◌, ◌&&◌, ℕ, true, None, is_some};
ghost use Rattle.std.specs.Prelude.{IfSome, IsFalse, IsSome, IsTrue, length, map, reverse, slice_index_or, slice_set};

use super::{Entry, SlotList};
use crate::handle::SetName;
use crate::slot::{State, Use};

impl<T> Entry<T> {
    ghost use Rattle.descriptor_table.specs.Slots.{slot_of};
    ghost use Rattle.descriptor_table.specs.Tables.{holds, may_join};

    /// Whether a name with this slot's place is that of its set, which is held. The set manager that gave the
    /// name's handle isn't looked at.
    #[inline(always)]
    fn is_held_by<N: SetName<T>>(&self, name: &N) -> bool
        requires { (slot_of self.now).used ≡ Use.Held → is_some (slot_of self.now).set ≡ true }
        ensures { result ≡ (N.fit name.now (slot_of self.now).set
            && (((N.handle_of name.now).generation == (slot_of self.now).generation) && holds (slot_of self.now))) }
    {
        if self.generation != name.handle().generation {
            return false;
        }
        match self.state {
            State::Held => name.fits(self.set.as_ref()),
            State::InFrame
            | State::Waits
            | State::Kept
            | State::Going
            | State::Taken
            | State::Vacant => false,
        }
    }

    /// Whether the set may be kept in the list of this layout, if there is one.
    #[inline(always)]
    fn may_join(&self, layout: Option<u32>) -> bool
        requires { IfSome layout (λ layout. layout < 2147483648) }
        ensures { result ≡ may_join layout (slot_of self.now) }
    {
        match layout {
            Some(layout) => self.list == layout && self.generation < u32::MAX,
            None => true,
        }
    }
}

impl<T> SlotList<T> {
    ghost use Rattle.descriptor_table.specs.Places.{walk};
    ghost use Rattle.descriptor_table.specs.Sets.{AllFit, AreHeldOnce, is_held};
    ghost use Rattle.descriptor_table.specs.Slots.{Writes, nexts_in, slot_at, slots_in, space_in};
    ghost use Rattle.descriptor_table.specs.Tables.{Becomes, TurnEach, may_join, place_at, used_for};

    /// Whether a name is that of a held set.
    #[inline(always)]
    pub(crate) fn holds<N: SetName<T>>(&self, number: u64, name: &N) -> bool
        requires { (slot_at (slots_in self.now) (N.handle_of name.now).place).used ≡ Use.Held
            → is_some (slot_at (slots_in self.now) (N.handle_of name.now).place).set ≡ true }
        ensures { result ≡ (N.fit name.now (slot_at (slots_in self.now) (N.handle_of name.now).place).set
            && is_held number (slots_in self.now) (N.handle_of name.now)) }
    {
        match self.last(number, name.handle()) {
            Some(slot) => slot.is_held_by(name),
            None => false,
        }
    }

    /// Puts the held set of a name to another use, if there is one and it may join the list of `layout`, and makes
    /// `next` the slot that follows in its list.
    #[inline(always)]
    fn use_named<N: SetName<T>>(
        &mut self,
        number: u64,
        name: &N,
        used: Use,
        layout: Option<u32>,
        next: u32,
    ) -> bool
        requires layout { IfSome layout (λ layout. layout < 2147483648) }
        requires full { (slot_at (slots_in self.old) (N.handle_of name.now).place).used ≡ Use.Held
            → is_some (slot_at (slots_in self.old) (N.handle_of name.now).place).set ≡ true }
        ensures named { result ≡ ((N.fit name.now (slot_at (slots_in self.old) (N.handle_of name.now).place).set
            && is_held number (slots_in self.old) (N.handle_of name.now))
            && may_join layout (slot_at (slots_in self.old) (N.handle_of name.now).place)) }
        ensures writes { IsTrue result → Writes (N.handle_of name.now).place (used_for used)
            self.old self.new }
        ensures nexts { IsTrue result → nexts_in self.new ≡ slice_set (nexts_in self.old)
            (N.handle_of name.now).place next }
        ensures none { IsFalse result → slots_in self.new ≡ slots_in self.old }
        ensures none_nexts { IsFalse result → nexts_in self.new ≡ nexts_in self.old }
        ensures space { space_in self.new ≡ space_in self.old }
    {
        let handle = name.handle();
        if handle.manager != number {
            return false;
        }
        let Some(entry) = self.entries.get_mut(handle.place as usize) else {
            return false;
        };
        if !entry.is_held_by(name) || !entry.may_join(layout) {
            return false;
        }
        entry.next = next;
        entry.set_use(used);
        true
    }

    /// Puts the held sets of `names` to another use, all or none. Each is linked before that of the name before
    /// it, and the first one before `next`. Returns the place of the last one, or `next` if there are no names.
    /// If a name has no held set, or is in the list twice, or if a set may not join the list of `layout`, it
    /// returns `None`, and all are held.
    #[inline(always)]
    pub(crate) fn use_each<N: SetName<T>>(
        &mut self,
        number: u64,
        names: &[N],
        used: Use,
        layout: Option<u32>,
        next: u32,
    ) -> Option<u32>
        requires other { used ≢ Use.Held }
        requires layout { IfSome layout (λ layout. layout < 2147483648) }
        requires full { (p : ℕ) → (slot_at (slots_in self.old) p).used ≡ Use.Held
            → is_some (slot_at (slots_in self.old) p).set ≡ true }
        ensures once { IsSome result → AreHeldOnce number (slots_in self.old) (N.handles_of names.now)
            × AllFit N.handle_of N.fit (slots_in self.old) names.now }
        ensures all { layout ≡ None → AreHeldOnce number (slots_in self.old) (N.handles_of names.now)
            × AllFit N.handle_of N.fit (slots_in self.old) names.now → IsSome result }
        ensures may { IsSome result → (i : ℕ) → i < length (N.handles_of names.now)
            → may_join layout (slot_at (slots_in self.old) (place_at (N.handles_of names.now) i)) ≡ true }
        ensures used { IsSome result → TurnEach (N.handles_of names.now)
            (Becomes (used_for used)) (slots_in self.old) (slots_in self.new) }
        ensures linked { IfSome result (λ first. walk (length names.now) (nexts_in self.new) first
            ≡ reverse (map (λ h. h.place) (N.handles_of names.now))) }
        ensures ends { IsSome result → 0 < length names.now
            → slice_index_or (nexts_in self.new) (place_at (N.handles_of names.now) 0) 0 ≡ next }
        ensures none { result ≡ None → slots_in self.new ≡ slots_in self.old }
        ensures nexts { (p : ℕ) → (slot_at (slots_in self.old) p).used ≢ Use.Held
            → slice_index_or (nexts_in self.new) p 0 ≡ slice_index_or (nexts_in self.old) p 0 }
        ensures long { length (nexts_in self.new) ≡ length (nexts_in self.old) }
        ensures space { space_in self.new ≡ space_in self.old }
    {
        let mut first = next;
        for index in 0..names.len() {
            let name = &names[index];
            if !self.use_named(number, name, used, layout, first) {
                self.hold_each(names, index);
                return None;
            }
            first = name.handle().place;
        }
        Some(first)
    }

    /// Holds the sets of the first `count` names.
    #[inline(never)]
    fn hold_each<N: SetName<T>>(&mut self, names: &[N], count: usize)
        requires few { count ≤ length names.now }
        requires within { (i : ℕ) → i < count
            → place_at (N.handles_of names.now) i < length (slots_in self.old) }
        requires apart { (i j : ℕ) → i < j → j < count
            → place_at (N.handles_of names.now) i ≢ place_at (N.handles_of names.now) j }
        ensures long { length (slots_in self.new) ≡ length (slots_in self.old) }
        ensures held { (i : ℕ) → i < count
            → slot_at (slots_in self.new) (place_at (N.handles_of names.now) i)
            ≡ used_for Use.Held (slot_at (slots_in self.old) (place_at (N.handles_of names.now) i)) }
        ensures rest { (p : ℕ) → ((i : ℕ) → i < count → place_at (N.handles_of names.now) i ≢ p)
            → slot_at (slots_in self.new) p ≡ slot_at (slots_in self.old) p }
        ensures nexts { nexts_in self.new ≡ nexts_in self.old }
        ensures space { space_in self.new ≡ space_in self.old }
    {
        for index in 0..count {
            self.set_use(names[index].handle().place as usize, Use::Held);
        }
    }
}
