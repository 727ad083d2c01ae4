//! Sets that are freed: each is kept, or goes. A set that goes joins the list of those that return to
//! their pools.
ghost use Rattle.std.specs.Prelude.{◌≡◌, ◌≢◌, ◌↔◌, ◌+◌, ◌<◌, ◌≤◌, ◌&&◌, ℕ, true, false, IsFalse, IfSome, IsTrue, is_some, length, min, slice_set, take, List, if◌then◌else◌};

use super::SetTable;
use crate::group::Group;
use crate::handle::SetName;
use crate::slot::Use;

impl<T> SetTable<T> {
    ghost use Rattle.descriptor_table.specs.Lists.{HasList};
    ghost use Rattle.descriptor_table.specs.Sets.{AllFit, AreHeldOnce, is_held};
    ghost use Rattle.descriptor_table.specs.Slots.{IsNowhere, Slot, is_due, is_in, is_kept_of, slot_at, waits};
    ghost use Rattle.descriptor_table.specs.Places.{count};
    ghost use Rattle.descriptor_table.specs.Tables.{At, Becomes, Changes, HasTaken};
    ghost use Rattle.descriptor_table.specs.Tables.{IsBack, MayBecome};
    ghost use Rattle.descriptor_table.specs.Tables.{Stays, TurnEach, Turns};
    ghost use Rattle.descriptor_table.specs.Tables.{holds, is_kept, removed_of};
    ghost use Rattle.descriptor_table.specs.Tables.{may_stay, next_use, place_at, stays};
    ghost use Rattle.descriptor_table.specs.Tables.{slots_of, used_for};

    /// The layout under which a set that is freed is kept, if it may be.
    #[inline]
    fn list_of_freed(&self, place: usize) -> Option<usize>
        requires { place < length (slots_of self.now) }
        ensures may { is_some result ≡ may_stay (removed_of self.now) self.now.keep
            (slots_of self.now) (slot_at (slots_of self.now) place) }
        ensures layout { IfSome result (λ layout. layout ≡ (slot_at (slots_of self.now) place).layout) }
    {
        let slot = self.slots.at(place);
        let layout = slot.list() as usize;
        let list = self.lists.kept.get(layout)?;
        let may = list.count < self.max_kept() && slot.generation < u32::MAX;
        may.then_some(layout)
    }

    /// Keeps a set that is in no list, if it may be kept.
    #[inline(always)]
    fn keep_at(&mut self, place: usize) -> bool
        requires within { place < length (slots_of self.old) }
        requires idle { IsNowhere (slot_at (slots_of self.old) place).used }
        requires full { is_some (slot_at (slots_of self.old) place).set ≡ true }
        ensures may { result ≡ may_stay (removed_of self.old) self.old.keep (slots_of self.old)
            (slot_at (slots_of self.old) place) }
        ensures keeps { Changes (λ old new. new ≡ (if result then slice_set old place
            (used_for Use.Kept (slot_at old place)) else old)) self.old self.new }
    {
        let Some(layout) = self.list_of_freed(place) else {
            return false;
        };
        self.link(Group::KeptOf(layout), place, Use::Kept);
        true
    }

    /// Keeps a set that a call has taken, or lets it go.
    #[inline(always)]
    fn settle(&mut self, place: usize)
        requires { HasTaken place (slots_of self.old) }
        ensures { Changes (At place (used_for (next_use (removed_of self.old)
            self.old.keep (slots_of self.old) place))) self.old self.new }
    {
        if !self.keep_at(place) {
            self.let_go(place);
        }
    }

    /// Frees the sets that wait for `frame` or an earlier one: each is kept, or goes.
    pub fn settle_due(&mut self, frame: u64)
        ensures { Changes (Turns (is_due frame) (IsBack (used_for Use.Going)
            (removed_of self.old) self.old.keep)) self.old self.new }
    {
        while let Some(place) = self.pick_due(frame) {
            self.settle(place);
        }
    }

    /// Keeps the held set of a name, if there is one and it may be kept.
    #[inline(always)]
    fn keep_named<N: SetName<T>>(&mut self, name: &N) -> bool
        ensures held { IsTrue result → (N.fit name.now (slot_at (slots_of self.old)
            (N.handle_of name.now).place).set && is_held self.old.number (slots_of self.old)
            (N.handle_of name.now)) ≡ true }
        ensures keeps { IsTrue result → At (N.handle_of name.now).place (used_for Use.Kept)
            (slots_of self.old) (slots_of self.new) }
        ensures may { IsTrue result → stays (removed_of self.old) (slot_at (slots_of self.old)
            (N.handle_of name.now).place) ≡ true }
        ensures none { IsFalse result → slots_of self.new ≡ slots_of self.old }
        ensures stays { Stays self.old self.new }
    {
        self.slots.holds(self.number, name) && self.keep_at(name.handle().place as usize)
    }

    /// The layout of the slot at a place, if `many` more sets of it can be kept.
    #[inline(always)]
    fn list_with_room(&self, place: u32, many: usize) -> Option<usize>
        requires some { many ≢ 0 }
        ensures { IfSome result (λ layout. HasList (Group.KeptOf layout) self.now.lists
            × (count (is_kept_of layout) (slots_of self.now) + many ≤ self.now.keep)) }
    {
        let layout = self.slots.get(place)?.list() as usize;
        let list = self.lists.kept.get(layout)?;
        let most = self.keep as usize;
        (many <= most.saturating_sub(list.count as usize)).then_some(layout)
    }

    /// Keeps the held sets of `names`, all or none, in the list of the first one's layout. If a name has no held
    /// set, or if they can't all be kept there, it keeps none and returns `false`.
    #[inline(always)]
    fn keep_each<N: SetName<T>>(&mut self, names: &[N]) -> bool
        ensures once { IsTrue result → AreHeldOnce self.old.number (slots_of self.old)
            (N.handles_of names.now) × AllFit N.handle_of N.fit (slots_of self.old) names.now }
        ensures back { IsTrue result → TurnEach (N.handles_of names.now) (IsBack (used_for Use.Going)
            (removed_of self.old) self.old.keep) (slots_of self.old) (slots_of self.new) }
        ensures none { IsFalse result → slots_of self.new ≡ slots_of self.old }
        ensures stays { Stays self.old self.new }
    {
        let Some(name) = names.first() else {
            return true;
        };
        // The loop takes a tenth more for a set that is freed alone.
        if names.len() == 1 {
            return self.keep_named(name);
        }
        let Some(layout) = self.list_with_room(name.handle().place, names.len()) else {
            return false;
        };
        let next = self.lists.first(Group::KeptOf(layout));
        let Some(first) = self
            .slots
            .use_each(self.number, names, Use::Kept, Some(layout as u32), next)
        else {
            return false;
        };
        self.lists.prepend(layout, first, names.len() as u32);
        true
    }

    /// Takes the held sets of `names`, all or none. If a name has no held set, or is in the list twice,
    /// it takes none and returns `false`.
    pub fn take_each<N: SetName<T>>(&mut self, names: &[N]) -> bool
        ensures once { IsTrue result ↔ (AreHeldOnce self.old.number (slots_of self.old)
            (N.handles_of names.now) × AllFit N.handle_of N.fit (slots_of self.old) names.now) }
        ensures took { IsTrue result → TurnEach (N.handles_of names.now)
            (Becomes (used_for Use.Taken)) (slots_of self.old) (slots_of self.new) }
        ensures none { IsFalse result → slots_of self.new ≡ slots_of self.old }
        ensures stays { Stays self.old self.new }
    {
        self.slots
            .use_each(self.number, names, Use::Taken, None, 0)
            .is_some()
    }

    /// Keeps the sets of `names`, or lets them go. A call has taken them.
    #[inline(never)]
    fn settle_each<N: SetName<T>>(&mut self, names: &[N])
        requires apart { (i j : ℕ) → i < j → j < length (N.handles_of names.now)
            → place_at (N.handles_of names.now) i ≢ place_at (N.handles_of names.now) j }
        requires taken { (i : ℕ) → i < length (N.handles_of names.now)
            → HasTaken (place_at (N.handles_of names.now) i) (slots_of self.old) }
        ensures { Changes (TurnEach (N.handles_of names.now) (IsBack (used_for Use.Going)
            (removed_of self.old) self.old.keep)) self.old self.new }
    {
        for index in 0..names.len() {
            self.settle(names[index].handle().place as usize);
        }
    }

    /// Frees the held sets of `names`, all or none: each is kept, or goes. If a name has no held set, or
    /// is in the list twice, it frees none and returns `false`.
    pub fn settle_held<N: SetName<T>>(&mut self, names: &[N]) -> bool
        ensures once { IsTrue result ↔ (AreHeldOnce self.old.number (slots_of self.old)
            (N.handles_of names.now) × AllFit N.handle_of N.fit (slots_of self.old) names.now) }
        ensures back { IsTrue result → TurnEach (N.handles_of names.now) (IsBack (used_for Use.Going)
            (removed_of self.old) self.old.keep) (slots_of self.old) (slots_of self.new) }
        ensures none { IsFalse result → slots_of self.new ≡ slots_of self.old }
        ensures stays { Stays self.old self.new }
    {
        if self.keep_each(names) {
            return true;
        }
        // None goes before all are found to be held, so that sets that go can be grouped.
        if !self.take_each(names) {
            return false;
        }
        self.settle_each(names);
        true
    }

    /// Lets all sets that wait for a frame go.
    pub fn let_waiting_go(&mut self)
        ensures { Changes (Turns waits (Becomes (used_for Use.Going))) self.old self.new }
    {
        while let Some(place) = self.pick_waiting() {
            self.let_go(place);
        }
    }

    /// Lets the set of a slot go, if it is held.
    #[inline]
    fn let_go_at(&mut self, place: usize)
        requires { place < length (slots_of self.old) }
        ensures { Changes (λ old new. new ≡ (if holds (slot_at old place) then slice_set old place
            (used_for Use.Going (slot_at old place)) else old)) self.old self.new }
    {
        let slot = self.slots.at(place);
        match slot.used() {
            Use::Held => {}
            Use::InFrame(_) | Use::Waits(_) | Use::Kept | Use::Going | Use::Taken | Use::Vacant =>
                return,
        }
        self.let_go(place);
    }

    /// Lets all held sets go.
    pub fn let_held_go(&mut self)
        ensures { Changes (Turns holds (Becomes (used_for Use.Going))) self.old self.new }
    {
        for place in 0..self.slots.len() {
            self.let_go_at(place);
        }
    }

    /// Lets kept sets of a layout go, until at most `max` are left.
    fn trim_layout(&mut self, layout: usize, max: u32)
        ensures turns { Changes (Turns (is_kept_of layout) (MayBecome (used_for Use.Going))) self.old
            self.new }
        ensures few { count (is_kept_of layout) (slots_of self.new) ≤ max }
        ensures as_many { min max (count (is_kept_of layout) (slots_of self.old)) ≤ count (is_kept_of layout) (slots_of self.new) }
    {
        while self.count(Group::KeptOf(layout)) > max {
            match self.pick(Group::KeptOf(layout)) {
                Some(place) => self.let_go(place),
                None => unreachable!(),
            }
        }
    }

    /// Lets kept sets go, until at most `max` of each layout are left.
    pub fn trim(&mut self, max: u32)
        ensures turns { Changes (Turns is_kept (MayBecome (used_for Use.Going))) self.old self.new }
        ensures few { (layout : ℕ) → count (is_kept_of layout) (slots_of self.new) ≤ max }
        ensures as_many { (layout : ℕ) → min max (count (is_kept_of layout) (slots_of self.old))
            ≤ count (is_kept_of layout) (slots_of self.new) }
    {
        for layout in 0..self.lists.kept.len() {
            self.trim_layout(layout, max);
        }
    }
}
