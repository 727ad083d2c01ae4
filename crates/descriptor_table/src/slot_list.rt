//! The slots of a table, each with the next slot of its list.
ghost use Rattle.std.specs.Prelude.{◌≡◌, ◌+◌, ◌<◌, ◌≤◌, [], ◌∷◌, ◌++◌, length, slice_index_or, slice_set};
ghost use Rattle.std.specs.Prelude.{IfSome, IsOk, OnOk, None, true, if◌then◌else◌};

mod names;

use crate::handle::SetHandle;
use crate::slot::{State, Use};
use std::alloc::{AllocError, Global};
use std::vec::Vec;

/// What is added to the layout of a set that isn't kept once it is freed. No layout has such a number.
pub(crate) const AGED: u32 = 1 << 31;

/// A place for a set.
#[derive(Drop)]
pub struct Entry<T> {
    /// How many handles were given for this place.
    pub(crate) generation: u32,

    /// The layout, or `AGED` more if the set was there at the last cleanup.
    pub(crate) list: u32,

    /// The next slot of this slot's list. A slot is in one list at a time, so a set is kept without an
    /// allocation.
    pub(crate) next: u32,

    /// The frame, if the state has one.
    pub(crate) frame: u64,
    pub(crate) state: State,

    /// The group of the set: when it goes, it comes after another one of the group.
    pub(crate) group: u8,
    pub(crate) set: Option<T>,
}

impl<T> Entry<T> {
    ghost use Rattle.descriptor_table.specs.Slots.{filled, no_slot, slot_of};
    ghost use Rattle.descriptor_table.specs.Tables.{used_for};

    /// A new slot, without a set, that a call has taken.
    pub(crate) fn new() -> Self
        ensures slot { slot_of result ≡ no_slot }
        ensures next { result.next ≡ 0 }
    {
        Entry {
            generation: 0,
            list: AGED,
            next: 0,
            frame: 0,
            state: State::Taken,
            group: 0,
            set: None,
        }
    }

    /// The layout of the set.
    #[inline]
    pub(crate) fn layout(&self) -> u32
        ensures { result ≡ (slot_of self.now).layout }
    {
        self.list % AGED
    }

    /// The number of the list that keeps the set once it is freed, if there is such a list: that of its layout, or one
    /// that no layout has.
    #[inline]
    pub(crate) fn list(&self) -> u32
        ensures { result ≡ (slot_of self.now).layout + (if (slot_of self.now).is_aged then 2147483648 else 0) }
    {
        self.list
    }

    /// What the set is in use for.
    #[inline]
    pub(crate) fn used(&self) -> Use
        ensures { result ≡ (slot_of self.now).used }
    {
        match self.state {
            State::Held => Use::Held,
            State::InFrame => Use::InFrame(self.frame),
            State::Waits => Use::Waits(self.frame),
            State::Kept => Use::Kept,
            State::Going => Use::Going,
            State::Taken => Use::Taken,
            State::Vacant => Use::Vacant,
        }
    }

    /// Changes what the set is in use for.
    #[inline]
    fn set_use(&mut self, used: Use)
        ensures slot { slot_of self.new ≡ used_for used (slot_of self.old) }
        ensures next { self.new.next ≡ self.old.next }
    {
        match used {
            Use::InFrame(frame) | Use::Waits(frame) => self.frame = frame,
            Use::Held | Use::Kept | Use::Going | Use::Taken | Use::Vacant => {}
        }
        self.state = used.state();
    }
}

/// Slots by place.
#[derive(Drop)]
pub struct SlotList<T> {
    pub(crate) entries: Vec<Entry<T>>,
}

impl<T> SlotList<T> {
    ghost use Rattle.descriptor_table.specs.Slots.{Writes, filled, frame_of, nexts_in, slot_at, slot_of, slots_in, space_in};
    ghost use Rattle.descriptor_table.specs.Slots.{is_due, no_slot, waits};
    ghost use Rattle.descriptor_table.specs.Sets.{is_last};
    ghost use Rattle.descriptor_table.specs.Tables.{aged, renewed, used_for, vacated};

    /// A list without slots. It allocates no memory.
    pub(crate) fn new(alloc: Global) -> Self
        ensures { slots_in result ≡ [] }
    {
        SlotList {
            entries: Vec::new(alloc),
        }
    }

    /// How many slots there are.
    #[inline]
    pub(crate) fn len(&self) -> usize
        ensures { result ≡ length (slots_in self.now) }
    {
        self.entries.len()
    }

    /// Reserves memory for `additional` more slots.
    pub(crate) fn reserve(&mut self, additional: usize) -> Result<(), AllocError>
        ensures room { OnOk result (length (slots_in self.old) + additional ≤ space_in self.new) }
        ensures fits { length (slots_in self.old) + additional ≤ space_in self.old → IsOk result }
        ensures slots { slots_in self.new ≡ slots_in self.old }
        ensures nexts { nexts_in self.new ≡ nexts_in self.old }
    {
        self.entries.reserve(additional)
    }

    /// The slot at a place, if there is one.
    #[inline]
    pub(crate) fn get(&self, place: u32) -> Option<&Entry<T>>
        ensures there { IfSome result (λ entry. (place < length (slots_in self.now))
            × (slot_of entry.now ≡ slot_at (slots_in self.now) place)) }
        ensures none { result ≡ None → length (slots_in self.now) ≤ place }
    {
        self.entries.get(place as usize)
    }

    /// The slot at a place.
    #[inline]
    pub(crate) fn at(&self, place: usize) -> &Entry<T>
        requires { place < length (slots_in self.now) }
        ensures slot { slot_of result.now ≡ slot_at (slots_in self.now) place }
        ensures next { result.now.next ≡ slice_index_or (nexts_in self.now) place 0 }
    {
        &self.entries[place]
    }

    /// The frame that the set of a slot waits for.
    #[inline]
    pub(crate) fn frame(&self, place: usize) -> u64
        requires { waits (slot_at (slots_in self.now) place) ≡ true }
        ensures { result ≡ frame_of (slot_at (slots_in self.now) place).used }
    {
        self.entries[place].frame
    }

    /// Whether the set of a slot waits for this frame or an earlier one.
    pub(crate) fn is_due(&self, place: u32, frame: u64) -> bool
        ensures { result ≡ is_due frame (slot_at (slots_in self.now) place) }
    {
        match self.get(place) {
            Some(slot) => slot.set.is_some() && slot.used().waits() && slot.used().frame() <= frame,
            None => false,
        }
    }

    /// The slot that follows one in its list, or 0 if there is no such slot.
    pub(crate) fn next(&self, place: u32) -> u32
        ensures { result ≡ slice_index_or (nexts_in self.now) place 0 }
    {
        match self.entries.get(place as usize) {
            Some(slot) => slot.next,
            None => 0,
        }
    }

    /// The frame that the set of a slot waits for. It is 0 if it waits for none.
    pub(crate) fn frame_at(&self, place: u32) -> u64
        ensures { result ≡ frame_of (slot_at (slots_in self.now) place).used }
    {
        match self.get(place) {
            Some(slot) => slot.used().frame(),
            None => 0,
        }
    }

    /// The slot whose last handle this is, for the owner of this number.
    #[inline]
    pub(crate) fn last(&self, number: u64, handle: SetHandle) -> Option<&Entry<T>>
        ensures last { IfSome result (λ slot. (is_last number (slots_in self.now) handle ≡ true)
            × (slot_of slot.now ≡ slot_at (slots_in self.now) handle.place)) }
        ensures none { result ≡ None → is_last number (slots_in self.now) handle ≡ true
            → slot_at (slots_in self.now) handle.place ≡ no_slot }
    {
        if handle.manager != number {
            return None;
        }
        let slot = self.get(handle.place)?;
        (slot.generation == handle.generation).then_some(slot)
    }

    /// Changes what the set of a slot is in use for.
    #[inline]
    pub(crate) fn set_use(&mut self, place: usize, used: Use)
        requires { place < length (slots_in self.old) }
        ensures writes { Writes place (used_for used) self.old self.new }
        ensures nexts { nexts_in self.new ≡ nexts_in self.old }
    {
        self.entries[place].set_use(used);
    }

    /// Makes `next` the slot that follows a slot in its list.
    #[inline]
    pub(crate) fn set_next(&mut self, place: usize, next: u32)
        requires { place < length (slots_in self.old) }
        ensures slots { slots_in self.new ≡ slots_in self.old }
        ensures nexts { nexts_in self.new ≡ slice_set (nexts_in self.old) place next }
        ensures space { space_in self.new ≡ space_in self.old }
    {
        self.entries[place].next = next;
    }

    /// Changes the use of a slot's set, and makes `next` the slot that follows in its list.
    #[inline]
    pub(crate) fn link(&mut self, place: usize, next: u32, used: Use)
        requires { place < length (slots_in self.old) }
        ensures writes { Writes place (used_for used) self.old self.new }
        ensures nexts { nexts_in self.new ≡ slice_set (nexts_in self.old) place next }
    {
        let entry = &mut self.entries[place];
        entry.next = next;
        entry.set_use(used);
    }

    /// Changes the use of a slot's set, and makes the slot the one that follows the slot `near` in its list.
    #[inline]
    pub(crate) fn link_after(&mut self, near: usize, place: u32, used: Use)
        requires near { near < length (slots_in self.old) }
        requires within { place < length (slots_in self.old) }
        ensures writes { Writes place (used_for used) self.old self.new }
        ensures nexts { nexts_in self.new ≡ slice_set (slice_set (nexts_in self.old) place
            (slice_index_or (nexts_in self.old) near 0)) near place }
    {
        let next = self.entries[near].next;
        self.link(place as usize, next, used);
        self.entries[near].next = place;
    }

    /// Changes the use of a slot's set, raises the slot's generation, and returns it.
    #[inline]
    pub(crate) fn renew(&mut self, place: usize, used: Use) -> u32
        requires within { place < length (slots_in self.old) }
        requires next { (slot_at (slots_in self.old) place).generation < 4294967295 }
        ensures generation { result ≡ (slot_at (slots_in self.old) place).generation + 1 }
        ensures writes { Writes place (renewed used) self.old self.new }
        ensures nexts { nexts_in self.new ≡ nexts_in self.old }
    {
        let entry = &mut self.entries[place];
        entry.generation += 1;
        entry.set_use(used);
        entry.generation
    }

    /// The set of a slot isn't kept once it is freed.
    #[inline]
    pub(crate) fn age(&mut self, place: usize)
        requires { place < length (slots_in self.old) }
        ensures writes { Writes place aged self.old self.new }
        ensures nexts { nexts_in self.new ≡ nexts_in self.old }
    {
        let entry = &mut self.entries[place];
        entry.list = entry.list % AGED + AGED;
    }

    /// Takes the set out of a slot, leaves the slot vacant, and makes `next` the slot that follows in its list.
    #[inline]
    pub(crate) fn vacate(&mut self, place: usize, next: u32) -> Option<T>
        requires { place < length (slots_in self.old) }
        ensures set { result ≡ (slot_at (slots_in self.old) place).set }
        ensures writes { Writes place vacated self.old self.new }
        ensures nexts { nexts_in self.new ≡ slice_set (nexts_in self.old) place next }
    {
        let entry = &mut self.entries[place];
        entry.next = next;
        entry.set_use(Use::Vacant);
        entry.set.take()
    }

    /// Adds a slot without a set, in reserved memory.
    pub(crate) fn push(&mut self)
        requires { length (slots_in self.old) < space_in self.old }
        ensures slots { slots_in self.new ≡ slots_in self.old ++ no_slot ∷ [] }
        ensures nexts { nexts_in self.new ≡ nexts_in self.old ++ 0 ∷ [] }
        ensures space { space_in self.new ≡ space_in self.old }
    {
        self.entries.push_reserved(Entry::new());
    }
}

impl<T: Drop> SlotList<T> {
    ghost use Rattle.descriptor_table.specs.Slots.{Writes, filled, nexts_in, slot_at, slots_in};
    ghost use Rattle.descriptor_table.specs.Tables.{renewed};

    /// Puts a set into a slot that has none, and to a use. `generation` is the slot's next one.
    #[inline]
    pub(crate) fn fill(
        &mut self,
        place: usize,
        generation: u32,
        layout: u32,
        group: u8,
        set: T,
        used: Use,
    )
        requires within { place < length (slots_in self.old) }
        requires empty { (slot_at (slots_in self.old) place).set ≡ None }
        requires next { generation ≡ (slot_at (slots_in self.old) place).generation + 1 }
        requires layout { layout < 2147483648 }
        ensures writes { Writes place (λ slot. renewed used (filled layout set slot)) self.old self.new }
        ensures nexts { nexts_in self.new ≡ nexts_in self.old }
    {
        let entry = &mut self.entries[place];
        entry.generation = generation;
        entry.list = layout;
        entry.group = group;
        entry.set = Some(set);
        entry.set_use(used);
    }
}
