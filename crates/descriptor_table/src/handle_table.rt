//! Values under handles, without uses and lists.
ghost use Rattle.std.specs.Prelude.{◌≡◌, ◌≢◌, ℕ, ◌+◌, ◌<◌, ◌≤◌, [], length, false, true, is_some, IsFalse, IsOk, IsSome, None, OnOk};
ghost use Rattle.std.specs.Option.{option_copied};
ghost use Rattle.descriptor_table.specs.Slots.{slot_at, slots_in};
ghost use Rattle.descriptor_table.specs.declared.slot.Use.{Use};

use crate::handle::SetHandle;
use crate::slot::Use;
use crate::slot_list::SlotList;
use std::alloc::{AllocError, Global};

/// Values under handles, each in a slot. Its owner decides when a slot that has no value any more gets
/// another.
#[derive(Drop)]
pub struct HandleTable<T> {
    /// The number that marks the handles.
    pub(crate) number: u64,
    pub(crate) slots: SlotList<T>,
    ghost size: { length (slots_in slots) < 4294967296 },
    ghost held: { (p : ℕ) → is_some (slot_at (slots_in slots) p).set ≡ true
        → (slot_at (slots_in slots) p).used ≡ Use.Held },
    ghost vacant: { (p : ℕ) → p < length (slots_in slots)
        → is_some (slot_at (slots_in slots) p).set ≡ false
        → (slot_at (slots_in slots) p).used ≡ Use.Vacant },
}

impl<T: Drop> HandleTable<T> {
    ghost use Rattle.descriptor_table.specs.Handles.{HasPlace, values_of};
    ghost use Rattle.descriptor_table.specs.Sets.{find, is_held};
    ghost use Rattle.descriptor_table.specs.Slots.{Slots};
    ghost use Rattle.descriptor_table.specs.Tables.{At, Puts, Renews, is_usable, vacated};

    /// A table without values. It allocates no memory.
    pub fn new(alloc: Global, number: u64) -> Self
        ensures slots { values_of result ≡ [] }
        ensures number { result.number ≡ number }
    {
        HandleTable {
            number,
            slots: SlotList::new(alloc),
        }
    }

    /// Reserves memory for one more slot.
    pub fn reserve(&mut self) -> Result<(), AllocError>
        ensures room { OnOk result (HasPlace self.new) }
        ensures fits { HasPlace self.old → IsOk result }
        ensures slots { values_of self.new ≡ values_of self.old }
        ensures number { self.new.number ≡ self.old.number }
    {
        if self.slots.len() as u64 >= u64::from(u32::MAX) {
            return Err(AllocError);
        }
        self.slots.reserve(1)
    }

    /// Puts a value into a new slot, in reserved memory, and returns its handle.
    pub fn add(&mut self, value: T) -> SetHandle
        requires { HasPlace self.old }
        ensures place { result.place ≡ length (values_of self.old) }
        ensures long { length (values_of self.new) ≡ length (values_of self.old) + 1 }
        ensures puts { (mid : Slots T) × Puts 0 value result.place (values_of self.old) mid
            × Renews self.old.number result.place Use.Held result mid (values_of self.new) }
        ensures number { self.new.number ≡ self.old.number }
    {
        let place = self.slots.len();
        self.slots.push();
        self.slots.fill(place, 1, 0, 0, value, Use::Held);
        SetHandle {
            manager: self.number,
            place: place as u32,
            generation: 1,
        }
    }

    /// Whether a slot, which has no value, can get another.
    #[inline]
    pub fn is_usable(&self, place: u32) -> bool
        requires within { place < length (values_of self.now) }
        requires empty { (slot_at (values_of self.now) place).set ≡ None }
        ensures usable { result ≡ is_usable (slot_at (values_of self.now) place) }
        ensures last { IsFalse result → (slot_at (values_of self.now) place).generation ≡ 4294967295 }
    {
        self.slots.at(place as usize).generation < u32::MAX
    }

    /// Puts a value into a slot that has none, and returns its handle.
    #[inline]
    pub fn renew(&mut self, place: u32, value: T) -> SetHandle
        requires { is_usable (slot_at (values_of self.old) place) ≡ true }
        ensures place { result.place ≡ place }
        ensures long { length (values_of self.new) ≡ length (values_of self.old) }
        ensures puts { (mid : Slots T) × Puts 0 value place (values_of self.old) mid
            × Renews self.old.number place Use.Held result mid (values_of self.new) }
        ensures number { self.new.number ≡ self.old.number }
    {
        let generation = self.slots.at(place as usize).generation + 1;
        self.slots
            .fill(place as usize, generation, 0, 0, value, Use::Held);
        SetHandle {
            manager: self.number,
            place,
            generation,
        }
    }

    /// Takes the value of a handle out of its slot.
    pub fn remove(&mut self, handle: SetHandle) -> Option<T>
        ensures value { result ≡ find self.old.number 0 false (values_of self.old) handle }
        ensures held { IsSome result → is_held self.old.number (values_of self.old) handle ≡ true }
        ensures slots { IsSome result → At handle.place vacated (values_of self.old)
            (values_of self.new) }
        ensures none { result ≡ None → values_of self.new ≡ values_of self.old }
        ensures number { self.new.number ≡ self.old.number }
    {
        let slot = self.slots.last(self.number, handle)?;
        if slot.set.is_none() {
            return None;
        }
        self.slots.vacate(handle.place as usize, 0)
    }

    /// The value of a handle.
    #[inline]
    pub fn get(&self, handle: SetHandle) -> Option<&T>
        ensures { option_copied result ≡ find self.now.number 0 false (values_of self.now) handle }
    {
        self.slots.last(self.number, handle)?.set.as_ref()
    }
}
