//! Layouts under handles.
ghost use Rattle.std.specs.Prelude.{◌≡◌, ◌≢◌, ◌+◌, ◌<◌, ℕ, [], ◌∷◌, length, slice_set, IfSome};
ghost use Rattle.std.specs.Prelude.{IsFalse, IsOk, IsSome, None, OnOk, Some, true};
ghost use Rattle.std.specs.Option.{option_copied};
ghost use Rattle.gpu_descriptor.specs.Caller.SetLayouts.{IsMeant};
ghost use Rattle.gpu_descriptor.specs.declared.layout.SetLayout.{SetLayout};
ghost use Rattle.descriptor_table.specs.Handles.{HasPlace, values_of};
ghost use Rattle.descriptor_table.specs.Slots.{slot_at};
ghost use Rattle.descriptor_table.specs.Tables.{is_usable, vacated};

use descriptor_table::{HandleTable, SetHandle, place_of};
use gpu_descriptor::{DescriptorDevice, SetLayout};
use std::alloc::{AllocError, Global};
use std::marker::PhantomData;

/// The handle of a layout. It is valid only for the set manager that gave it, and only until the layout
/// is removed. It never becomes the handle of another layout.
#[must_use = "sets of the layout are asked for by its handle"]
#[derive(Clone, Copy, Debug, PartialEq, Eq, Hash)]
pub struct LayoutHandle {
    pub(crate) slot: SetHandle,
}

impl LayoutHandle {
    /// The number under which its sets are kept.
    #[inline]
    pub(crate) fn place(self) -> u32
        ensures { result ≡ self.slot.place }
    {
        place_of(self.slot)
    }
}

/// The layouts of a device, each under a handle.
///
/// A registry refuses another registry's handles by its number: give each registry of a program its own.
/// With equal numbers a handle of one registry may be valid for a layout of the other.
#[derive(Drop)]
pub struct LayoutRegistry<L, P, S, D: DescriptorDevice<L, P, S>> {
    table: HandleTable<SetLayout<L>>,
    device: PhantomData<(P, S, D)>,
    ghost meant: { (place : ℕ) (known : SetLayout L) → (slot_at (values_of table) place).set ≡ Some known
        → IsMeant D.meaning known },
}

impl<L: Drop, P, S, D: DescriptorDevice<L, P, S>> LayoutRegistry<L, P, S, D> {
    ghost use Rattle.descriptor_table.specs.Sets.{LoseNames, NameEach};
    ghost use Rattle.descriptor_manager.specs.LayoutRegistries.{layout_at, layout_slots, layouts_by};
    ghost use Rattle.descriptor_manager.specs.LayoutRegistries.{registry_of};

    /// A registry without layouts. `registry` is the number that marks its handles. It allocates no
    /// memory.
    pub fn new(alloc: Global, registry: u64) -> Self
        ensures slots { layout_slots result ≡ [] }
        ensures registry { registry_of result ≡ registry }
    {
        LayoutRegistry {
            table: HandleTable::new(alloc, registry),
            device: PhantomData,
        }
    }

    /// Reserves memory for one more layout.
    #[inline]
    pub fn reserve(&mut self) -> Result<(), AllocError>
        ensures room { OnOk result (HasPlace self.new.table) }
        ensures fits { HasPlace self.old.table → IsOk result }
        ensures slots { layout_slots self.new ≡ layout_slots self.old }
        ensures registry { registry_of self.new ≡ registry_of self.old }
    {
        self.table.reserve()
    }

    /// Adds a layout under the next number, in reserved memory, and returns its handle.
    #[inline]
    pub fn add(&mut self, layout: SetLayout<L>) -> LayoutHandle
        requires meant { IsMeant D.meaning layout }
        requires room { HasPlace self.old.table }
        ensures names { NameEach (result.slot ∷ []) (layouts_by self.old) (layouts_by self.new) }
        ensures added { layout_at self.new result ≡ Some layout }
        ensures fresh { layout_at self.old result ≡ None }
        ensures place { result.slot.place ≡ length (layout_slots self.old) }
        ensures others { (n : ℕ) → n ≢ result.slot.place → slot_at (layout_slots self.new) n
            ≡ slot_at (layout_slots self.old) n }
        ensures long { length (layout_slots self.new) ≡ length (layout_slots self.old) + 1 }
        ensures registry { registry_of self.new ≡ registry_of self.old }
    {
        LayoutHandle {
            slot: self.table.add(layout),
        }
    }

    /// Whether the number of a removed layout has a handle left for another one.
    #[inline]
    pub fn is_usable(&self, number: u32) -> bool
        requires within { number < length (layout_slots self.now) }
        requires empty { (slot_at (layout_slots self.now) number).set ≡ None }
        ensures usable { result ≡ is_usable (slot_at (layout_slots self.now) number) }
        ensures last { IsFalse result → (slot_at (layout_slots self.now) number).generation
            ≡ 4294967295 }
    {
        self.table.is_usable(number)
    }

    /// Adds a layout under the number of a removed one, and returns its handle.
    #[inline]
    pub fn renew(&mut self, number: u32, layout: SetLayout<L>) -> LayoutHandle
        requires meant { IsMeant D.meaning layout }
        requires usable { is_usable (slot_at (layout_slots self.old) number) ≡ true }
        ensures names { NameEach (result.slot ∷ []) (layouts_by self.old) (layouts_by self.new) }
        ensures added { layout_at self.new result ≡ Some layout }
        ensures fresh { layout_at self.old result ≡ None }
        ensures place { result.slot.place ≡ number }
        ensures others { (n : ℕ) → n ≢ number → slot_at (layout_slots self.new) n
            ≡ slot_at (layout_slots self.old) n }
        ensures long { length (layout_slots self.new) ≡ length (layout_slots self.old) }
        ensures registry { registry_of self.new ≡ registry_of self.old }
    {
        LayoutHandle {
            slot: self.table.renew(number, layout),
        }
    }

    /// Removes a layout and returns it; `None` if the handle is invalid, and then nothing changes. It
    /// allocates no memory.
    pub fn remove(&mut self, handle: LayoutHandle) -> Option<SetLayout<L>>
        ensures layout { result ≡ layout_at self.old handle }
        ensures meant { IfSome result (λ known. IsMeant D.meaning known) }
        ensures names { IsSome result → LoseNames (handle.slot ∷ []) (layouts_by self.old)
            (layouts_by self.new) }
        ensures slots { IsSome result → layout_slots self.new ≡ slice_set (layout_slots self.old)
            handle.slot.place (vacated (slot_at (layout_slots self.old) handle.slot.place)) }
        ensures none { result ≡ None → layout_slots self.new ≡ layout_slots self.old }
        ensures registry { registry_of self.new ≡ registry_of self.old }
    {
        self.table.remove(handle.slot)
    }

    /// The layout of a handle. `None` if the layout was removed, or if the handle is another registry's.
    #[inline]
    pub fn get(&self, handle: LayoutHandle) -> Option<&SetLayout<L>>
        ensures layout { option_copied result ≡ layout_at self.now handle }
        ensures meant { IfSome result (λ layout. IsMeant D.meaning layout.now) }
    {
        self.table.get(handle.slot)
    }
}
