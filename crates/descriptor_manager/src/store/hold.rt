//! Sets that are put to a use, under the next handles of their slots.
ghost use Rattle.std.specs.Prelude.{◌≡◌, ℕ, ◌+◌, ◌<◌, ◌≤◌, [], ◌∷◌, length, true, vec_capacity};
ghost use Rattle.gpu_descriptor.specs.Caller.Sets.{AreSetsOf};

use super::Store;
use descriptor_table::{SetName, Use};
use gpu_descriptor::{CompactDescriptorSet, DescriptorDevice};

/// For how many new sets a store keeps memory.
const MAX_COMING: usize = 1024;

impl<L: Drop, P: Drop, S: Drop, D: DescriptorDevice<L, P, S>> Store<L, P, S, D> {
    ghost use Rattle.descriptor_table.specs.Sets.{AllFit};
    ghost use Rattle.descriptor_table.specs.Slots.{frame_of, is_kept_of, is_live, slot_at};
    ghost use Rattle.descriptor_table.specs.Tables.{HasLayout, HasRoom, place_at};
    ghost use Rattle.descriptor_manager.specs.Stores.{AreAllOf, ComesOf, HoldEach, Holds, KeepsStore};
    ghost use Rattle.descriptor_manager.specs.Stores.{NoneComes, kept_of};
    ghost use Rattle.descriptor_manager.specs.Stores.{slots_in};

    /// Puts a kept set of a layout to a use, and returns its name.
    #[inline]
    pub(super) fn hold_next<N: SetName<CompactDescriptorSet<S>>>(
        &mut self,
        layout: u32,
        used: Use,
    ) -> N
        requires kept { 0 < kept_of layout self.old }
        requires live { is_live (frame_of used) true used ≡ true }
        ensures holds { HoldEach self.old.table.number layout used
            (N.handle_of result ∷ []) (slots_in self.old) (slots_in self.new) }
        ensures was_kept { is_kept_of layout (slot_at (slots_in self.old)
            (N.handle_of result).place) ≡ true }
        ensures fits { N.fit result (slot_at (slots_in self.new) (N.handle_of result).place).set ≡ true }
        ensures fewer { kept_of layout self.new + 1 ≡ kept_of layout self.old }
        ensures as_many { length (slots_in self.new) ≡ length (slots_in self.old) }
        ensures table { (n : ℕ) → HasRoom n self.old.table → HasRoom n self.new.table }
        ensures keeps { Holds NoneComes self.old self.new }
        ensures coming { self.new.coming ≡ self.old.coming }
    {
        self.table.hold_kept(layout, used)
    }

    /// Puts kept sets of a layout to a use, and writes their names.
    #[inline]
    pub(super) fn hold_kept<N: SetName<CompactDescriptorSet<S>> + Drop>(
        &mut self,
        layout: u32,
        used: Use,
        names: &mut [N],
    )
        requires kept { length names.old ≤ kept_of layout self.old }
        requires live { is_live (frame_of used) true used ≡ true }
        ensures holds { HoldEach self.old.table.number layout used
            (N.handles_of names.new) (slots_in self.old) (slots_in self.new) }
        ensures were_kept { (i : ℕ) → i < length names.old → is_kept_of layout (slot_at
            (slots_in self.old) (place_at (N.handles_of names.new) i)) ≡ true }
        ensures fit { AllFit N.handle_of N.fit (slots_in self.new) names.new }
        ensures long { length names.new ≡ length names.old }
        ensures as_many { length (slots_in self.new) ≡ length (slots_in self.old) }
        ensures table { (n : ℕ) → HasRoom n self.old.table → HasRoom n self.new.table }
        ensures keeps { Holds NoneComes self.old self.new }
        ensures coming { self.new.coming ≡ self.old.coming }
    {
        for index in 0..names.len() {
            names[index] = self.hold_next(layout, used);
        }
    }

    /// Puts one of the new sets in `coming` to a use, and returns its name.
    #[inline(always)]
    pub(super) fn hold_last<N: SetName<CompactDescriptorSet<S>>>(
        &mut self,
        layout: u32,
        used: Use,
    ) -> N
        requires some { 0 < length self.old.coming.items }
        requires known { (known : L) × AreSetsOf D.meaning known self.old.coming.items
            × AreAllOf D.meaning known layout (slots_in self.old) }
        requires layout { HasLayout layout self.old.table }
        requires room { HasRoom (length self.old.coming.items) self.old.table }
        requires live { is_live (frame_of used) true used ≡ true }
        ensures holds { HoldEach self.old.table.number layout used
            (N.handle_of result ∷ []) (slots_in self.old) (slots_in self.new) }
        ensures fits { N.fit result (slot_at (slots_in self.new) (N.handle_of result).place).set ≡ true }
        ensures fewer { length self.new.coming.items + 1 ≡ length self.old.coming.items }
        ensures own { (known : L) → AreSetsOf D.meaning known self.old.coming.items
            → AreSetsOf D.meaning known self.new.coming.items }
        ensures table { HasRoom (length self.new.coming.items) self.new.table }
        ensures keeps { (known : L) → AreSetsOf D.meaning known self.old.coming.items
            → Holds (ComesOf D.meaning known layout) self.old self.new }
        ensures stays { KeepsStore self.old self.new }
    {
        match self.coming.pop() {
            Some(set) => {
                // A proof knows the numbers of pools only from the allocator's readers.
                prove!(self.allocator.outstanding() <= u64::MAX);
                let (id, set) = CompactDescriptorSet::of(set);
                self.table.put(layout, id, set, used)
            }
            None => unreachable!(),
        }
    }

    /// Puts the new sets in `coming` to a use, and writes their names. It keeps memory for at most 1024 new
    /// sets.
    pub(super) fn hold_coming<N: SetName<CompactDescriptorSet<S>> + Drop>(
        &mut self,
        layout: u32,
        used: Use,
        names: &mut [N],
    )
        requires layout { HasLayout layout self.old.table }
        requires room { HasRoom (length self.old.coming.items) self.old.table }
        requires as_many { length names.old ≡ length self.old.coming.items }
        requires known { (known : L) × AreSetsOf D.meaning known self.old.coming.items
            × AreAllOf D.meaning known layout (slots_in self.old) }
        requires live { is_live (frame_of used) true used ≡ true }
        ensures holds { HoldEach self.old.table.number layout used
            (N.handles_of names.new) (slots_in self.old) (slots_in self.new) }
        ensures none { self.new.coming.items ≡ [] }
        ensures memory { vec_capacity self.new.coming ≤ 1024 }
        ensures fit { AllFit N.handle_of N.fit (slots_in self.new) names.new }
        ensures long { length names.new ≡ length names.old }
        ensures keeps { (known : L) → AreSetsOf D.meaning known self.old.coming.items
            → Holds (ComesOf D.meaning known layout) self.old self.new }
    {
        for index in 0..names.len() {
            names[index] = self.hold_last(layout, used);
        }
        if self.coming.capacity() > MAX_COMING {
            self.coming.shrink_to_fit();
        }
    }
}
