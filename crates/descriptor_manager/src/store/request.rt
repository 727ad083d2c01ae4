//! Requests for sets: kept ones, and new ones for those that are missing.
ghost use Rattle.std.specs.Prelude.{◌≡◌, ◌-◌, ◌<◌, ◌≤◌, [], ◌∷◌, length, true, IfErr, IfSome, IsOk, OnErr, OnOk, Ok, Err, None, Result, List, IsSome, vec_capacity, ℕ};
ghost use Rattle.gpu_descriptor.specs.Caller.SetLayouts.{IsMeant};

use super::Store;
use descriptor_table::{SetHandle, SetName, Use};
use gpu_descriptor::{AllocationError, CompactDescriptorSet, DescriptorDevice, SetLayout};

impl<L: Drop, P: Drop, S: Drop, D: DescriptorDevice<L, P, S>> Store<L, P, S, D> {
    ghost use Rattle.descriptor_table.specs.Sets.{AllFit};
    ghost use Rattle.descriptor_table.specs.Slots.{frame_at, frame_of, is_live};
    ghost use Rattle.descriptor_table.specs.Tables.{HasLayout, HasRoom};
    ghost use Rattle.descriptor_manager.specs.Stores.{Asks, AsksAtLast, CanTake, IsAtRest, IsRefused};
    ghost use Rattle.descriptor_manager.specs.Stores.{IsRefusedAtLast, KeepsMemory, KeepsStore, Requests};
    ghost use Rattle.descriptor_manager.specs.Stores.{NoneComes, Settles, handles_in, kept_of, side_of, slots_in};

    /// Asks the allocator for `many` sets of a layout. The table has room for them. If they are refused, the
    /// memory for them is freed.
    fn ask_for(&mut self, known: &SetLayout<L>, many: u32) -> Result<(), AllocationError>
        requires meant { IsMeant D.meaning known.now }
        requires none { self.old.coming.items ≡ [] }
        requires room { HasRoom many self.old.table }
        ensures asks { OnOk result (Asks known.now.layout many self.old self.new) }
        ensures refused { IfErr result (λ error. IsRefused known.now.layout many error self.old
            self.new) }
        ensures none { OnErr result (self.new.coming.items ≡ []) }
        ensures memory { OnErr result (vec_capacity self.new.coming ≡ 0) }
        ensures table { OnOk result (HasRoom many self.new.table) }
        ensures stays { KeepsStore self.old self.new }
    {
        let asked = self
            .allocator
            .allocate_into(&mut self.device, known, many, &mut self.coming);
        if asked.is_err() {
            self.coming.shrink_to_fit();
        }
        asked
    }

    /// Asks the allocator for those of `many` sets for which no set is kept; there are some. If it
    /// refuses them while sets are kept, all kept sets return to their pools, empty pools are destroyed,
    /// and it retries once, for all sets. It doesn't if all of them alone exceed the limit.
    #[inline(always)]
    fn bring(&mut self, known: &SetLayout<L>, layout: u32, many: u32) -> Result<(), AllocationError>
        requires can { CanTake known.now layout self.old }
        requires short { kept_of layout self.old < many }
        ensures asks { OnOk result (AsksAtLast known.now.layout (many - kept_of layout self.old) many
            self.old self.new) }
        ensures refused { IfErr result (λ error. IsRefusedAtLast known.now.layout
            (many - kept_of layout self.old) many error self.old self.new) }
        ensures none { OnErr result (self.new.coming.items ≡ []) }
        ensures memory { OnErr result (KeepsMemory self.old self.new) }
        ensures table { OnOk result (HasRoom (length self.new.coming.items) self.new.table) }
        ensures stays { KeepsStore self.old self.new }
    {
        let missing = many - self.table.kept_count(layout);
        self.reserve(missing)?;
        match self.ask_for(known, missing) {
            Ok(()) => Ok(()),
            Err(error) => {
                if self.exceeds_limit(known, many) || self.table.kept_total() == 0 {
                    return Err(error);
                }
                self.cleanup();
                self.reserve(many)?;
                self.ask_for(known, many)
            }
        }
    }

    /// Puts the set of a layout that was kept last to use in a frame, if one is kept and no set waits for a
    /// later frame. `None` otherwise, and then nothing changes. It doesn't call the device.
    #[inline(always)]
    pub(crate) fn reuse(&mut self, layout: u32, frame: u64) -> Option<SetHandle>
        requires rest { IsAtRest self.old }
        requires layout { HasLayout layout self.old.table }
        ensures reuses { (known : L) → IfSome result (λ handle. Requests known layout 1
            (Use.InFrame frame) (handle ∷ []) (Ok handle) self.old self.new) }
        ensures kept { IsSome result → 0 < kept_of layout self.old }
        ensures meets { 0 < kept_of layout self.old → ((p : ℕ) → frame_at (slots_in self.old) p
            ≤ frame) → IsSome result }
        ensures side { side_of self.new ≡ side_of self.old }
        ensures settles { Settles NoneComes self.old self.new }
        ensures as_many { length (slots_in self.new) ≡ length (slots_in self.old) }
        ensures none { result ≡ None → slots_in self.new ≡ slots_in self.old }
    {
        self.table.hold_for_frame(layout, frame)
    }

    /// Takes a set of a layout for a use: the last one that was kept, or else a new one. An error is one of
    /// `DescriptorAllocator::allocate_into`, or `OutOfHostMemory` if memory for more slots runs out.
    #[inline(always)]
    pub(crate) fn allocate(
        &mut self,
        known: &SetLayout<L>,
        layout: u32,
        used: Use,
    ) -> Result<SetHandle, AllocationError>
        requires can { CanTake known.now layout self.old }
        requires live { is_live (frame_of used) true used ≡ true }
        ensures { Requests known.now.layout layout 1 used (handles_in result) result self.old
            self.new }
    {
        if self.table.kept_count(layout) == 0 {
            return self.allocate_new(known, layout, used);
        }
        Ok(self.hold_next(layout, used))
    }

    /// `allocate` of a layout of which no set is kept.
    #[inline(never)]
    fn allocate_new(
        &mut self,
        known: &SetLayout<L>,
        layout: u32,
        used: Use,
    ) -> Result<SetHandle, AllocationError>
        requires can { CanTake known.now layout self.old }
        requires live { is_live (frame_of used) true used ≡ true }
        requires short { kept_of layout self.old < 1 }
        ensures { Requests known.now.layout layout 1 used (handles_in result) result self.old
            self.new }
    {
        self.bring(known, layout, 1)?;
        Ok(self.hold_last(layout, used))
    }

    /// Takes a set of a layout for each place of `names`, kept ones first, and writes their names. The
    /// sets are held. On an error none is taken.
    #[inline]
    pub(crate) fn allocate_each<N: SetName<CompactDescriptorSet<S>> + Drop>(
        &mut self,
        known: &SetLayout<L>,
        layout: u32,
        names: &mut [N],
    ) -> Result<(), AllocationError>
        requires can { CanTake known.now layout self.old }
        requires few { length names.old ≤ 4294967295 }
        ensures requests { Requests known.now.layout layout (length names.old) Use.Held
            (N.handles_of names.new) result self.old self.new }
        ensures fit { OnOk result (AllFit N.handle_of N.fit (slots_in self.new) names.new) }
        ensures long { length names.new ≡ length names.old }
        ensures memory { KeepsMemory self.old self.new }
        ensures names { OnErr result (names.new ≡ names.old) }
    {
        if names.len() > self.table.kept_count(layout) as usize {
            return self.allocate_with_new(known, layout, names);
        }
        self.hold_kept(layout, Use::Held, names);
        Ok(())
    }

    /// Holds sets of a layout, more than are kept. It is out of line, so that a call that finds
    /// enough saves no registers for it.
    #[inline(never)]
    fn allocate_with_new<N: SetName<CompactDescriptorSet<S>> + Drop>(
        &mut self,
        known: &SetLayout<L>,
        layout: u32,
        names: &mut [N],
    ) -> Result<(), AllocationError>
        requires can { CanTake known.now layout self.old }
        requires few { length names.old ≤ 4294967295 }
        requires short { kept_of layout self.old < length names.old }
        ensures requests { Requests known.now.layout layout (length names.old) Use.Held
            (N.handles_of names.new) result self.old self.new }
        ensures fit { OnOk result (AllFit N.handle_of N.fit (slots_in self.new) names.new) }
        ensures long { length names.new ≡ length names.old }
        ensures memory { KeepsMemory self.old self.new }
        ensures names { OnErr result (names.new ≡ names.old) }
    {
        self.bring(known, layout, names.len() as u32)?;
        let (kept, new) = names.split_at_mut(names.len() - self.coming.len());
        self.hold_kept(layout, Use::Held, kept);
        self.hold_coming(layout, Use::Held, new);
        Ok(())
    }
}
