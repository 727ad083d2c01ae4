//! Sets that are held until they are freed.
ghost use Rattle.std.specs.Prelude.{◌≡◌, ◌-◌, ◌<◌, ◌≤◌, ◌⊎◌, ◌↔◌, [], ◌∷◌, length};
ghost use Rattle.std.specs.Prelude.{IfErr, IfOk, IfSome, IsErrOf, IsSome, None, OnErr, OnOk, false, true};
ghost use Rattle.std.specs.Prelude.{IsOk, is_some, option_map};
ghost use Rattle.std.specs.Option.{option_copied};
ghost use Rattle.gpu_descriptor.specs.Caller.Sets.{raw_in};
ghost use Rattle.descriptor_table.specs.Sets.{AllFit, AreHeldOnce, LoseNames};
ghost use Rattle.descriptor_table.specs.Slots.{is_live};
ghost use Rattle.descriptor_manager.specs.Stores.{FreesSets, IsFreed, IsRefusedAtLast, KeepsMemory, Takes};
ghost use Rattle.descriptor_table.specs.Tables.{Becomes, TurnEach, Turns, used_for, vacated};

use super::SetManager;
use crate::errors::{FreeError, RequestError};
use crate::layout_registry::LayoutHandle;
use descriptor_table::{SetHandle, SetName, Use};
use gpu_descriptor::{AllocationError, CompactDescriptorSet, DescriptorDevice};

impl<L: Drop, P: Drop, S: Drop, D: DescriptorDevice<L, P, S>> SetManager<L, P, S, D> {
    ghost use Rattle.gpu_descriptor.specs.declared.errors.AllocationError.{AllocationError};
    ghost use Rattle.descriptor_table.specs.declared.handle.SetHandle.{SetHandle};
    ghost use Rattle.descriptor_table.specs.declared.slot.Use.{Use};
    ghost use Rattle.descriptor_manager.specs.Managers.{ComeEach, NeedsLayout, OnlySetsChange, OnlySetsCome};
    ghost use Rattle.descriptor_manager.specs.Managers.{frame_of, is_open, kept_of, layout_of, seen, sets_by};
    ghost use Rattle.descriptor_manager.specs.Managers.{side_of, slots_of, store_of};

    /// Allocates a set of a layout for a use in which its handle is valid now.
    #[inline(always)]
    pub(super) fn allocate_as(
        &mut self,
        layout: LayoutHandle,
        used: Use,
    ) -> Result<SetHandle, RequestError>
        requires live { is_live (frame_of self.old) (is_open self.old) used ≡ true }
        ensures creates { IfOk result (λ handle. IfSome (layout_of self.old layout) (λ known.
            ComeEach known.layout (handle ∷ []) self.old self.new)) }
        ensures takes { IfOk result (λ handle. IfSome (layout_of self.old layout) (λ known.
            Takes known.layout layout.slot.place 1 used (handle ∷ []) (store_of self.old)
            (store_of self.new))) }
        ensures kept { IsSome (layout_of self.old layout) → 0 < kept_of layout self.old
            → IsOk result × (side_of self.new ≡ side_of self.old)
            × (length (slots_of self.new) ≡ length (slots_of self.old)) }
        ensures needs { NeedsLayout layout result self.old self.new }
        ensures refused { (error : AllocationError) → IsErrOf result (RequestError.Allocation error)
            → IfSome (layout_of self.old layout) (λ known. IsRefusedAtLast known.layout 1 1 error
            (store_of self.old) (store_of self.new)) }
        ensures sets { OnlySetsCome result self.old self.new }
    {
        let Some(known) = self.layouts.get(layout) else {
            return Err(RequestError::NoLayout);
        };
        match self.store.allocate(known, layout.place(), used) {
            Ok(handle) => Ok(handle),
            Err(error) => Err(RequestError::Allocation(error)),
        }
    }

    /// Allocates a set of a layout, which is held until it is freed. A frame may be open or not. It
    /// takes the set of the layout that was kept last, or else a new one, and fails as
    /// `allocate_for_frame` does.
    #[inline]
    pub fn allocate(&mut self, layout: LayoutHandle) -> Result<SetHandle, RequestError>
        ensures creates { IfOk result (λ handle. IfSome (layout_of self.old layout) (λ known.
            ComeEach known.layout (handle ∷ []) self.old self.new)) }
        ensures takes { IfOk result (λ handle. IfSome (layout_of self.old layout) (λ known.
            Takes known.layout layout.slot.place 1 Use.Held (handle ∷ []) (store_of self.old)
            (store_of self.new))) }
        ensures kept { IsSome (layout_of self.old layout) → 0 < kept_of layout self.old
            → IsOk result × (side_of self.new ≡ side_of self.old)
            × (length (slots_of self.new) ≡ length (slots_of self.old)) }
        ensures needs { NeedsLayout layout result self.old self.new }
        ensures refused { (error : AllocationError) → IsErrOf result (RequestError.Allocation error)
            → IfSome (layout_of self.old layout) (λ known. IsRefusedAtLast known.layout 1 1 error
            (store_of self.old) (store_of self.new)) }
        ensures sets { OnlySetsCome result self.old self.new }
    {
        self.allocate_as(layout, Use::Held)
    }

    /// Allocates a set of a layout for each place of `sets`, all or none, and writes their names there.
    /// Each is held until it is freed. Kept sets are taken first; the others are new, from one request.
    /// On an error `sets` stays as it was. It allocates memory only for the new sets.
    ///
    /// If the allocator refuses the new sets while sets of any layout are kept, it frees all kept sets
    /// and destroys empty pools, as `cleanup` does, and retries once, for all sets. It fails without
    /// that, and kept sets stay, in two cases: all these sets alone have more update-after-bind
    /// descriptors than the limit allows, or its own memory ran out before the allocator was asked. More
    /// than `u32::MAX` sets are `OutOfHostMemory`.
    #[inline]
    pub fn allocate_into<N: SetName<CompactDescriptorSet<S>> + Drop>(
        &mut self,
        layout: LayoutHandle,
        sets: &mut [N],
    ) -> Result<(), RequestError>
        ensures creates { OnOk result (IfSome (layout_of self.old layout) (λ known.
            ComeEach known.layout (N.handles_of sets.new) self.old self.new)) }
        ensures takes { OnOk result (IfSome (layout_of self.old layout) (λ known.
            Takes known.layout layout.slot.place (length sets.old) Use.Held (N.handles_of sets.new)
            (store_of self.old) (store_of self.new))) }
        ensures kept { length sets.old ≤ kept_of layout self.old → (side_of self.new
            ≡ side_of self.old) × (length (slots_of self.new) ≡ length (slots_of self.old)) }
        ensures fits { IsSome (layout_of self.old layout) → length sets.old
            ≤ kept_of layout self.old → IsOk result }
        ensures needs { NeedsLayout layout result self.old self.new }
        ensures refused { (error : AllocationError) → IsErrOf result (RequestError.Allocation error)
            → ((error ≡ AllocationError.OutOfHostMemory) × (4294967295 < length sets.old)
            × (seen self.new ≡ seen self.old)) ⊎ IfSome (layout_of self.old layout) (λ known.
            IsRefusedAtLast known.layout (length sets.old - kept_of layout self.old)
            (length sets.old) error (store_of self.old) (store_of self.new)) }
        ensures fit { OnOk result (AllFit N.handle_of N.fit (slots_of self.new) sets.new) }
        ensures long { length sets.new ≡ length sets.old }
        ensures handles { OnErr result (sets.new ≡ sets.old) }
        ensures memory { KeepsMemory (store_of self.old) (store_of self.new) }
        ensures sets { OnlySetsCome result self.old self.new }
    {
        let Some(known) = self.layouts.get(layout) else {
            return Err(RequestError::NoLayout);
        };
        if sets.len() > u32::MAX as usize {
            return Err(RequestError::Allocation(AllocationError::OutOfHostMemory));
        }
        match self.store.allocate_each(known, layout.place(), sets) {
            Ok(()) => Ok(()),
            Err(error) => Err(RequestError::Allocation(error)),
        }
    }

    /// Frees sets at once, all or none: each is kept, or returns to its pool, with one device call per
    /// run of sets from one pool. Their order is the set manager's: sets that share pools mostly come next
    /// to each other. Their handles are invalid from now on. It allocates no memory. The device must be
    /// done with the work that uses the sets.
    ///
    /// It fails with `NoSet` if a name isn't that of a held set (a handle that isn't its, or a name that
    /// doesn't fit it), or is in the list twice. Then nothing changes.
    pub fn free<N: SetName<CompactDescriptorSet<S>>>(&mut self, sets: &[N]) -> Result<(), FreeError>
        ensures frees { OnOk result (FreesSets (TurnEach (N.handles_of sets.now)
            (IsFreed (store_of self.old))) (store_of self.old) (store_of self.new)) }
        ensures names { OnOk result (LoseNames (N.handles_of sets.now) (sets_by self.old)
            (sets_by self.new)) }
        ensures once { OnOk result (AreHeldOnce (seen self.old).number (slots_of self.old)
            (N.handles_of sets.now)) }
        ensures fit { OnOk result (AllFit N.handle_of N.fit (slots_of self.old) sets.now) }
        ensures no_set { IfErr result (λ e. (e ≡ FreeError.NoSet)
            × ¬ (AreHeldOnce (seen self.old).number (slots_of self.old) (N.handles_of sets.now)
            × AllFit N.handle_of N.fit (slots_of self.old) sets.now)) }
        ensures stay { OnErr result (seen self.new ≡ seen self.old) }
        ensures rest { OnlySetsChange self.old self.new }
    {
        if !self.store.free_each(sets) {
            return Err(FreeError::NoSet);
        }
        Ok(())
    }

    /// Frees sets after the frame of their last use, all or none; 0 stands for no frame. The sets are
    /// freed by the next `frame_done` with that frame or a later one. Their handles are invalid from now
    /// on. It allocates no memory.
    ///
    /// It fails with `FrameAhead` if `last_use` is later than `frame()`, and else with `NoSet` as `free`
    /// does. Then nothing changes.
    pub fn free_after<N: SetName<CompactDescriptorSet<S>>>(
        &mut self,
        sets: &[N],
        last_use: u64,
    ) -> Result<(), FreeError>
        ensures waits { OnOk result (TurnEach (N.handles_of sets.now)
            (Becomes (used_for (Use.Waits last_use))) (slots_of self.old) (slots_of self.new)) }
        ensures names { OnOk result (LoseNames (N.handles_of sets.now) (sets_by self.old)
            (sets_by self.new)) }
        ensures once { OnOk result (AreHeldOnce (seen self.old).number (slots_of self.old)
            (N.handles_of sets.now)) }
        ensures fit { OnOk result (AllFit N.handle_of N.fit (slots_of self.old) sets.now) }
        ensures ahead { (IsErrOf result FreeError.FrameAhead) ↔ (frame_of self.old < last_use) }
        ensures no_set { (IsErrOf result FreeError.NoSet) ↔ ((last_use ≤ frame_of self.old)
            × ¬ (AreHeldOnce (seen self.old).number (slots_of self.old) (N.handles_of sets.now)
            × AllFit N.handle_of N.fit (slots_of self.old) sets.now)) }
        ensures stay { OnErr result (seen self.new ≡ seen self.old) }
        ensures rest { seen self.new ≡ record (seen self.old) { slots = slots_of self.new } }
    {
        if last_use > self.frame {
            return Err(FreeError::FrameAhead);
        }
        if !self.store.wait_each(sets, last_use) {
            return Err(FreeError::NoSet);
        }
        Ok(())
    }

    /// Returns all sets to their pools at once: those that are held, those that wait for a frame, those
    /// that are kept, and those of the open frame, which is ended. It allocates no memory. The device
    /// must be done with the work that uses the sets.
    pub fn free_all(&mut self)
        ensures frees { FreesSets (Turns (λ slot. is_some slot.set) (Becomes vacated))
            (store_of self.old) (store_of self.new) }
        ensures gone { (handle : SetHandle) → (sets_by self.new).set handle ≡ None }
        ensures given { (handle : SetHandle) → (sets_by self.new).given handle
            ≡ (sets_by self.old).given handle }
        ensures rest { seen self.new ≡ record (seen self.old)
            { is_open = false; slots = slots_of self.new; side = side_of self.new } }
    {
        self.is_open = false;
        self.store.free_all();
    }

    /// The raw set of a handle, to write and to bind: a held set, or one of the open frame. `None` if
    /// the set was freed, is of another frame, or is another set manager's.
    pub fn set(&self, set: SetHandle) -> Option<&S>
        ensures { option_copied result ≡ option_map raw_in ((sets_by self.now).set set) }
    {
        self.store.get(set, self.frame, self.is_open)
    }
}
