//! The set manager: its layouts, and the calls that concern all its sets.
ghost use Rattle.std.specs.Prelude.{min, ◌≡◌, ◌≢◌, ◌≤◌, ◌⊎◌, ◌↔◌, ℕ, [], length};
ghost use Rattle.std.specs.Prelude.{IfErr, IfOk, IsErrOf, IsOk, IsSome, None, OnErr, OnOk, Some, false, true};
ghost use Rattle.std.specs.Option.{option_copied};
ghost use Rattle.gpu_descriptor.specs.Caller.CleansUp.{Sweeps};
ghost use Rattle.gpu_descriptor.specs.Caller.SetLayouts.{IsMeant};
ghost use Rattle.descriptor_table.specs.Slots.{is_kept_of, is_set_of, slot_at, waits};
ghost use Rattle.descriptor_table.specs.Places.{count};
ghost use Rattle.descriptor_table.specs.Tables.{MayBecome, Turns, holds, is_kept};
ghost use Rattle.descriptor_table.specs.Tables.{vacated};
ghost use Rattle.descriptor_manager.specs.LayoutRegistries.{layout_slots, registry_of};
ghost use Rattle.descriptor_manager.specs.Own.{HasSetsOf};
ghost use Rattle.descriptor_manager.specs.Stores.{AreCleaned, Cleans, FreesSets, Removes, ShutsDown};

mod frames;
mod pools;
mod sets;

use crate::errors::RequestError;
use crate::layout_registry::{LayoutHandle, LayoutRegistry};
use crate::store::Store;
use gpu_descriptor::{DescriptorDevice, SetLayout};
use std::alloc::{AllocFailed, Global};

/// How many sets a set manager has, by what they are in use for.
#[derive(Clone, Copy, Debug, PartialEq, Eq)]
pub struct Counts {
    /// Sets that are held: neither of a frame nor freed.
    pub held: u64,

    /// Sets that wait for a frame, those of the open frame included.
    pub waiting: u64,

    /// Freed sets that are kept for reuse.
    pub kept: u64,
}

/// Allocates descriptor sets from a device that it owns, and reuses freed ones.
///
/// `begin_frame` opens a frame, `allocate_for_frame` allocates its sets, and `end_frame` ends it. Its
/// sets are freed by `frame_done` with this frame or a later one; several frames may be in flight. A set
/// from `allocate` or `allocate_into` is held until `free` frees it at once, or `free_after` has it
/// freed by the `frame_done` of its last frame or a later one.
///
/// Freed sets are kept with their contents, up to `set_max_kept` sets of each layout (at first without a
/// bound); the others return to their pools. Kept sets are reused before the device is asked for new ones.
/// `cleanup` returns all of them to their pools, and `remove_layout` those of its layout. When the
/// allocator refuses a request, the set manager returns all kept sets and retries once, unless the
/// request alone exceeds the limit. Only `allocate_for_frame`, `allocate`, `allocate_into` and
/// `add_layout` allocate memory.
///
/// The device, and the raw set of a handle, are borrowed to write sets and to bind them. Don't allocate
/// or free sets on the device yourself.
#[derive(Drop)]
pub struct SetManager<L, P, S, D: DescriptorDevice<L, P, S>> {
    layouts: LayoutRegistry<L, P, S, D>,

    /// The number that marks this set manager's handles.
    manager: u64,
    frame: u64,
    is_open: bool,

    /// The last field, since the device in it is dropped last.
    store: Store<L, P, S, D>,
    ghost sets: { HasSetsOf (layout_slots layouts) manager store },
    ghost begun: { is_open ≡ true → 1 ≤ frame },
    ghost numbers_layouts: { registry_of layouts ≡ manager },
}

impl<L: Drop, P: Drop, S: Drop, D: DescriptorDevice<L, P, S>> SetManager<L, P, S, D> {
    ghost use Rattle.gpu_descriptor.specs.declared.layout.SetLayout.{SetLayout};
    ghost use Rattle.descriptor_manager.specs.declared.layout_registry.LayoutHandle.{LayoutHandle};
    ghost use Rattle.descriptor_manager.specs.Managers.{HasLayoutRoom, NoneFree, OnlySetsChange};
    ghost use Rattle.descriptor_manager.specs.Managers.{frame_of, is_open, kept_of, layout_of};
    ghost use Rattle.descriptor_manager.specs.Managers.{layouts_in};
    ghost use Rattle.descriptor_manager.specs.Managers.{pools_besides, seen};
    ghost use Rattle.descriptor_manager.specs.Managers.{sets_by, side_of, slots_of, store_of};

    /// A set manager over a device, without layouts, sets or an open frame. It allocates no memory.
    ///
    /// `limit` is the driver's limit on update-after-bind descriptors in all pools. `manager` marks the
    /// handles, so that those of other set managers are refused: give each set manager of a program its
    /// own number. A new pool has at most 65,536 descriptors, unless the sets still needed have more:
    /// `set_max_pool_descriptors` changes this bound.
    pub fn new(alloc: Global, device: D, limit: u32, manager: u64) -> Self
        ensures layouts { (handle : LayoutHandle) → layout_of result handle ≡ None }
        ensures frame { frame_of result ≡ 0 }
        ensures open { is_open result ≡ false }
        ensures slots { slots_of result ≡ [] }
        ensures keep { (seen result).keep ≡ u32.MAX }
        ensures pools { pools_besides result ≡ (D.ledger device).pools }
        ensures limit { (seen result).limit ≡ limit }
        ensures bound { (seen result).bound ≡ Some 65536 }
        ensures ledger { (side_of result).ledger ≡ D.ledger device }
        ensures number { (seen result).number ≡ manager }
    {
        SetManager {
            store: Store::new(alloc, device, limit, manager),
            layouts: LayoutRegistry::new(alloc, manager),
            manager,
            frame: 0,
            is_open: false,
        }
    }

    /// Adds a layout and returns its handle, which is never given again. A removed layout's memory is used
    /// again once all its sets are back in their pools, and that can't fail; but a number that gave its last
    /// handle isn't used again. If memory runs out, or if there are 2^31 layouts with the removed ones of which
    /// sets are left, it returns the layout in the error, and nothing changes.
    pub fn add_layout(
        &mut self,
        layout: SetLayout<L>,
    ) -> Result<LayoutHandle, AllocFailed<SetLayout<L>>>
        requires { IsMeant D.meaning layout }
        ensures added { IfOk result (λ handle. layout_of self.new handle ≡ Some layout) }
        ensures never { IfOk result (λ handle. (seen self.old).given handle ≡ false) }
        ensures given { IfOk result (λ handle. (seen self.new).given handle ≡ true) }
        ensures fresh { IfOk result (λ handle. layout_of self.old handle ≡ None) }
        ensures unused { IfOk result (λ handle. (p : ℕ) → is_set_of handle.slot.place
            (slot_at (slots_of self.new) p) ≡ false) }
        ensures others { IfOk result (λ handle. (other : LayoutHandle) → other ≢ handle
            → (layout_of self.new other ≡ layout_of self.old other)
            × ((seen self.new).given other ≡ (seen self.old).given other)) }
        ensures grows { (length (layouts_in self.new) ≡ length (layouts_in self.old))
            ⊎ NoneFree (layouts_in self.old) (slots_of self.old) }
        ensures fits { HasLayoutRoom self.old → IsOk result }
        ensures full { OnErr result (NoneFree (layouts_in self.old) (slots_of self.old)) }
        ensures stay { OnErr result (seen self.new ≡ seen self.old) }
        ensures back { IfErr result (λ failed. failed.value ≡ layout) }
        ensures rest { seen self.new ≡ record (seen self.old) {
          layouts = layout_of self.new;
          given = (seen self.new).given;
          has_layout = (seen self.new).has_layout;
        } }
    {
        if let Some(number) = self.store.renew_layout() {
            if self.layouts.is_usable(number) {
                return Ok(self.layouts.renew(number, layout));
            }
        }
        self.add_number(layout)
    }

    /// Adds a layout under a new number. It is out of line, so that a layout that gets the number of a removed
    /// one saves no registers for it.
    #[cold]
    #[inline(never)]
    fn add_number(
        &mut self,
        layout: SetLayout<L>,
    ) -> Result<LayoutHandle, AllocFailed<SetLayout<L>>>
        requires { IsMeant D.meaning layout }
        ensures added { IfOk result (λ handle. layout_of self.new handle ≡ Some layout) }
        ensures never { IfOk result (λ handle. (seen self.old).given handle ≡ false) }
        ensures given { IfOk result (λ handle. (seen self.new).given handle ≡ true) }
        ensures fresh { IfOk result (λ handle. layout_of self.old handle ≡ None) }
        ensures unused { IfOk result (λ handle. (p : ℕ) → is_set_of handle.slot.place
            (slot_at (slots_of self.new) p) ≡ false) }
        ensures others { IfOk result (λ handle. (other : LayoutHandle) → other ≢ handle
            → (layout_of self.new other ≡ layout_of self.old other)
            × ((seen self.new).given other ≡ (seen self.old).given other)) }
        ensures fits { HasLayoutRoom self.old → IsOk result }
        ensures stay { OnErr result (seen self.new ≡ seen self.old) }
        ensures back { IfErr result (λ failed. failed.value ≡ layout) }
        ensures rest { seen self.new ≡ record (seen self.old) {
          layouts = layout_of self.new;
          given = (seen self.new).given;
          has_layout = (seen self.new).has_layout;
        } }
    {
        if self.store.reserve_layout().is_err() || self.layouts.reserve().is_err() {
            return Err(AllocFailed { value: layout });
        }
        self.store.add_layout();
        Ok(self.layouts.add(layout))
    }

    /// Removes a layout and returns it. Its handle is invalid from now on. The layout's kept sets return
    /// to their pools, and then the empty pools of its key are destroyed, as by the allocator's
    /// `trim_layout`. Its other sets stay, and aren't kept once they are freed: a pool that they leave empty
    /// may stay until `trim` or `cleanup`. It allocates no memory.
    ///
    /// It fails with `NoLayout` if the handle is invalid, and then nothing changes.
    pub fn remove_layout(&mut self, layout: LayoutHandle) -> Result<SetLayout<L>, RequestError>
        ensures removed { IfOk result (λ known. layout_of self.old layout ≡ Some known) }
        ensures gone { OnOk result (layout_of self.new layout ≡ None) }
        ensures others { (other : LayoutHandle) → other ≢ layout → layout_of self.new other
            ≡ layout_of self.old other }
        ensures removes { IfOk result (λ known. Removes known.layout layout.slot.place
            (store_of self.old) (store_of self.new)) }
        ensures none_kept { OnOk result (kept_of layout self.new ≡ 0) }
        ensures names { sets_by self.new ≡ sets_by self.old }
        ensures no_layout { (IsErrOf result RequestError.NoLayout) ↔ (layout_of self.old layout ≡ None) }
        ensures only { IfErr result (λ error. error ≡ RequestError.NoLayout) }
        ensures stay { OnErr result (seen self.new ≡ seen self.old) }
        ensures rest { seen self.new ≡ record (seen self.old) {
          layouts = layout_of self.new;
          slots = slots_of self.new;
          has_layout = (seen self.new).has_layout;
          side = side_of self.new;
        } }
    {
        match self.layouts.remove(layout) {
            Some(removed) => {
                self.store.remove_layout(&removed, layout.place());
                Ok(removed)
            }
            None => Err(RequestError::NoLayout),
        }
    }

    /// Returns all kept sets to their pools, and destroys each pool without sets, as the allocator's
    /// `trim` does. Sets in use stay, and aren't kept once they are freed. Call it between levels, or
    /// when memory is short.
    pub fn cleanup(&mut self)
        ensures emptied { count holds (slots_of self.old) ≡ 0 → count waits (slots_of self.old) ≡ 0
            → ((side_of self.new).ledger).pools ≡ pools_besides self.old }
        ensures none_kept { count is_kept (slots_of self.new) ≡ 0 }
        ensures names { sets_by self.new ≡ sets_by self.old }
        ensures cleaned { AreCleaned (slots_of self.old) (slots_of self.new) }
        ensures cleans { Cleans (store_of self.old) (store_of self.new) }
        ensures rest { OnlySetsChange self.old self.new }
    {
        self.store.cleanup();
    }

    /// Destroys each pool without sets. Kept sets stay, and so do their pools: `cleanup` returns them
    /// first. It visits every pool and allocates no memory.
    pub fn trim(&mut self)
        ensures trims { Sweeps true D.meaning (side_of self.old) (side_of self.new) }
        ensures rest { seen self.new ≡ record (seen self.old) { side = side_of self.new } }
    {
        self.store.trim();
    }

    /// Sets how many freed sets of a layout are kept at most. Those above `max` return to their pools.
    pub fn set_max_kept(&mut self, max: u32)
        ensures few { (layout : LayoutHandle) → kept_of layout self.new ≤ max }
        ensures as_many { (layout : LayoutHandle) → min max (kept_of layout self.old) ≤ kept_of layout self.new }
        ensures names { sets_by self.new ≡ sets_by self.old }
        ensures trims { FreesSets (Turns is_kept (MayBecome vacated)) (store_of self.old)
            (store_of self.new) }
        ensures rest { seen self.new ≡ record (seen self.old)
            { slots = slots_of self.new; keep = max; side = side_of self.new } }
    {
        self.store.set_max_kept(max);
    }

    /// Bounds a new pool to the sets that have at most `max` descriptors, or to the sets still needed if
    /// these are more. `None` removes the bound. Existing pools stay as they are.
    pub fn set_max_pool_descriptors(&mut self, max: Option<u64>)
        ensures ledger { (side_of self.new).ledger ≡ (side_of self.old).ledger }
        ensures rest { seen self.new ≡ record (seen self.old)
            { bound = max; side = side_of self.new } }
    {
        self.store.set_max_pool_descriptors(max);
    }

    /// The bound on the descriptors of a new pool, `None` without one. See `set_max_pool_descriptors`.
    pub fn max_pool_descriptors(&self) -> Option<u64>
        ensures { result ≡ (seen self.now).bound }
    {
        self.store.max_pool_descriptors()
    }

    /// The layout of a handle. `None` if it was removed, or if the handle is another set manager's.
    pub fn layout(&self, layout: LayoutHandle) -> Option<&SetLayout<L>>
        ensures { option_copied result ≡ layout_of self.now layout }
    {
        self.layouts.get(layout)
    }

    /// The device, to write sets and to bind them.
    pub fn device(&self) -> &D
        ensures { D.ledger result.now ≡ (side_of self.now).ledger }
    {
        self.store.device()
    }

    /// The number of the last frame that was opened, or skipped by `skip_to`; 0 before the first.
    pub fn frame(&self) -> u64
        ensures { result ≡ frame_of self.now }
    {
        self.frame
    }

    /// Whether a frame is open.
    pub fn is_frame_open(&self) -> bool
        ensures { result ≡ is_open self.now }
    {
        self.is_open
    }

    /// How many sets are held, wait for a frame, and are kept. It visits the layouts.
    pub fn counts(&self) -> Counts
        ensures held { result.held ≡ count holds (slots_of self.now) }
        ensures waiting { result.waiting ≡ count waits (slots_of self.now) }
        ensures kept { result.kept ≡ count is_kept (slots_of self.now) }
    {
        Counts {
            held: self.store.held(),
            waiting: self.store.waiting(),
            kept: self.store.kept(),
        }
    }

    /// How many sets of a layout are kept. 0 if the layout was removed, or if the handle is another set
    /// manager's.
    pub fn kept_count(&self, layout: LayoutHandle) -> u32
        ensures kept { IsSome (layout_of self.now layout) → result ≡ kept_of layout self.now }
        ensures none { layout_of self.now layout ≡ None → result ≡ 0 }
        ensures few { result ≤ (seen self.now).keep }
    {
        match self.layouts.get(layout) {
            Some(_) => self.store.kept_count(layout.place()),
            None => 0,
        }
    }

    /// Frees all sets, destroys all pools, and returns the device. It can't fail. The device must be
    /// done with all work.
    pub fn shutdown(mut self) -> D
        ensures pools { (D.ledger result).pools ≡ pools_besides self }
        ensures calls { ShutsDown (store_of self) (D.ledger result) }
    {
        self.free_all();
        self.cleanup();
        self.into_device()
    }

    /// Returns the device without a call to it: its pools stay, with their sets. It is for a device that
    /// was lost or that misbehaved. Otherwise use `shutdown`, which destroys the pools.
    pub fn into_device(self) -> D
        ensures { D.ledger result ≡ (side_of self).ledger }
    {
        let SetManager {
            layouts: _,
            manager: _,
            frame: _,
            is_open: _,
            store,
        } = self;
        store.into_device()
    }
}
