//! A set manager's table of sets, its allocator and its device.
ghost use Rattle.std.specs.Prelude.{◌≡◌, ◌≤◌, ◌+◌, ◌<◌, ◌↔◌, [], length, false, IfErr, IfSome, IsOk, IsTrue, None, OnOk, Some, option_map};
ghost use Rattle.std.specs.Option.{option_copied};
ghost use Rattle.gpu_descriptor.specs.Caller.Flags as flags;
ghost use Rattle.gpu_descriptor.specs.Caller.SetLayouts.{IsMeant};
ghost use Rattle.gpu_descriptor.specs.Caller.Sets.{items_of, raw_in};
ghost use Rattle.gpu_descriptor.specs.Caller.States.{Agrees, outstanding_of, state_of};
ghost use Rattle.gpu_descriptor.specs.Model.Agreement.{Item, count_of, outstanding};
ghost use Rattle.gpu_descriptor.proofs.callers.OneAgreement.{Agrees-prop};
ghost use Rattle.descriptor_table.specs.Sets.{find};
ghost use Rattle.descriptor_table.specs.Slots.{waits};
ghost use Rattle.descriptor_table.specs.Places.{count};
ghost use Rattle.descriptor_table.specs.Tables.{AreNoneFree, HasLayout, HasListRoom, HasRoom, OnlySettings, Renewed, holds, is_kept};
ghost use Rattle.descriptor_table.specs.Tables.{layouts_of, settings_of};
ghost use Rattle.descriptor_manager.specs.WholeSets.{whole_sets};

mod back;
mod hold;
mod request;

use bitflags::Flags;
use descriptor_table::{SetHandle, SetTable};
use gpu_descriptor::{
    AllocationError, CompactDescriptorSet, DescriptorAllocator, DescriptorDevice, DescriptorSet,
    DescriptorSetLayoutCreateFlags, SetLayout,
};
use std::alloc::{AllocError, Global};
use std::marker::PhantomData;
use std::vec::Vec;

/// The bound on the descriptors of a new pool that a set manager begins with.
const MAX_POOL_DESCRIPTORS: u64 = 65_536;

/// The sets of a set manager, an allocator and a device. Each set of the allocator is in the table.
#[derive(Drop)]
pub(crate) struct Store<L, P, S, D: DescriptorDevice<L, P, S>> {
    allocator: DescriptorAllocator<P, S>,
    table: SetTable<CompactDescriptorSet<S>>,

    /// The new sets of a request, until the call puts them into the table. The vector stays here, as
    /// otherwise each `allocate_into` would allocate one.
    coming: Vec<DescriptorSet<S>>,
    layout: PhantomData<L>,

    /// The last field, since it is dropped last.
    device: D,
    ghost agree: { Agrees D.meaning.pool_name allocator (D.ledger device) } by { Agrees-prop
        D.meaning.pool_name allocator (D.ledger device) },
    ghost exact: { (item : Item) → outstanding (state_of D.meaning.pool_name allocator (D.ledger device)) item
        ≡ count_of item (items_of D.meaning.set_name (whole_sets table))
        + count_of item (items_of D.meaning.set_name coming.items) },
    ghost accounted: { outstanding_of allocator ≡ length (whole_sets table) + length coming.items },
}

impl<L: Drop, P: Drop, S: Drop, D: DescriptorDevice<L, P, S>> Store<L, P, S, D> {
    ghost use Rattle.descriptor_manager.specs.Stores.{IsAtRest, KeepsContents, KeepsStore, kept_of};
    ghost use Rattle.descriptor_manager.specs.Stores.{ExceedsLimitAlone, LacksRoom};
    ghost use Rattle.descriptor_manager.specs.Stores.{pools_besides, side_of, slots_in};

    /// A store without sets and layouts, for the set manager of this number. `limit` is the allocator's
    /// limit on update-after-bind descriptors. New pools are bounded. It allocates no memory.
    pub(crate) fn new(alloc: Global, device: D, limit: u32, number: u64) -> Self
        ensures slots { slots_in result ≡ [] }
        ensures ledger { (side_of result).ledger ≡ D.ledger device }
        ensures besides { pools_besides result ≡ (D.ledger device).pools }
        ensures limit { result.allocator.limit ≡ limit }
        ensures bound { result.allocator.bound ≡ Some 65536 }
        ensures settings { settings_of result.table ≡ record {
          number = number;
          layouts = 0;
          removed = λ layout. false;
          keep = u32.MAX;
        } }
        ensures rest { IsAtRest result }
    {
        let mut allocator = DescriptorAllocator::new(alloc, limit);
        allocator.set_max_pool_descriptors(Some(MAX_POOL_DESCRIPTORS));
        Store {
            device,
            allocator,
            table: SetTable::new(alloc, number),
            coming: Vec::new(alloc),
            layout: PhantomData,
        }
    }

    /// Reserves memory for one more layout.
    pub(crate) fn reserve_layout(&mut self) -> Result<(), AllocError>
        ensures room { OnOk result (HasListRoom self.new.table) }
        ensures fits { HasListRoom self.old.table → IsOk result }
        ensures contents { KeepsContents self.old self.new }
        ensures stays { KeepsStore self.old self.new }
    {
        self.table.reserve_layout()
    }

    /// Adds a layout under the next number, in reserved memory.
    pub(crate) fn add_layout(&mut self)
        requires { HasListRoom self.old.table }
        ensures settings { settings_of self.new.table ≡ record (settings_of self.old.table)
            { layouts = layouts_of self.old.table + 1 } }
        ensures contents { KeepsContents self.old self.new }
    {
        self.table.add_layout();
    }

    /// Adds a layout under the number of a removed one of which no set is left. `None` if there is no
    /// such number.
    pub(crate) fn renew_layout(&mut self) -> Option<u32>
        ensures renews { IfSome result (λ layout. Renewed layout self.old.table self.new.table) }
        ensures none { result ≡ None → AreNoneFree self.old.table × OnlySettings (settings_of
            self.old.table) self.old.table self.new.table }
        ensures room { HasListRoom self.old.table → HasListRoom self.new.table }
        ensures contents { KeepsContents self.old self.new }
    {
        self.table.renew_layout()
    }

    /// Reserves memory in the table for `many` more sets.
    #[inline]
    fn reserve(&mut self, many: u32) -> Result<(), AllocationError>
        ensures room { OnOk result (HasRoom many self.new.table) }
        ensures lacks { IfErr result (λ error. LacksRoom many error self.old self.new) }
        ensures contents { KeepsContents self.old self.new }
        ensures stays { KeepsStore self.old self.new }
    {
        if self.table.reserve(many).is_err() {
            return Err(AllocationError::OutOfHostMemory);
        }
        Ok(())
    }

    /// Whether `many` sets of a layout alone exceed the limit on update-after-bind descriptors. A
    /// request for them fails even if no other set is live.
    fn exceeds_limit(&self, known: &SetLayout<L>, many: u32) -> bool
        requires { IsMeant D.meaning known.now }
        ensures { IsTrue result ↔ ExceedsLimitAlone known.now.layout many self.now }
    {
        let limit = self.allocator.update_after_bind_limit();
        is_marked(known) && u128::from(many) * u128::from(known.counts.total()) > u128::from(limit)
    }

    /// Bounds a new pool to `max` descriptors, unless the sets still needed have more. `None` removes
    /// the bound.
    pub(crate) fn set_max_pool_descriptors(&mut self, max: Option<u64>)
        ensures bound { self.new.allocator.bound ≡ max }
        ensures table { self.new.table ≡ self.old.table }
        ensures ledger { (side_of self.new).ledger ≡ (side_of self.old).ledger }
        ensures besides { pools_besides self.new ≡ pools_besides self.old }
        ensures limit { self.new.allocator.limit ≡ self.old.allocator.limit }
        ensures coming { self.new.coming.items ≡ self.old.coming.items }
    {
        self.allocator.set_max_pool_descriptors(max);
    }

    /// The bound on the descriptors of a new pool, `None` without one.
    pub(crate) fn max_pool_descriptors(&self) -> Option<u64>
        ensures { result ≡ self.now.allocator.bound }
    {
        self.allocator.max_pool_descriptors()
    }

    /// The raw set of a handle, while `frame` is the open frame if `is_open`.
    #[inline]
    pub(crate) fn get(&self, handle: SetHandle, frame: u64, is_open: bool) -> Option<&S>
        ensures { option_copied result ≡ option_map raw_in (find self.now.table.number frame is_open
            (slots_in self.now) handle) }
    {
        let set = self.table.get(handle, frame, is_open)?;
        Some(set.raw())
    }

    /// How many sets of a layout are kept.
    pub(crate) fn kept_count(&self, layout: u32) -> u32
        requires { HasLayout layout self.now.table }
        ensures count { result ≡ kept_of layout self.now }
        ensures few { result ≤ self.now.table.keep }
    {
        self.table.kept_count(layout)
    }

    /// How many sets are kept. It visits the layouts.
    pub(crate) fn kept(&self) -> u64
        ensures { result ≡ count is_kept (slots_in self.now) }
    {
        self.table.kept_total()
    }

    /// How many sets wait for a frame. It reads one number.
    pub(crate) fn waiting(&self) -> u64
        ensures { result ≡ count waits (slots_in self.now) }
    {
        self.table.waiting_total()
    }

    /// How many sets are held.
    pub(crate) fn held(&self) -> u64
        requires { IsAtRest self.now }
        ensures { result ≡ count holds (slots_in self.now) }
    {
        self.allocator.outstanding() - self.waiting() - self.kept()
    }

    pub(crate) fn device(&self) -> &D
        ensures { D.ledger result.now ≡ (side_of self.now).ledger }
    {
        &self.device
    }

    /// Returns the device without a call to it.
    pub(crate) fn into_device(self) -> D
        ensures { D.ledger result ≡ (side_of self).ledger }
    {
        let Store {
            device,
            allocator: _,
            table: _,
            coming: _,
            layout: _,
        } = self;
        device
    }

    /// The allocator, to read.
    pub(crate) fn allocator(&self) -> &DescriptorAllocator<P, S>
        ensures { result.now ≡ (side_of self.now).value }
    {
        &self.allocator
    }
}

/// Whether a layout is for update-after-bind.
pub(crate) fn is_marked<L>(layout: &SetLayout<L>) -> bool
    ensures { result ≡ flags.is_marked layout.now.flags }
{
    let mark = DescriptorSetLayoutCreateFlags::UPDATE_AFTER_BIND;
    layout.flags.contains(mark)
}
