//! Allocating sets.
ghost use Rattle.std.specs.Prelude.{◌≡◌, ◌-◌, ◌++◌, OnErr, [], ◌∷◌, OnOk, vec_capacity, vec_len};
ghost use Rattle.gpu_descriptor_types.specs.Counts.{kinds};
ghost use Rattle.gpu_descriptor_types.specs.Side.{side};
ghost use Rattle.gpu_descriptor.specs.Caller.Flags.{is_marked};
ghost use Rattle.gpu_descriptor.specs.Caller.Call.{layout_key, map_ok};
ghost use Rattle.gpu_descriptor.specs.Caller.Certain.{HasRefused, IsProvided};
ghost use Rattle.gpu_descriptor.specs.Caller.States.{Agrees};
ghost use Rattle.gpu_descriptor.specs.Caller.SetLayouts.{IsMeant};
ghost use Rattle.gpu_descriptor.specs.Caller.SetLists.{appended};

use super::FrameManager;
use gpu_descriptor::{
    AllocationError, DescriptorDevice, DescriptorSet, DescriptorSetLayoutCreateFlags,
    DescriptorTotalCount, SetLayout,
};
use std::vec::Vec;

impl<P: Drop, S: Drop> FrameManager<P, S> {
    ghost use Rattle.descriptor_frames.specs.Frames.{HandsOutForUse, allocator_of};

    /// Allocates sets. Same as `DescriptorAllocator::allocate`; retired sets stay.
    pub fn allocate<L, D: DescriptorDevice<L, P, S>>(
        &mut self,
        device: &mut D,
        layout: &L,
        flags: DescriptorSetLayoutCreateFlags,
        layout_descriptor_count: &DescriptorTotalCount,
        count: u32,
    ) -> Result<Vec<DescriptorSet<S>>, AllocationError>
        requires counts { kinds layout_descriptor_count.now ≡ D.meaning.counts layout.now }
        requires mark { is_marked flags ≡ D.meaning.mark layout.now }
        requires agree { Agrees D.meaning.pool_name (allocator_of self.old) (D.ledger device.old) }

        ensures { HandsOutForUse D.meaning layout.now count (map_ok (λ sets. sets.items) result)
            (side self.old (D.ledger device.old)) (side self.new (D.ledger device.new)) }
    {
        self.allocator
            .allocate(device, layout, flags, layout_descriptor_count, count)
    }

    /// Allocates sets. Same as `DescriptorAllocator::allocate_for`; retired sets stay.
    pub fn allocate_for<L, D: DescriptorDevice<L, P, S>>(
        &mut self,
        device: &mut D,
        layout: &SetLayout<L>,
        count: u32,
    ) -> Result<Vec<DescriptorSet<S>>, AllocationError>
        requires meant { IsMeant D.meaning layout.now }
        requires agree { Agrees D.meaning.pool_name (allocator_of self.old) (D.ledger device.old) }

        ensures { HandsOutForUse D.meaning layout.now.layout count (map_ok (λ sets. sets.items) result)
            (side self.old (D.ledger device.old)) (side self.new (D.ledger device.new)) }
    {
        self.allocator.allocate_for(device, layout, count)
    }

    /// Appends sets to a vector. Same as `DescriptorAllocator::allocate_into`; retired sets stay.
    pub fn allocate_into<L, D: DescriptorDevice<L, P, S>>(
        &mut self,
        device: &mut D,
        layout: &SetLayout<L>,
        count: u32,
        sets: &mut Vec<DescriptorSet<S>>,
    ) -> Result<(), AllocationError>
        requires meant { IsMeant D.meaning layout.now }
        requires agree { Agrees D.meaning.pool_name (allocator_of self.old) (D.ledger device.old) }

        ensures hands_out { HandsOutForUse D.meaning layout.now.layout count
            (map_ok (λ done. appended sets.old.items sets.new.items) result)
            (side self.old (D.ledger device.old)) (side self.new (D.ledger device.new)) }
        ensures front { OnOk result (sets.new.items
            ≡ sets.old.items ++ appended sets.old.items sets.new.items) }
        ensures sets_stay { OnErr result (sets.new.items ≡ sets.old.items) }
        ensures certain { IsProvided D.meaning (layout_key D.meaning layout.now.layout) count
            (vec_capacity sets.old - vec_len sets.old) (side (allocator_of self.old)
            (D.ledger device.old))
            → OnErr result (HasRefused (D.ledger device.old) (D.ledger device.new)) }
    {
        self.allocator.allocate_into(device, layout, count, sets)
    }

    /// Allocates one set. Same as `DescriptorAllocator::allocate_one`; retired sets stay.
    pub fn allocate_one<L, D: DescriptorDevice<L, P, S>>(
        &mut self,
        device: &mut D,
        layout: &SetLayout<L>,
    ) -> Result<DescriptorSet<S>, AllocationError>
        requires meant { IsMeant D.meaning layout.now }
        requires agree { Agrees D.meaning.pool_name (allocator_of self.old) (D.ledger device.old) }

        ensures hands_out { HandsOutForUse D.meaning layout.now.layout 1
            (map_ok (λ set. set ∷ []) result) (side self.old (D.ledger device.old))
            (side self.new (D.ledger device.new)) }
        ensures certain { IsProvided D.meaning (layout_key D.meaning layout.now.layout) 1 1
            (side (allocator_of self.old) (D.ledger device.old))
            → OnErr result (HasRefused (D.ledger device.old) (D.ledger device.new)) }
    {
        self.allocator.allocate_one(device, layout)
    }
}
