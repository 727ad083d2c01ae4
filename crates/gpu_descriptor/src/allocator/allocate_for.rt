//! Allocating sets of a layout that is stored with its counts and flags.
ghost use Rattle.std.specs.Prelude.{[], ◌∷◌, ◌-◌, IfOk, OnErr, vec_capacity, vec_len};
ghost use Rattle.gpu_descriptor_types.specs.Meaning.{IsOfLayout};
ghost use Rattle.gpu_descriptor_types.specs.Side.{side};
ghost use Rattle.gpu_descriptor.specs.Caller.Call.{layout_key, map_ok};
ghost use Rattle.gpu_descriptor.specs.Caller.Certain.{HasRefused, IsProvided};
ghost use Rattle.gpu_descriptor.specs.Caller.HandsOut.{HandsInto, HandsOut};
ghost use Rattle.gpu_descriptor.specs.Caller.Keeps.{Keeps};
ghost use Rattle.gpu_descriptor.specs.Caller.SetLayouts.{IsMeant};
ghost use Rattle.gpu_descriptor.specs.Caller.Sets.{AreOfLayout, raw_of};
ghost use Rattle.gpu_descriptor.specs.Caller.States.{Agrees};

use super::DescriptorAllocator;
use crate::errors::AllocationError;
use crate::layout::SetLayout;
use crate::set::DescriptorSet;
use gpu_descriptor_types::DescriptorDevice;
use std::mem::replace;
use std::vec::Vec;

impl<P: Drop, S: Drop> DescriptorAllocator<P, S> {
    /// Same as `allocate`, for a layout that is stored with its counts and flags.
    pub fn allocate_for<L, D: DescriptorDevice<L, P, S>>(
        &mut self,
        device: &mut D,
        layout: &SetLayout<L>,
        count: u32,
    ) -> Result<Vec<DescriptorSet<S>>, AllocationError>
        requires meant { IsMeant D.meaning layout.now }
        requires agree { Agrees D.meaning.pool_name self.old (D.ledger device.old) }

        ensures hands_out { HandsOut D.meaning (layout_key D.meaning layout.now.layout) count
            (map_ok (λ sets. sets.items) result) (side self.old (D.ledger device.old)) (side self.new (D.ledger device.new)) }
        ensures own { IfOk result (λ sets. AreOfLayout D.meaning layout.now.layout sets.items) }
        ensures keeps { Keeps D.meaning (side self.old (D.ledger device.old))
            (side self.new (D.ledger device.new)) }
    {
        let none = Vec::new(self.alloc);
        let (sets, answer) = self.append_sets(device, &layout.layout, layout.key(), count, none);
        answer?;
        Ok(sets)
    }

    /// Same as `allocate_for`, but the sets are appended to a vector. It grows only if it has no
    /// capacity for `count` more. If that allocation fails, the call returns `OutOfHostMemory` before
    /// the device is asked. On an error the vector has the sets that it had.
    pub fn allocate_into<L, D: DescriptorDevice<L, P, S>>(
        &mut self,
        device: &mut D,
        layout: &SetLayout<L>,
        count: u32,
        sets: &mut Vec<DescriptorSet<S>>,
    ) -> Result<(), AllocationError>
        requires meant { IsMeant D.meaning layout.now }
        requires agree { Agrees D.meaning.pool_name self.old (D.ledger device.old) }

        // The request's sets are those that were appended.
        ensures appends { HandsInto D.meaning layout.now.layout count result sets.old.items
            sets.new.items (side self.old (D.ledger device.old))
            (side self.new (D.ledger device.new)) }

        // With room in the vector and known free places, only the device refuses.
        ensures certain { IsProvided D.meaning (layout_key D.meaning layout.now.layout) count
            (vec_capacity sets.old - vec_len sets.old) (side self.old (D.ledger device.old))
            → OnErr result (HasRefused (D.ledger device.old) (D.ledger device.new)) }
        ensures keeps { Keeps D.meaning (side self.old (D.ledger device.old))
            (side self.new (D.ledger device.new)) }
    {
        let given = replace(sets, Vec::new(self.alloc));
        let (given, answer) = self.append_sets(device, &layout.layout, layout.key(), count, given);
        *sets = given;
        answer
    }

    /// Same as `allocate_for` with a count of 1, but returns the set without a vector.
    pub fn allocate_one<L, D: DescriptorDevice<L, P, S>>(
        &mut self,
        device: &mut D,
        layout: &SetLayout<L>,
    ) -> Result<DescriptorSet<S>, AllocationError>
        requires meant { IsMeant D.meaning layout.now }
        requires agree { Agrees D.meaning.pool_name self.old (D.ledger device.old) }

        ensures hands_out { HandsOut D.meaning (layout_key D.meaning layout.now.layout) 1
            (map_ok (λ set. set ∷ []) result) (side self.old (D.ledger device.old)) (side self.new (D.ledger device.new)) }

        // With known free places, only the device refuses.
        ensures certain { IsProvided D.meaning (layout_key D.meaning layout.now.layout) 1 1
            (side self.old (D.ledger device.old))
            → OnErr result (HasRefused (D.ledger device.old) (D.ledger device.new)) }
        ensures own { IfOk result (λ set. IsOfLayout D.meaning layout.now.layout (raw_of set)) }
        ensures keeps { Keeps D.meaning (side self.old (D.ledger device.old))
            (side self.new (D.ledger device.new)) }
    {
        let (set, answer) = self.append_sets(device, &layout.layout, layout.key(), 1, None);
        answer?;
        match set {
            Some(set) => Ok(set),
            None => unreachable!(),
        }
    }
}
