//! Allocating sets, all or none.
ghost use Rattle.std.specs.Prelude.{◌≡◌, IfOk};
ghost use Rattle.gpu_descriptor_types.specs.Counts.{kinds};
ghost use Rattle.gpu_descriptor_types.specs.Side.{side};
ghost use Rattle.gpu_descriptor.specs.Caller.Call.{layout_key, map_ok};
ghost use Rattle.gpu_descriptor.specs.Caller.Flags.{is_marked};
ghost use Rattle.gpu_descriptor.specs.Caller.HandsOut.{HandsOut};
ghost use Rattle.gpu_descriptor.specs.Caller.Keeps.{Keeps};
ghost use Rattle.gpu_descriptor.specs.Caller.Sets.{AreOfLayout};
ghost use Rattle.gpu_descriptor.specs.Caller.States.{Agrees};

use super::DescriptorAllocator;
use crate::errors::AllocationError;
use crate::flags::DescriptorSetLayoutCreateFlags;
use crate::key::BucketKey;
use crate::set::DescriptorSet;
use gpu_descriptor_types::{DescriptorDevice, DescriptorTotalCount};
use std::vec::Vec;

impl<P: Drop, S: Drop> DescriptorAllocator<P, S> {
    /// Allocates `count` sets of a layout, and returns them in the order in which the device gave them.
    /// A request for 0 sets changes nothing and allocates no memory.
    ///
    /// The existing pools of the layout's key are asked first, from the newest to the oldest, each at
    /// most once, and each for at most the number of free places that it is known to have. A pool that
    /// refuses as fragmented or full is skipped. New pools are created for the sets still needed.
    /// `pool_sets_for_greatest` says how many sets a new pool has; for a marked (update-after-bind)
    /// layout `cut_pool_sets` cuts this number to the room that the limit leaves. Then, for any layout,
    /// `bounded_pool_sets` cuts it to the bound of `set_max_pool_descriptors`.
    ///
    /// On an error a new pool that refused its sets is destroyed, and all sets that the request took are
    /// freed, in the order in which they were allocated, with one device call per run of consecutive
    /// sets from one pool. As sets are freed, the oldest pools of the key are destroyed up to the first
    /// that has a set, except the key's last pool. The errors:
    ///
    /// - `Fragmentation`: the sets of a marked layout would exceed the limit; or the limit leaves no
    ///   room for a new pool of a marked layout; or `count` added to the number of live sets, or to the
    ///   number of the key's next pool, would exceed 64 bits; or the device refused with this error to
    ///   create a pool; or a new pool refused its sets as fragmented or full;
    /// - `OutOfDeviceMemory`: the device returned it, for an existing or a new pool;
    /// - `OutOfHostMemory`: the device returned it; or an allocation failed, for the result or for the
    ///   books of a key or a pool; or no id is left for a new key.
    ///
    /// `flags` and `layout_descriptor_count` must be those of the layout, and `device` the one of all
    /// other calls. The original crate computes the number of descriptors that it compares with the
    /// limit in 32 bits; here it is exact. Its limit counts only the live sets; here it also counts the
    /// pools.
    pub fn allocate<L, D: DescriptorDevice<L, P, S>>(
        &mut self,
        device: &mut D,
        layout: &L,
        flags: DescriptorSetLayoutCreateFlags,
        layout_descriptor_count: &DescriptorTotalCount,
        count: u32,
    ) -> Result<Vec<DescriptorSet<S>>, AllocationError>
        // `Drop`, since a rollback drops what is left of a vector's iterator, whose type doesn't show that
        // it is empty, and the books of an absent key may be dropped. `free` hands all to the device.
        requires counts { kinds layout_descriptor_count.now ≡ D.meaning.counts layout.now }
        requires mark { is_marked flags ≡ D.meaning.mark layout.now }
        requires agree { Agrees D.meaning.pool_name self.old (D.ledger device.old) }

        ensures hands_out { HandsOut D.meaning (layout_key D.meaning layout.now) count
            (map_ok (λ sets. sets.items) result) (side self.old (D.ledger device.old)) (side self.new (D.ledger device.new)) }
        ensures own { IfOk result (λ sets. AreOfLayout D.meaning layout.now sets.items) }
        ensures keeps { Keeps D.meaning (side self.old (D.ledger device.old))
            (side self.new (D.ledger device.new)) }
    {
        let key = BucketKey::of(layout_descriptor_count, flags);
        let none = Vec::new(self.alloc);
        let (sets, answer) = self.append_sets(device, layout, key, count, none);
        answer?;
        Ok(sets)
    }
}
