//! Cleaning up and trimming, which destroy empty pools.
ghost use Rattle.std.specs.Prelude.{◌≡◌, false, true};
ghost use Rattle.gpu_descriptor_types.specs.Side.{side};
ghost use Rattle.gpu_descriptor.specs.Inner.Buckets.{has_pools};
ghost use Rattle.gpu_descriptor.specs.Caller.Call.{layout_key};
ghost use Rattle.gpu_descriptor.specs.Caller.CleansUp.{Sweeps, TrimsKey};
ghost use Rattle.gpu_descriptor.specs.Caller.Keeps.{Keeps};
ghost use Rattle.gpu_descriptor.specs.Caller.SetLayouts.{IsMeant};
ghost use Rattle.gpu_descriptor.specs.Caller.States.{Agrees};

use super::DescriptorAllocator;
use crate::bucket::DescriptorBucket;
use crate::key::BucketKey;
use crate::layout::SetLayout;
use gpu_descriptor_types::DescriptorDevice;

impl<P: Drop, S> DescriptorAllocator<P, S> {
    /// Destroys the oldest pools of each key up to the first that has a set, even the key's last pool,
    /// and removes the keys that then have none. It allocates no memory and can't fail.
    ///
    /// It visits the keys in the order in which they were added. A removed key that is used again
    /// numbers its pools from 0. `device` must be that of all other calls.
    pub fn cleanup<L, D: DescriptorDevice<L, P, S>>(&mut self, device: &mut D)
        requires agree { Agrees D.meaning.pool_name self.old (D.ledger device.old) }
        ensures cleans_up { Sweeps false D.meaning (side self.old (D.ledger device.old))
            (side self.new (D.ledger device.new)) }
        ensures keeps { Keeps D.meaning (side self.old (D.ledger device.old))
            (side self.new (D.ledger device.new)) }
    {
        self.sweep(device, false);
    }

    /// Destroys all pools that have no set, wherever they are, and removes the keys that then have none.
    /// It allocates no memory and can't fail.
    ///
    /// It visits every pool, whereas `cleanup` stops at a key's first pool that has a set. The original
    /// has no such call. `device` must be that of all other calls.
    pub fn trim<L, D: DescriptorDevice<L, P, S>>(&mut self, device: &mut D)
        requires agree { Agrees D.meaning.pool_name self.old (D.ledger device.old) }
        ensures trims { Sweeps true D.meaning (side self.old (D.ledger device.old))
            (side self.new (D.ledger device.new)) }
        ensures keeps { Keeps D.meaning (side self.old (D.ledger device.old))
            (side self.new (D.ledger device.new)) }
    {
        self.sweep(device, true);
    }

    /// Destroys the empty pools everywhere, or only at the front of each key.
    fn sweep<L, D: DescriptorDevice<L, P, S>>(&mut self, device: &mut D, everywhere: bool)
        requires agree { Agrees D.meaning.pool_name self.old (D.ledger device.old) }
        ensures sweeps { Sweeps everywhere D.meaning (side self.old (D.ledger device.old))
            (side self.new (D.ledger device.new)) }
        ensures keeps { Keeps D.meaning (side self.old (D.ledger device.old))
            (side self.new (D.ledger device.new)) }
    {
        for place in 0..self.table.buckets.len() {
            let (key, bucket) = self.table.buckets.pair_mut(place);
            let was = bucket.may_have_empty;
            bucket.destroy_empty(device, key, &mut self.budget.room, everywhere);
            bucket.count_anew(was, &mut self.table.with_empty);
        }
        self.table.buckets.retain(
            |_key: &BucketKey, bucket: &mut DescriptorBucket<P>| -> bool
                ensures { (result ≡ has_pools bucket.old) × (bucket.new ≡ bucket.old) }
            { !bucket.pools.is_empty() },
        );
    }
}

impl<P, S> DescriptorAllocator<P, S> {
    /// Destroys the pools of a layout's key that have no set, wherever they are. It allocates nothing and
    /// can't fail.
    ///
    /// Layouts with the same counts and the same mark have one key, and share its pools. It looks no key up
    /// while no pool can be empty: a key counts from when a pool of it loses its last set until the key is
    /// trimmed. Else it takes a look-up, and goes over no other pools. The key stays, also without pools,
    /// until `cleanup` or `trim` forgets it. The original has no such call. `device` must be that of all
    /// other calls.
    pub fn trim_layout<L, D: DescriptorDevice<L, P, S>>(
        &mut self,
        device: &mut D,
        layout: &SetLayout<L>,
    )
        requires meant { IsMeant D.meaning layout.now }
        requires agree { Agrees D.meaning.pool_name self.old (D.ledger device.old) }
        ensures trims { TrimsKey D.meaning (layout_key D.meaning layout.now.layout)
            (side self.old (D.ledger device.old)) (side self.new (D.ledger device.new)) }
        ensures keeps { Keeps D.meaning (side self.old (D.ledger device.old))
            (side self.new (D.ledger device.new)) }
    {
        if self.table.with_empty == 0 {
            return;
        }
        let key = layout.key();
        let Some(place) = self.table.place_of_key(&key) else {
            return;
        };
        let (key, bucket) = self.table.buckets.pair_mut(place);
        self.table.with_empty -= u64::from(bucket.may_have_empty);
        bucket.destroy_empty(device, key, &mut self.budget.room, true);
    }
}
