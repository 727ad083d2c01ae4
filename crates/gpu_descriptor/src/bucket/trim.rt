//! The empty pools of a bucket, which a cleanup or a trim destroys.
ghost use Rattle.std.specs.Prelude.{◌≡◌, ◌+◌, ◌<◌, ◌≤◌, ◌^◌, IsTrue, filter, length, map, false, true};
ghost use Rattle.std.specs.VecDeque.{deque_capacity};
ghost use Rattle.gpu_descriptor.specs.Inner.Buckets.{AreBookedIn, ledger_but};
ghost use Rattle.gpu_descriptor.specs.Inner.KeyOf.{key_of};
ghost use Rattle.gpu_descriptor.specs.Inner.OpenOrdinals.{first_ordinal, free_in, open_ordinals};
ghost use Rattle.gpu_descriptor.specs.Inner.Stored.{bucket_of};
ghost use Rattle.gpu_descriptor.specs.Caller.States.{entry_of};
ghost use Rattle.gpu_descriptor.specs.Model.Books.{Key, number_after, numbers_of, rises};
ghost use Rattle.gpu_descriptor.specs.Model.Cleanup.{gone_of, left_of};
ghost use Rattle.gpu_descriptor.specs.Model.Load.{pools_load};
ghost use Rattle.gpu_descriptor.specs.Model.Release.{has_sets};

use crate::bucket::{DescriptorBucket, DescriptorPool, first_ordinal_of};
use crate::key::BucketKey;
use gpu_descriptor_types::DescriptorDevice;
use std::collections::VecDeque;

impl<P> DescriptorBucket<P> {
    /// Destroys the pools without sets, everywhere or only at the front. The limit has room for their
    /// descriptors again.
    #[inline(always)]
    pub(crate) fn destroy_empty<L, S, D: DescriptorDevice<L, P, S>>(
        &mut self,
        device: &mut D,
        key: &BucketKey,
        room: &mut u32,
        everywhere: bool,
    )
        requires room { room.old + pools_load (key_of key.now) self.old.pools.items < 2 ^ 32 }
        requires stored { (k : Key) × AreBookedIn k (D.ledger device.old).pools
            (bucket_of D.meaning.pool_name self.old).pools }
        ensures books { bucket_of D.meaning.pool_name self.new
            ≡ record (bucket_of D.meaning.pool_name self.old) {
              pools = left_of everywhere
                  (bucket_of D.meaning.pool_name self.old).pools;
            } }
        ensures ledger { D.ledger device.new ≡ ledger_but (gone_of everywhere
            (bucket_of D.meaning.pool_name self.old).pools) (D.ledger device.old) }
        ensures cleared { IsTrue everywhere → self.new.may_have_empty ≡ false }
        ensures total { self.new.total ≡ self.old.total }
        ensures room { room.new + pools_load (key_of key.now) self.new.pools.items
            ≡ room.old + pools_load (key_of key.now) self.old.pools.items }
    {
        if !everywhere {
            self.destroy_empty_front(device, key, room, 0);
            return;
        }
        if !self.may_have_empty {
            return;
        }
        if all_have_sets(&self.pools) {
            self.may_have_empty = false;
            return;
        }
        self.destroy_all_empty(device, key, room);
    }

    /// Destroys the pools without sets. It is out of line, so that a call that finds none saves no registers
    /// for it.
    #[inline(never)]
    fn destroy_all_empty<L, S, D: DescriptorDevice<L, P, S>>(
        &mut self,
        device: &mut D,
        key: &BucketKey,
        room: &mut u32,
    )
        requires room { room.old + pools_load (key_of key.now) self.old.pools.items < 2 ^ 32 }
        requires stored { (k : Key) × AreBookedIn k (D.ledger device.old).pools
            (bucket_of D.meaning.pool_name self.old).pools }
        ensures books { bucket_of D.meaning.pool_name self.new
            ≡ record (bucket_of D.meaning.pool_name self.old) {
              pools = left_of true (bucket_of D.meaning.pool_name self.old).pools;
            } }
        ensures ledger { D.ledger device.new ≡ ledger_but (gone_of true
            (bucket_of D.meaning.pool_name self.old).pools) (D.ledger device.old) }
        ensures cleared { self.new.may_have_empty ≡ false }
        ensures total { self.new.total ≡ self.old.total }
        ensures room { room.new + pools_load (key_of key.now) self.new.pools.items
            ≡ room.old + pools_load (key_of key.now) self.old.pools.items }
    {
        destroy_without_sets(&mut self.pools, device, key, room);
        self.listed.relist(&self.pools);
        self.first = first_ordinal_of(&self.pools);
        self.may_have_empty = false;
    }
}

/// Whether each pool has a set, in fewer instructions than taking each from the front.
fn all_have_sets<P>(pools: &VecDeque<DescriptorPool<P>>) -> bool
    ensures { IsTrue result → filter has_sets pools.now.items ≡ pools.now.items }
{
    for place in 0..pools.len() {
        if pools[place].allocated == 0 {
            return false;
        }
    }
    true
}

/// Destroys the pools without sets. Each pool is taken from the front; those that stay go to the back in
/// their order, where there is capacity for them.
fn destroy_without_sets<L, P, S, D: DescriptorDevice<L, P, S>>(
    pools: &mut VecDeque<DescriptorPool<P>>,
    device: &mut D,
    key: &BucketKey,
    room: &mut u32,
)
    requires room { room.old + pools_load (key_of key.now) pools.old.items < 2 ^ 32 }
    requires stored { (k : Key) × AreBookedIn k (D.ledger device.old).pools
        (map (entry_of D.meaning.pool_name) pools.old.items) }
    ensures left { pools.new.items ≡ filter has_sets pools.old.items }
    ensures capacity { deque_capacity pools.new ≡ deque_capacity pools.old }
    ensures ledger { D.ledger device.new ≡ ledger_but (gone_of true
        (map (entry_of D.meaning.pool_name) pools.old.items)) (D.ledger device.old) }
    ensures room { room.new + pools_load (key_of key.now) pools.new.items
        ≡ room.old + pools_load (key_of key.now) pools.old.items }
{
    for _ in 0..pools.len() {
        let pool = pools.pop_front().unwrap();
        if pool.allocated > 0 {
            pools.push_back_reserved(pool);
        } else {
            *room += key.marked_descriptors_of_pool(pool.capacity);
            device.destroy_descriptor_pool(pool.pool);
        }
    }
}
