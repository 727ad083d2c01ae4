//! The front of a bucket: its oldest pools, which are destroyed when they have no sets.
ghost use Rattle.std.specs.Prelude.{◌≡◌, ◌+◌, ◌<◌, ◌^◌};
ghost use Rattle.gpu_descriptor.specs.Model.Books.{Key};
ghost use Rattle.gpu_descriptor.specs.Inner.Buckets.{AreBookedIn, bucket_but_front, ledger_but_front};
ghost use Rattle.gpu_descriptor.specs.Inner.KeyOf.{key_of};
ghost use Rattle.gpu_descriptor.specs.Inner.Stored.{bucket_of};
ghost use Rattle.gpu_descriptor.specs.Model.Load.{pools_load};

use crate::bucket::{DescriptorBucket, first_ordinal_of};
use crate::key::BucketKey;
use gpu_descriptor_types::DescriptorDevice;

impl<P> DescriptorBucket<P> {
    /// Destroys the pools without sets at the front, except the last `keep` pools. The limit has room
    /// for their descriptors again.
    #[inline]
    pub(crate) fn destroy_empty_front<L, S, D: DescriptorDevice<L, P, S>>(
        &mut self,
        device: &mut D,
        key: &BucketKey,
        room: &mut u32,
        keep: usize,
    )
        requires room { room.old + pools_load (key_of key.now) self.old.pools.items < 2 ^ 32 }
        requires stored { (k : Key) × AreBookedIn k (D.ledger device.old).pools
            (bucket_of D.meaning.pool_name self.old).pools }
        ensures books { bucket_of D.meaning.pool_name self.new ≡ bucket_but_front keep
            (bucket_of D.meaning.pool_name self.old) }
        ensures ledger { D.ledger device.new ≡ ledger_but_front keep
            (bucket_of D.meaning.pool_name self.old) (D.ledger device.old) }
        ensures flag { 0 < keep → self.new.may_have_empty ≡ self.old.may_have_empty }
        ensures total { self.new.total ≡ self.old.total }
        ensures room { room.new + pools_load (key_of key.now) self.new.pools.items
            ≡ room.old + pools_load (key_of key.now) self.old.pools.items }
    {
        while self.pools.len() > keep && self.pools[0].allocated == 0 {
            let front = self.pools.pop_front().unwrap();
            self.listed.remove_oldest(front.available);
            self.first = first_ordinal_of(&self.pools);
            self.may_have_empty = (keep > 0) | !self.pools.is_empty();
            *room += key.marked_descriptors_of_pool(front.capacity);
            device.destroy_descriptor_pool(front.pool);
        }
    }
}
