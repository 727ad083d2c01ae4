//! What a request sees of the existing pools of its key: the newest of the open ones, which are those with
//! known free places.
ghost use Rattle.std.specs.Prelude.{◌≡◌, ◌==◌, ◌+◌, ◌<◌, ◌≤◌, ◌++◌, ◌^◌, List, length, map};
ghost use Rattle.std.specs.Prelude.{All, IfErr, OnOk, false, true};
ghost use Rattle.gpu_descriptor_types.specs.Ledger.{pool_refusals};
ghost use Rattle.gpu_descriptor_types.specs.Meaning.{IsOfLayout};
ghost use Rattle.gpu_descriptor.specs.declared.bucket.stop.Stop.TheVariants.{ExistingPoolWithoutMemory};
ghost use Rattle.gpu_descriptor.specs.Caller.States.{entry_of};
ghost use Rattle.gpu_descriptor.specs.Inner.Buckets.{AreBookedIn};
ghost use Rattle.gpu_descriptor.specs.Inner.KeyOf.{key_of};
ghost use Rattle.gpu_descriptor.specs.Inner.SetAt.{set_at};
ghost use Rattle.gpu_descriptor.specs.Inner.Stored.{bucket_of};
ghost use Rattle.gpu_descriptor.specs.Inner.Walk.{AsksNewest, IsAsked, IsRefused};
ghost use Rattle.gpu_descriptor.specs.Model.Agreement.{IsBookedIn};

use crate::bucket::request::SetRequest;
use crate::bucket::request_sink::RequestSink;
use crate::bucket::stop::is_of_pool;
use crate::bucket::{DescriptorBucket, DescriptorPool};
use crate::places::SetPlaces;
use gpu_descriptor_types::{DescriptorDevice, DeviceAllocationError, Layouts, Tally};

/// A bucket of which only the newest open pool is read, once a look.
#[derive(Drop)]
pub(crate) struct OpenPools<'a, 'b, P> {
    bucket: &'a mut DescriptorBucket<P>,

    /// Each read of a pool's books counts as a look.
    looks: &'b mut Tally,
}

impl<'a, 'b, P> OpenPools<'a, 'b, P> {
    pub(crate) fn new(bucket: &'a mut DescriptorBucket<P>, looks: &'b mut Tally) -> Self
        ensures bucket { result.bucket.now ≡ bucket.old }
        ensures looks { result.looks.now ≡ looks.old }
        ensures same_bucket { result.bucket.ghost_name ≡ bucket.entry.ghost_name }
        ensures same_looks { result.looks.ghost_name ≡ looks.entry.ghost_name }
    {
        OpenPools { bucket, looks }
    }

    /// Whether no pool is open.
    #[inline]
    pub(crate) fn is_empty(&self) -> bool
        ensures { result ≡ (length self.now.bucket.now.listed.ordinals.items == 0) }
    {
        self.bucket.listed.is_empty()
    }

    /// Asks the newest open pool for the sets still needed, which is one look at its books.
    #[inline(always)]
    pub(crate) fn ask_newest<'k, L, S, D: DescriptorDevice<L, P, S>, K: SetPlaces<S>>(
        &mut self,
        device: &mut D,
        request: &'k SetRequest<'_, L, P, S, D>,
        sink: &mut RequestSink<'k, S, K>,
    ) -> Result<(), DeviceAllocationError>
        requires booked { AreBookedIn (key_of request.now.key) (D.ledger device.old).pools
            (bucket_of D.meaning.pool_name self.old.bucket.now).pools }
        requires some { 0 < sink.old.left }
        requires some_open { 0 < length self.old.bucket.now.listed.ordinals.items }
        requires bound { self.old.bucket.now.total + sink.old.left < 2 ^ 64 }
        ensures asked { OnOk result ((a : AsksNewest self.old.bucket.now self.new.bucket.now) ×
            (put : List S) × (K.items sink.new.sets ≡ K.items sink.old.sets ++ map (set_at
            (key_of request.now.key) self.old.bucket.now.id a.was.number) put) ×
            (sink.new.left + length put ≡ sink.old.left) ×
            IsAsked (key_of request.now.key) sink.old.left (map D.meaning.set_name put)
            (entry_of D.meaning.pool_name a.was) (entry_of D.meaning.pool_name a.is)
            (D.ledger device.old) (D.ledger device.new) ×
            All (IsOfLayout D.meaning request.now.layout.now) put) }
        ensures err { IfErr result (λ e. (a : AsksNewest self.old.bucket.now self.new.bucket.now) ×
            (K.items sink.new.sets ≡ K.items sink.old.sets) × (sink.new.left ≡ sink.old.left) ×
            (entry_of D.meaning.pool_name a.is ≡ entry_of D.meaning.pool_name a.was) ×
            (pool_refusals e ≡ 0) × IsRefused (ExistingPoolWithoutMemory e)
            (D.ledger device.old) (D.ledger device.new)) }
        ensures total { self.new.bucket.now.total + sink.new.left
            ≡ self.old.bucket.now.total + sink.old.left }
        ensures looks { self.new.looks.now.count ≡ self.old.looks.now.count + 1 }
        ensures same_bucket { self.new.bucket.ghost_name ≡ self.old.bucket.ghost_name }
        ensures same_looks { self.new.looks.ghost_name ≡ self.old.looks.ghost_name }
    {
        *self.looks = Tally::next(self.looks);
        let bucket = &mut *self.bucket;
        let place = (bucket.listed.newest() - bucket.first_ordinal()) as usize;
        let wanted = sink.left;
        let pool = &mut bucket.pools[place];
        sink.aim(&request.key, bucket.id, pool.number);
        let asked = ask(device, pool, request, sink);
        bucket.listed.close_newest(pool.available);
        bucket.total += u64::from(wanted - sink.left);
        asked
    }
}

/// Asks a pool with known free places for the sets still needed, or for as many as it is known to have.
///
/// If the pool refuses as fragmented or full, it has no known free places until some of its sets are
/// freed. If memory has run out, the error is returned. Neither gives a set.
#[inline]
fn ask<L, P, S, D: DescriptorDevice<L, P, S>, K: SetPlaces<S>>(
    device: &mut D,
    pool: &mut DescriptorPool<P>,
    request: &SetRequest<'_, L, P, S, D>,
    sink: &mut RequestSink<'_, S, K>,
) -> Result<(), DeviceAllocationError>
    requires booked { IsBookedIn (key_of request.now.key) (D.ledger device.old).pools
        (entry_of D.meaning.pool_name pool.old) }
    requires some { 0 < sink.old.left }
    requires free { 0 < pool.old.available }
    ensures asked { OnOk result ((put : List S) ×
        (K.items sink.new.sets ≡ K.items sink.old.sets ++ map (set_at (key_of sink.old.key.now)
        sink.old.id sink.old.number) put) × (sink.new.left + length put ≡ sink.old.left) ×
        IsAsked (key_of request.now.key) sink.old.left (map D.meaning.set_name put)
        (entry_of D.meaning.pool_name pool.old) (entry_of D.meaning.pool_name pool.new)
        (D.ledger device.old) (D.ledger device.new) ×
        All (IsOfLayout D.meaning request.now.layout.now) put) }
    ensures number { pool.new.number ≡ pool.old.number }
    ensures capacity { pool.new.capacity ≡ pool.old.capacity }
    ensures left { sink.new.left ≤ sink.old.left }
    ensures allocated { pool.new.allocated + sink.new.left ≡ pool.old.allocated + sink.old.left }
    ensures err { IfErr result (λ e. (K.items sink.new.sets ≡ K.items sink.old.sets) ×
        (sink.new.left ≡ sink.old.left) × (entry_of D.meaning.pool_name pool.new
        ≡ entry_of D.meaning.pool_name pool.old) × (pool_refusals e ≡ 0) ×
        IsRefused (ExistingPoolWithoutMemory e) (D.ledger device.old) (D.ledger device.new)) }
{
    let count = sink.left.min(pool.available);
    match device.alloc_descriptor_sets(&mut pool.pool, Layouts::new(request.layout, count), sink) {
        Ok(()) => {
            pool.allocated += count;
            pool.available -= count;
            Ok(())
        }
        Err(error) => {
            if is_of_pool(error) {
                pool.available = 0;
                Ok(())
            } else {
                Err(error)
            }
        }
    }
}
