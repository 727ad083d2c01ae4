//! A request for sets of one key: what it asks for, and how the key's bucket serves it.
ghost use Rattle.std.specs.Prelude.{◌≡◌, ◌+◌, ◌<◌, ◌≤◌, ◌^◌, length, IfErr, IsOk, OnOk};
ghost use Rattle.gpu_descriptor.specs.Caller.Call.{layout_key};
ghost use Rattle.gpu_descriptor.specs.Caller.SetLists.{appended};
ghost use Rattle.gpu_descriptor.specs.Caller.Sets.{items_of};
ghost use Rattle.gpu_descriptor.specs.Inner.Buckets.{AreBookedIn};
ghost use Rattle.gpu_descriptor.specs.Inner.Grow.{IsTaken};
ghost use Rattle.gpu_descriptor.specs.Inner.KeyOf.{key_of};
ghost use Rattle.gpu_descriptor.specs.Inner.Walk.{CountsLooks};
ghost use Rattle.gpu_descriptor.specs.Inner.Serves.{Appends, IsUnserved};
ghost use Rattle.gpu_descriptor.specs.Inner.Stored.{bucket_of};
ghost use Rattle.gpu_descriptor.specs.Model.Books.{number_after, numbers_of};
ghost use Rattle.gpu_descriptor.specs.Model.Load.{pools_load};

use crate::bucket::existing::take_from_existing;
use crate::bucket::open_pools::OpenPools;
use crate::bucket::request_sink::RequestSink;
use crate::bucket::stop::Stop;
use crate::bucket::{DescriptorBucket, would_exceed_64_bits};
use crate::budget::Budget;
use crate::errors::AllocationError;
use crate::key::BucketKey;
use crate::places::SetPlaces;
use gpu_descriptor_types::{DescriptorDevice, greatest_count};
use std::alloc::Global;
use std::marker::PhantomData;

/// A request for `count` sets of a layout, whose pools have this key.
#[derive(Drop)]
pub(crate) struct SetRequest<'a, L, P, S, D: DescriptorDevice<L, P, S>> {
    pub(crate) layout: &'a L,
    pub(crate) key: BucketKey,
    pub(crate) count: u32,

    /// What allocates memory for the books of a new key.
    pub(crate) alloc: Global,
    pub(crate) device: PhantomData<(P, S, D)>,
    ghost same: { key_of key ≡ layout_key D.meaning layout.now },
}

impl<P: Drop> DescriptorBucket<P> {
    /// Makes room for the sets of a request, which are then still needed. It fails if the numbers of
    /// `count` new pools would exceed 64 bits.
    #[inline(always)]
    pub(crate) fn prepare<S, K: SetPlaces<S>>(
        &self,
        count: u32,
        sink: &mut RequestSink<'_, S, K>,
    ) -> Result<(), AllocationError>
        ensures sets { K.items sink.new.sets ≡ K.items sink.old.sets }
        ensures left { OnOk result (sink.new.left ≡ count) }
        ensures numbers { OnOk result (number_after (numbers_of self.now.pools.items) + count
            < 2 ^ 64) }
        ensures refused { IfErr result (IsUnserved count (number_after
            (numbers_of self.now.pools.items))) }
        ensures fits { count ≤ K.places sink.old.sets
            → number_after (numbers_of self.now.pools.items) + count < 2 ^ 64 → IsOk result }
    {
        if would_exceed_64_bits(self.next_number(), count) {
            return Err(AllocationError::Fragmentation);
        }
        if sink.make_room(count).is_err() {
            return Err(AllocationError::OutOfHostMemory);
        }
        Ok(())
    }

    /// Takes the sets that the sink still needs: from existing pools, and then from new ones.
    #[inline(always)]
    pub(crate) fn take<'k, L, S, D: DescriptorDevice<L, P, S>, K: SetPlaces<S>>(
        &mut self,
        device: &mut D,
        request: &'k SetRequest<'_, L, P, S, D>,
        budget: &mut Budget,
        sink: &mut RequestSink<'k, S, K>,
    ) -> Result<(), Stop>
        requires booked { AreBookedIn (key_of request.now.key) (D.ledger device.old).pools
            (bucket_of D.meaning.pool_name self.old).pools }
        requires bound { self.old.total + request.now.count < 2 ^ 64 }
        requires numbers { number_after (numbers_of self.old.pools.items) + request.now.count
            < 2 ^ 64 }
        requires left { sink.old.left ≡ request.now.count }
        ensures taken { IsTaken result budget.old.bound (key_of request.now.key) budget.old.room
            request.now.count
            (items_of D.meaning.set_name
            (appended (K.items sink.old.sets) (K.items sink.new.sets)))
            (bucket_of D.meaning.pool_name self.old) (bucket_of D.meaning.pool_name self.new)
            (D.ledger device.old) (D.ledger device.new) }
        ensures appends { Appends D.meaning request.now.layout.now request.now.count sink.new.left
            (K.items sink.old.sets) (K.items sink.new.sets) }
        ensures id_stays { self.new.id ≡ self.old.id }
        ensures flag_stays { self.new.may_have_empty ≡ self.old.may_have_empty }
        ensures total { self.new.total ≡ self.old.total
            + length (appended (K.items sink.old.sets) (K.items sink.new.sets)) }
        ensures all { OnOk result (sink.new.left ≡ 0) }
        ensures room { budget.new.room + pools_load (key_of request.now.key) self.new.pools.items
            ≡ budget.old.room + pools_load (key_of request.now.key) self.old.pools.items }
        ensures bound { budget.new.bound ≡ budget.old.bound }
        ensures looks { CountsLooks budget.old.looks.count budget.new.looks.count
            (D.ledger device.old) (D.ledger device.new) }
    {
        let mut open_pools = OpenPools::new(self, &mut budget.looks);
        take_from_existing(device, &mut open_pools, request, sink).map_err(
            Stop::ExistingPoolWithoutMemory,
        )?;
        if sink.left == 0 {
            return Ok(());
        }
        // Once for all new pools of the request, and not if it needs none.
        let greatest_count = greatest_count(&request.key.counts);
        while sink.left > 0 {
            self.take_from_new(device, request, greatest_count, budget, sink)?;
        }
        Ok(())
    }
}
