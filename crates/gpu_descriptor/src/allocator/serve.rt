//! How a request is served: whether the limit allows it, and what is freed if it fails.
ghost use Rattle.std.specs.Prelude.{◌≡◌, ◌+◌, ◌*◌, ◌<◌, ◌&&◌, nat_lt, sum, Err, None};
ghost use Rattle.std.specs.Prelude.{IfOk, IfErr, IsOk, OnOk, OnErr};
ghost use Rattle.gpu_descriptor_types.specs.Counts.{kinds};
ghost use Rattle.gpu_descriptor_types.specs.Side.{side};
ghost use Rattle.gpu_descriptor.specs.Caller.Call.{call_of, layout_key};
ghost use Rattle.gpu_descriptor.specs.Caller.Certain.{HasRefused, IsProvided};
ghost use Rattle.gpu_descriptor.specs.Caller.HandsOut.{HandsInto};
ghost use Rattle.gpu_descriptor.specs.Caller.Keeps.{Keeps};
ghost use Rattle.gpu_descriptor.specs.Caller.Keys.{with_key};
ghost use Rattle.gpu_descriptor.specs.Caller.SetLists.{appended};
ghost use Rattle.gpu_descriptor.specs.Caller.States.{Agrees, HasIds, keys_of, marked_load_of};
ghost use Rattle.gpu_descriptor.specs.Inner.KeyOf.{key_of};
ghost use Rattle.gpu_descriptor.specs.Inner.Walk.{CountsLooks};
ghost use Rattle.gpu_descriptor.specs.Inner.Serves.{Appends, Takes};
ghost use Rattle.gpu_descriptor.specs.Model.Load.{set_descriptors};
ghost use Rattle.gpu_descriptor.specs.Model.Outcomes.{Allocates, taken_by};

use super::DescriptorAllocator;
use crate::bucket::request::SetRequest;
use crate::bucket::request_sink::RequestSink;
use crate::bucket::stop::{Stop, error_of};
use crate::bucket::would_exceed_64_bits;
use crate::errors::AllocationError;
use crate::key::BucketKey;
use crate::places::SetPlaces;
use gpu_descriptor_types::DescriptorDevice;
use std::marker::PhantomData;

impl<P: Drop, S> DescriptorAllocator<P, S> {
    /// Appends sets of a layout to a list, and returns the list. On an error it has the sets that it
    /// had. See `allocate`.
    #[inline]
    pub(super) fn append_sets<L, D: DescriptorDevice<L, P, S>, K: SetPlaces<S>>(
        &mut self,
        device: &mut D,
        layout: &L,
        key: BucketKey,
        count: u32,
        sets: K,
    ) -> (K, Result<(), AllocationError>)
        requires key { key_of key ≡ layout_key D.meaning layout.now }
        requires agree { Agrees D.meaning.pool_name self.old (D.ledger device.old) }
        ensures appends { HandsInto D.meaning layout.now count result.1 (K.items sets)
            (K.items result.0) (side self.old (D.ledger device.old))
            (side self.new (D.ledger device.new)) }
        ensures certain { IsProvided D.meaning (layout_key D.meaning layout.now) count
            (K.places sets) (side self.old (D.ledger device.old))
            → OnErr result.1 (HasRefused (D.ledger device.old) (D.ledger device.new)) }
        ensures keeps { Keeps D.meaning (side self.old (D.ledger device.old))
            (side self.new (D.ledger device.new)) }
    {
        // It is read before the test, since a proof knows the allocator's invariant only where a field is
        // read, and `keeps` needs the invariant.
        let alloc = self.alloc;
        if count == 0 {
            return (sets, Ok(()));
        }
        let request = SetRequest {
            layout,
            key,
            count,
            alloc,
            device: PhantomData,
        };
        self.fill(device, &request, sets)
    }

    /// Appends the sets of a request to a list; if it fails, frees those that were appended.
    #[inline]
    fn fill<L, D: DescriptorDevice<L, P, S>, K: SetPlaces<S>>(
        &mut self,
        device: &mut D,
        request: &SetRequest<'_, L, P, S, D>,
        sets: K,
    ) -> (K, Result<(), AllocationError>)
        requires some { 0 < request.now.count }
        requires agree { Agrees D.meaning.pool_name self.old (D.ledger device.old) }
        ensures appends { HandsInto D.meaning request.now.layout.now request.now.count result.1
            (K.items sets) (K.items result.0) (side self.old (D.ledger device.old))
            (side self.new (D.ledger device.new)) }
        ensures certain { IsProvided D.meaning (layout_key D.meaning request.now.layout.now)
            request.now.count (K.places sets) (side self.old (D.ledger device.old))
            → OnErr result.1 (HasRefused (D.ledger device.old) (D.ledger device.new)) }
        ensures keeps { Keeps D.meaning (side self.old (D.ledger device.old))
            (side self.new (D.ledger device.new)) }
    {
        let first = sets.count();
        let mut sink = RequestSink::new(sets, &request.key);
        let served = self.serve_if_allowed(device, request, &mut sink);
        let mut sets = sink.into_sets();
        match served {
            Ok(ended) => match ended {
                Ok(()) => (sets, Ok(())),
                Err(stop) => {
                    sets.free_after(first, self, device);
                    (sets, Err(error_of(stop)))
                }
            },
            Err(error) => (sets, Err(error)),
        }
    }

    /// Takes the sets of a request, and counts them. On an error nothing was taken. If the inner result
    /// is an error, the request stopped before its end, and the caller frees the sets that it took.
    ///
    /// New pools are checked against the limit where they are created, by the room in the budget.
    fn serve_if_allowed<'k, L, D: DescriptorDevice<L, P, S>, K: SetPlaces<S>>(
        &mut self,
        device: &mut D,
        request: &'k SetRequest<'_, L, P, S, D>,
        sink: &mut RequestSink<'k, S, K>,
    ) -> Result<Result<(), Stop>, AllocationError>
        requires some { 0 < request.now.count }
        requires agree { Agrees D.meaning.pool_name self.old (D.ledger device.old) }
        ensures taken { IfOk result (λ ended. Takes D.meaning (key_of request.now.key)
            request.now.count (appended (K.items sink.old.sets) (K.items sink.new.sets)) ended
            (side self.old (D.ledger device.old)) (side self.new (D.ledger device.new))) }
        ensures appends { OnOk result (Appends D.meaning request.now.layout.now request.now.count
            sink.new.left (K.items sink.old.sets) (K.items sink.new.sets)) }
        ensures sets { OnErr result (K.items sink.new.sets ≡ K.items sink.old.sets) }
        ensures declined { IfErr result (λ e. (outcome : Allocates (call_of D.meaning
            (key_of request.now.key) request.now.count (side self.old (D.ledger device.old))
            (side self.new (D.ledger device.new)) (Err e))) × (taken_by outcome ≡ None)) }
        ensures looks { CountsLooks self.old.looks self.new.looks
            (D.ledger device.old) (D.ledger device.new) }
        ensures comparisons_stay { self.new.comparisons ≡ self.old.comparisons }
        ensures ids { OnOk result (HasIds D.meaning.pool_name self.new (D.ledger device.new)) }
        ensures certain { IsProvided D.meaning (key_of request.now.key) request.now.count
            (K.places sink.old.sets) (side self.old (D.ledger device.old)) → IsOk result }
        ensures keys { OnOk result (keys_of self.new
            ≡ with_key (key_of request.now.key) (keys_of self.old)) }
        ensures allocator { OnErr result (self.new ≡ self.old) }
        ensures ledger { OnErr result (D.ledger device.new ≡ D.ledger device.old) }
        ensures keeps { Keeps D.meaning (side self.old (D.ledger device.old))
            (side self.new (D.ledger device.new)) }
    {
        let each = request.key.marked_descriptors_of_set();
        // Before the walk over the pools, since this test needs none.
        if self.would_exceed_limit(&request.key, each, request.count) {
            return Err(AllocationError::Fragmentation);
        }
        if would_exceed_64_bits(self.outstanding, request.count) {
            return Err(AllocationError::Fragmentation);
        }
        let ended = self.table.serve(device, request, &mut self.budget, sink)?;
        let taken = u64::from(request.count - sink.left);
        self.outstanding += taken;
        let descriptors = (taken * each) as u32;
        self.update_after_bind_descriptors += descriptors;
        Ok(ended)
    }
}

impl<P, S> DescriptorAllocator<P, S> {
    /// Whether `count` more sets would exceed the limit on marked descriptors, when a set of the key has
    /// `each`.
    fn would_exceed_limit(&self, key: &BucketKey, each: u64, count: u32) -> bool
        requires each { each ≡ set_descriptors (key_of key.now) 1 }
        ensures { result ≡ (key.now.marked && nat_lt (self.now.limit)
            (count * sum (kinds key.now.counts) + marked_load_of self.now)) }
    {
        let unused = self.max_update_after_bind_descriptors_in_all_pools
            - self.update_after_bind_descriptors;
        key.marked && u128::from(count) * u128::from(each) > u128::from(unused)
    }
}
