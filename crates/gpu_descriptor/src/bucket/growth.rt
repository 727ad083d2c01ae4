//! How a request takes sets from a new pool of its key.
ghost use Rattle.std.specs.Prelude.{◌≡◌, ◌+◌, ◌*◌, ◌<◌, ◌≤◌, ◌++◌, ◌∷◌, ◌^◌, List, [], length, map};
ghost use Rattle.std.specs.Prelude.{All, IfErr, IfSome, IfNone, IsOk, None, OnOk};
ghost use Rattle.std.specs.VecDeque.{deque_capacity};
ghost use Rattle.gpu_descriptor_types.specs.Counts.{greatest, kinds};
ghost use Rattle.gpu_descriptor_types.specs.Flags.{bits, pool_flags as pool_flags_of};
ghost use Rattle.gpu_descriptor_types.specs.Meaning.{IsOfLayout};
ghost use Rattle.gpu_descriptor_types.specs.PoolSize.{greatest_pool_size};
ghost use Rattle.gpu_descriptor.specs.Inner.Grow.{IsGrown};
ghost use Rattle.gpu_descriptor.specs.Inner.KeyOf.{key_of};
ghost use Rattle.gpu_descriptor.specs.Inner.Walk.{CountsLooks};
ghost use Rattle.gpu_descriptor.specs.Inner.SetAt.{set_at};
ghost use Rattle.gpu_descriptor.specs.Inner.Stored.{bucket_of};
ghost use Rattle.gpu_descriptor.specs.Model.Books.{next_number, number_after, numbers_of};
ghost use Rattle.gpu_descriptor.specs.Inner.Walk.{IsRefused};
ghost use Rattle.gpu_descriptor.specs.Model.FreshPools.{IsNextSize};
ghost use Rattle.gpu_descriptor.specs.Model.Load.{pool_descriptors};
ghost use Rattle.gpu_descriptor.specs.Model.Outcomes.{StopsAtNew};

use crate::bucket::request::SetRequest;
use crate::bucket::request_sink::RequestSink;
use crate::bucket::stop::Stop;
use crate::bucket::{DescriptorBucket, DescriptorPool};
use crate::budget::Budget;
use crate::key::BucketKey;
use crate::places::SetPlaces;
use bitflags::Flags;
use gpu_descriptor_types::{
    DescriptorDevice, DescriptorPoolCreateFlags, Layouts, Tally, bounded_pool_sets, counts_of_sets,
    cut_pool_sets, pool_sets_for_greatest,
};
use std::alloc::AllocError;

/// The flags of a new pool: sets are freed singly, and it takes marked sets if its key is marked.
fn pool_flags(marked: bool) -> DescriptorPoolCreateFlags
    ensures { bits result ≡ pool_flags_of marked }
{
    let mut flags = DescriptorPoolCreateFlags::FREE_DESCRIPTOR_SET;
    flags.set(DescriptorPoolCreateFlags::UPDATE_AFTER_BIND, marked);
    flags
}

/// How many sets a key's next pool holds within the limit; `None` if the limit leaves no room for one
/// set.
#[inline]
fn size_in_room(
    key: &BucketKey,
    greatest_count: u32,
    total: u64,
    wanted: u32,
    room: u32,
) -> Option<u32>
    requires { greatest (kinds key.now.counts) ≡ greatest_count }
    ensures sets { IfSome result (λ sets. IsNextSize None (key_of key.now) room total wanted
        sets) }
    ensures none { IfNone result (room < pool_descriptors (key_of key.now) 1) }
{
    let sets = pool_sets_for_greatest(greatest_count, total, wanted);
    if key.marked {
        cut_pool_sets(&key.counts, sets, room)
    } else {
        Some(sets)
    }
}

/// How many sets a key's next pool holds, within the limit and the bound.
#[inline]
fn next_size(
    key: &BucketKey,
    greatest_count: u32,
    total: u64,
    wanted: u32,
    room: u32,
    bound: Option<u64>,
) -> Option<u32>
    requires greatest { greatest (kinds key.now.counts) ≡ greatest_count }
    requires some { 1 ≤ wanted }
    ensures sets { IfSome result (λ sets. IsNextSize bound (key_of key.now) room total wanted
        sets) }
    ensures fits { IfSome result (λ sets. All (λ count. count * sets < 2 ^ 32)
        (kinds key.now.counts)) }
    ensures at_most { IfSome result (λ sets. sets ≤ greatest_pool_size) }
    ensures room { IfSome result (λ sets. (pool_descriptors (key_of key.now) sets ≤ room)
        × (pool_descriptors (key_of key.now) sets < 2 ^ 32)) }
    ensures none { IfNone result (room < pool_descriptors (key_of key.now) 1) }
{
    let sets = size_in_room(key, greatest_count, total, wanted, room)?;
    Some(bounded_pool_sets(&key.counts, sets, wanted, bound))
}

impl<P> DescriptorBucket<P> {
    /// Creates a pool, and takes the sets still needed, or as many as it has.
    ///
    /// A pool of a marked key uses up room for its descriptors. A pool that refuses is destroyed.
    #[inline(never)]
    pub(crate) fn take_from_new<'k, L, S, D: DescriptorDevice<L, P, S>, K: SetPlaces<S>>(
        &mut self,
        device: &mut D,
        request: &'k SetRequest<'_, L, P, S, D>,
        greatest_count: u32,
        budget: &mut Budget,
        sink: &mut RequestSink<'k, S, K>,
    ) -> Result<(), Stop>
        requires greatest { greatest (kinds request.now.key.counts) ≡ greatest_count }
        requires some { 0 < sink.old.left }
        requires numbers { number_after (numbers_of self.old.pools.items) + sink.old.left < 2 ^ 64 }
        requires bound { self.old.total + sink.old.left < 2 ^ 64 }
        ensures grown { OnOk result ((put : List S) ×
            (K.items sink.new.sets ≡ K.items sink.old.sets ++ map (set_at (key_of request.now.key)
            self.old.id (number_after (numbers_of self.old.pools.items))) put) ×
            (sink.new.left + length put ≡ sink.old.left) ×
            (self.new.total ≡ self.old.total + length put) ×
            IsGrown budget.old.bound (key_of request.now.key) budget.old.room budget.new.room
            self.old.total sink.old.left (map D.meaning.set_name put) (bucket_of D.meaning.pool_name self.old).pools
            (bucket_of D.meaning.pool_name self.new).pools (D.ledger device.old)
            (D.ledger device.new) × All (IsOfLayout D.meaning request.now.layout.now) put) }
        ensures err { IfErr result (λ stop.
            (K.items sink.new.sets ≡ K.items sink.old.sets)
            × (sink.new.left ≡ sink.old.left)
            × (self.new.pools.items ≡ self.old.pools.items)
            × (self.new.total ≡ self.old.total)
            × (budget.new.room ≡ budget.old.room)
            × IsRefused stop (D.ledger device.old) (D.ledger device.new)
            × StopsAtNew stop (key_of request.now.key) budget.old.room) }
        ensures id_stays { self.new.id ≡ self.old.id }
        ensures flag_stays { self.new.may_have_empty ≡ self.old.may_have_empty }
        ensures bound { budget.new.bound ≡ budget.old.bound }
        ensures looks { CountsLooks budget.old.looks.count budget.new.looks.count
            (D.ledger device.old) (D.ledger device.new) }
    {
        let key = &request.key;
        let (room, bound) = (budget.room, budget.bound);
        let Some(size) = next_size(key, greatest_count, self.total, sink.left, room, bound) else {
            return Err(Stop::NoRoomUnderLimit);
        };
        if self.reserve_pool().is_err() {
            return Err(Stop::NoMemoryForPool);
        }
        let flags = pool_flags(key.marked);
        let counts = counts_of_sets(&key.counts, size);
        let mut raw = match device.create_descriptor_pool(&counts, size, flags) {
            Ok(raw) => raw,
            Err(error) => return Err(Stop::PoolNotCreated(error)),
        };
        let given = size.min(sink.left);
        let number = self.next_number();
        sink.aim(key, self.id, number);
        budget.looks = Tally::next(&budget.looks);
        match device.alloc_descriptor_sets(&mut raw, Layouts::new(request.layout, given), sink) {
            Ok(()) => {
                self.push(DescriptorPool {
                    pool: raw,
                    number,
                    capacity: size,
                    allocated: given,
                    available: size - given,
                });
                budget.room -= key.marked_descriptors_of_pool(size);
                Ok(())
            }
            Err(error) => {
                device.destroy_descriptor_pool(raw);
                Err(Stop::NewPoolRefused(error))
            }
        }
    }

    /// Reserves memory for the books of one more pool, and for its ordinal. If that fails, only
    /// capacities change.
    fn reserve_pool(&mut self) -> Result<(), AllocError>
        ensures pools { self.new.pools.items ≡ self.old.pools.items }
        ensures id_stays { self.new.id ≡ self.old.id }
        ensures flag_stays { self.new.may_have_empty ≡ self.old.may_have_empty }
        ensures total { self.new.total ≡ self.old.total }
        ensures capacity { OnOk result (length self.new.pools.items < deque_capacity self.new.pools) }
        ensures listed { OnOk result (length self.new.pools.items
            < deque_capacity self.new.listed.ordinals) }
        // With capacity for one more, no memory is needed.
        ensures fits { length self.old.pools.items < deque_capacity self.old.pools
            → length self.old.pools.items < deque_capacity self.old.listed.ordinals → IsOk result }
    {
        self.pools.reserve(1)?;
        self.listed.reserve_for(self.pools.len() + 1)
    }

    /// Appends a new pool, counts its sets, and lists it if it has free places.
    fn push(&mut self, pool: DescriptorPool<P>)
        requires number { pool.number ≡ number_after (numbers_of self.old.pools.items) }
        requires numbers { pool.number + 1 < 2 ^ 64 }
        requires some { 0 < pool.allocated }
        requires bound { self.old.total + pool.allocated < 2 ^ 64 }
        requires capacity { length self.old.pools.items < deque_capacity self.old.pools }
        requires listed { length self.old.pools.items < deque_capacity self.old.listed.ordinals }
        ensures pools { self.new.pools.items ≡ self.old.pools.items ++ pool ∷ [] }
        ensures id_stays { self.new.id ≡ self.old.id }
        ensures flag_stays { self.new.may_have_empty ≡ self.old.may_have_empty }
        ensures total { self.new.total ≡ self.old.total + pool.allocated }
    {
        self.total += u64::from(pool.allocated);
        self.listed.push(pool.number, pool.available);
        self.pools.push_back_reserved(pool);
    }
}
