//! The keys of an allocator, each with its pools, and the search for a key. The hint may be wrong: a
//! place is checked before it is used.
ghost use Rattle.std.specs.Prelude.{◌≡◌, ◌+◌, ◌<◌, ◌^◌, ◌++◌, ℕ, IsTrue, MatchOption, None, Some, map};
ghost use Rattle.std.specs.Prelude.{[], ◌∷◌, ◌≤◌, IsOk, false, length, nat_lt, slice_get, true};
ghost use Rattle.std.specs.List.{IsDistinct, IsDistinct-prop, list_all};
ghost use Rattle.std.specs.Map.{lookup};
ghost use Rattle.gpu_descriptor.specs.Caller.SetLists.{appended};
ghost use Rattle.gpu_descriptor.specs.Inner.Buckets.{AreBookedIn};
ghost use Rattle.gpu_descriptor.specs.Inner.Ids.{is_id_of, is_of, stored_ids};
ghost use Rattle.gpu_descriptor.specs.Inner.KeyOf.{key_of};
ghost use Rattle.gpu_descriptor.specs.Inner.Serves.{ServesRequest};
ghost use Rattle.gpu_descriptor.specs.Inner.Stored.{books_in, count_flagged, row_of, stored_keys};
ghost use Rattle.gpu_descriptor_types.specs.Bounds.{greatest_u64};
ghost use Rattle.gpu_descriptor.specs.Model.Books.{key_eq, next_number, rises, sum_over};
ghost use Rattle.gpu_descriptor.specs.Model.Load.{sets_out};

use crate::bucket::DescriptorBucket;
use crate::bucket::open_list::OpenList;
use crate::bucket::request::SetRequest;
use crate::bucket::request_sink::RequestSink;
use crate::bucket::stop::Stop;
use crate::budget::Budget;
use crate::errors::AllocationError;
use crate::key::BucketKey;
use crate::places::SetPlaces;
use gpu_descriptor_types::DescriptorDevice;
use indexmap::IndexMap;
use std::alloc::Global;
use std::collections::VecDeque;
use std::ops::Range;

/// The keys in the order in which they were added, each with its pools.
#[derive(Debug, Drop)]
pub(crate) struct KeyTable<P> {
    pub(crate) buckets: IndexMap<BucketKey, DescriptorBucket<P>>,

    /// The start of the range of ids, for contracts alone.
    first_id: u64,

    /// The id of the next key. It never decreases, so no two keys ever share an id.
    pub(crate) next_id: u64,

    /// The end of the range of ids.
    pub(crate) end_id: u64,

    /// A hint: the place of the key that was found last.
    pub(crate) last: usize,

    /// How many keys may have a pool without sets, as their buckets say.
    pub(crate) with_empty: u64,
    ghost rising: { rises (stored_ids buckets.entries ++ next_id ∷ []) ≡ true },
    ghost begun: { nat_lt next_id first_id ≡ false },
    ghost ranged: { list_all (is_id_of (first_id, end_id)) (stored_ids buckets.entries) ≡ true },
    ghost flagged: { with_empty ≡ count_flagged buckets.entries },
    ghost distinct: { IsDistinct key_eq (stored_keys buckets.entries) } by { IsDistinct-prop key_eq
        (stored_keys buckets.entries) },
}

impl<P> KeyTable<P> {
    /// A table without keys, which takes its ids from this range. It allocates no memory.
    pub(crate) fn new(alloc: Global, ids: Range<u64>) -> Self
        ensures entries { result.buckets.entries ≡ [] }
        ensures ids { (result.first_id ≡ ids.start) × (result.end_id ≡ ids.end) }
    {
        KeyTable {
            buckets: IndexMap::new(alloc),
            first_id: ids.start,
            next_id: ids.start,
            end_id: ids.end,
            last: 0,
            with_empty: 0,
        }
    }

    /// The place of a key. It is hashed only if it is at none of three places: that of the key found
    /// last, the next one, and the first. These serve a program that uses its keys again and again in
    /// the order in which they were added.
    #[inline]
    pub(crate) fn place_of_key(&self, key: &BucketKey) -> Option<usize>
        ensures place { MatchOption result
            (lookup (is_of (key_of key.now)) self.now.buckets.entries ≡ None)
            (λ place. slice_get (stored_keys self.now.buckets.entries) place
            ≡ Some (key_of key.now)) }
    {
        if self.has_key(self.last, key) {
            return Some(self.last);
        }
        let likely = self.last.wrapping_add(1);
        if self.has_key(likely, key) {
            return Some(likely);
        }
        if self.has_key(0, key) {
            return Some(0);
        }
        self.buckets.get_index_of(key)
    }

    /// The place of the key with an id. If none of the three hints is right it is found by binary
    /// search, since ids rise along the table.
    #[inline]
    pub(crate) fn place_of_id(&self, id: u64) -> usize
        requires there { (i : ℕ) × (slice_get (stored_ids self.now.buckets.entries) i ≡ Some id) }
        ensures place { slice_get (stored_ids self.now.buckets.entries) result ≡ Some id }
    {
        if self.has_id(self.last, id) {
            return self.last;
        }
        let likely = self.last.wrapping_add(1);
        if self.has_id(likely, id) {
            return likely;
        }
        if self.has_id(0, id) {
            return 0;
        }
        // A freed set has no counts to hash, and a map from ids would have to be updated as keys go.
        self.buckets.partition_point(|_key: &BucketKey, bucket: &DescriptorBucket<P>| bucket.id
            < id)
    }

    /// Whether a key is at this place.
    #[inline]
    fn has_key(&self, place: usize, key: &BucketKey) -> bool
        ensures { IsTrue result → slice_get (stored_keys self.now.buckets.entries) place
            ≡ Some (key_of key.now) }
    {
        match self.buckets.get_index(place) {
            Some((stored, _)) => stored.is(key),
            None => false,
        }
    }

    /// Whether the key at this place has this id.
    fn has_id(&self, place: usize, id: u64) -> bool
        ensures { IsTrue result → slice_get (stored_ids self.now.buckets.entries) place ≡ Some id }
    {
        match self.buckets.get_index(place) {
            Some((_, bucket)) => bucket.id == id,
            None => false,
        }
    }
}

impl<P: Drop> KeyTable<P> {
    /// Takes sets of a key. An absent key is appended, unless the outer result is an error.
    #[inline]
    pub(crate) fn serve<'k, L, S, D: DescriptorDevice<L, P, S>, K: SetPlaces<S>>(
        &mut self,
        device: &mut D,
        request: &'k SetRequest<'_, L, P, S, D>,
        budget: &mut Budget,
        sink: &mut RequestSink<'k, S, K>,
    ) -> Result<Result<(), Stop>, AllocationError>
        requires booked { AreBookedIn (key_of request.now.key) (D.ledger device.old).pools (books_in
            D.meaning.pool_name (map row_of self.old.buckets.entries)
            (key_of request.now.key)).pools }
        requires bound { sum_over sets_out (map row_of self.old.buckets.entries) + request.now.count
            < 2 ^ 64 }
        ensures serves { ServesRequest D.meaning request.now.layout.now (key_of request.now.key)
            request.now.count sink.new.left result self.old.buckets.entries
            self.new.buckets.entries budget.old budget.new (K.items sink.old.sets)
            (K.items sink.new.sets) (D.ledger device.old) (D.ledger device.new) }
        ensures range { (self.new.first_id ≡ self.old.first_id)
            × (self.new.end_id ≡ self.old.end_id) }
        // With room for the sets, only an absent key needs memory before the walk.
        ensures fits { request.now.count ≤ K.places sink.old.sets → 0 < length (books_in
            D.meaning.pool_name (map row_of self.old.buckets.entries) (key_of request.now.key)).pools
            → next_number (books_in D.meaning.pool_name (map row_of self.old.buckets.entries)
            (key_of request.now.key)) + request.now.count ≤ greatest_u64 → IsOk result }
    {
        if let Some(place) = self.place_of_key(&request.key) {
            self.last = place;
            let bucket = &mut self.buckets[place];
            bucket.prepare(request.count, sink)?;
            return Ok(bucket.take(device, request, budget, sink));
        }
        self.serve_absent(device, request, budget, sink)
    }

    /// Takes sets of a key that is absent, and appends it. It is out of line, because most requests
    /// find their key.
    #[inline(never)]
    fn serve_absent<'k, L, S, D: DescriptorDevice<L, P, S>, K: SetPlaces<S>>(
        &mut self,
        device: &mut D,
        request: &'k SetRequest<'_, L, P, S, D>,
        budget: &mut Budget,
        sink: &mut RequestSink<'k, S, K>,
    ) -> Result<Result<(), Stop>, AllocationError>
        requires absent { lookup (is_of (key_of request.now.key)) self.old.buckets.entries ≡ None }
        requires bound { sum_over sets_out (map row_of self.old.buckets.entries) + request.now.count
            < 2 ^ 64 }
        ensures serves { ServesRequest D.meaning request.now.layout.now (key_of request.now.key)
            request.now.count sink.new.left result self.old.buckets.entries
            self.new.buckets.entries budget.old budget.new (K.items sink.old.sets)
            (K.items sink.new.sets) (D.ledger device.old) (D.ledger device.new) }
        ensures range { (self.new.first_id ≡ self.old.first_id)
            × (self.new.end_id ≡ self.old.end_id) }
    {
        if self.buckets.reserve(1).is_err() {
            return Err(AllocationError::OutOfHostMemory);
        }
        if self.next_id >= self.end_id {
            return Err(AllocationError::OutOfHostMemory);
        }
        let mut bucket = DescriptorBucket {
            id: self.next_id,
            first: 0,
            pools: VecDeque::new(request.alloc),
            listed: OpenList::new(request.alloc),
            total: 0,
            may_have_empty: false,
        };
        bucket.prepare(request.count, sink)?;
        let ended = bucket.take(device, request, budget, sink);
        match self.buckets.insert(request.key, bucket) {
            Ok(_) => {
                self.next_id += 1;
                Ok(ended)
            }
            Err(_) => unreachable!(),
        }
    }
}
