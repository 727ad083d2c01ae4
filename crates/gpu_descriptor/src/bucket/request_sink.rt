//! Where a request puts the sets that the device gives.
ghost use Rattle.std.specs.Prelude.{◌≡◌, ◌≤◌, IsOk, OnOk};

use crate::key::BucketKey;
use crate::places::SetPlaces;
use crate::set::DescriptorSet;
use crate::set_key::SetKey;
use gpu_descriptor_types::SetSink;
use std::alloc::AllocError;
use std::marker::PhantomData;

/// The sets of a request, in room that was made before the first device call. Each set that is put gets
/// the key with its id, and the number of the pool that is asked.
#[derive(Drop)]
pub(crate) struct RequestSink<'k, S, K: SetPlaces<S>> {
    pub(crate) sets: K,

    /// How many sets are still needed.
    pub(crate) left: u32,

    /// Only contracts read it.
    pub(crate) key: &'k BucketKey,
    pub(crate) id: u64,
    pub(crate) number: u64,
    raw: PhantomData<S>,
    ghost fits: { left ≤ K.places sets },
}

impl<'k, S, K: SetPlaces<S>> RequestSink<'k, S, K> {
    /// A sink that puts its sets here. None are needed.
    pub(crate) fn new(sets: K, key: &'k BucketKey) -> Self
        ensures { result.sets ≡ sets }
    {
        RequestSink {
            sets,
            left: 0,
            key,
            id: 0,
            number: 0,
            raw: PhantomData,
        }
    }

    /// Makes room for `count` sets, which are then all still needed.
    pub(crate) fn make_room(&mut self, count: u32) -> Result<(), AllocError>
        ensures sets { K.items self.new.sets ≡ K.items self.old.sets }
        ensures left { OnOk result (self.new.left ≡ count) }
        ensures fits { count ≤ K.places self.old.sets → IsOk result }
    {
        self.sets.make_room(count)?;
        self.left = count;
        Ok(())
    }

    /// What the sets were put into.
    pub(crate) fn into_sets(self) -> K
        ensures { result ≡ self.entry.sets }
    {
        let RequestSink {
            sets,
            left: _,
            key: _,
            id: _,
            number: _,
            raw: _,
        } = self;
        sets
    }

    /// The next sets are from the pool of this key that has this number.
    pub(crate) fn aim(&mut self, key: &'k BucketKey, id: u64, number: u64)
        // Key and id are set again: of a sink that was with the device one knows only what it keeps of a
        // set.
        ensures sets { self.new.sets ≡ self.old.sets }
        ensures left { self.new.left ≡ self.old.left }
        ensures key { self.new.key.now ≡ key.now }
        ensures id { self.new.id ≡ id }
        ensures number { self.new.number ≡ number }
    {
        self.key = key;
        self.id = id;
        self.number = number;
    }
}

impl<S, K: SetPlaces<S>> SetSink<S> for RequestSink<'_, S, K> {
    ghost use Rattle.gpu_descriptor.specs.Inner.KeyOf.{key_of};
    ghost use Rattle.gpu_descriptor.specs.Inner.SetAt.{set_at};

    type Kept = DescriptorSet<S>;

    ghost sink = { record {
      kept = λ sink. K.items sink.sets;
      kept_as = λ sink raw. set_at (key_of sink.key.now) sink.id sink.number raw;
      room = λ sink. sink.left;
    } };

    fn room(&self) -> usize {
        self.left as usize
    }

    #[inline]
    fn put(&mut self, set: S) {
        self.sets.put(DescriptorSet {
            raw: set,
            number: self.number,
            id: self.id,
            key: SetKey::of(self.key),
        });
        self.left -= 1;
    }
}
