//! The allocator's live sets.
ghost use Rattle.std.specs.Prelude.{◌≡◌, ◌&&◌, nat_le, nat_lt};
ghost use Rattle.std.specs.Borrow.{sem};
ghost use Rattle.gpu_descriptor.specs.Caller.SetLends.{LendsRaw};
ghost use Rattle.gpu_descriptor.specs.Inner.RunSteps.{at_place};
ghost use Rattle.gpu_descriptor.specs.Caller.Sets.{id_of, raw_of};

use crate::set_key::SetKey;
use std::ops::Range;

/// A descriptor set from the allocator. It stays live until it is given to `free`, even if it is
/// dropped.
#[must_use = "it stays allocated until it is freed"]
#[derive(Debug, Drop)]
pub struct DescriptorSet<S> {
    pub(crate) raw: S,

    /// The number of its pool among those of its key.
    pub(crate) number: u64,

    /// The id of its key. No two keys of an allocator ever share one.
    pub(crate) id: u64,

    /// The key itself (`is`), which only contracts read.
    pub(crate) key: SetKey,
}

impl<S> DescriptorSet<S> {
    /// The raw set.
    #[must_use]
    pub fn raw(&self) -> &S
        ensures { result.now ≡ raw_of self.now }
    {
        &self.raw
    }

    /// The raw set, to write.
    ///
    /// # Safety
    ///
    /// Don't replace the raw set by another: `free` would free that one on the device.
    #[must_use]
    pub fn raw_mut(&mut self) -> &mut S
        ensures* writes_back { sem 𝓛 (LendsRaw S.row self.entry result) }
        ensures value { result.now ≡ raw_of self.old }
    {
        &mut self.raw
    }

    /// Whether the id of its key is in this range, as for all sets of an allocator that was made with
    /// these ids.
    #[must_use]
    pub fn has_id_in(&self, ids: &Range<u64>) -> bool
        ensures { result ≡ (nat_le ids.now.start (id_of self.now) && nat_lt (id_of self.now)
            ids.now.end) }
    {
        ids.start <= self.id && self.id < ids.end
    }

    /// The id of its key. Sets with one key share pools, so they are freed by fewer device calls if they
    /// are freed next to each other.
    #[must_use]
    pub fn key_id(&self) -> u64
        ensures { result ≡ id_of self.now }
    {
        self.id
    }

    /// Whether it is from the pool with this number, under the key with this id.
    #[tactic(auto, unfolding(crate::specs::Inner::RunSteps::at_place))]
    pub(crate) fn is_at(&self, id: u64, number: u64) -> bool
        ensures { result ≡ at_place id number self.now }
    {
        self.id == id && self.number == number
    }
}
