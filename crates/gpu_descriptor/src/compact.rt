//! A descriptor set without the id of its key.
ghost use Rattle.std.specs.Prelude.{◌≡◌, ◌-◌, ◌<◌, ◌^◌};
ghost use Rattle.gpu_descriptor.specs.Caller.Sets.{number_of, raw_in, whole};

use crate::set::DescriptorSet;
use crate::set_key::SetKey;
use std::num::NonZeroU64;

/// A descriptor set without the id of its key, for a table that keeps the id once for many sets. With a
/// raw set of 8 bytes it takes 16, and so does an `Option` of it.
#[must_use = "it stays allocated until it is freed"]
#[derive(Debug, Drop)]
pub struct CompactDescriptorSet<S> {
    pub(crate) raw: S,

    /// The number of its pool, plus 1.
    pub(crate) number: NonZeroU64,

    /// The key itself (`is`), which only contracts read.
    pub(crate) key: SetKey,
}

impl<S> CompactDescriptorSet<S> {
    /// The id of a set's key, and the set without it.
    #[must_use]
    pub fn of(set: DescriptorSet<S>) -> (u64, Self)
        requires { number_of set < 2 ^ 64 - 1 }
        ensures { whole result ≡ set }
    {
        let DescriptorSet {
            raw,
            number,
            id,
            key,
        } = set;
        match NonZeroU64::new(number + 1) {
            Some(number) => (id, CompactDescriptorSet { raw, number, key }),
            None => unreachable!(),
        }
    }

    /// The set, with the id of its key.
    #[must_use]
    pub fn with_id(self, id: u64) -> DescriptorSet<S>
        ensures { result ≡ whole (id, self) }
    {
        let CompactDescriptorSet { raw, number, key } = self;
        DescriptorSet {
            raw,
            number: number.get() - 1,
            id,
            key,
        }
    }

    /// The raw set.
    #[must_use]
    pub fn raw(&self) -> &S
        ensures { result.now ≡ raw_in self.now }
    {
        &self.raw
    }
}
