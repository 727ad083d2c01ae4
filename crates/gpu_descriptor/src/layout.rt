//! A layout, with the counts and flags that a request for its sets needs.
ghost use Rattle.std.specs.Prelude.{◌≡◌};
ghost use Rattle.gpu_descriptor_types.specs.Counts.{kinds};
ghost use Rattle.gpu_descriptor.specs.Caller.Flags.{is_marked};
ghost use Rattle.gpu_descriptor.specs.Inner.KeyOf.{key_of};

use crate::flags::DescriptorSetLayoutCreateFlags;
use crate::key::BucketKey;
use gpu_descriptor_types::DescriptorTotalCount;

/// A layout of a device, with the counts and flags that it was created with.
#[derive(Debug, Drop)]
pub struct SetLayout<L> {
    pub layout: L,
    pub counts: DescriptorTotalCount,
    pub flags: DescriptorSetLayoutCreateFlags,
}

impl<L> SetLayout<L> {
    /// The key of its pools.
    #[inline]
    pub(crate) fn key(&self) -> BucketKey
        ensures { key_of result ≡ record { counts = kinds self.now.counts; marked = is_marked self.now.flags } }
    {
        BucketKey::of(&self.counts, self.flags)
    }
}
