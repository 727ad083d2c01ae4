//! The keys to which pools belong.
ghost use Rattle.std.specs.Prelude.{◌≡◌, ◌<◌, ◌^◌, IsTrue};
ghost use Rattle.gpu_descriptor_types.specs.Counts.{kinds};
ghost use Rattle.gpu_descriptor.specs.Caller.Flags.{is_marked};
ghost use Rattle.gpu_descriptor.specs.Model.Load.{set_descriptors, pool_descriptors};
ghost use Rattle.gpu_descriptor.specs.Inner.KeyOf.{key_of};

use crate::flags::DescriptorSetLayoutCreateFlags;
use bitflags::Flags;
use gpu_descriptor_types::DescriptorTotalCount;

/// The counts of a layout, and whether it is marked as update-after-bind. Layouts with the same key
/// share pools.
#[derive(Clone, Copy, Debug, PartialEq, Eq, Hash)]
pub(crate) struct BucketKey {
    pub(crate) counts: DescriptorTotalCount,
    pub(crate) marked: bool,
}

/// Whether two pairs of numbers are equal. Each is compared as one number of 64 bits.
#[inline]
fn are_same(low: u32, high: u32, other_low: u32, other_high: u32) -> bool
    ensures { IsTrue result → (low ≡ other_low) × (high ≡ other_high) }
{
    u64::from(low) + u64::from(high) * 4294967296
        == u64::from(other_low) + u64::from(other_high) * 4294967296
}

/// Whether two values have equal counts. The `==` of `DescriptorTotalCount` reads them one by one.
#[inline]
fn are_same_counts(a: &DescriptorTotalCount, b: &DescriptorTotalCount) -> bool
    ensures { IsTrue result → kinds a.now ≡ kinds b.now }
{
    are_same(
        a.sampler,
        a.combined_image_sampler,
        b.sampler,
        b.combined_image_sampler,
    ) && are_same(
        a.sampled_image,
        a.storage_image,
        b.sampled_image,
        b.storage_image,
    ) && are_same(
        a.uniform_texel_buffer,
        a.storage_texel_buffer,
        b.uniform_texel_buffer,
        b.storage_texel_buffer,
    ) && are_same(
        a.uniform_buffer,
        a.storage_buffer,
        b.uniform_buffer,
        b.storage_buffer,
    ) && are_same(
        a.uniform_buffer_dynamic,
        a.storage_buffer_dynamic,
        b.uniform_buffer_dynamic,
        b.storage_buffer_dynamic,
    ) && are_same(
        a.input_attachment,
        a.acceleration_structure,
        b.input_attachment,
        b.acceleration_structure,
    ) && are_same(
        a.inline_uniform_block_bytes,
        a.inline_uniform_block_bindings,
        b.inline_uniform_block_bytes,
        b.inline_uniform_block_bindings,
    )
}

impl BucketKey {
    /// The key of a layout with these counts and flags.
    #[inline]
    pub(crate) fn of(counts: &DescriptorTotalCount, flags: DescriptorSetLayoutCreateFlags) -> Self
        ensures { key_of result ≡ record { counts = kinds counts.now; marked = is_marked flags } }
    {
        BucketKey {
            counts: *counts,
            marked: flags.contains(DescriptorSetLayoutCreateFlags::UPDATE_AFTER_BIND),
        }
    }

    /// Whether two keys are equal, in fewer instructions than `==`.
    #[inline]
    pub(crate) fn is(&self, other: &BucketKey) -> bool
        ensures { IsTrue result → key_of self.now ≡ key_of other.now }
    {
        self.marked == other.marked && are_same_counts(&self.counts, &other.counts)
    }

    /// How many descriptors a set of the key has, if it is marked; else 0.
    #[inline]
    pub(crate) fn marked_descriptors_of_set(&self) -> u64
        ensures { result ≡ set_descriptors (key_of self.now) 1 }
    {
        if self.marked { self.counts.total() } else { 0 }
    }

    /// How many descriptors `sets` sets of the key have, if it is marked; else 0.
    #[inline]
    pub(crate) fn marked_descriptors_of_sets(&self, sets: u64) -> u64
        requires { set_descriptors (key_of self.now) sets < 2 ^ 64 }
        ensures { result ≡ set_descriptors (key_of self.now) sets }
    {
        sets * self.marked_descriptors_of_set()
    }

    /// How many descriptors a pool of `sets` sets has, if the key is marked; else 0. A pool for sets
    /// without descriptors has one.
    #[inline]
    pub(crate) fn marked_descriptors_of_pool(&self, sets: u32) -> u32
        requires { pool_descriptors (key_of self.now) sets < 2 ^ 32 }
        ensures { result ≡ pool_descriptors (key_of self.now) sets }
    {
        if self.marked {
            (u64::from(sets) * self.counts.total()).max(1) as u32
        } else {
            0
        }
    }
}
