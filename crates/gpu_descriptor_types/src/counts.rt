//! How many descriptors a layout, a set or a pool has.
ghost use Rattle.std.specs.Prelude.{◌≡◌, ◌+◌, ◌*◌, ◌^◌, ◌<◌, ◌≤◌, ◌++◌, sum, slice_set, nat_lt};
ghost use Rattle.std.proofs.Common.{rules};
ghost use Rattle.std.specs.Hash as fed;
ghost use Rattle.std.specs.Cmp.Rules.{hashing};
ghost use Rattle.gpu_descriptor_types.specs.Bounds.{greatest_total};
ghost use Rattle.gpu_descriptor_types.specs.Counts.{kinds};

use std::hash::{Hash, Hasher};

/// How many descriptors of each of the fourteen kinds a set of a layout has, or all sets of a pool
/// together.
#[derive(Clone, Copy, Debug, PartialEq, Eq, Default)]
pub struct DescriptorTotalCount {
    /// Samplers alone.
    pub sampler: u32,

    /// Images, each with its sampler.
    pub combined_image_sampler: u32,

    /// Images that shaders read by a sampler of another descriptor.
    pub sampled_image: u32,

    /// Images that shaders read and write.
    pub storage_image: u32,

    /// Buffers that shaders read as texels.
    pub uniform_texel_buffer: u32,

    /// Buffers that shaders read and write as texels.
    pub storage_texel_buffer: u32,

    /// Buffers that shaders read.
    pub uniform_buffer: u32,

    /// Buffers that shaders read and write.
    pub storage_buffer: u32,

    /// Uniform buffers whose offset is given when the set is bound.
    pub uniform_buffer_dynamic: u32,

    /// Storage buffers whose offset is given when the set is bound.
    pub storage_buffer_dynamic: u32,

    /// Attachments of a render pass that its shaders read.
    pub input_attachment: u32,

    /// Acceleration structures, for ray tracing.
    pub acceleration_structure: u32,

    /// Bytes of inline uniform blocks, whose data are in the set itself.
    pub inline_uniform_block_bytes: u32,

    /// Inline uniform blocks.
    pub inline_uniform_block_bindings: u32,
}

impl DescriptorTotalCount {
    /// How many descriptors there are of all kinds together, at most 60129542130. Bytes of inline
    /// uniform blocks count as descriptors. This number is compared with the limit.
    #[must_use]
    pub fn total(&self) -> u64
        ensures sum { result ≡ sum (kinds self.now) }
        ensures at_most { result ≤ greatest_total }
    {
        self.to_array().iter().map(|kind| u64::from(*kind)).sum()
    }

    /// The fourteen counts, in the order of the fields.
    #[must_use]
    pub fn to_array(&self) -> [u32; 14]
        ensures { result ≡ kinds self.now }
    {
        [
            self.sampler,
            self.combined_image_sampler,
            self.sampled_image,
            self.storage_image,
            self.uniform_texel_buffer,
            self.storage_texel_buffer,
            self.uniform_buffer,
            self.storage_buffer,
            self.uniform_buffer_dynamic,
            self.storage_buffer_dynamic,
            self.input_attachment,
            self.acceleration_structure,
            self.inline_uniform_block_bytes,
            self.inline_uniform_block_bindings,
        ]
    }

    /// Sets the count of one kind, by its place in the order of the fields. It returns whether there is
    /// such a kind; `place` 14 and above change nothing.
    pub fn set_kind(&mut self, place: usize, count: u32) -> bool
        ensures kinds { kinds self.new ≡ slice_set (kinds self.old) place count }
        ensures known { result ≡ nat_lt place 14 }
    {
        match place {
            0 => self.sampler = count,
            1 => self.combined_image_sampler = count,
            2 => self.sampled_image = count,
            3 => self.storage_image = count,
            4 => self.uniform_texel_buffer = count,
            5 => self.storage_texel_buffer = count,
            6 => self.uniform_buffer = count,
            7 => self.storage_buffer = count,
            8 => self.uniform_buffer_dynamic = count,
            9 => self.storage_buffer_dynamic = count,
            10 => self.input_attachment = count,
            11 => self.acceleration_structure = count,
            12 => self.inline_uniform_block_bytes = count,
            13 => self.inline_uniform_block_bindings = count,
            _ => return false,
        }
        true
    }
}

/// Two counts as one number.
#[inline]
fn paired(low: u32, high: u32) -> u64
    ensures { result ≡ low + high * 2 ^ 32 }
{
    u64::from(low) + u64::from(high) * 4294967296
}

/// Two numbers of 64 bits as one.
#[inline]
fn joined(low: u64, high: u64) -> u128
    ensures { result ≡ low + high * 2 ^ 64 }
{
    u128::from(low) + u128::from(high) * 18446744073709551616
}

/// Four counts at a time: the tables' hasher multiplies once for each 16 bytes of a write.
impl Hash for DescriptorTotalCount {
    ghost hash_input = { λ c. fed.u128 (c.sampler + c.combined_image_sampler * 2 ^ 32 +
        (c.sampled_image + c.storage_image * 2 ^ 32) * 2 ^ 64) ++ fed.u128
        (c.uniform_texel_buffer + c.storage_texel_buffer * 2 ^ 32 +
        (c.uniform_buffer + c.storage_buffer * 2 ^ 32) * 2 ^ 64) ++ fed.u128
        (c.uniform_buffer_dynamic + c.storage_buffer_dynamic * 2 ^ 32 +
        (c.input_attachment + c.acceleration_structure * 2 ^ 32) * 2 ^ 64)
        ++ fed.u64 (c.inline_uniform_block_bytes + c.inline_uniform_block_bindings * 2 ^ 32) };

    ghost respects_eq = { Prim.search (hashing, rules) };

    fn hash<H: Hasher>(&self, state: &mut H) {
        state.write_u128(joined(
            paired(self.sampler, self.combined_image_sampler),
            paired(self.sampled_image, self.storage_image),
        ));
        state.write_u128(joined(
            paired(self.uniform_texel_buffer, self.storage_texel_buffer),
            paired(self.uniform_buffer, self.storage_buffer),
        ));
        state.write_u128(joined(
            paired(self.uniform_buffer_dynamic, self.storage_buffer_dynamic),
            paired(self.input_attachment, self.acceleration_structure),
        ));
        state.write_u64(paired(
            self.inline_uniform_block_bytes,
            self.inline_uniform_block_bindings,
        ));
    }
}
