//! The size of a new pool.
ghost use Rattle.std.specs.Prelude.{◌≡◌, ℕ, ◌*◌, ◌<◌, ◌≤◌, ◌^◌, All, IfSome, IfNone, min, max, sum};
ghost use Rattle.std.specs.Prelude.{List, map};
ghost use Rattle.gpu_descriptor_types.specs.Counts.{greatest as greatest_of, kinds as kinds_of};
ghost use Rattle.gpu_descriptor_types.specs.PoolSize.{IsCutSize, IsPoolSize, IsRounded};
ghost use Rattle.gpu_descriptor_types.specs.PoolSize.{bounded_sets, greatest_pool_size, pool_counts};
ghost use Rattle.gpu_descriptor_types.specs.PoolSize.{pool_size_floor};
ghost use Rattle.gpu_descriptor_types.specs.PoolSize.{sets_in_room as sets_in_room_of};
ghost use Rattle.gpu_descriptor_types.specs.PoolSize.{sets_of_kind, start_size as start_size_of};

use crate::counts::DescriptorTotalCount;

/// The least number of sets that a pool is created for, before its size is cut.
const MIN_SETS: u32 = 64;

/// The max of a key's live sets that count towards the size of its next pool.
const MAX_SETS: u32 = 512;

/// How many sets a new pool for sets of these counts holds. See `pool_sets_for_greatest`.
pub fn new_pool_sets(counts: &DescriptorTotalCount, total: u64, wanted: u32) -> u32
    ensures sets { IsPoolSize (kinds_of counts.now) total wanted result }

    ensures some { 1 ≤ result }
    ensures at_most { result ≤ greatest_pool_size }
    ensures at_least { min wanted (pool_size_floor (kinds_of counts.now)) ≤ result }
    ensures below_twice { result < 2 * start_size_of total wanted }
    ensures fits { All (λ count. count * result < 2 ^ 32) (kinds_of counts.now) }
{
    pool_sets_for_greatest(greatest_count(counts), total, wanted)
}

/// How many sets a new pool holds, if `greatest` is the greatest of a set's counts.
///
/// `total` is the number of the key's live sets, and `wanted` that of the sets still needed. The pool
/// holds the largest of 64, `wanted`, and the smaller of `total` and 512, rounded up to a power of two,
/// or to 2147483647 if that power exceeds 32 bits; but no more sets than keep each of its counts within
/// 32 bits. So it may hold fewer than `wanted`, but at least one.
///
/// In the original this is a private call of the bucket, over a total of 32 bits.
#[inline]
pub fn pool_sets_for_greatest(greatest: u32, total: u64, wanted: u32) -> u32
    ensures sets { (counts : List ℕ) → greatest_of counts ≡ greatest → IsPoolSize counts total wanted
        result }
    ensures some { 1 ≤ result }
{
    cut_to(rounded_up(start_size(total, wanted)), greatest)
}

/// The size of a new pool for sets of these counts: the pool's counts, and how many sets it holds. A
/// pool for sets without descriptors has one sampler. See `new_pool_sets`.
pub fn new_pool_size(
    counts: &DescriptorTotalCount,
    total: u64,
    wanted: u32,
) -> (DescriptorTotalCount, u32)
    ensures sets { IsPoolSize (kinds_of counts.now) total wanted result.1 }
    ensures counts { kinds_of result.0 ≡ pool_counts (kinds_of counts.now) result.1 }

    ensures some { 1 ≤ result.1 }
    ensures at_most { result.1 ≤ greatest_pool_size }
    ensures at_least { min wanted (pool_size_floor (kinds_of counts.now)) ≤ result.1 }
    ensures below_twice { result.1 < 2 * start_size_of total wanted }
    ensures fits { All (λ count. count * result.1 < 2 ^ 32) (kinds_of counts.now) }
{
    let sets = new_pool_sets(counts, total, wanted);
    (counts_of_sets(counts, sets), sets)
}

/// How many of `sets` sets a pool with at most `room` descriptors may hold; `None` if not even one set
/// fits.
///
/// A pool for sets without descriptors has one, whatever it holds.
#[inline]
pub fn cut_pool_sets(counts: &DescriptorTotalCount, sets: u32, room: u32) -> Option<u32>
    requires { 1 ≤ sets }
    ensures sets { IfSome result (λ cut. cut ≡ sets_in_room_of room (sum (kinds_of counts.now)) sets) }
    ensures none { IfNone result (room < max 1 (sum (kinds_of counts.now))) }

    ensures some { IfSome result (λ cut. 1 ≤ cut) }
    ensures at_most { IfSome result (λ cut. cut ≤ sets) }
{
    let cut = sets_in_room(room, counts.total(), sets);
    if cut == 0 {
        return None;
    }
    Some(cut)
}

/// The size of a new pool, cut so that it has at most `room` descriptors; `None` if not even a pool for
/// one set fits. See `new_pool_sets` and `cut_pool_sets`.
pub fn cut_pool_size(
    counts: &DescriptorTotalCount,
    total: u64,
    wanted: u32,
    room: u32,
) -> Option<(DescriptorTotalCount, u32)>
    ensures sets { IfSome result (λ pool. IsCutSize (kinds_of counts.now) room total wanted pool.1) }
    ensures counts { IfSome result (λ pool. kinds_of pool.0 ≡ pool_counts (kinds_of counts.now)
        pool.1) }
    ensures none { IfNone result (room < max 1 (sum (kinds_of counts.now))) }

    ensures some { IfSome result (λ pool. 1 ≤ pool.1) }
    ensures at_most { IfSome result (λ pool. pool.1 ≤ greatest_pool_size) }
    ensures within { IfSome result (λ pool. sum (kinds_of pool.0) ≤ room) }
    ensures fits { IfSome result (λ pool. All (λ count. count * pool.1 < 2 ^ 32)
        (kinds_of counts.now)) }

    // If a pool of the size of `new_pool_size` fits, it is not cut.
    ensures whole { (sets : ℕ) → IsPoolSize (kinds_of counts.now) total wanted sets
        → max 1 (sets * sum (kinds_of counts.now)) ≤ room → IfSome result (λ pool. pool.1 ≡ sets) }
{
    let whole = new_pool_sets(counts, total, wanted);
    let sets = cut_pool_sets(counts, whole, room)?;
    Some((counts_of_sets(counts, sets), sets))
}

/// Cuts `sets` so that they have at most `bound` descriptors together, unless the `wanted` sets have
/// more. `None` cuts nothing. A set without descriptors counts as one. The result is 0 if `wanted` is 0
/// and `bound` has no room for a set.
#[inline]
pub fn bounded_pool_sets(
    counts: &DescriptorTotalCount,
    sets: u32,
    wanted: u32,
    bound: Option<u64>,
) -> u32
    ensures sets { result ≡ bounded_sets bound (sum (kinds_of counts.now)) wanted sets }
    ensures at_most { result ≤ sets }
{
    let Some(bound) = bound else {
        return sets;
    };
    let fit = bound / counts.total().max(1);
    u64::from(sets).min(fit.max(u64::from(wanted))) as u32
}

/// Cuts a pool size of these counts so that its sets have at most `bound` descriptors together, unless
/// the `wanted` sets have more. `None` cuts nothing. See `bounded_pool_sets`.
pub fn bounded_pool_size(
    counts: &DescriptorTotalCount,
    size: (DescriptorTotalCount, u32),
    wanted: u32,
    bound: Option<u64>,
) -> (DescriptorTotalCount, u32)
    requires counts { kinds_of size.0 ≡ pool_counts (kinds_of counts.now) size.1 }
    requires fits { All (λ count. count * size.1 < 2 ^ 32) (kinds_of counts.now) }
    ensures sets { result.1 ≡ bounded_sets bound (sum (kinds_of counts.now)) wanted size.1 }
    ensures counts { kinds_of result.0 ≡ pool_counts (kinds_of counts.now) result.1 }
{
    let sets = bounded_pool_sets(counts, size.1, wanted, bound);
    (counts_of_sets(counts, sets), sets)
}

/// How many of `sets` sets fit into the room for descriptors, if each set has `each`.
fn sets_in_room(room: u32, each: u64, sets: u32) -> u32
    requires { 1 ≤ sets }
    ensures sets { result ≡ sets_in_room_of room each sets }
    ensures at_most { result ≤ sets }
    ensures none { result ≡ 0 → room < max 1 each }
{
    if each > 0 {
        u64::from(sets).min(u64::from(room) / each) as u32
    } else if room > 0 {
        sets
    } else {
        0
    }
}

/// How many sets a pool is created for, before this is rounded up and cut.
#[inline]
fn start_size(total: u64, wanted: u32) -> u32
    ensures { result ≡ start_size_of total wanted }
{
    let outstanding = total.min(u64::from(MAX_SETS)) as u32;
    MIN_SETS.max(wanted).max(outstanding)
}

/// The least power of two that is not below `start`, or 2147483647 if it exceeds 32 bits.
fn rounded_up(start: u32) -> u32
    requires { 1 ≤ start }
    ensures rounded { IsRounded start result }
    ensures some { 1 ≤ result }
    ensures at_most { result ≤ greatest_pool_size }
{
    start
        .checked_next_power_of_two()
        .unwrap_or(i32::MAX.cast_unsigned())
}

/// The greatest of the counts, which allows the fewest sets.
#[inline]
pub fn greatest_count(counts: &DescriptorTotalCount) -> u32
    ensures { result ≡ greatest_of (kinds_of counts.now) }
{
    let kinds = counts.to_array();
    let mut max = 0;
    for kind in &kinds {
        max = max.max(*kind);
    }
    max
}

/// The smaller of `sets` and what a kind allows. It divides only if the product would exceed 32 bits.
#[inline]
fn cut_to(sets: u32, kind: u32) -> u32
    ensures { result ≡ min sets (sets_of_kind kind) }
{
    if sets.checked_mul(kind).is_some() {
        sets
    } else {
        u32::MAX / kind
    }
}

/// The counts of a pool for `sets` sets. If these have no descriptors it has one sampler.
#[inline]
pub fn counts_of_sets(counts: &DescriptorTotalCount, sets: u32) -> DescriptorTotalCount
    requires { All (λ count. count * sets < 2 ^ 32) (kinds_of counts.now) }
    ensures { kinds_of result ≡ pool_counts (kinds_of counts.now) sets }
{
    let mut all = products(counts, sets);
    if all == DescriptorTotalCount::default() {
        all.sampler = 1;
    }
    all
}

/// Each count times the number of sets.
fn products(counts: &DescriptorTotalCount, sets: u32) -> DescriptorTotalCount
    requires { All (λ count. count * sets < 2 ^ 32) (kinds_of counts.now) }
    ensures { kinds_of result ≡ map (λ count. count * sets) (kinds_of counts.now) }
{
    DescriptorTotalCount {
        sampler: counts.sampler * sets,
        combined_image_sampler: counts.combined_image_sampler * sets,
        sampled_image: counts.sampled_image * sets,
        storage_image: counts.storage_image * sets,
        uniform_texel_buffer: counts.uniform_texel_buffer * sets,
        storage_texel_buffer: counts.storage_texel_buffer * sets,
        uniform_buffer: counts.uniform_buffer * sets,
        storage_buffer: counts.storage_buffer * sets,
        uniform_buffer_dynamic: counts.uniform_buffer_dynamic * sets,
        storage_buffer_dynamic: counts.storage_buffer_dynamic * sets,
        input_attachment: counts.input_attachment * sets,
        acceleration_structure: counts.acceleration_structure * sets,
        inline_uniform_block_bytes: counts.inline_uniform_block_bytes * sets,
        inline_uniform_block_bindings: counts.inline_uniform_block_bindings * sets,
    }
}
