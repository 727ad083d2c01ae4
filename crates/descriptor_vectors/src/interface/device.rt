//! Counts, flags, errors, layouts, sinks, pool sizes, and the calls of a device.
ghost use Rattle.std.specs.Prelude.{All, ◌≡◌, ◌*◌, ◌<◌, ◌≤◌, ◌^◌};
ghost use Rattle.std.specs.Iterator.{HoldsAlong};
ghost use Rattle.std.specs.Prelude.{map};
ghost use Rattle.gpu_descriptor_types.specs.Counts.{kinds};
ghost use Rattle.gpu_descriptor_types.specs.Layouts.{layout, left};
ghost use Rattle.gpu_descriptor_types.specs.Ledger.{AreLive, CanDrain, CanPut, HasNoSets};

use super::{is_debug, is_hashed_value, is_value};
use bitflags::Flags;
use gpu_descriptor_types::{
    CreatePoolError, DescriptorDevice, DescriptorPoolCreateFlags, DescriptorTotalCount,
    DeviceAllocationError, Layouts, SetSink, Tally, bounded_pool_sets, bounded_pool_size,
    counts_of_sets, cut_pool_sets, cut_pool_size, greatest_count, laws, new_pool_sets,
    new_pool_size, pool_sets_for_greatest,
};

/// The fourteen kinds, in their order.
fn kinds_in_order(counts: DescriptorTotalCount) -> [u32; 14]
    ensures { result ≡ kinds counts }
{
    let DescriptorTotalCount {
        sampler,
        combined_image_sampler,
        sampled_image,
        storage_image,
        uniform_texel_buffer,
        storage_texel_buffer,
        uniform_buffer,
        storage_buffer,
        uniform_buffer_dynamic,
        storage_buffer_dynamic,
        input_attachment,
        acceleration_structure,
        inline_uniform_block_bytes,
        inline_uniform_block_bindings,
    } = counts;
    [
        sampler,
        combined_image_sampler,
        sampled_image,
        storage_image,
        uniform_texel_buffer,
        storage_texel_buffer,
        uniform_buffer,
        storage_buffer,
        uniform_buffer_dynamic,
        storage_buffer_dynamic,
        input_attachment,
        acceleration_structure,
        inline_uniform_block_bytes,
        inline_uniform_block_bindings,
    ]
}

fn kind_at(counts: &mut DescriptorTotalCount, place: usize) -> ([u32; 14], bool) {
    let counts_before: [u32; 14] = counts.to_array();
    (counts_before, counts.set_kind(place, 1))
}

fn total_of_none() -> u64 {
    is_hashed_value::<DescriptorTotalCount>();
    let none: DescriptorTotalCount = Default::default();
    none.total()
}

fn greatest_counts() -> DescriptorTotalCount {
    DescriptorTotalCount {
        sampler: u32::MAX,
        combined_image_sampler: u32::MAX,
        sampled_image: u32::MAX,
        storage_image: u32::MAX,
        uniform_texel_buffer: u32::MAX,
        storage_texel_buffer: u32::MAX,
        uniform_buffer: u32::MAX,
        storage_buffer: u32::MAX,
        uniform_buffer_dynamic: u32::MAX,
        storage_buffer_dynamic: u32::MAX,
        input_attachment: u32::MAX,
        acceleration_structure: u32::MAX,
        inline_uniform_block_bytes: u32::MAX,
        inline_uniform_block_bindings: u32::MAX,
    }
}

fn is_flags<F: Flags<Bits = u32>>() {}

fn bits_of_a_pool() -> u32 {
    is_value::<DescriptorPoolCreateFlags>();
    is_flags::<DescriptorPoolCreateFlags>();
    let free: DescriptorPoolCreateFlags = DescriptorPoolCreateFlags::FREE_DESCRIPTOR_SET;
    let marked: DescriptorPoolCreateFlags = DescriptorPoolCreateFlags::UPDATE_AFTER_BIND;
    let both: DescriptorPoolCreateFlags = free | marked;
    both.bits()
}

fn number_of_create_error(error: CreatePoolError) -> u8 {
    is_value::<CreatePoolError>();
    match error {
        CreatePoolError::OutOfDeviceMemory => 0,
        CreatePoolError::OutOfHostMemory => 1,
        CreatePoolError::Fragmentation => 2,
    }
}

fn number_of_device_error(error: DeviceAllocationError) -> u8 {
    is_value::<DeviceAllocationError>();
    match error {
        DeviceAllocationError::OutOfDeviceMemory => 0,
        DeviceAllocationError::OutOfHostMemory => 1,
        DeviceAllocationError::FragmentedPool => 2,
        DeviceAllocationError::OutOfPoolMemory => 3,
    }
}

fn first_of<'a, L>(layout: &'a L, count: u32) -> Option<&'a L> {
    let mut layouts: Layouts<'a, L> = Layouts::new(layout, count);
    layouts.next()
}

fn length_of<L>(layouts: &Layouts<'_, L>) -> u32 {
    is_debug::<Layouts<'_, u8>>();
    layouts.len()
}

fn layout_of<'a, L>(layouts: &Layouts<'a, L>) -> &'a L {
    layouts.layout()
}

fn put<S, K: SetSink<S>>(sink: &mut K, set: S) -> usize
    requires { 0 < K.sink.room sink.old }
{
    sink.put(set);
    sink.room()
}

fn size_of_a_pool(counts: &DescriptorTotalCount, total: u64) -> (DescriptorTotalCount, u32) {
    let size: (DescriptorTotalCount, u32) = new_pool_size(counts, total, u32::MAX);
    bounded_pool_size(counts, size, u32::MAX, Some(0))
}

fn size_in_room(counts: &DescriptorTotalCount, room: u32) -> Option<(DescriptorTotalCount, u32)> {
    cut_pool_size(counts, u64::MAX, u32::MAX, room)
}

fn sets_of_a_pool(counts: &DescriptorTotalCount, total: u64) -> [u32; 3] {
    let sets: u32 = new_pool_sets(counts, total, u32::MAX);
    let alike: u32 = pool_sets_for_greatest(greatest_count(counts), total, u32::MAX);
    [sets, alike, bounded_pool_sets(counts, sets, u32::MAX, None)]
}

fn sets_in_room(counts: &DescriptorTotalCount, sets: u32, room: u32) -> Option<u32>
    requires { 1 ≤ sets }
{
    cut_pool_sets(counts, sets, room)
}

fn counts_in_a_pool(counts: &DescriptorTotalCount, sets: u32) -> DescriptorTotalCount
    requires { All (λ count. count * sets < 2 ^ 32) (kinds counts.now) }
{
    counts_of_sets(counts, sets)
}

fn one_more() -> Tally {
    let before: Tally = Tally::zero();
    Tally::next(&before)
}

fn laws_that_are_called() {
    laws::counts_are_their_kinds();
    laws::flags_are_their_bits();
    laws::errors_are_their_cases();
}

fn create<L, P, S, D: DescriptorDevice<L, P, S>>(
    device: &mut D,
    counts: &DescriptorTotalCount,
    max_sets: u32,
    flags: DescriptorPoolCreateFlags,
) -> Result<P, CreatePoolError> {
    device.create_descriptor_pool(counts, max_sets, flags)
}

fn destroy<L, P, S, D: DescriptorDevice<L, P, S>>(device: &mut D, pool: P)
    requires { HasNoSets (D.meaning.pool_name pool) (D.ledger device.old) }
{
    device.destroy_descriptor_pool(pool)
}

fn allocate<L, P, S, D: DescriptorDevice<L, P, S>, K: SetSink<S>>(
    device: &mut D,
    pool: &mut P,
    layouts: Layouts<'_, L>,
    sets: &mut K,
) -> Result<(), DeviceAllocationError>
    requires fits { CanPut K.sink (D.meaning.pool_name pool.old) (left layouts) (D.meaning.counts (layout
        layouts)) (D.meaning.mark (layout layouts)) sets.old (D.ledger device.old) }
{
    device.alloc_descriptor_sets(pool, layouts, sets)
}

fn free<L, P, S, D: DescriptorDevice<L, P, S>, I: Iterator<Item = S>>(
    device: &mut D,
    pool: &mut P,
    sets: &mut I,
)
    requires ends { CanDrain I.can_next I.remaining sets.old }
    requires live { HoldsAlong I.next_gives sets.old (λ xs. AreLive (D.meaning.pool_name pool.old)
        (map D.meaning.set_name xs) (D.ledger device.old)) }
{
    device.dealloc_descriptor_sets(pool, sets)
}
