//! The allocator, its sets and its errors.
ghost use Rattle.std.specs.Prelude.{◌≡◌, ◌-◌, ◌<◌, ◌^◌};
ghost use Rattle.std.specs.Iterator.{HoldsAlong, IsFiniteIterable};
ghost use Rattle.gpu_descriptor_types.specs.Ledger.{CanDrain};
ghost use Rattle.gpu_descriptor_types.specs.Counts.{kinds};
ghost use Rattle.gpu_descriptor.specs.Model.Agreement.{AreOutstanding};
ghost use Rattle.gpu_descriptor.specs.Caller.Flags.{is_marked};
ghost use Rattle.gpu_descriptor.specs.Caller.SetLayouts.{IsMeant};
ghost use Rattle.gpu_descriptor.specs.Caller.Sets.{items_of, number_of};
ghost use Rattle.gpu_descriptor.specs.Caller.States.{Agrees, state_of};

use super::{is_debug, is_hashed_value, is_value};
use bitflags::Flags;
// The items of `gpu_descriptor_types` are items of this crate, too.
use gpu_descriptor::{
    AllocationError, CompactDescriptorSet, CreatePoolError, DescriptorAllocator, DescriptorDevice,
    DescriptorPoolCreateFlags, DescriptorSet, DescriptorSetLayoutCreateFlags, DescriptorTotalCount,
    DeviceAllocationError, Layouts, PoolView, SetLayout, SetSink, Tally, bounded_pool_size,
    cut_pool_size, laws, new_pool_size,
};
use std::alloc::Global;
use std::error::Error;
use std::ops::Range;

fn bits_of_a_layout() -> u32 {
    is_hashed_value::<DescriptorSetLayoutCreateFlags>();
    let flags: DescriptorSetLayoutCreateFlags = DescriptorSetLayoutCreateFlags::UPDATE_AFTER_BIND;
    let both: DescriptorSetLayoutCreateFlags = flags | DescriptorSetLayoutCreateFlags::empty();
    both.bits()
}

fn number_of_error(error: AllocationError) -> u8 {
    match error {
        AllocationError::OutOfDeviceMemory => 1,
        AllocationError::OutOfHostMemory => 2,
        AllocationError::Fragmentation => 3,
    }
}

fn is_error<E: Error>() {}

fn error_of_a_request(error: CreatePoolError) -> AllocationError {
    is_value::<AllocationError>();
    is_error::<AllocationError>();
    AllocationError::from(error)
}

fn raw<S>(set: &DescriptorSet<S>) -> &S {
    set.raw()
}

fn write<S: Drop>(set: &mut DescriptorSet<S>, raw: S) {
    let place: &mut S = set.raw_mut();
    *place = raw;
}

fn id_of_key<S>(set: &DescriptorSet<S>, ids: &Range<u64>) -> (u64, bool) {
    let id: u64 = set.key_id();
    (id, set.has_id_in(ids))
}

fn without_id<S>(set: DescriptorSet<S>) -> (u64, CompactDescriptorSet<S>)
    requires { number_of set < 2 ^ 64 - 1 }
{
    is_debug::<CompactDescriptorSet<u8>>();
    CompactDescriptorSet::of(set)
}

fn with_id<S>(set: CompactDescriptorSet<S>, id: u64) -> DescriptorSet<S> {
    set.with_id(id)
}

fn raw_without_id<S>(set: &CompactDescriptorSet<S>) -> &S {
    set.raw()
}

fn layout_with_counts<L>(layout: SetLayout<L>) -> (L, DescriptorTotalCount) {
    is_debug::<SetLayout<u8>>();
    let SetLayout {
        layout,
        counts,
        flags,
    } = layout;
    let _flags: DescriptorSetLayoutCreateFlags = flags;
    (layout, counts)
}

fn counts_of_a_pool(view: PoolView) -> (u64, u32, u32) {
    is_value::<PoolView>();
    let PoolView {
        number,
        allocated,
        available,
    } = view;
    (number, allocated, available)
}

fn totals(allocator: &DescriptorAllocator<u8, u8>) -> (u64, [u32; 3]) {
    is_debug::<DescriptorSet<u8>>();
    is_debug::<DescriptorAllocator<u8, u8>>();
    let sets: u64 = allocator.outstanding();
    let descriptors: u32 = allocator.update_after_bind_descriptors();
    let capacity: u32 = allocator.update_after_bind_capacity();
    let limit: u32 = allocator.update_after_bind_limit();
    (sets, [descriptors, capacity, limit])
}

fn pools_of_a_new_allocator(
    alloc: Global,
    counts: &DescriptorTotalCount,
) -> (usize, Option<PoolView>) {
    let allocator: DescriptorAllocator<u8, u8> = DescriptorAllocator::new(alloc, u32::MAX);
    let pools: usize = allocator.pool_count(counts, true);
    (pools, allocator.pool(counts, false, usize::MAX))
}

fn bound_of_a_new_allocator(alloc: Global, ids: Range<u64>) -> Option<u64> {
    let mut allocator: DescriptorAllocator<u8, u8> = DescriptorAllocator::with_ids(
        alloc,
        u32::MAX,
        ids,
    );
    allocator.set_max_pool_descriptors(None);
    allocator.max_pool_descriptors()
}

fn allocate<L, P: Drop, S: Drop, D: DescriptorDevice<L, P, S>>(
    allocator: &mut DescriptorAllocator<P, S>,
    device: &mut D,
    layout: &L,
    flags: DescriptorSetLayoutCreateFlags,
    layout_descriptor_count: &DescriptorTotalCount,
    count: u32,
) -> Result<Vec<DescriptorSet<S>>, AllocationError>
    requires counts { kinds layout_descriptor_count.now ≡ D.meaning.counts layout.now }
    requires mark { is_marked flags ≡ D.meaning.mark layout.now }
    requires agree { Agrees D.meaning.pool_name allocator.old (D.ledger device.old) }
{
    allocator.allocate(device, layout, flags, layout_descriptor_count, count)
}

fn allocate_for<L, P: Drop, S: Drop, D: DescriptorDevice<L, P, S>>(
    allocator: &mut DescriptorAllocator<P, S>,
    device: &mut D,
    layout: &SetLayout<L>,
    count: u32,
) -> Result<Vec<DescriptorSet<S>>, AllocationError>
    requires meant { IsMeant D.meaning layout.now }
    requires agree { Agrees D.meaning.pool_name allocator.old (D.ledger device.old) }
{
    allocator.allocate_for(device, layout, count)
}

fn allocate_into<L, P: Drop, S: Drop, D: DescriptorDevice<L, P, S>>(
    allocator: &mut DescriptorAllocator<P, S>,
    device: &mut D,
    layout: &SetLayout<L>,
    count: u32,
    sets: &mut Vec<DescriptorSet<S>>,
) -> Result<(), AllocationError>
    requires meant { IsMeant D.meaning layout.now }
    requires agree { Agrees D.meaning.pool_name allocator.old (D.ledger device.old) }
{
    allocator.allocate_into(device, layout, count, sets)
}

fn allocate_one<L, P: Drop, S: Drop, D: DescriptorDevice<L, P, S>>(
    allocator: &mut DescriptorAllocator<P, S>,
    device: &mut D,
    layout: &SetLayout<L>,
) -> Result<DescriptorSet<S>, AllocationError>
    requires meant { IsMeant D.meaning layout.now }
    requires agree { Agrees D.meaning.pool_name allocator.old (D.ledger device.old) }
{
    allocator.allocate_one(device, layout)
}

fn free<L, P, S, D: DescriptorDevice<L, P, S>, I: IntoIterator<Item = DescriptorSet<S>>>(
    allocator: &mut DescriptorAllocator<P, S>,
    device: &mut D,
    sets: I,
)
    requires ends { IsFiniteIterable I.into_iter_gives I.IntoIter.can_next I.IntoIter.remaining sets }
    requires agree { Agrees D.meaning.pool_name allocator.old (D.ledger device.old) }
    requires outstanding { (iter : I.IntoIter) → I.into_iter_gives sets iter → HoldsAlong
        I.IntoIter.next_gives iter (λ xs. AreOutstanding (items_of D.meaning.set_name xs)
        (state_of D.meaning.pool_name allocator.old (D.ledger device.old))) }
{
    allocator.free(device, sets)
}

fn free_from<L, P, S, D: DescriptorDevice<L, P, S>, I: Iterator<Item = DescriptorSet<S>>>(
    allocator: &mut DescriptorAllocator<P, S>,
    device: &mut D,
    sets: &mut I,
)
    requires ends { CanDrain I.can_next I.remaining sets.old }
    requires agree { Agrees D.meaning.pool_name allocator.old (D.ledger device.old) }
    requires outstanding { HoldsAlong I.next_gives sets.old (λ xs. AreOutstanding
        (items_of D.meaning.set_name xs)
        (state_of D.meaning.pool_name allocator.old (D.ledger device.old))) }
{
    allocator.free_from(device, sets)
}

fn free_all<L, P, S: Drop, D: DescriptorDevice<L, P, S>>(
    allocator: &mut DescriptorAllocator<P, S>,
    device: &mut D,
    sets: Vec<DescriptorSet<S>>,
)
    requires agree { Agrees D.meaning.pool_name allocator.old (D.ledger device.old) }
    requires outstanding { AreOutstanding (items_of D.meaning.set_name sets.items)
        (state_of D.meaning.pool_name allocator.old (D.ledger device.old)) }
{
    allocator.free_all(device, sets)
}

fn cleanup<L, P: Drop, S, D: DescriptorDevice<L, P, S>>(
    allocator: &mut DescriptorAllocator<P, S>,
    device: &mut D,
)
    requires agree { Agrees D.meaning.pool_name allocator.old (D.ledger device.old) }
{
    allocator.cleanup(device)
}

fn trim<L, P: Drop, S, D: DescriptorDevice<L, P, S>>(
    allocator: &mut DescriptorAllocator<P, S>,
    device: &mut D,
)
    requires agree { Agrees D.meaning.pool_name allocator.old (D.ledger device.old) }
{
    allocator.trim(device)
}

fn trim_layout<L, P, S, D: DescriptorDevice<L, P, S>>(
    allocator: &mut DescriptorAllocator<P, S>,
    device: &mut D,
    layout: &SetLayout<L>,
)
    requires meant { IsMeant D.meaning layout.now }
    requires agree { Agrees D.meaning.pool_name allocator.old (D.ledger device.old) }
{
    allocator.trim_layout(device, layout)
}

fn laws_on_calls<P>() {
    laws::release_parts();
    laws::clean_again();
    laws::no_pool_is_lost::<P>();
    laws::only_a_trim_leaves_gaps();
    laws::only_device_and_memory_refuse();
}

fn laws_on_books<P>() {
    laws::books_alone();
    laws::agreement_is_one();
    laws::rows_add_up::<P>();
    laws::pools_have_their_load();
    laws::out_is_outstanding();
    laws::others_are_free();
    laws::a_key_has_one_id();
}

fn laws_on_values() {
    laws::items_are_their_parts();
    laws::flags_are_their_bits();
    laws::errors_are_their_cases();
    laws::views_are_their_numbers();
}
