//! The frame manager.
ghost use Rattle.std.specs.Prelude.{◌≡◌};
ghost use Rattle.std.specs.Iterator.{HoldsAlong};
ghost use Rattle.gpu_descriptor_types.specs.Counts.{kinds};
ghost use Rattle.gpu_descriptor_types.specs.Ledger.{CanDrain};
ghost use Rattle.gpu_descriptor.specs.Caller.Flags.{is_marked};
ghost use Rattle.gpu_descriptor.specs.Caller.SetLayouts.{IsMeant};
ghost use Rattle.gpu_descriptor.specs.Caller.Sets.{items_of};
ghost use Rattle.gpu_descriptor.specs.Caller.States.{Agrees};
ghost use Rattle.descriptor_frames.specs.Frames.{AreInUse, AreRetiredOut, allocator_of};

use super::is_debug;
use descriptor_frames::{FrameManager, RetireError};
use gpu_descriptor::{
    AllocationError, DescriptorAllocator, DescriptorDevice, DescriptorSet,
    DescriptorSetLayoutCreateFlags, DescriptorTotalCount, SetLayout,
};
use std::alloc::{AllocError, Global};
use std::ops::Range;

fn retire<P, S>(
    manager: &mut FrameManager<P, S>,
    frame: u64,
    set: DescriptorSet<S>,
) -> Result<(), RetireError<S>> {
    manager.retire(frame, set)
}

fn set_of<S>(error: RetireError<S>) -> DescriptorSet<S> {
    match error {
        RetireError::FrameBack(set) => set,
        RetireError::Memory(set) => set,
    }
}

fn set_of_any<S>(error: RetireError<S>) -> DescriptorSet<S> {
    error.into_inner()
}

fn reserve<P, S>(manager: &mut FrameManager<P, S>, additional: usize) -> Result<(), AllocError> {
    manager.reserve(additional)
}

fn finish<L, P, S, D: DescriptorDevice<L, P, S>>(
    manager: &mut FrameManager<P, S>,
    device: &mut D,
    frame: u64,
)
    requires agree { Agrees D.meaning.pool_name (allocator_of manager.old) (D.ledger device.old) }
    requires retired { AreRetiredOut D.meaning.pool_name D.meaning.set_name manager.old
        (D.ledger device.old) }
{
    manager.finish(device, frame)
}

fn allocate<L, P: Drop, S: Drop, D: DescriptorDevice<L, P, S>>(
    manager: &mut FrameManager<P, S>,
    device: &mut D,
    layout: &L,
    flags: DescriptorSetLayoutCreateFlags,
    layout_descriptor_count: &DescriptorTotalCount,
    count: u32,
) -> Result<Vec<DescriptorSet<S>>, AllocationError>
    requires counts { kinds layout_descriptor_count.now ≡ D.meaning.counts layout.now }
    requires mark { is_marked flags ≡ D.meaning.mark layout.now }
    requires agree { Agrees D.meaning.pool_name (allocator_of manager.old) (D.ledger device.old) }
{
    manager.allocate(device, layout, flags, layout_descriptor_count, count)
}

fn allocate_for<L, P: Drop, S: Drop, D: DescriptorDevice<L, P, S>>(
    manager: &mut FrameManager<P, S>,
    device: &mut D,
    layout: &SetLayout<L>,
    count: u32,
) -> Result<Vec<DescriptorSet<S>>, AllocationError>
    requires meant { IsMeant D.meaning layout.now }
    requires agree { Agrees D.meaning.pool_name (allocator_of manager.old) (D.ledger device.old) }
{
    manager.allocate_for(device, layout, count)
}

fn allocate_into<L, P: Drop, S: Drop, D: DescriptorDevice<L, P, S>>(
    manager: &mut FrameManager<P, S>,
    device: &mut D,
    layout: &SetLayout<L>,
    count: u32,
    sets: &mut Vec<DescriptorSet<S>>,
) -> Result<(), AllocationError>
    requires meant { IsMeant D.meaning layout.now }
    requires agree { Agrees D.meaning.pool_name (allocator_of manager.old) (D.ledger device.old) }
{
    manager.allocate_into(device, layout, count, sets)
}

fn allocate_one<L, P: Drop, S: Drop, D: DescriptorDevice<L, P, S>>(
    manager: &mut FrameManager<P, S>,
    device: &mut D,
    layout: &SetLayout<L>,
) -> Result<DescriptorSet<S>, AllocationError>
    requires meant { IsMeant D.meaning layout.now }
    requires agree { Agrees D.meaning.pool_name (allocator_of manager.old) (D.ledger device.old) }
{
    manager.allocate_one(device, layout)
}

fn free_from<L, P, S, D: DescriptorDevice<L, P, S>, I: Iterator<Item = DescriptorSet<S>>>(
    manager: &mut FrameManager<P, S>,
    device: &mut D,
    sets: &mut I,
)
    requires ends { CanDrain I.can_next I.remaining sets.old }
    requires agree { Agrees D.meaning.pool_name (allocator_of manager.old) (D.ledger device.old) }
    requires in_use { HoldsAlong I.next_gives sets.old (λ xs. AreInUse D.meaning.pool_name
        D.meaning.set_name (items_of D.meaning.set_name xs) manager.old (D.ledger device.old)) }
{
    manager.free_from(device, sets)
}

fn free_all<L, P, S: Drop, D: DescriptorDevice<L, P, S>>(
    manager: &mut FrameManager<P, S>,
    device: &mut D,
    sets: Vec<DescriptorSet<S>>,
)
    requires agree { Agrees D.meaning.pool_name (allocator_of manager.old) (D.ledger device.old) }
    requires in_use { AreInUse D.meaning.pool_name D.meaning.set_name
        (items_of D.meaning.set_name sets.items) manager.old (D.ledger device.old) }
{
    manager.free_all(device, sets)
}

fn trim<L, P: Drop, S, D: DescriptorDevice<L, P, S>>(
    manager: &mut FrameManager<P, S>,
    device: &mut D,
)
    requires { Agrees D.meaning.pool_name (allocator_of manager.old) (D.ledger device.old) }
{
    manager.trim(device)
}

fn trim_layout<L, P: Drop, S, D: DescriptorDevice<L, P, S>>(
    manager: &mut FrameManager<P, S>,
    device: &mut D,
    layout: &SetLayout<L>,
)
    requires meant { IsMeant D.meaning layout.now }
    requires agree { Agrees D.meaning.pool_name (allocator_of manager.old) (D.ledger device.old) }
{
    manager.trim_layout(device, layout)
}

fn cleanup<L, P: Drop, S, D: DescriptorDevice<L, P, S>>(
    manager: &mut FrameManager<P, S>,
    device: &mut D,
)
    requires { Agrees D.meaning.pool_name (allocator_of manager.old) (D.ledger device.old) }
{
    manager.cleanup(device)
}

fn allocator<P, S>(manager: &FrameManager<P, S>) -> &DescriptorAllocator<P, S> {
    manager.allocator()
}

fn bound_of_a_new_manager(alloc: Global, ids: Range<u64>) -> (u64, Option<u64>) {
    let mut manager: FrameManager<u8, u8> = FrameManager::with_ids(alloc, u32::MAX, ids);
    manager.set_max_pool_descriptors(None);
    let greatest: u64 = manager.greatest();
    (greatest, manager.max_pool_descriptors())
}

fn sets_of_a_new_manager(alloc: Global) -> (u64, u64) {
    is_debug::<FrameManager<u8, u8>>();
    is_debug::<RetireError<u8>>();
    let manager: FrameManager<u8, u8> = FrameManager::new(alloc, u32::MAX);
    let outstanding: u64 = manager.outstanding();
    let retired: u64 = manager.retired();
    (outstanding, retired)
}
