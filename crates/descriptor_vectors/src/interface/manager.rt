//! The set manager, its handles and its errors.
ghost use Rattle.gpu_descriptor.specs.Caller.SetLayouts.{IsMeant};

use super::{is_hashed_value, is_value};
use descriptor_manager::{
    BeginFrameError, Counts, FreeError, LayoutHandle, RequestError, SetHandle, SetManager, SetName,
};
use gpu_descriptor::{
    AllocationError, CompactDescriptorSet, DescriptorDevice, PoolView, SetLayout,
};
use std::alloc::{AllocFailed, Global};
use std::error::Error;

fn is_error<E: Error>() {}

fn is_name<T, N: SetName<T>>() {}

fn number_of_frame_error(error: BeginFrameError) -> u8 {
    is_value::<BeginFrameError>();
    is_error::<BeginFrameError>();
    match error {
        BeginFrameError::FrameOpen => 0,
        BeginFrameError::NoMoreFrames => 1,
    }
}

fn number_of_request_error(error: RequestError) -> u8 {
    is_value::<RequestError>();
    is_error::<RequestError>();
    match error {
        RequestError::NoFrame => 0,
        RequestError::NoLayout => 1,
        RequestError::Allocation(error) => {
            let _error: AllocationError = error;
            2
        }
    }
}

fn number_of_free_error(error: FreeError) -> u8 {
    is_value::<FreeError>();
    is_error::<FreeError>();
    match error {
        FreeError::NoSet => 0,
        FreeError::FrameAhead => 1,
    }
}

fn no_set() -> SetHandle {
    is_hashed_value::<SetHandle>();
    is_hashed_value::<LayoutHandle>();
    is_name::<u8, SetHandle>();
    SetHandle::NONE
}

fn sets_by_use(counts: Counts) -> [u64; 3] {
    is_value::<Counts>();
    let Counts {
        held,
        waiting,
        kept,
    } = counts;
    [held, waiting, kept]
}

fn new<L: Drop, P: Drop, S: Drop, D: DescriptorDevice<L, P, S>>(
    alloc: Global,
    device: D,
    limit: u32,
    number: u64,
) -> SetManager<L, P, S, D> {
    SetManager::new(alloc, device, limit, number)
}

fn add_layout<L: Drop, P: Drop, S: Drop, D: DescriptorDevice<L, P, S>>(
    manager: &mut SetManager<L, P, S, D>,
    layout: SetLayout<L>,
) -> Result<LayoutHandle, AllocFailed<SetLayout<L>>>
    requires { IsMeant D.meaning layout }
{
    manager.add_layout(layout)
}

fn remove_layout<L: Drop, P: Drop, S: Drop, D: DescriptorDevice<L, P, S>>(
    manager: &mut SetManager<L, P, S, D>,
    layout: LayoutHandle,
) -> Result<SetLayout<L>, RequestError> {
    manager.remove_layout(layout)
}

fn layout<L: Drop, P: Drop, S: Drop, D: DescriptorDevice<L, P, S>>(
    manager: &SetManager<L, P, S, D>,
    layout: LayoutHandle,
) -> Option<&SetLayout<L>> {
    manager.layout(layout)
}

fn allocate<L: Drop, P: Drop, S: Drop, D: DescriptorDevice<L, P, S>>(
    manager: &mut SetManager<L, P, S, D>,
    layout: LayoutHandle,
) -> Result<SetHandle, RequestError> {
    manager.allocate(layout)
}

fn allocate_into<
    L: Drop,
    P: Drop,
    S: Drop,
    D: DescriptorDevice<L, P, S>,
    N: SetName<CompactDescriptorSet<S>> + Drop,
>(
    manager: &mut SetManager<L, P, S, D>,
    layout: LayoutHandle,
    sets: &mut [N],
) -> Result<(), RequestError> {
    manager.allocate_into(layout, sets)
}

fn free<
    L: Drop,
    P: Drop,
    S: Drop,
    D: DescriptorDevice<L, P, S>,
    N: SetName<CompactDescriptorSet<S>>,
>(manager: &mut SetManager<L, P, S, D>, sets: &[N]) -> Result<(), FreeError> {
    manager.free(sets)
}

fn free_after<
    L: Drop,
    P: Drop,
    S: Drop,
    D: DescriptorDevice<L, P, S>,
    N: SetName<CompactDescriptorSet<S>>,
>(manager: &mut SetManager<L, P, S, D>, sets: &[N], last_use: u64) -> Result<(), FreeError> {
    manager.free_after(sets, last_use)
}

fn free_all<L: Drop, P: Drop, S: Drop, D: DescriptorDevice<L, P, S>>(
    manager: &mut SetManager<L, P, S, D>,
) {
    manager.free_all()
}

fn set<L: Drop, P: Drop, S: Drop, D: DescriptorDevice<L, P, S>>(
    manager: &SetManager<L, P, S, D>,
    set: SetHandle,
) -> Option<&S> {
    manager.set(set)
}

fn begin_frame<L: Drop, P: Drop, S: Drop, D: DescriptorDevice<L, P, S>>(
    manager: &mut SetManager<L, P, S, D>,
) -> Result<u64, BeginFrameError> {
    manager.begin_frame()
}

fn skip_to<L: Drop, P: Drop, S: Drop, D: DescriptorDevice<L, P, S>>(
    manager: &mut SetManager<L, P, S, D>,
    frame: u64,
) -> Result<(), BeginFrameError> {
    manager.skip_to(frame)
}

fn reuse_for_frame<L: Drop, P: Drop, S: Drop, D: DescriptorDevice<L, P, S>>(
    manager: &mut SetManager<L, P, S, D>,
    layout: LayoutHandle,
) -> Option<SetHandle> {
    manager.reuse_for_frame(layout)
}

fn allocate_for_frame<L: Drop, P: Drop, S: Drop, D: DescriptorDevice<L, P, S>>(
    manager: &mut SetManager<L, P, S, D>,
    layout: LayoutHandle,
) -> Result<SetHandle, RequestError> {
    manager.allocate_for_frame(layout)
}

fn end_frame<L: Drop, P: Drop, S: Drop, D: DescriptorDevice<L, P, S>>(
    manager: &mut SetManager<L, P, S, D>,
) {
    manager.end_frame()
}

fn frame_done<L: Drop, P: Drop, S: Drop, D: DescriptorDevice<L, P, S>>(
    manager: &mut SetManager<L, P, S, D>,
    frame: u64,
) {
    manager.frame_done(frame)
}

fn cleanup<L: Drop, P: Drop, S: Drop, D: DescriptorDevice<L, P, S>>(
    manager: &mut SetManager<L, P, S, D>,
) {
    manager.cleanup()
}

fn trim<L: Drop, P: Drop, S: Drop, D: DescriptorDevice<L, P, S>>(
    manager: &mut SetManager<L, P, S, D>,
) {
    manager.trim()
}

fn set_bounds<L: Drop, P: Drop, S: Drop, D: DescriptorDevice<L, P, S>>(
    manager: &mut SetManager<L, P, S, D>,
    kept: u32,
    descriptors: Option<u64>,
) {
    manager.set_max_kept(kept);
    manager.set_max_pool_descriptors(descriptors);
}

fn frame<L: Drop, P: Drop, S: Drop, D: DescriptorDevice<L, P, S>>(
    manager: &SetManager<L, P, S, D>,
) -> (u64, bool) {
    let frame: u64 = manager.frame();
    (frame, manager.is_frame_open())
}

fn numbers<L: Drop, P: Drop, S: Drop, D: DescriptorDevice<L, P, S>>(
    manager: &SetManager<L, P, S, D>,
) -> (Counts, Option<u64>, [u32; 2]) {
    let counts: Counts = manager.counts();
    let bound: Option<u64> = manager.max_pool_descriptors();
    let capacity: u32 = manager.update_after_bind_capacity();
    (counts, bound, [capacity, manager.update_after_bind_limit()])
}

fn numbers_of_layout<L: Drop, P: Drop, S: Drop, D: DescriptorDevice<L, P, S>>(
    manager: &SetManager<L, P, S, D>,
    layout: LayoutHandle,
) -> (u32, usize, Option<PoolView>) {
    let kept: u32 = manager.kept_count(layout);
    let pools: usize = manager.pool_count(layout);
    (kept, pools, manager.pool(layout, usize::MAX))
}

fn device<L: Drop, P: Drop, S: Drop, D: DescriptorDevice<L, P, S>>(
    manager: &SetManager<L, P, S, D>,
) -> &D {
    manager.device()
}

fn shutdown<L: Drop, P: Drop, S: Drop, D: DescriptorDevice<L, P, S>>(
    manager: SetManager<L, P, S, D>,
) -> D {
    manager.shutdown()
}

fn into_device<L: Drop, P: Drop, S: Drop, D: DescriptorDevice<L, P, S>>(
    manager: SetManager<L, P, S, D>,
) -> D {
    manager.into_device()
}
