//! A layout, and what tests look at.
use crate::{Call, LogDevice};
use descriptor_script::{RawPool, RawSet, Reply, ScriptLayout};
use gpu_descriptor::{DescriptorAllocator, DescriptorTotalCount};
use std::fmt::Debug;
use std::process::Abort;

/// A layout with so many samplers, and no other descriptors.
pub fn layout_of(samplers: u32, mark: bool) -> ScriptLayout {
    let mut counts = DescriptorTotalCount::default();
    counts.set_kind(0, samplers);
    ScriptLayout { counts, mark }
}

/// A reply with so many sets, from this ticket on.
pub fn sets(first: usize, count: u32) -> Reply {
    Reply::Sets { first, count }
}

/// Compares two values. A call of it costs the prover less than an assertion in its place.
pub fn expect_same<T: Copy + PartialEq + Debug>(rt: &impl Abort, seen: T, wanted: T) {
    assert_eq!(rt; seen, wanted);
}

/// The number, the allocated and the available of a pool.
fn pool_at(
    allocator: &DescriptorAllocator<RawPool, RawSet>,
    layout: &ScriptLayout,
    index: usize,
) -> Option<(u64, u32, u32)> {
    let view = allocator.pool(&layout.counts, layout.mark, index)?;
    Some((view.number, view.allocated, view.available))
}

/// Compares the pools of a layout: the number, the allocated and the available of each.
pub fn expect_pools(
    rt: &impl Abort,
    allocator: &DescriptorAllocator<RawPool, RawSet>,
    layout: &ScriptLayout,
    pools: &[(u64, u32, u32)],
) {
    expect_same(
        rt,
        allocator.pool_count(&layout.counts, layout.mark),
        pools.len(),
    );
    for (index, pool) in pools.iter().enumerate() {
        expect_same(rt, pool_at(allocator, layout, index), Some(*pool));
    }
}

/// Compares the calls of a device.
pub fn expect_calls(rt: &impl Abort, device: &LogDevice, calls: &[Call]) {
    assert_eq!(rt; device.calls(), calls);
}
