//! The greatest counts and none, as a caller gives them: no clause says that its words mean these numbers.
use crate::seen::{expect_same, layout_of};
use gpu_descriptor::{DescriptorTotalCount, new_pool_size};

/// Each kind as often as can be.
fn greatest() -> DescriptorTotalCount {
    let mut counts = DescriptorTotalCount::default();
    for kind in 0..14 {
        counts.set_kind(kind, u32::MAX);
    }
    counts
}

#[test]
fn sizes_at_the_greatest_numbers(rt: HostRuntime) {
    let all = greatest();
    expect_same(&rt, all.total(), 60_129_542_130);
    expect_same(&rt, new_pool_size(&all, u64::MAX, u32::MAX), (all, 1));
    let none = DescriptorTotalCount::default();
    let one_sampler = layout_of(1, false).counts;
    let size = new_pool_size(&none, 0, u32::MAX);
    expect_same(&rt, size, (one_sampler, 2_147_483_647));
}
