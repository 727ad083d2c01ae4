//! Sets in a caller's hands: that each goes back, by an iterator which the caller keeps too.
ghost use Rattle.gpu_descriptor.specs.Caller.States.{Agrees};
ghost use Rattle.descriptor_script.specs.Scripted.Raw.{pool_id};
ghost use Rattle.descriptor_script.specs.Scripted.Device.{ledger_of};

use crate::seen::{expect_same, layout_of};
use descriptor_examples::proper_use::{borrow_pool, borrow_set, borrow_sets};
use descriptor_script::{RawPool, RawSet, ScriptLayout, ScriptedDevice};
use gpu_descriptor::{AllocationError, DescriptorAllocator};
use std::process::Abort;
use std::test::Fail;

/// Borrows a set, and sees that it has this name and is back.
fn expect_borrowed(
    rt: &impl Abort,
    allocator: &mut DescriptorAllocator<RawPool, RawSet>,
    device: &mut ScriptedDevice,
    layout: &ScriptLayout,
    name: u64,
) -> Result<(), AllocationError>
    requires { Agrees pool_id allocator.old (ledger_of device.old) }
    ensures { Agrees pool_id allocator.new (ledger_of device.new) }
{
    expect_same(rt, borrow_set(allocator, device, layout)?, name);
    expect_same(rt, allocator.outstanding(), 0);
    Ok(())
}

/// Borrows sets of a plain layout, then a pool, and then sets of a marked layout by an iterator.
fn expect_all_lent(
    rt: &impl Abort,
    allocator: &mut DescriptorAllocator<RawPool, RawSet>,
    device: &mut ScriptedDevice,
) -> Result<(), Fail>
    requires { Agrees pool_id allocator.old (ledger_of device.old) }
{
    let plain = layout_of(1, false);
    expect_borrowed(rt, allocator, device, &plain, 0)?;
    expect_borrowed(rt, allocator, device, &plain, 1)?;
    expect_same(rt, allocator.pool_count(&plain.counts, false), 1);
    expect_same(rt, borrow_pool(device, &plain.counts)?, 1);
    let is_at_end = borrow_sets(allocator, device, &layout_of(3, true), 3)?;
    expect_same(rt, (is_at_end, allocator.outstanding()), (true, 0));
    Ok(())
}

#[test]
fn sets_are_lent_and_come_back(rt: HostRuntime) -> Result<(), Fail> {
    let mut device = ScriptedDevice::new(rt.alloc(), Vec::new(rt.alloc()));
    let mut allocator = DescriptorAllocator::new(rt.alloc(), 10);
    expect_all_lent(&rt, &mut allocator, &mut device)
}
