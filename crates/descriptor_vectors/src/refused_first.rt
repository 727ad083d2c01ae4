//! An allocator whose first request was refused before a pool came. It has no pools, as a new one,
//! though its key is known: what holds of an allocator without pools holds of it.
ghost use Rattle.std.specs.Prelude.{◌≡◌, IsTrue};
ghost use Rattle.gpu_descriptor.specs.Caller.States.{Agrees, outstanding_of, state_of};
ghost use Rattle.gpu_descriptor.specs.Model.Agreement.{HasNoPools};
ghost use Rattle.descriptor_script.specs.Scripted.Device.{ledger_of};
ghost use Rattle.descriptor_script.specs.Scripted.Raw.{pool_id};

use crate::seen::{expect_same, layout_of};
use descriptor_script::{Answer, RawPool, RawSet, ScriptLayout, ScriptedDevice, refuse_at};
use gpu_descriptor::{AllocationError, DescriptorAllocator, laws};
use std::process::Abort;
use std::test::Fail;

/// Asks for a set. It answers whether that was refused, and left the key without pools.
fn ask_in_vain(
    allocator: &mut DescriptorAllocator<RawPool, RawSet>,
    device: &mut ScriptedDevice,
    layout: &ScriptLayout,
) -> bool
    requires agree { Agrees pool_id allocator.old (ledger_of device.old) }
    requires began { HasNoPools (state_of pool_id allocator.old (ledger_of device.old)) }
    ensures agree { Agrees pool_id allocator.new (ledger_of device.new) }
    ensures none { outstanding_of allocator.new ≡ outstanding_of allocator.old }
    ensures began { IsTrue result → HasNoPools (state_of pool_id allocator.new
        (ledger_of device.new)) }
{
    let flags = layout.flags();
    match allocator.allocate(device, layout, flags, &layout.counts, 1) {
        Ok(sets) => {
            allocator.free_all(device, sets);
            false
        }
        Err(_) => allocator.pool_count(&layout.counts, layout.mark) == 0,
    }
}

/// Takes a set of an allocator without pools, gives it back and cleans up: the device has the pools
/// that it had.
fn borrow_and_clean(
    allocator: &mut DescriptorAllocator<RawPool, RawSet>,
    device: &mut ScriptedDevice,
    layout: &ScriptLayout,
) -> Result<(), AllocationError>
    requires agree { Agrees pool_id allocator.old (ledger_of device.old) }
    requires began { HasNoPools (state_of pool_id allocator.old (ledger_of device.old)) }
    requires none { outstanding_of allocator.old ≡ 0 }
    ensures pools { (ledger_of device.new).pools ≡ (ledger_of device.old).pools }
{
    laws::no_pool_is_lost::<RawPool>();
    let flags = layout.flags();
    match allocator.allocate(device, layout, flags, &layout.counts, 1) {
        Ok(sets) => {
            allocator.free_all(device, sets);
            allocator.cleanup(device);
            Ok(())
        }
        Err(error) => {
            allocator.cleanup(device);
            Err(error)
        }
    }
}

/// A request is refused, and the next one is granted.
fn expect_pools_back(
    rt: &impl Abort,
    allocator: &mut DescriptorAllocator<RawPool, RawSet>,
    device: &mut ScriptedDevice,
) -> Result<(), Fail>
    requires agree { Agrees pool_id allocator.old (ledger_of device.old) }
    requires began { HasNoPools (state_of pool_id allocator.old (ledger_of device.old)) }
    requires none { outstanding_of allocator.old ≡ 0 }
{
    let layout = layout_of(1, false);
    if !ask_in_vain(allocator, device, &layout) {
        return Err(Fail::new("a pool is there"));
    }
    borrow_and_clean(allocator, device, &layout)?;
    expect_same(rt, (device.created(), device.destroyed()), (1, 1));
    Ok(())
}

#[test]
fn pools_come_back_after_a_refused_first_request(rt: HostRuntime) -> Result<(), Fail> {
    let script = refuse_at(rt.alloc(), 0, Answer::Device)?;
    let mut device = ScriptedDevice::new(rt.alloc(), script);
    let mut allocator = DescriptorAllocator::new(rt.alloc(), 0);
    expect_pools_back(&rt, &mut allocator, &mut device)
}
