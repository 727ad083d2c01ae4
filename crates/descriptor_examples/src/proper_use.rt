//! Proper use of sets and pools: each set is used while it is live, and is freed once.
ghost use Rattle.std.specs.Prelude.{◌≡◌};
ghost use Rattle.gpu_descriptor.specs.Caller.States.{Agrees, outstanding_of};
ghost use Rattle.descriptor_script.specs.Scripted.Raw.{pool_id};
ghost use Rattle.descriptor_script.specs.Scripted.Device.{ledger_of};

use bitflags::Flags;
use descriptor_script::{RawPool, RawSet, ScriptLayout, ScriptedDevice};
use gpu_descriptor::{
    AllocationError, CreatePoolError, DescriptorAllocator, DescriptorDevice,
    DescriptorPoolCreateFlags, DescriptorTotalCount,
};

/// Allocates a set, reads its name, and frees it.
pub fn borrow_set(
    allocator: &mut DescriptorAllocator<RawPool, RawSet>,
    device: &mut ScriptedDevice,
    layout: &ScriptLayout,
) -> Result<u64, AllocationError>
    requires { Agrees pool_id allocator.old (ledger_of device.old) }
    ensures agree { Agrees pool_id allocator.new (ledger_of device.new) }
    ensures outstanding { outstanding_of allocator.new ≡ outstanding_of allocator.old }
{
    let flags = layout.flags();
    match allocator.allocate(device, layout, flags, &layout.counts, 1) {
        Ok(sets) => {
            let name = sets[0].raw().id();
            allocator.free(device, sets);
            Ok(name)
        }
        Err(error) => Err(error),
    }
}

/// Allocates sets, and frees them by an iterator that it keeps. Returns whether that is then at its
/// end.
pub fn borrow_sets(
    allocator: &mut DescriptorAllocator<RawPool, RawSet>,
    device: &mut ScriptedDevice,
    layout: &ScriptLayout,
    count: u32,
) -> Result<bool, AllocationError>
    requires { Agrees pool_id allocator.old (ledger_of device.old) }
    ensures agree { Agrees pool_id allocator.new (ledger_of device.new) }
    ensures outstanding { outstanding_of allocator.new ≡ outstanding_of allocator.old }
{
    let flags = layout.flags();
    match allocator.allocate(device, layout, flags, &layout.counts, count) {
        Ok(sets) => {
            let mut items = sets.into_iter();
            allocator.free_from(device, &mut items);
            Ok(items.next().is_none())
        }
        Err(error) => Err(error),
    }
}

/// Creates a pool, reads its name, and destroys it.
pub fn borrow_pool(
    device: &mut ScriptedDevice,
    counts: &DescriptorTotalCount,
) -> Result<u64, CreatePoolError>
    ensures pools { (ledger_of device.new).pools ≡ (ledger_of device.old).pools }
{
    let flags = DescriptorPoolCreateFlags::empty();
    match device.create_descriptor_pool(counts, 1, flags) {
        Ok(pool) => {
            let name = pool.id();
            device.destroy_descriptor_pool(pool);
            Ok(name)
        }
        Err(error) => Err(error),
    }
}
