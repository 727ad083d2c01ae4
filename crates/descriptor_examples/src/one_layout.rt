//! Sets of one layout, allocated and freed, over any device.
ghost use Rattle.std.specs.Prelude.{◌≡◌};
ghost use Rattle.gpu_descriptor_types.specs.Counts.{kinds};
ghost use Rattle.gpu_descriptor.specs.Caller.Flags.{is_marked};

use gpu_descriptor::{
    AllocationError, DescriptorAllocator, DescriptorDevice, DescriptorSetLayoutCreateFlags,
    DescriptorTotalCount, laws,
};
use std::alloc::Global;

/// Makes an allocator, allocates three sets of a layout, frees them and cleans up. Whatever the device
/// refuses, it is left with the pools that it had.
pub fn draw_once<L, P: Drop, S: Drop, D: DescriptorDevice<L, P, S>>(
    alloc: Global,
    device: &mut D,
    layout: &L,
    flags: DescriptorSetLayoutCreateFlags,
    counts: &DescriptorTotalCount,
) -> Result<(), AllocationError>
    requires counts { kinds counts.now ≡ D.meaning.counts layout.now }
    requires mark { is_marked flags ≡ D.meaning.mark layout.now }
    ensures pools { (D.ledger device.new).pools ≡ (D.ledger device.old).pools }
{
    laws::no_pool_is_lost::<P>();
    let mut allocator = DescriptorAllocator::new(alloc, u32::MAX);
    match allocator.allocate(device, layout, flags, counts, 3) {
        Ok(sets) => {
            // .. `sets[0].raw()` is the device's first set ..
            allocator.free_all(device, sets);
            allocator.cleanup(device);
            Ok(())
        }
        Err(error) => {
            allocator.cleanup(device);
            Err(error)
        }
    }
}
