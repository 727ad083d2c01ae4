//! Sets of two layouts, allocated and freed, over any device.
ghost use Rattle.std.specs.Prelude.{◌≡◌};
ghost use Rattle.gpu_descriptor.specs.Caller.Others.{others_of};
ghost use Rattle.gpu_descriptor.specs.Caller.SetLayouts.{IsMeant};
ghost use Rattle.gpu_descriptor.specs.Caller.States.{Agrees, outstanding_of};

use gpu_descriptor::{AllocationError, DescriptorAllocator, DescriptorDevice, SetLayout, laws};
use std::alloc::Global;

/// Makes an allocator, allocates three sets of one layout and two of another, frees all and cleans up.
/// Whatever the device refuses, it is left with the pools that it had.
pub fn draw_once<L, P: Drop, S: Drop, D: DescriptorDevice<L, P, S>>(
    alloc: Global,
    device: &mut D,
    first: &SetLayout<L>,
    second: &SetLayout<L>,
) -> Result<(), AllocationError>
    requires first { IsMeant D.meaning first.now }
    requires second { IsMeant D.meaning second.now }
    ensures pools { (D.ledger device.new).pools ≡ (D.ledger device.old).pools }
{
    laws::no_pool_is_lost::<P>();
    let mut allocator = DescriptorAllocator::new(alloc, u32::MAX);
    let answer = borrow_sets(&mut allocator, device, first, second);
    allocator.cleanup(device);
    answer
}

/// Allocates three sets of one layout and two of another, and frees them, the last ones first.
pub fn borrow_sets<L, P: Drop, S: Drop, D: DescriptorDevice<L, P, S>>(
    allocator: &mut DescriptorAllocator<P, S>,
    device: &mut D,
    first: &SetLayout<L>,
    second: &SetLayout<L>,
) -> Result<(), AllocationError>
    requires first { IsMeant D.meaning first.now }
    requires second { IsMeant D.meaning second.now }
    requires agree { Agrees D.meaning.pool_name allocator.old (D.ledger device.old) }
    ensures agree { Agrees D.meaning.pool_name allocator.new (D.ledger device.new) }
    ensures outstanding { outstanding_of allocator.new ≡ outstanding_of allocator.old }
    ensures others { others_of D.meaning.pool_name allocator.new (D.ledger device.new) ≡ others_of
        D.meaning.pool_name allocator.old (D.ledger device.old) }
{
    let three = allocator.allocate_for(device, first, 3)?;
    match allocator.allocate_for(device, second, 2) {
        Ok(two) => {
            allocator.free_all(device, two);
            allocator.free_all(device, three);
            Ok(())
        }
        Err(error) => {
            allocator.free_all(device, three);
            Err(error)
        }
    }
}
