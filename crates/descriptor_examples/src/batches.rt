//! Two batches of sets, freed one after the other.
ghost use Rattle.std.specs.Prelude.{◌++◌};
ghost use Rattle.gpu_descriptor.specs.Model.Agreement.{AreOutstanding};
ghost use Rattle.gpu_descriptor.specs.Model.Promises.{AreOutBesides};
ghost use Rattle.gpu_descriptor.specs.Caller.Sets.{items_of};
ghost use Rattle.gpu_descriptor.specs.Caller.States.{Agrees, state_of};

use gpu_descriptor::{DescriptorAllocator, DescriptorDevice, DescriptorSet};

/// Frees two batches. Before, all their sets together are outstanding; after, none of them is.
pub fn free_both<L, P, S: Drop, D: DescriptorDevice<L, P, S>>(
    allocator: &mut DescriptorAllocator<P, S>,
    device: &mut D,
    first: Vec<DescriptorSet<S>>,
    second: Vec<DescriptorSet<S>>,
)
    requires agree { Agrees D.meaning.pool_name allocator.old (D.ledger device.old) }
    requires outstanding { AreOutstanding
        (items_of D.meaning.set_name (first.items ++ second.items))
        (state_of D.meaning.pool_name allocator.old (D.ledger device.old)) }
    ensures agree { Agrees D.meaning.pool_name allocator.new (D.ledger device.new) }
    ensures returned { AreOutBesides (items_of D.meaning.set_name (first.items ++ second.items))
        (state_of D.meaning.pool_name allocator.new (D.ledger device.new))
        (state_of D.meaning.pool_name allocator.old (D.ledger device.old)) }
{
    allocator.free_all(device, first);
    allocator.free_all(device, second);
}
