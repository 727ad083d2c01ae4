//! A struct that owns its device and its allocator, which always agree.
ghost use Rattle.std.specs.Prelude.{◌≡◌, length, IfErr, IfOk, OnErr, false};
ghost use Rattle.gpu_descriptor.specs.Model.Agreement.{AreOutstanding};
ghost use Rattle.gpu_descriptor.specs.Model.Promises.{AreOfKey, AreOutBesides};
ghost use Rattle.gpu_descriptor.specs.Model.Promises.{KeepsOutstanding};
ghost use Rattle.gpu_descriptor.specs.Caller.Call.{layout_key};
ghost use Rattle.gpu_descriptor.specs.Caller.Causes.{HasCause};
ghost use Rattle.gpu_descriptor.specs.Caller.CleansUp.{Sweeps};
ghost use Rattle.gpu_descriptor.specs.Caller.SetLayouts.{IsMeant};
ghost use Rattle.gpu_descriptor.specs.Caller.Sets.{AreOfLayout, items_of};
ghost use Rattle.gpu_descriptor.specs.Caller.States.{Agrees};
ghost use Rattle.gpu_descriptor.proofs.callers.OneAgreement.{Agrees-prop};

use gpu_descriptor::{
    AllocationError, DescriptorAllocator, DescriptorDevice, DescriptorSet, SetLayout, laws,
};
use std::alloc::Global;
use std::marker::PhantomData;

/// A device with its allocator. That they agree is a ghost field, so no method asks for it.
pub struct OwnedAllocator<L, P, S, D: DescriptorDevice<L, P, S>> {
    pub device: D,
    pub allocator: DescriptorAllocator<P, S>,
    pub layouts: PhantomData<L>,
    ghost agree: { Agrees D.meaning.pool_name allocator (D.ledger device) } by { Agrees-prop
        D.meaning.pool_name allocator (D.ledger device) },
}

impl<L, P: Drop, S: Drop, D: DescriptorDevice<L, P, S>> OwnedAllocator<L, P, S, D> {
    ghost use Rattle.descriptor_examples.specs.OwnedAllocators.{limit_of, pools_besides};
    ghost use Rattle.descriptor_examples.specs.OwnedAllocators.{side_in, state_in};

    /// An allocator without sets, under a limit on update-after-bind descriptors.
    pub fn new(alloc: Global, device: D, limit: u32) -> Self
        ensures device { result.device ≡ device }
        ensures limit { limit_of result ≡ limit }
        ensures others { pools_besides result ≡ (D.ledger device).pools }
    {
        laws::no_pool_is_lost::<P>();
        OwnedAllocator {
            device,
            allocator: DescriptorAllocator::new(alloc, limit),
            layouts: PhantomData,
        }
    }

    /// Takes sets.
    pub fn take(
        &mut self,
        layout: &SetLayout<L>,
        count: u32,
    ) -> Result<Vec<DescriptorSet<S>>, AllocationError>
        requires { IsMeant D.meaning layout.now }
        ensures many { IfOk result (λ sets. length sets.items ≡ count) }
        ensures own { IfOk result (λ sets. AreOfLayout D.meaning layout.now.layout sets.items) }
        ensures of_key { IfOk result (λ sets. AreOfKey (layout_key D.meaning layout.now.layout)
            (items_of D.meaning.set_name sets.items)) }
        ensures given { IfOk result (λ sets. AreOutBesides (items_of D.meaning.set_name sets.items)
            (state_in self.old) (state_in self.new)) }
        ensures back { OnErr result (KeepsOutstanding (state_in self.old) (state_in self.new)) }
        ensures cause { IfErr result (HasCause D.meaning (layout_key D.meaning layout.now.layout)
            count (side_in self.old) (side_in self.new)) }
        ensures limit { limit_of self.new ≡ limit_of self.old }
        ensures others { pools_besides self.new ≡ pools_besides self.old }
    {
        self.allocator.allocate_for(&mut self.device, layout, count)
    }

    /// Frees sets.
    pub fn give_back(&mut self, sets: Vec<DescriptorSet<S>>)
        requires { AreOutstanding (items_of D.meaning.set_name sets.items) (state_in self.old) }
        ensures returned { AreOutBesides (items_of D.meaning.set_name sets.items)
            (state_in self.new) (state_in self.old) }
        ensures limit { limit_of self.new ≡ limit_of self.old }
        ensures others { pools_besides self.new ≡ pools_besides self.old }
    {
        self.allocator.free_all(&mut self.device, sets);
    }

    /// Destroys the empty pools at the front of each key.
    pub fn clean(&mut self)
        ensures cleans_up { Sweeps false D.meaning (side_in self.old) (side_in self.new) }
        ensures limit { limit_of self.new ≡ limit_of self.old }
        ensures others { pools_besides self.new ≡ pools_besides self.old }
    {
        self.allocator.cleanup(&mut self.device);
    }

    /// Allocates sets, and frees them.
    pub fn round(&mut self, layout: &SetLayout<L>, count: u32) -> Result<(), AllocationError>
        requires { IsMeant D.meaning layout.now }
        ensures stay { KeepsOutstanding (state_in self.old) (state_in self.new) }
        ensures limit { limit_of self.new ≡ limit_of self.old }
        ensures others { pools_besides self.new ≡ pools_besides self.old }
    {
        let sets = self.take(layout, count)?;
        self.give_back(sets);
        Ok(())
    }
}
