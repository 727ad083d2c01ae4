//! A device of one's own, as small as can be.
ghost use Rattle.std.specs.Prelude.{◌≡◌, false, None, IsSome, OnErr, OnOk, IfErr, IfOk};
ghost use Rattle.gpu_descriptor_types.specs.Counts.{kinds};
ghost use Rattle.gpu_descriptor_types.specs.Flags.{bits};
ghost use Rattle.gpu_descriptor_types.specs.Layouts.{layout, left};
ghost use Rattle.gpu_descriptor_types.specs.Ledger.{CanPut, Puts, PutsNone, after_create};
ghost use Rattle.gpu_descriptor_types.specs.Ledger.{after_no_create};
ghost use Rattle.descriptor_script.specs.Scripted.Device.{empty_ledger};

use gpu_descriptor::{
    CreatePoolError, DescriptorDevice, DescriptorPoolCreateFlags, DescriptorTotalCount,
    DeviceAllocationError, Layouts, SetSink, Tally,
};

/// What the only pool was created with.
#[derive(Drop)]
pub(crate) struct OnlyPool {
    counts: DescriptorTotalCount,
    max_sets: u32,
    flags: DescriptorPoolCreateFlags,
}

/// A device with memory for one pool, and for no set.
#[derive(Drop)]
pub struct OnePool {
    pool: Option<OnlyPool>,
    created: Tally,
    destroyed: Tally,
    asked: Tally,
    released: Tally,
    refused: Tally,
}

impl OnePool {
    ghost use Rattle.descriptor_examples.specs.OwnDevice.{owed_of};

    /// A device without a pool.
    pub fn new() -> Self
        ensures { owed_of result ≡ empty_ledger }
    {
        OnePool {
            pool: None,
            created: Tally::zero(),
            destroyed: Tally::zero(),
            asked: Tally::zero(),
            released: Tally::zero(),
            refused: Tally::zero(),
        }
    }
}

impl DescriptorDevice<DescriptorTotalCount, u64, u64> for OnePool {
    ghost use Rattle.descriptor_examples.specs.OwnDevice.{one_meaning, owed_of};

    ghost meaning = { one_meaning };

    ghost ledger = { owed_of };

    fn create_descriptor_pool(
        &mut self,
        counts: &DescriptorTotalCount,
        max_sets: u32,
        flags: DescriptorPoolCreateFlags,
    ) -> Result<u64, CreatePoolError>
        ensures new_name { IfOk result (λ pool. (owed_of self.old).pools pool ≡ None) }
        ensures ok { IfOk result (λ pool. owed_of self.new
            ≡ after_create (kinds counts.now) max_sets (bits flags) pool (owed_of self.old)) }
        ensures err { IfErr result (λ e. owed_of self.new ≡ after_no_create e (owed_of self.old)) }

        // It refuses only where its pool is live.
        ensures refused { OnErr result (IsSome ((owed_of self.old).pools 0)) }
    {
        if self.pool.is_some() {
            self.refused = Tally::next(&self.refused);
            return Err(CreatePoolError::OutOfDeviceMemory);
        }
        self.pool = Some(OnlyPool {
            counts: *counts,
            max_sets,
            flags,
        });
        self.created = Tally::next(&self.created);
        Ok(0)
    }

    fn destroy_descriptor_pool(&mut self, pool: u64) {
        self.pool = None;
        self.destroyed = Tally::next(&self.destroyed);
    }

    fn alloc_descriptor_sets<K: SetSink<u64>>(
        &mut self,
        pool: &mut u64,
        layouts: Layouts<'_, DescriptorTotalCount>,
        sets: &mut K,
    ) -> Result<(), DeviceAllocationError>
        requires fits { CanPut K.sink pool.old (left layouts) (kinds (layout layouts)) false
            sets.old (owed_of self.old) }
        ensures name { pool.new ≡ pool.old }
        ensures ok { OnOk result (Puts K.sink one_meaning (layout layouts.entry) pool.old
            (left layouts.entry) sets.old sets.new (owed_of self.old) (owed_of self.new)) }
        ensures err { IfErr result (λ e. PutsNone K.sink pool.old e sets.old sets.new
            (owed_of self.old) (owed_of self.new)) }
    {
        self.asked = Tally::next(&self.asked);
        self.refused = Tally::next(&self.refused);
        Err(DeviceAllocationError::OutOfDeviceMemory)
    }

    fn dealloc_descriptor_sets<I: Iterator<Item = u64>>(&mut self, pool: &mut u64, sets: &mut I) {
        // No set is live, so none comes.
        match sets.next() {
            None => self.released = Tally::next(&self.released),
            Some(_) => unreachable!(),
        }
    }
}
