//! A device around the scripted one: it also refuses on its own.
ghost use Rattle.std.specs.Prelude.{◌≡◌, ◌+◌, ◌<◌, [], None, OnOk, IfErr, IfOk};
ghost use Rattle.gpu_descriptor_types.specs.Counts.{kinds};
ghost use Rattle.gpu_descriptor_types.specs.Flags.{bits};
ghost use Rattle.gpu_descriptor_types.specs.Layouts.{layout, left};
ghost use Rattle.gpu_descriptor_types.specs.Ledger.{CanPut, Puts, PutsNone, after_create};
ghost use Rattle.gpu_descriptor_types.specs.Ledger.{after_no_create};
ghost use Rattle.descriptor_script.specs.Scripted.Device.{empty_ledger, ledger_of, script_of};
ghost use Rattle.descriptor_script.specs.Scripted.Raw.{pool_id, script_meaning};

use descriptor_script::{RawPool, RawSet, ScriptLayout, ScriptedDevice};
use gpu_descriptor::{
    CreatePoolError, DescriptorDevice, DescriptorPoolCreateFlags, DescriptorTotalCount,
    DeviceAllocationError, Layouts, SetSink,
};
use std::alloc::Global;

/// A device that creates at most `MAX` pools.
#[derive(Drop)]
pub struct FewPools<const MAX: u32> {
    device: ScriptedDevice,
    pools_left: u32,
    ghost few: { (ledger_of device).counters.created + pools_left ≡ MAX },
    ghost unscripted: { script_of device ≡ [] },
}

impl<const MAX: u32> FewPools<MAX> {
    ghost use Rattle.descriptor_examples.specs.FewPools.{few_ledger};

    /// A device without pools.
    pub fn new(alloc: Global) -> Self
        ensures ledger { few_ledger result ≡ empty_ledger }
    {
        FewPools {
            device: ScriptedDevice::new(alloc, Vec::new(alloc)),
            pools_left: MAX,
        }
    }
}

impl<const MAX: u32> DescriptorDevice<ScriptLayout, RawPool, RawSet> for FewPools<MAX> {
    ghost use Rattle.descriptor_examples.specs.FewPools.{few_ledger};

    ghost meaning = { script_meaning };

    ghost ledger = { few_ledger };

    fn create_descriptor_pool(
        &mut self,
        counts: &DescriptorTotalCount,
        max_sets: u32,
        flags: DescriptorPoolCreateFlags,
    ) -> Result<RawPool, CreatePoolError>
        ensures new_name { IfOk result (λ pool. (few_ledger self.old).pools (pool_id pool)
            ≡ None) }
        ensures ok { IfOk result (λ pool. few_ledger self.new ≡ after_create (kinds counts.now)
            max_sets (bits flags) (pool_id pool) (few_ledger self.old)) }
        ensures err { IfErr result (λ e. few_ledger self.new
            ≡ after_no_create e (few_ledger self.old)) }

        ensures few { OnOk result ((few_ledger self.old).counters.created < MAX) }

        // Before it has created this many, only memory or names can run out.
        ensures refused { (few_ledger self.old).counters.created < MAX
            → IfErr result (λ e. e ≡ CreatePoolError.OutOfHostMemory) }
    {
        if self.pools_left == 0 {
            let error = CreatePoolError::OutOfDeviceMemory;
            self.device.refuse_create(error);
            return Err(error);
        }
        let pool = self.device.create_descriptor_pool(counts, max_sets, flags)?;
        self.pools_left -= 1;
        Ok(pool)
    }

    fn destroy_descriptor_pool(&mut self, pool: RawPool) {
        self.device.destroy_descriptor_pool(pool);
    }

    fn alloc_descriptor_sets<K: SetSink<RawSet>>(
        &mut self,
        pool: &mut RawPool,
        layouts: Layouts<'_, ScriptLayout>,
        sets: &mut K,
    ) -> Result<(), DeviceAllocationError>
        requires fits { CanPut K.sink (pool_id pool.old) (left layouts) (kinds (layout layouts).counts)
            (layout layouts).mark sets.old (few_ledger self.old) }
        ensures name { pool_id pool.new ≡ pool_id pool.old }
        ensures ok { OnOk result (Puts K.sink script_meaning (layout layouts.entry)
            (pool_id pool.old) (left layouts.entry) sets.old sets.new (few_ledger self.old)
            (few_ledger self.new)) }
        ensures err { IfErr result (λ e. PutsNone K.sink (pool_id pool.old) e sets.old sets.new
            (few_ledger self.old) (few_ledger self.new)) }

        ensures refused { IfErr result (λ e. e ≡ DeviceAllocationError.OutOfHostMemory) }
    {
        self.device.alloc_descriptor_sets(pool, layouts, sets)
    }

    fn dealloc_descriptor_sets<I: Iterator<Item = RawSet>>(
        &mut self,
        pool: &mut RawPool,
        sets: &mut I,
    ) {
        self.device.dealloc_descriptor_sets(pool, sets);
    }
}
