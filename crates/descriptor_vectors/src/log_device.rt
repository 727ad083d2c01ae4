//! A device that grants, and keeps a list of its calls.
ghost use Rattle.std.specs.Prelude.{◌≡◌, ◌+◌, ◌-◌, ◌<◌, ◌^◌, ◌++◌, [], ◌∷◌, min, map, None};
ghost use Rattle.std.specs.Prelude.{IfOk, IfErr, OnOk, OnErr};
ghost use Rattle.std.specs.Iterator.{HoldsAlong};
ghost use Rattle.gpu_descriptor_types.specs.Counts.{kinds};
ghost use Rattle.gpu_descriptor_types.specs.Flags.{bits};
ghost use Rattle.gpu_descriptor_types.specs.Layouts.{layout, left};
ghost use Rattle.gpu_descriptor_types.specs.Ledger.{AreLive, CanDrain, CanPut, HasNoSets, Puts, PutsNone};
ghost use Rattle.gpu_descriptor_types.specs.Ledger.{Releases, after_create, after_destroy};
ghost use Rattle.gpu_descriptor_types.specs.Ledger.{after_no_create};
ghost use Rattle.descriptor_script.specs.Scripted.Device.{ledger_of, script_of};
ghost use Rattle.descriptor_script.specs.Scripted.Raw.{pool_id, script_meaning, set_id};
ghost use Rattle.descriptor_vectors.specs.Owed.{IsOwed};

use crate::log::{Call, Log};
use descriptor_script::{RawPool, RawSet, ScriptLayout, ScriptedDevice};
use gpu_descriptor::{
    CreatePoolError, DescriptorDevice, DescriptorPoolCreateFlags, DescriptorTotalCount,
    DeviceAllocationError, Layouts, SetSink,
};
use std::alloc::Global;
use std::vec::Vec;

/// A device that grants all that its memory allows, names pools from 0 up, and lists what it granted.
///
/// Before it grants a create or an alloc it reserves memory for that call and for those that end what
/// it begins, so a release and a destroy allocate nothing. A refused call and a release of no set are
/// not listed.
#[derive(Debug, Drop)]
pub struct LogDevice {
    device: ScriptedDevice,
    log: Log,
    ghost granting: { script_of device ≡ [] },
    ghost owed: { ∥ IsOwed (ledger_of device) log.owed ∥₁ },
}

impl LogDevice {
    ghost use Rattle.descriptor_vectors.specs.Logged.{IsNewLogDevice, calls_of, ledger_logged};

    /// A device without pools.
    pub fn new(alloc: Global) -> Self
        ensures { IsNewLogDevice result }
    {
        LogDevice {
            device: ScriptedDevice::new(alloc, Vec::new(alloc)),
            log: Log::new(alloc),
        }
    }

    /// The calls that were granted, in their order.
    pub fn calls(&self) -> &[Call]
        ensures { result.now ≡ calls_of self.now }
    {
        &self.log.calls
    }

    /// How many pools were created, up to the greatest `u64`.
    pub fn created(&self) -> u64
        ensures { result ≡ min (ledger_logged self.now).counters.created (2 ^ 64 - 1) }
    {
        self.device.created()
    }

    /// How many pools were destroyed, up to the greatest `u64`.
    pub fn destroyed(&self) -> u64
        ensures { result ≡ min (ledger_logged self.now).counters.destroyed (2 ^ 64 - 1) }
    {
        self.device.destroyed()
    }

    /// How many calls asked for sets, up to the greatest `u64`.
    pub fn asked(&self) -> u64
        ensures { result ≡ min (ledger_logged self.now).counters.asked (2 ^ 64 - 1) }
    {
        self.device.asked()
    }

    /// How many calls released sets, up to the greatest `u64`.
    pub fn released(&self) -> u64
        ensures { result ≡ min (ledger_logged self.now).counters.released (2 ^ 64 - 1) }
    {
        self.device.released()
    }
}

impl DescriptorDevice<ScriptLayout, RawPool, RawSet> for LogDevice {
    ghost use Rattle.descriptor_vectors.specs.Logged.{ListsRelease, calls_of, ledger_logged, next_pool};

    ghost meaning = { script_meaning };

    ghost ledger = { ledger_logged };

    fn create_descriptor_pool(
        &mut self,
        counts: &DescriptorTotalCount,
        max_sets: u32,
        flags: DescriptorPoolCreateFlags,
    ) -> Result<RawPool, CreatePoolError>
        ensures new_name { IfOk result (λ pool. (ledger_logged self.old).pools (pool_id pool) ≡ None) }
        ensures ok { IfOk result (λ pool. ledger_logged self.new ≡ after_create (kinds counts.now)
            max_sets (bits flags) (pool_id pool) (ledger_logged self.old)) }
        ensures err { IfErr result (λ e. ledger_logged self.new
            ≡ after_no_create e (ledger_logged self.old)) }

        // Above are the trait's clauses, repeated; from here on the device's own. Only memory or names can be missing.
        ensures refused { IfErr result (λ e. e ≡ CreatePoolError.OutOfHostMemory) }
        ensures next_name { IfOk result (λ pool. pool_id pool ≡ next_pool self.old) }
        ensures named { OnOk result (next_pool self.new ≡ next_pool self.old + 1) }
        ensures unnamed { OnErr result (next_pool self.new ≡ next_pool self.old) }
        ensures listed { IfOk result (λ pool. calls_of self.new ≡ calls_of self.old
            ++ Call.Create (pool_id pool) ∷ []) }
        ensures unlisted { OnErr result (calls_of self.new ≡ calls_of self.old) }
    {
        if self.log.reserve(2).is_err() {
            let error = CreatePoolError::OutOfHostMemory;
            self.device.refuse_create(error);
            return Err(error);
        }
        match self.device.create_descriptor_pool(counts, max_sets, flags) {
            Ok(pool) => {
                self.log.put(Call::Create { pool: pool.id() }, 1);
                Ok(pool)
            }
            Err(error) => Err(error),
        }
    }

    fn destroy_descriptor_pool(&mut self, pool: RawPool)
        requires { HasNoSets (pool_id pool) (ledger_logged self.old) }
        ensures ledger { ledger_logged self.new ≡ after_destroy (pool_id pool)
            (ledger_logged self.old) }

        // The device's own, in addition to the trait's.
        ensures unnamed { next_pool self.new ≡ next_pool self.old }
        ensures listed { calls_of self.new ≡ calls_of self.old ++ Call.Destroy (pool_id pool) ∷ [] }
    {
        let name = pool.id();
        self.device.destroy_descriptor_pool(pool);
        self.log.settle(Call::Destroy { pool: name }, 1);
    }

    fn alloc_descriptor_sets<K: SetSink<RawSet>>(
        &mut self,
        pool: &mut RawPool,
        layouts: Layouts<'_, ScriptLayout>,
        sets: &mut K,
    ) -> Result<(), DeviceAllocationError>
        requires fits { CanPut K.sink (pool_id pool.old) (left layouts) (kinds (layout layouts).counts)
            (layout layouts).mark sets.old (ledger_logged self.old) }
        ensures name { pool_id pool.new ≡ pool_id pool.old }
        ensures ok { OnOk result (Puts K.sink script_meaning (layout layouts.entry)
            (pool_id pool.old) (left layouts.entry) sets.old sets.new (ledger_logged self.old)
            (ledger_logged self.new)) }
        ensures err { IfErr result (λ e. PutsNone K.sink (pool_id pool.old) e sets.old sets.new
            (ledger_logged self.old) (ledger_logged self.new)) }

        // The device's own, in addition to the trait's. Only memory or names can be missing.
        ensures refused { IfErr result (λ e. e ≡ DeviceAllocationError.OutOfHostMemory) }
        ensures unnamed { next_pool self.new ≡ next_pool self.old }
        ensures listed { OnOk result (calls_of self.new ≡ calls_of self.old
            ++ Call.Alloc (pool_id pool.old) (left layouts.entry) ∷ []) }
        ensures unlisted { OnErr result (calls_of self.new ≡ calls_of self.old) }
    {
        let count = layouts.len();
        if self.log.reserve(count as usize + 1).is_err() {
            let error = DeviceAllocationError::OutOfHostMemory;
            self.device.refuse_alloc(pool, error);
            return Err(error);
        }
        match self.device.alloc_descriptor_sets(pool, layouts, sets) {
            Ok(()) => {
                let call = Call::Alloc {
                    pool: pool.id(),
                    sets: count,
                };
                self.log.put(call, count as usize);
                Ok(())
            }
            Err(error) => Err(error),
        }
    }

    fn dealloc_descriptor_sets<I: Iterator<Item = RawSet>>(
        &mut self,
        pool: &mut RawPool,
        sets: &mut I,
    )
        requires ends { CanDrain I.can_next I.remaining sets.old }
        requires live { HoldsAlong I.next_gives sets.old
            (λ xs. AreLive (pool_id pool.old) (map set_id xs) (ledger_logged self.old)) }
        ensures name { pool_id pool.new ≡ pool_id pool.old }
        ensures released { Releases I.next_gives set_id (pool_id pool.old) sets.old sets.new
            (ledger_logged self.old) (ledger_logged self.new) }

        // The device's own, in addition to the trait's.
        ensures unnamed { next_pool self.new ≡ next_pool self.old }
        ensures listed { ListsRelease I.next_gives (pool_id pool.old) sets.old sets.new
            (calls_of self.old) (calls_of self.new) }
    {
        let released = self.device.release(pool, sets);
        if released > 0 {
            let call = Call::Release {
                pool: pool.id(),
                sets: released,
            };
            self.log.settle(call, released);
        }
    }
}
