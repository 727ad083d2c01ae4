//! The scripted device.
ghost use Rattle.std.specs.Prelude.{◌≡◌, ◌+◌, ◌-◌, ◌<◌, ◌^◌, ◌++◌, min, map, None, IfOk};
ghost use Rattle.std.specs.Prelude.{IfErr, OnOk, OnErr};
ghost use Rattle.std.specs.Iterator.{HoldsAlong};
ghost use Rattle.gpu_descriptor_types.specs.Counts.{kinds};
ghost use Rattle.gpu_descriptor_types.specs.Flags.{bits};
ghost use Rattle.gpu_descriptor_types.specs.Layouts.{layout, left};
ghost use Rattle.gpu_descriptor_types.specs.Ledger.{AreLive, CanDrain, CanPut, HasNoSets, Puts, PutsNone};
ghost use Rattle.gpu_descriptor_types.specs.Ledger.{Releases, after_create, after_destroy};
ghost use Rattle.gpu_descriptor_types.specs.Ledger.{after_no_create};
ghost use Rattle.descriptor_script.specs.Scripted.Raw.{pool_id, raw_sets, script_meaning, set_id};
ghost use Rattle.descriptor_script.specs.Scripted.Script.{alloc_error, create_error};

mod wrapped;

use crate::answer::Answer;
use crate::counters::Counters;
use crate::pools::Pools;
use crate::raw::{RawPool, RawSet, ScriptLayout};
use crate::script::Script;
use gpu_descriptor_types::{
    CreatePoolError, DescriptorDevice, DescriptorPoolCreateFlags, DescriptorTotalCount,
    DeviceAllocationError, Layouts, SetSink,
};
use std::alloc::Global;
use std::vec::Vec;

/// A device that answers by a script.
///
/// Each call that creates a pool or allocates sets reads one word. It is granted only at `Ok`, and is
/// refused at any other word with the error that this names. At `Ok` it is refused as out of host
/// memory if names or memory have run out. After the end of the script each word is `Ok`.
///
/// Pools and sets are named from 0 up, and no name is given twice. The greatest is
/// 18446744073709551614.
#[derive(Debug, Drop)]
pub struct ScriptedDevice {
    script: Script,
    pools: Pools,
    counters: Counters,
}

impl ScriptedDevice {
    ghost use Rattle.descriptor_script.specs.Scripted.Device.{IsNewDevice, ledger_of, names_given};
    ghost use Rattle.descriptor_script.specs.Scripted.Device.{script_of};

    /// A device without pools, which begins with this script.
    pub fn new(alloc: Global, script: Vec<Answer>) -> Self
        ensures { IsNewDevice script.items (record { pools = 0; sets = 0 }) result }
    {
        ScriptedDevice::with_names(alloc, script, 0, 0)
    }

    /// The same with these names of a pool and of a set to come next, for tests of where names end.
    pub fn with_names(alloc: Global, script: Vec<Answer>, next_pool: u64, next_set: u64) -> Self
        ensures { IsNewDevice script.items (record { pools = next_pool; sets = next_set }) result }
    {
        ScriptedDevice {
            script: Script::new(script),
            pools: Pools::with_names(alloc, next_pool, next_set),
            counters: Counters::zero(),
        }
    }

    /// Discards the unread words, and begins with this script.
    pub fn load(&mut self, script: Vec<Answer>)
        ensures script { script_of self.new ≡ script.items }
        ensures ledger { ledger_of self.new ≡ ledger_of self.old }
        ensures names { names_given self.new ≡ names_given self.old }
    {
        self.script = Script::new(script);
    }

    /// How many pools were created, up to the greatest `u64`.
    pub fn created(&self) -> u64
        ensures { result ≡ min (ledger_of self.now).counters.created (2 ^ 64 - 1) }
    {
        self.counters.created.shown()
    }

    /// How many pools were destroyed, up to the greatest `u64`.
    pub fn destroyed(&self) -> u64
        ensures { result ≡ min (ledger_of self.now).counters.destroyed (2 ^ 64 - 1) }
    {
        self.counters.destroyed.shown()
    }

    /// How many calls asked for sets, up to the greatest `u64`.
    pub fn asked(&self) -> u64
        ensures { result ≡ min (ledger_of self.now).counters.asked (2 ^ 64 - 1) }
    {
        self.counters.asked.shown()
    }

    /// How many calls released sets, up to the greatest `u64`.
    pub fn released(&self) -> u64
        ensures { result ≡ min (ledger_of self.now).counters.released (2 ^ 64 - 1) }
    {
        self.counters.released.shown()
    }
}

impl DescriptorDevice<ScriptLayout, RawPool, RawSet> for ScriptedDevice {
    ghost use Rattle.descriptor_script.specs.Scripted.Device.{ReadsNone, ReadsWord, ledger_of, names_given};

    ghost meaning = { script_meaning };

    ghost ledger = { ledger_of };

    fn create_descriptor_pool(
        &mut self,
        counts: &DescriptorTotalCount,
        max_sets: u32,
        flags: DescriptorPoolCreateFlags,
    ) -> Result<RawPool, CreatePoolError>
        ensures new_name { IfOk result (λ pool. (ledger_of self.old).pools (pool_id pool) ≡ None) }
        ensures ok { IfOk result (λ pool. ledger_of self.new ≡ after_create (kinds counts.now)
            max_sets (bits flags) (pool_id pool) (ledger_of self.old)) }
        ensures err { IfErr result (λ e. ledger_of self.new
            ≡ after_no_create e (ledger_of self.old)) }

        // Above are the trait's clauses, repeated; from here on the device's own. A word is read.
        ensures reads { ReadsWord create_error result self.old self.new }

        // The pool has the next name.
        ensures next_name { IfOk result (λ pool. pool_id pool ≡ (names_given self.old).pools) }
        ensures in_range { IfOk result (λ pool. pool_id pool < 2 ^ 64 - 1) }
        ensures named { OnOk result (names_given self.new ≡ record (names_given self.old)
            { pools = (names_given self.old).pools + 1 }) }
        ensures unnamed { OnErr result (names_given self.new ≡ names_given self.old) }
    {
        let word = self.script.read();
        if word == Answer::Ok {
            if let Ok(id) = self.pools.create(counts, max_sets, flags) {
                self.counters.created.rise();
                return Ok(RawPool { id });
            }
        }
        let error = word.create_error();
        self.counters.refuse_create(error);
        Err(error)
    }

    fn destroy_descriptor_pool(&mut self, pool: RawPool)
        requires { HasNoSets (pool_id pool) (ledger_of self.old) }
        ensures ledger { ledger_of self.new ≡ after_destroy (pool_id pool) (ledger_of self.old) }

        // The device's own, in addition to the trait's: no word is read, and no name is given.
        ensures reads { ReadsNone self.old self.new }
    {
        self.pools.destroy(pool.id);
        self.counters.destroyed.rise();
    }

    fn alloc_descriptor_sets<K: SetSink<RawSet>>(
        &mut self,
        pool: &mut RawPool,
        layouts: Layouts<'_, ScriptLayout>,
        sets: &mut K,
    ) -> Result<(), DeviceAllocationError>
        requires fits { CanPut K.sink (pool_id pool.old) (left layouts) (kinds (layout layouts).counts)
            (layout layouts).mark sets.old (ledger_of self.old) }
        ensures name { pool_id pool.new ≡ pool_id pool.old }
        ensures ok { OnOk result (Puts K.sink script_meaning (layout layouts.entry)
            (pool_id pool.old) (left layouts.entry) sets.old sets.new (ledger_of self.old)
            (ledger_of self.new)) }
        ensures err { IfErr result (λ e. PutsNone K.sink (pool_id pool.old) e sets.old sets.new
            (ledger_of self.old) (ledger_of self.new)) }

        // Above are the trait's clauses, repeated; from here on the device's own. A word is read.
        ensures reads { ReadsWord alloc_error result self.old self.new }

        // The sets have the next names, and name their pool.
        ensures sets { OnOk result (K.sink.kept sets.new ≡ K.sink.kept sets.old
            ++ map (K.sink.kept_as sets.old)
            (raw_sets (pool_id pool.old) (names_given self.old).sets (left layouts.entry))) }
        ensures in_range { OnOk result ((names_given self.old).sets + left layouts.entry < 2 ^ 64) }
        ensures named { OnOk result (names_given self.new ≡ record (names_given self.old)
            { sets = (names_given self.old).sets + left layouts.entry }) }
        ensures unnamed { OnErr result (names_given self.new ≡ names_given self.old) }
    {
        let word = self.script.read();
        if word == Answer::Ok {
            if let Ok(()) = self.pools.grant(pool.id, layouts, sets) {
                self.counters.asked.rise();
                return Ok(());
            }
        }
        let error = word.alloc_error();
        self.counters.refuse_alloc(error);
        self.pools.refuse(pool.id, error);
        Err(error)
    }

    fn dealloc_descriptor_sets<I: Iterator<Item = RawSet>>(
        &mut self,
        pool: &mut RawPool,
        sets: &mut I,
    )
        requires ends { CanDrain I.can_next I.remaining sets.old }
        requires live { HoldsAlong I.next_gives sets.old
            (λ xs. AreLive (pool_id pool.old) (map set_id xs) (ledger_of self.old)) }
        ensures name { pool_id pool.new ≡ pool_id pool.old }
        ensures released { Releases I.next_gives set_id (pool_id pool.old) sets.old sets.new
            (ledger_of self.old) (ledger_of self.new) }

        // The device's own, in addition to the trait's: no word is read, and no name is given.
        ensures reads { ReadsNone self.old self.new }
    {
        self.release(pool, sets);
    }
}
