//! The live pools of a device, by name.
ghost use Rattle.std.specs.Prelude.{◌≡◌, ◌+◌, ◌-◌, ◌<◌, ◌≤◌, ◌^◌, ◌++◌, map, Some, None};
ghost use Rattle.std.specs.Prelude.{IfOk, IsSome, OnOk, OnErr, length, nat_eq};
ghost use Rattle.std.specs.Iterator.{HoldsAlong};
ghost use Rattle.std.specs.Map.{update};
ghost use Rattle.gpu_descriptor_types.specs.Counts.{kinds};
ghost use Rattle.gpu_descriptor_types.specs.Flags.{bits};
ghost use Rattle.gpu_descriptor_types.specs.Layouts.{layout, left};
ghost use Rattle.gpu_descriptor_types.specs.Ledger.{fresh as fresh_pool, on_pool, pool_refusals};
ghost use Rattle.descriptor_script.specs.Scripted.Raw.{raw_sets, set_id};
ghost use Rattle.descriptor_script.specs.Inner.Table.{pools_in, PoolsAreBelow, SetsAreBelow};

use crate::live::{LivePool, fill, take_back};
use crate::raw::{RawSet, ScriptLayout};
use gpu_descriptor_types::{
    DescriptorPoolCreateFlags, DescriptorTotalCount, DeviceAllocationError, Layouts, SetSink, Tally,
};
use indexmap::IndexMap;
use std::alloc::Global;

/// There are no names left, or no memory.
#[derive(Clone, Copy, Debug)]
pub struct Exhausted;

/// The live pools, and the names that come next.
#[derive(Debug, Drop)]
pub struct Pools {
    alloc: Global,
    live: IndexMap<u64, LivePool>,
    next_pool: u64,
    next_set: u64,
    ghost pools_named: { PoolsAreBelow live next_pool },
    ghost sets_named: { SetsAreBelow live next_set },
}

impl Pools {
    ghost use Rattle.descriptor_script.specs.Inner.Pools.{next_names, owed};
    ghost use Rattle.gpu_descriptor_types.specs.Ledger.{AreLive, CanDrain, Counters, live_sets};
    ghost use Rattle.gpu_descriptor_types.specs.Ledger.{Releases, no_rise};
    ghost use Rattle.gpu_descriptor_types.specs.Multiset.{times};

    /// No pool is live, and these names of a pool and of a set come next.
    pub fn with_names(alloc: Global, next_pool: u64, next_set: u64) -> Self
        ensures pools { pools_in result.live ≡ (λ _. None) }
        ensures names { next_names result ≡ record { pools = next_pool; sets = next_set } }
    {
        Pools {
            alloc,
            live: IndexMap::new(alloc),
            next_pool,
            next_set,
        }
    }

    /// Makes a pool under the next name.
    pub fn create(
        &mut self,
        counts: &DescriptorTotalCount,
        max_sets: u32,
        flags: DescriptorPoolCreateFlags,
    ) -> Result<u64, Exhausted>
        ensures name { IfOk result (λ name. name ≡ (next_names self.old).pools) }
        ensures in_range { IfOk result (λ name. name < 2 ^ 64 - 1) }
        ensures new_name { IfOk result (λ name. pools_in self.old.live name ≡ None) }
        ensures ok { IfOk result (λ name. pools_in self.new.live
            ≡ update nat_eq (pools_in self.old.live) name
            (Some (fresh_pool (kinds counts.now) max_sets (bits flags)))) }
        ensures names { OnOk result (next_names self.new ≡ record (next_names self.old)
            { pools = (next_names self.old).pools + 1 }) }
        ensures err { OnErr result (pools_in self.new.live ≡ pools_in self.old.live) }
        ensures unnamed { OnErr result (next_names self.new ≡ next_names self.old) }
    {
        let name = self.next_pool;
        if name == u64::MAX {
            return Err(Exhausted);
        }
        let pool = LivePool {
            counts: *counts,
            max_sets,
            flags,
            sets: IndexMap::new(self.alloc),
            refusals: Tally::zero(),
        };
        match self.live.insert(name, pool) {
            Ok(_) => {
                self.next_pool += 1;
                Ok(name)
            }
            Err(_) => Err(Exhausted),
        }
    }

    /// Drops a pool.
    pub fn destroy(&mut self, pool: u64)
        ensures pools { pools_in self.new.live ≡ update nat_eq (pools_in self.old.live) pool None }
        ensures names { next_names self.new ≡ next_names self.old }
    {
        self.live.swap_remove(&pool);
    }

    /// Counts an alloc that was refused, if it was the pool that refused.
    pub fn refuse(&mut self, pool: u64, error: DeviceAllocationError)
        ensures pools { pools_in self.new.live ≡ on_pool pool
            (λ p. record p { refusals = p.refusals + pool_refusals error }) (pools_in self.old.live) }
        ensures names { next_names self.new ≡ next_names self.old }
    {
        match error {
            DeviceAllocationError::OutOfDeviceMemory | DeviceAllocationError::OutOfHostMemory => {}
            DeviceAllocationError::FragmentedPool | DeviceAllocationError::OutOfPoolMemory => {
                self.count_refusal(pool);
            }
        }
    }

    fn count_refusal(&mut self, pool: u64)
        ensures pools { pools_in self.new.live ≡ on_pool pool
            (λ p. record p { refusals = p.refusals + 1 }) (pools_in self.old.live) }
        ensures names { next_names self.new ≡ next_names self.old }
    {
        if let Some(live) = self.live.get_mut(&pool) {
            live.refusals = Tally::next(&live.refusals);
        }
    }

    /// Puts a set of the pool for each layout, under the next names.
    pub fn grant<K: SetSink<RawSet>>(
        &mut self,
        pool: u64,
        layouts: Layouts<'_, ScriptLayout>,
        sink: &mut K,
    ) -> Result<(), Exhausted>
        requires live { IsSome (pools_in self.old.live pool) }
        requires room { left layouts ≤ K.sink.room sink.old }
        ensures pools { OnOk result (pools_in self.new.live ≡ on_pool pool (λ p.
            record p {
              live = λ x. p.live x + times (live_sets (kinds (layout layouts.entry).counts)
                  (map set_id (raw_sets pool (next_names self.old).sets (left layouts.entry)))) x;
            })
            (pools_in self.old.live)) }
        ensures names { OnOk result (next_names self.new ≡ record (next_names self.old)
            { sets = (next_names self.old).sets + left layouts.entry }) }
        ensures in_range { OnOk result ((next_names self.old).sets + left layouts.entry < 2 ^ 64) }

        // What the sink got.
        ensures sets { OnOk result (K.sink.kept sink.new ≡ K.sink.kept sink.old
            ++ map (K.sink.kept_as sink.old)
            (raw_sets pool (next_names self.old).sets (left layouts.entry))) }
        ensures alike { OnOk result (K.sink.kept_as sink.new ≡ K.sink.kept_as sink.old) }
        ensures room { OnOk result (K.sink.room sink.new + left layouts.entry
            ≡ K.sink.room sink.old) }

        // Without names or memory nothing is done.
        ensures err { OnErr result (pools_in self.new.live ≡ pools_in self.old.live) }
        ensures unnamed { OnErr result (next_names self.new ≡ next_names self.old) }
        ensures err_sink { OnErr result (sink.new ≡ sink.old) }
    {
        let first = self.next_set;
        let count = layouts.len();
        if u64::MAX - first < u64::from(count) {
            return Err(Exhausted);
        }
        let Some(live) = self.live.get_mut(&pool) else {
            unreachable!()
        };
        if live.sets.reserve(count as usize).is_err() {
            return Err(Exhausted);
        }
        fill(&mut live.sets, pool, first, layouts, sink);
        self.next_set += u64::from(count);
        Ok(())
    }

    /// Takes the sets that the iterator gives from the pool, and returns how many they were.
    pub fn release<I: Iterator<Item = RawSet>>(&mut self, pool: u64, sets: &mut I) -> usize
        requires ends { CanDrain I.can_next I.remaining sets.old }
        requires live { HoldsAlong I.next_gives sets.old (λ xs.
            AreLive pool (map set_id xs) (owed self.old no_rise)) }
        // With whatever counters, of which one rises.
        ensures released { (n : Counters) → (gone : Releases I.next_gives set_id pool sets.old
            sets.new (owed self.old n) (owed self.new (record n { released = n.released + 1 })))
            × (length gone.items ≡ result) }
        ensures names { next_names self.new ≡ next_names self.old }
    {
        let Some(live) = self.live.get_mut(&pool) else {
            unreachable!()
        };
        take_back(&mut live.sets, sets)
    }
}
