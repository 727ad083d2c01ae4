//! What a device needs that wraps a scripted one: to count what it releases, and to refuse by itself.
ghost use Rattle.std.specs.Prelude.{◌≡◌, length, map};
ghost use Rattle.std.specs.Iterator.{HoldsAlong};
ghost use Rattle.gpu_descriptor_types.specs.Ledger.{AreLive, CanDrain, Releases};
ghost use Rattle.gpu_descriptor_types.specs.Ledger.{after_no_alloc, after_no_create};
ghost use Rattle.descriptor_script.specs.Scripted.Raw.{pool_id, set_id};

use super::ScriptedDevice;
use crate::raw::{RawPool, RawSet};
use gpu_descriptor_types::{CreatePoolError, DeviceAllocationError};

impl ScriptedDevice {
    ghost use Rattle.descriptor_script.specs.Scripted.Device.{ReadsNone, ledger_of};

    /// Releases the sets that the iterator gives, as `dealloc_descriptor_sets` does, and returns how many
    /// they were.
    pub fn release<I: Iterator<Item = RawSet>>(&mut self, pool: &mut RawPool, sets: &mut I) -> usize
        requires ends { CanDrain I.can_next I.remaining sets.old }
        requires live { HoldsAlong I.next_gives sets.old
            (λ xs. AreLive (pool_id pool.old) (map set_id xs) (ledger_of self.old)) }
        ensures name { pool_id pool.new ≡ pool_id pool.old }
        ensures released { (gone : Releases I.next_gives set_id (pool_id pool.old) sets.old
            sets.new (ledger_of self.old) (ledger_of self.new)) × (length gone.items ≡ result) }
        ensures reads { ReadsNone self.old self.new }
    {
        let many = self.pools.release(pool.id, sets);
        self.counters.released.rise();
        many
    }

    /// Counts a create that the wrapping device refused. It reads no word.
    pub fn refuse_create(&mut self, error: CreatePoolError)
        ensures ledger { ledger_of self.new ≡ after_no_create error (ledger_of self.old) }
        ensures reads { ReadsNone self.old self.new }
    {
        self.counters.refuse_create(error);
    }

    /// Counts an alloc that the wrapping device refused. It reads no word.
    pub fn refuse_alloc(&mut self, pool: &RawPool, error: DeviceAllocationError)
        ensures ledger { ledger_of self.new ≡ after_no_alloc (pool_id pool.now) error
            (ledger_of self.old) }
        ensures reads { ReadsNone self.old self.new }
    {
        self.counters.refuse_alloc(error);
        self.pools.refuse(pool.id, error);
    }
}
