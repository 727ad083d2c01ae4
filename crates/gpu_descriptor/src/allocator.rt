//! The allocator: a table that maps keys to their pools.
ghost use Rattle.std.specs.Prelude.{◌≡◌, ℕ};
ghost use Rattle.gpu_descriptor_types.specs.Ledger.{Ledger};
ghost use Rattle.gpu_descriptor.specs.Caller.States.{Agrees};
ghost use Rattle.gpu_descriptor.specs.Caller.Values.{all_ids, without_keys};

mod allocate;
mod allocate_for;
mod cleanup;
mod free;
mod readers;
mod serve;

use crate::budget::Budget;
use crate::key_table::KeyTable;
use gpu_descriptor_types::Tally;
use std::alloc::Global;
use std::marker::{Model, PhantomData};
use std::ops::Range;

/// Allocates descriptor sets for any layout.
///
/// Every call takes the same device, and nobody else uses the pools that the allocator created there.
///
/// Dropping it is silent and destroys no pool of the device: free all sets and call `cleanup` first.
/// `outstanding` says how many sets are still live.
#[derive(Debug, Drop)]
pub struct DescriptorAllocator<P, S> {
    alloc: Global,
    table: KeyTable<P>,
    max_update_after_bind_descriptors_in_all_pools: u32,

    /// How many descriptors the live sets of marked layouts have.
    update_after_bind_descriptors: u32,
    outstanding: u64,
    budget: Budget,

    /// How many steps the searches of releases took.
    comparisons: Tally,
    sets: PhantomData<S>,
}

impl<P, S> Model for DescriptorAllocator<P, S> {
    ghost use Rattle.gpu_descriptor.specs.Caller.Values.{Allocations};

    ghost Value = { Allocations P };

    ghost use Rattle.std.specs.Prelude.{map};
    ghost use Rattle.gpu_descriptor.specs.Inner.Stored.{row_of, IsConsistent};

    ghost view = { λ a. record {
      limit = a.max_update_after_bind_descriptors_in_all_pools;
      bound = a.budget.bound;
      ids = (a.table.first_id, a.table.end_id);
      table = map row_of a.table.buckets.entries;
      looks = a.budget.looks.count;
      comparisons = a.comparisons.count;
    } };

    // The totals are the sums over the table, so no reader walks it. The marked load is within the limit,
    // so a marked layout without descriptors passes the test, as in the original crate.
    ghost invariant = { λ a. IsConsistent a.max_update_after_bind_descriptors_in_all_pools
        a.update_after_bind_descriptors a.budget.room a.outstanding a.table.buckets.entries };
}

impl<P, S> DescriptorAllocator<P, S> {
    /// The same as `with_ids`, with a range of all ids.
    pub fn new(alloc: Global, max_update_after_bind_descriptors_in_all_pools: u32) -> Self
        ensures value { result ≡ without_keys max_update_after_bind_descriptors_in_all_pools
            all_ids }
        ensures agree { (name : P → ℕ) (ledger : Ledger) → Agrees name result ledger }
    {
        DescriptorAllocator::with_ids(
            alloc,
            max_update_after_bind_descriptors_in_all_pools,
            0..u64::MAX,
        )
    }

    /// An allocator without keys. `max_update_after_bind_descriptors_in_all_pools` limits the
    /// descriptors of all live update-after-bind sets, and of all pools for such sets. It allocates no
    /// memory.
    ///
    /// Its keys get their ids from this range. Each set bears the id of its key, so sets of allocators
    /// with disjoint ranges can be told apart. When no id is left, a request for a new key fails with
    /// `OutOfHostMemory`.
    pub fn with_ids(
        alloc: Global,
        max_update_after_bind_descriptors_in_all_pools: u32,
        ids: Range<u64>,
    ) -> Self
        ensures value { result ≡ without_keys max_update_after_bind_descriptors_in_all_pools
            (ids.start, ids.end) }
        ensures agree { (name : P → ℕ) (ledger : Ledger) → Agrees name result ledger }
    {
        DescriptorAllocator {
            alloc,
            table: KeyTable::new(alloc, ids),
            max_update_after_bind_descriptors_in_all_pools,
            update_after_bind_descriptors: 0,
            outstanding: 0,
            budget: Budget {
                room: max_update_after_bind_descriptors_in_all_pools,
                looks: Tally::zero(),
                bound: None,
            },
            comparisons: Tally::zero(),
            sets: PhantomData,
        }
    }

    /// Bounds a new pool to the sets that have at most `bound` descriptors, or to the sets still needed
    /// if these are more. `None`, as at first, removes the bound. Existing pools stay as they are.
    pub fn set_max_pool_descriptors(&mut self, bound: Option<u64>)
        ensures value { self.new ≡ record self.old { bound = bound } }
        ensures agree { (name : P → ℕ) (ledger : Ledger) → Agrees name self.old ledger
            → Agrees name self.new ledger }
    {
        self.budget.bound = bound;
    }
}
