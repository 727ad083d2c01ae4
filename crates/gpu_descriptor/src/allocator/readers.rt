//! Readers of the allocator. They allocate no memory.
ghost use Rattle.std.specs.Prelude.{◌≡◌, ◌+◌, ◌<◌, ◌≤◌, ◌^◌, ℕ, length};
ghost use Rattle.gpu_descriptor_types.specs.Counts.{kinds};
ghost use Rattle.gpu_descriptor_types.specs.Ledger.{Ledger};
ghost use Rattle.gpu_descriptor.specs.Model.Agreement.{Item, outstanding};
ghost use Rattle.gpu_descriptor.specs.Model.Books.{books_of};
ghost use Rattle.gpu_descriptor.specs.Caller.States.{HasIds, marked_load_of, outstanding_of, pool_load_of};
ghost use Rattle.gpu_descriptor.specs.Caller.States.{state_of};
ghost use Rattle.gpu_descriptor.specs.Caller.Views.{view_in};

use super::DescriptorAllocator;
use crate::key::BucketKey;
use crate::view::PoolView;
use gpu_descriptor_types::DescriptorTotalCount;

impl<P, S> DescriptorAllocator<P, S> {
    /// How many sets are live.
    pub fn outstanding(&self) -> u64
        ensures total { result ≡ outstanding_of self.now }

        // The number of the key's next pool has 64 bits.
        ensures numbers { (name : P → ℕ) (l : Ledger) (t : Item) → 0 < outstanding
            (state_of name self.now l) t → t.number + 1 < 2 ^ 64 }
        ensures ids { (name : P → ℕ) (l : Ledger) → HasIds name self.now l }
    {
        self.outstanding
    }

    /// How many descriptors the live sets of update-after-bind layouts have.
    pub fn update_after_bind_descriptors(&self) -> u32
        ensures sum { result ≡ marked_load_of self.now }
        ensures within { result ≤ self.now.limit }
    {
        self.update_after_bind_descriptors
    }

    /// How much of the limit is in use: the number of descriptors with which the pools for
    /// update-after-bind layouts were created. A pool for sets without descriptors counts as one. The
    /// original has no such reader.
    pub fn update_after_bind_capacity(&self) -> u32
        ensures sum { result ≡ pool_load_of self.now }
        ensures within { result ≤ self.now.limit }
    {
        self.max_update_after_bind_descriptors_in_all_pools - self.budget.room
    }

    /// The limit that the allocator was made with. The original has no such reader.
    pub fn update_after_bind_limit(&self) -> u32
        ensures limit { result ≡ self.now.limit }
    {
        self.max_update_after_bind_descriptors_in_all_pools
    }

    /// The bound on the descriptors of a new pool, `None` without one. See `set_max_pool_descriptors`.
    pub fn max_pool_descriptors(&self) -> Option<u64>
        ensures bound { result ≡ self.now.bound }
    {
        self.budget.bound
    }

    /// How many pools there are for sets of layouts with these counts and this mark.
    pub fn pool_count(&self, counts: &DescriptorTotalCount, update_after_bind: bool) -> usize
        ensures count { result ≡ length (books_of self.now.table
            (record { counts = kinds counts.now; marked = update_after_bind })).pools }
    {
        let key = BucketKey {
            counts: *counts,
            marked: update_after_bind,
        };
        match self.table.buckets.get(&key) {
            Some(bucket) => bucket.pools.len(),
            None => 0,
        }
    }

    /// The books of the pool at this index among those for sets of layouts with these counts and this
    /// mark, oldest first; `None` past the last.
    pub fn pool(
        &self,
        counts: &DescriptorTotalCount,
        update_after_bind: bool,
        index: usize,
    ) -> Option<PoolView>
        ensures view { result ≡ view_in (books_of self.now.table
            (record { counts = kinds counts.now; marked = update_after_bind })) index }
    {
        let key = BucketKey {
            counts: *counts,
            marked: update_after_bind,
        };
        let bucket = self.table.buckets.get(&key)?;
        let pool = bucket.pools.get(index)?;
        Some(PoolView {
            number: pool.number,
            allocated: pool.allocated,
            available: pool.available,
        })
    }
}
