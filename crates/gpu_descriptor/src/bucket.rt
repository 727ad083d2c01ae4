//! The pools of one key.
ghost use Rattle.std.specs.Prelude.{◌≡◌, ◌+◌, ◌-◌, ◌<◌, ◌≤◌, ◌^◌, All, if◌then◌else◌, length, nat_lt, false, true};
ghost use Rattle.std.specs.VecDeque.{deque_capacity};
ghost use Rattle.gpu_descriptor_types.specs.Bounds.{greatest_u64};
ghost use Rattle.gpu_descriptor.specs.Inner.OpenOrdinals.{first_ordinal, free_in, open_ordinals};
ghost use Rattle.gpu_descriptor.specs.Model.Books.{number_after, numbers_of, rises};
ghost use Rattle.gpu_descriptor.specs.Model.Load.{allocated_in};

mod existing;
mod front;
mod growth;
mod numbers;
pub(crate) mod open_list;
mod open_pools;
mod release;
pub(crate) mod request;
pub(crate) mod request_sink;
mod run;
mod search;
pub(crate) mod stop;
mod trim;

use crate::bucket::open_list::OpenList;
use std::collections::VecDeque;

/// A pool, and its books.
#[derive(Debug, Drop)]
pub(crate) struct DescriptorPool<P> {
    pub(crate) pool: P,

    /// Its number, greater than that of each older pool of its key.
    pub(crate) number: u64,

    /// Number of sets that the pool was created for. After a refusal, `allocated` and `available` don't
    /// add up to it.
    pub(crate) capacity: u32,

    /// Number of sets allocated from the pool.
    pub(crate) allocated: u32,

    /// Number of free places that are known.
    pub(crate) available: u32,
}

/// The pools of one key, oldest first.
#[derive(Debug, Drop)]
pub(crate) struct DescriptorBucket<P> {
    /// The id of the key.
    pub(crate) id: u64,

    /// The ordinal of the first pool, or 0.
    pub(crate) first: u64,

    pub(crate) pools: VecDeque<DescriptorPool<P>>,

    /// The ordinals of the pools with known free places, rising, with capacity for those of all pools.
    /// The newest pool's ordinal is its number; each older pool's is one less than that of the next
    /// newer. A pool keeps its ordinal while pools leave at the front and are added at the back, and its
    /// place follows from the ordinal.
    pub(crate) listed: OpenList,

    /// Number of sets allocated from these pools.
    pub(crate) total: u64,

    /// Whether a pool may have no set. While it is false each pool has one, and without pools it is
    /// false. A pool that gets sets again leaves it as it is; a trim makes it false.
    pub(crate) may_have_empty: bool,
    ghost ordinal: { first ≡ first_ordinal pools.items },
    ghost numbered: { number_after (numbers_of pools.items) < 2 ^ 64 },
    ghost rising: { rises (numbers_of pools.items) ≡ true },
    ghost counted: { total ≡ allocated_in pools.items },
    ghost open: { listed.ordinals.items ≡ open_ordinals (first_ordinal pools.items) (free_in pools.items) },
    ghost capacity: { length pools.items ≤ deque_capacity listed.ordinals },
    ghost full: { may_have_empty ≡ false → All (λ pool. 0 < pool.allocated) pools.items },
    ghost some: { may_have_empty ≡ true → 0 < length pools.items },
}

impl<P> DescriptorBucket<P> {
    /// The number of the next pool.
    pub(crate) fn next_number(&self) -> u64
        ensures { result ≡ number_after (numbers_of self.now.pools.items) }
    {
        self.first + self.pools.len() as u64
    }

    /// Counts the key of this bucket anew, among those that may have a pool without sets. `was` says
    /// whether it was counted.
    #[inline(always)]
    pub(crate) fn count_anew(&self, was: bool, counted: &mut u64)
        requires was { (if was then 1 else 0) ≤ counted.old }
        requires fits { counted.old - (if was then 1 else 0)
            + (if self.now.may_have_empty then 1 else 0) < 2 ^ 64 }
        ensures { counted.new ≡ counted.old - (if was then 1 else 0)
            + (if self.now.may_have_empty then 1 else 0) }
    {
        *counted = *counted - u64::from(was) + u64::from(self.may_have_empty);
    }

    /// The ordinal of the first pool.
    pub(crate) fn first_ordinal(&self) -> u64
        ensures first { result ≡ first_ordinal self.now.pools.items }
        ensures fits { result + length self.now.pools.items
            ≡ number_after (numbers_of self.now.pools.items) }
    {
        self.first
    }
}

/// The number of the next pool after these: the newest's plus 1, or 0 if there is none.
fn next_number_of<P>(pools: &VecDeque<DescriptorPool<P>>) -> u64
    requires { number_after (numbers_of pools.now.items) < 2 ^ 64 }
    ensures { result ≡ number_after (numbers_of pools.now.items) }
{
    match pools.back() {
        Some(newest) => newest.number + 1,
        None => 0,
    }
}

/// The ordinal of the first of these pools: the number of the next one less how many there are.
fn first_ordinal_of<P>(pools: &VecDeque<DescriptorPool<P>>) -> u64
    requires numbered { number_after (numbers_of pools.now.items) < 2 ^ 64 }
    requires rising { rises (numbers_of pools.now.items) ≡ true }
    ensures first { result ≡ first_ordinal pools.now.items }
    ensures fits { result + length pools.now.items ≡ number_after (numbers_of pools.now.items) }
{
    next_number_of(pools) - pools.len() as u64
}

/// Whether `number + count` would exceed 64 bits.
pub(crate) fn would_exceed_64_bits(number: u64, count: u32) -> bool
    ensures { result ≡ nat_lt greatest_u64 (number + count) }
{
    number.checked_add(u64::from(count)).is_none()
}
