//! The list of a key's open pools, which are those with known free places.
ghost use Rattle.std.specs.Prelude.{◌≡◌, ◌==◌, ◌+◌, ◌-◌, ◌<◌, ◌≤◌, ◌^◌, ◌++◌, ◌∷◌, [], IsOk, OnOk, drop, length, take, true};
ghost use Rattle.std.specs.VecDeque.{deque_capacity};
ghost use Rattle.std.specs.List.Sorted.{IsNonDecreasing};
ghost use Rattle.gpu_descriptor.specs.Caller.Comparisons.{binary_digits};
ghost use Rattle.gpu_descriptor.specs.Inner.OpenOrdinals.{IsEntered, first_ordinal, free_in, open_ordinals};
ghost use Rattle.gpu_descriptor.specs.Inner.Releases.{Compares};
ghost use Rattle.gpu_descriptor.specs.Model.Books.{number_after, numbers_of, rises};

use crate::bucket::numbers::Numbers;
use crate::bucket::search::place_of;
use crate::bucket::{DescriptorPool, first_ordinal_of};
use gpu_descriptor_types::Tally;
use std::alloc::{AllocError, Global};
use std::collections::VecDeque;

/// The ordinals of the open pools, rising. What is told of a pool is how many free places it is known to
/// have: an open pool has some.
#[derive(Debug, Drop)]
pub(crate) struct OpenList {
    ordinals: VecDeque<u64>,
}

impl OpenList {
    /// An empty list. It allocates no memory.
    pub(crate) fn new(alloc: Global) -> Self
        ensures { result.ordinals.items ≡ [] }
    {
        OpenList {
            ordinals: VecDeque::new(alloc),
        }
    }

    /// Reserves memory for the ordinals of all these pools, open or not: a release and a trim list pools
    /// without an allocation.
    pub(crate) fn reserve_for(&mut self, pools: usize) -> Result<(), AllocError>
        requires { length self.old.ordinals.items ≤ pools }
        ensures ordinals { self.new.ordinals.items ≡ self.old.ordinals.items }
        ensures capacity { deque_capacity self.old.ordinals ≤ deque_capacity self.new.ordinals }
        ensures reserved { OnOk result (pools ≤ deque_capacity self.new.ordinals) }
        ensures fits { pools ≤ deque_capacity self.old.ordinals → IsOk result }
    {
        let missing = pools - self.ordinals.len();
        self.ordinals.reserve(missing)
    }

    /// Whether no pool is open.
    #[inline]
    pub(crate) fn is_empty(&self) -> bool
        ensures { result ≡ (length self.now.ordinals.items == 0) }
    {
        self.ordinals.is_empty()
    }

    /// The ordinal of the newest open pool.
    #[inline]
    pub(crate) fn newest(&self) -> u64
        requires { 0 < length self.now.ordinals.items }
        ensures { self.now.ordinals.items
            ≡ take (length self.now.ordinals.items - 1) self.now.ordinals.items ++ result ∷ [] }
    {
        *self.ordinals.back().unwrap()
    }

    /// The newest open pool has so many free places left.
    #[inline]
    pub(crate) fn close_newest(&mut self, free: u32)
        ensures closed { free ≡ 0 → self.new.ordinals.items
            ≡ take (length self.old.ordinals.items - 1) self.old.ordinals.items }
        ensures stays { 0 < free → self.new.ordinals.items ≡ self.old.ordinals.items }
        ensures capacity { deque_capacity self.new.ordinals ≡ deque_capacity self.old.ordinals }
    {
        if free == 0 {
            let _ordinal = self.ordinals.pop_back();
        }
    }

    /// The oldest pool, which has so many free places, leaves.
    #[inline]
    pub(crate) fn remove_oldest(&mut self, free: u32)
        ensures gone { 0 < free → self.new.ordinals.items ≡ drop 1 self.old.ordinals.items }
        ensures stays { free ≡ 0 → self.new.ordinals.items ≡ self.old.ordinals.items }
        ensures capacity { deque_capacity self.new.ordinals ≡ deque_capacity self.old.ordinals }
    {
        if free > 0 {
            let _ordinal = self.ordinals.pop_front();
        }
    }

    /// A pool with so many free places comes, newer than all others. There is capacity for it.
    #[inline]
    pub(crate) fn push(&mut self, ordinal: u64, free: u32)
        requires { length self.old.ordinals.items < deque_capacity self.old.ordinals }
        ensures comes { 0 < free → self.new.ordinals.items ≡ self.old.ordinals.items ++ ordinal ∷ [] }
        ensures stays { free ≡ 0 → self.new.ordinals.items ≡ self.old.ordinals.items }
        ensures capacity { deque_capacity self.new.ordinals ≡ deque_capacity self.old.ordinals }
    {
        if free > 0 {
            self.ordinals.push_back_reserved(ordinal);
        }
    }

    /// A pool that had so many free places has more now. There is capacity for it. An empty list needs
    /// no search.
    #[inline]
    pub(crate) fn reopen(&mut self, ordinal: u64, free: u32, comparisons: &mut Tally)
        requires rising { IsNonDecreasing self.old.ordinals.items }
        requires fits { free ≡ 0 → length self.old.ordinals.items < deque_capacity self.old.ordinals }
        ensures entered { free ≡ 0 → IsEntered ordinal self.old.ordinals.items self.new.ordinals.items }
        ensures stays { 0 < free → self.new.ordinals.items ≡ self.old.ordinals.items }
        ensures capacity { deque_capacity self.old.ordinals ≤ deque_capacity self.new.ordinals }
        ensures compares { Compares (binary_digits (length self.old.ordinals.items))
            comparisons.old.count comparisons.new.count }
    {
        if free > 0 {
            return;
        }
        if self.ordinals.is_empty() {
            self.ordinals.push_back_reserved(ordinal);
            return;
        }
        self.enter(ordinal, comparisons);
    }

    /// Inserts an ordinal at its place. There is capacity for it.
    #[inline(never)]
    fn enter(&mut self, ordinal: u64, comparisons: &mut Tally)
        requires rising { IsNonDecreasing self.old.ordinals.items }
        requires fits { length self.old.ordinals.items < deque_capacity self.old.ordinals }
        ensures entered { IsEntered ordinal self.old.ordinals.items self.new.ordinals.items }
        ensures capacity { deque_capacity self.old.ordinals ≤ deque_capacity self.new.ordinals }
        ensures compares { Compares (binary_digits (length self.old.ordinals.items))
            comparisons.old.count comparisons.new.count }
    {
        let mut view = Numbers::new(&self.ordinals, comparisons);
        let place = place_of(&mut view, ordinal);
        match self.ordinals.insert(place, ordinal) {
            Ok(()) => {}
            Err(_) => unreachable!(),
        }
    }

    /// Lists the open ones of these pools, and no others.
    pub(crate) fn relist<P>(&mut self, pools: &VecDeque<DescriptorPool<P>>)
        requires rising { rises (numbers_of pools.now.items) ≡ true }
        requires numbered { number_after (numbers_of pools.now.items) < 2 ^ 64 }
        requires capacity { length pools.now.items ≤ deque_capacity self.old.ordinals }
        ensures listed { self.new.ordinals.items ≡ open_ordinals (first_ordinal pools.now.items)
            (free_in pools.now.items) }
        ensures capacity { deque_capacity self.new.ordinals ≡ deque_capacity self.old.ordinals }
    {
        self.ordinals.clear();
        let first = first_ordinal_of(pools);
        for place in 0..pools.len() {
            self.push(first + place as u64, pools[place].available);
        }
    }
}
