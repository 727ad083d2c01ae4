//! Binary searches: the place of an ordinal in the list of the pools with known free places, and that of
//! a pool with a number.
ghost use Rattle.std.specs.Prelude.{◌≡◌, ◌+◌, ◌<◌, ◌≤◌, ℕ, Some, length, slice_get, true, false};
ghost use Rattle.std.specs.VecDeque.{deque_capacity};
ghost use Rattle.std.specs.List.Sorted.{IsNonDecreasing, IsPartitionPoint};
ghost use Rattle.gpu_descriptor.specs.Caller.Comparisons.{binary_digits};
ghost use Rattle.gpu_descriptor.specs.Inner.OpenOrdinals.{IsEntered};
ghost use Rattle.gpu_descriptor.specs.Inner.Releases.{Compares};
ghost use Rattle.gpu_descriptor.specs.Model.Books.{numbers_of, rises};

use crate::bucket::DescriptorPool;
use crate::bucket::numbers::{Numbered, Numbers};
use gpu_descriptor_types::Tally;
use std::collections::VecDeque;

/// The place of a number in a rising list: how many of the list's numbers are below it.
pub(crate) fn place_of<N: Numbered>(view: &mut Numbers<'_, '_, N>, number: u64) -> usize
    requires { IsNonDecreasing (N.numbers view.old.numbers.now) }
    ensures within { result ≤ length (N.numbers view.old.numbers.now) }
    ensures place { IsPartitionPoint (λ x. x < number) (λ x. number ≤ x)
        (N.numbers view.old.numbers.now) result }
    ensures compares { Compares (binary_digits (length (N.numbers view.old.numbers.now)))
        view.old.comparisons.now.count view.new.comparisons.now.count }
    ensures same_reference { view.new.comparisons.ghost_name ≡ view.old.comparisons.ghost_name }
{
    let mut low = 0;
    let mut size = view.len();
    while size > 0 {
        let half = size / 2;
        if view.is_below(low + half, number) {
            low += half + 1;
            size -= half + 1;
        } else {
            size = half;
        }
    }
    low
}

/// The place of the pool with a number. It is out of line: a search is needed only if pools after one
/// with sets were trimmed.
#[inline(never)]
pub(crate) fn search_pools<P>(
    pools: &VecDeque<DescriptorPool<P>>,
    number: u64,
    comparisons: &mut Tally,
) -> usize
    requires rising { rises (numbers_of pools.now.items) ≡ true }
    requires there { (i : ℕ) × (slice_get (numbers_of pools.now.items) i ≡ Some number) }
    ensures place { slice_get (numbers_of pools.now.items) result ≡ Some number }
    ensures compares { Compares (binary_digits (length pools.now.items)) comparisons.old.count
        comparisons.new.count }
{
    let mut view = Numbers::new(pools, comparisons);
    place_of(&mut view, number)
}
