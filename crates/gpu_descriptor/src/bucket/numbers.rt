//! What the module `search` searches by binary search: a rising list of ordinals, or the pools by their
//! numbers. Each read counts as a comparison.
ghost use Rattle.std.specs.Prelude.{◌≡◌, ◌+◌, ◌<◌, ℕ, List, length, nat_lt, slice_index};
ghost use Rattle.gpu_descriptor.specs.Model.Books.{numbers_of};

use crate::bucket::DescriptorPool;
use gpu_descriptor_types::Tally;
use std::collections::VecDeque;

/// A list with a number at each place.
pub(crate) trait Numbered {
    ghost numbers: { Self → List ℕ };

    /// How many numbers there are.
    fn count(&self) -> usize
        ensures { result ≡ length (numbers self.now) };

    fn number(&self, place: usize) -> u64
        requires { place < length (numbers self.now) }
        ensures { result ≡ slice_index (numbers self.now) place };
}

/// The ordinals of the pools with known free places.
impl Numbered for VecDeque<u64> {
    ghost numbers = { λ ordinals. ordinals.items };

    fn count(&self) -> usize {
        self.len()
    }

    fn number(&self, place: usize) -> u64 {
        self[place]
    }
}

/// The numbers of pools.
impl<P> Numbered for VecDeque<DescriptorPool<P>> {
    ghost numbers = { λ pools. numbers_of pools.items };

    fn count(&self) -> usize {
        self.len()
    }

    fn number(&self, place: usize) -> u64 {
        self[place].number
    }
}

/// A list whose numbers are read one at a time.
#[derive(Drop)]
pub(crate) struct Numbers<'a, 'b, N> {
    numbers: &'a N,

    /// Each read counts as a comparison.
    comparisons: &'b mut Tally,
}

impl<'a, 'b, N: Numbered> Numbers<'a, 'b, N> {
    pub(crate) fn new(numbers: &'a N, comparisons: &'b mut Tally) -> Self
        ensures numbers { result.numbers.now ≡ numbers.now }
        ensures same_reference { result.comparisons.ghost_name ≡ comparisons.entry.ghost_name }
        ensures count { result.comparisons.now.count ≡ comparisons.old.count }
    {
        Numbers {
            numbers,
            comparisons,
        }
    }

    /// How many numbers there are.
    pub(crate) fn len(&self) -> usize
        ensures { result ≡ length (N.numbers self.now.numbers.now) }
    {
        self.numbers.count()
    }

    /// Compares the number at a place with another.
    pub(crate) fn is_below(&mut self, place: usize, number: u64) -> bool
        requires { place < length (N.numbers self.old.numbers.now) }
        ensures answer { result ≡ nat_lt (slice_index (N.numbers self.old.numbers.now) place)
            number }
        ensures count { self.new.comparisons.now.count ≡ self.old.comparisons.now.count + 1 }
        ensures numbers { self.new.numbers ≡ self.old.numbers }
        ensures same_reference { self.new.comparisons.ghost_name ≡ self.old.comparisons.ghost_name }
    {
        *self.comparisons = Tally::next(self.comparisons);
        self.numbers.number(place) < number
    }
}
