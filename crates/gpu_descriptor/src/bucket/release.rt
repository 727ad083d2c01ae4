//! Freeing the sets of a run.
ghost use Rattle.std.specs.Prelude.{◌≡◌, ◌+◌, ◌<◌, ◌^◌, ◌||◌, ◌∷◌, ℕ, List, if◌then◌else◌, length, slice_get, IsTrue, OnSome, Some, false, true};
ghost use Rattle.std.specs.Iterator.{HoldsAlong, IsNearerEnd};
ghost use Rattle.std.specs.List.{AllByRecursion};
ghost use Rattle.gpu_descriptor_types.specs.Ledger.{CanDrain};
ghost use Rattle.gpu_descriptor.specs.Caller.Comparisons.{gap_digits, search_digits};
ghost use Rattle.gpu_descriptor.specs.Inner.Buckets.{AreBookedIn};
ghost use Rattle.gpu_descriptor.specs.Inner.Releases.{Compares, IsTakenAt, Releases, names_of};
ghost use Rattle.gpu_descriptor.specs.Inner.RunSteps.{EndsRun, at_place};
ghost use Rattle.gpu_descriptor.specs.Inner.Stored.{bucket_of};
ghost use Rattle.gpu_descriptor.specs.Model.Books.{Key, numbers_of};
ghost use Rattle.gpu_descriptor.specs.Model.Load.{pools_load};

use crate::bucket::DescriptorBucket;
use crate::bucket::run::Run;
use crate::bucket::search::search_pools;
use crate::set::DescriptorSet;
use gpu_descriptor_types::{DescriptorDevice, Tally};

/// Notes a pool of which sets were freed: if it has none left its bucket gets the flag, and is counted among
/// those that have it.
#[inline(always)]
fn note_pool(may_have_empty: &mut bool, with_empty: &mut u64, is_empty: bool)
    requires { with_empty.old + (if may_have_empty.old then 0 else 1) < 2 ^ 64 }
    ensures flag { may_have_empty.new ≡ may_have_empty.old || is_empty }
    ensures counts { with_empty.new + (if may_have_empty.old then 1 else 0)
        ≡ with_empty.old + (if may_have_empty.new then 1 else 0) }
{
    if is_empty && !*may_have_empty {
        *may_have_empty = true;
        *with_empty += 1;
    }
}

impl<P> DescriptorBucket<P> {
    /// Frees the sets of one run of this key in one device call.
    ///
    /// The run goes from `first` to before the first set from elsewhere, which is returned.
    #[inline]
    pub(crate) fn release_sets<
        L,
        S,
        D: DescriptorDevice<L, P, S>,
        I: Iterator<Item = DescriptorSet<S>>,
    >(
        &mut self,
        device: &mut D,
        first: DescriptorSet<S>,
        sets: &mut I,
        comparisons: &mut Tally,
        with_empty: &mut u64,
    ) -> Option<DescriptorSet<S>>
        requires ends { CanDrain I.can_next I.remaining sets.old }
        requires stored { AreBookedIn first.key.is (D.ledger device.old).pools
            (bucket_of D.meaning.pool_name self.old).pools }
        requires taken { HoldsAlong I.next_gives sets.old (λ xs. AllByRecursion
            (λ y. at_place first.id first.number y ≡ true) xs → IsTakenAt first.key.is first.number
            (names_of D.meaning.set_name (first ∷ xs)) (bucket_of D.meaning.pool_name self.old)
            (D.ledger device.old).pools) }
        requires fits { with_empty.old + (if self.old.may_have_empty then 0 else 1) < 2 ^ 64 }
        ensures counts { with_empty.new + (if self.old.may_have_empty then 1 else 0)
            ≡ with_empty.old + (if self.new.may_have_empty then 1 else 0) }
        ensures ran { (run : List (DescriptorSet S)) ×
            EndsRun I.next_gives (at_place first.id first.number) sets.old run result sets.new ×
            Releases first.key.is first.number (names_of D.meaning.set_name (first ∷ run))
            (bucket_of D.meaning.pool_name self.old) (D.ledger device.old)
            (bucket_of D.meaning.pool_name self.new) (D.ledger device.new) ×
            (self.new.total + length (first ∷ run) ≡ self.old.total) }
        ensures stored { AreBookedIn first.key.is (D.ledger device.new).pools
            (bucket_of D.meaning.pool_name self.new).pools }
        ensures load { (k : Key) → pools_load k self.new.pools.items
            ≡ pools_load k self.old.pools.items }
        ensures goes { OnSome result (IsNearerEnd I.can_next I.remaining sets.old sets.new) }
        ensures compares { Compares (search_digits (bucket_of D.meaning.pool_name self.old))
            comparisons.old.count comparisons.new.count }
    {
        let id = first.id;
        let number = first.number;
        let place = self.place_of_pool(number, comparisons);
        let ordinal = self.first_ordinal() + place as u64;
        let mut ahead = Some(first);
        let pool = &mut self.pools[place];
        let was_free = pool.available;
        let mut run = Run {
            source: sets,
            ahead: &mut ahead,
            id,
            number,
            count: 0,
        };
        device.dealloc_descriptor_sets(&mut pool.pool, &mut run);
        let count = run.finish();
        pool.allocated -= count;
        pool.available += count;
        note_pool(&mut self.may_have_empty, with_empty, pool.allocated == 0);
        self.total -= u64::from(count);
        self.listed.reopen(ordinal, was_free, comparisons);
        ahead
    }

    /// The place of the pool with a number. The number gives the place if no later number is missing;
    /// else the pool is searched for.
    #[inline]
    fn place_of_pool(&self, number: u64, comparisons: &mut Tally) -> usize
        requires there { (i : ℕ) × (slice_get (numbers_of self.now.pools.items) i
            ≡ Some number) }
        ensures place { slice_get (numbers_of self.now.pools.items) result ≡ Some number }
        ensures compares { Compares (gap_digits (numbers_of self.now.pools.items))
            comparisons.old.count comparisons.new.count }
    {
        // A program that never trims compares one number, and no map of places is kept as pools go.
        let likely = number.wrapping_sub(self.first_ordinal()) as usize;
        if self.has_number(likely, number) {
            return likely;
        }
        search_pools(&self.pools, number, comparisons)
    }

    /// Whether the pool at this place has this number.
    #[inline]
    fn has_number(&self, place: usize, number: u64) -> bool
        ensures yes { IsTrue result → slice_get (numbers_of self.now.pools.items) place
            ≡ Some number }
        ensures no { result ≡ false → slice_get (numbers_of self.now.pools.items) place
            ≡ Some number → ⊥ }
    {
        match self.pools.get(place) {
            Some(pool) => pool.number == number,
            None => false,
        }
    }
}
