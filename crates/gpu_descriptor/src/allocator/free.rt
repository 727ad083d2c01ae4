//! Freeing sets.
ghost use Rattle.std.specs.Prelude.{◌≡◌, ◌<◌, ◌∷◌, List, OnSome};
ghost use Rattle.std.specs.Iterator.{HoldsAlong, IsFiniteIterable, IsNearerEnd};
ghost use Rattle.gpu_descriptor_types.specs.Ledger.{CanDrain};
ghost use Rattle.gpu_descriptor_types.specs.Side.{side};
ghost use Rattle.gpu_descriptor.specs.Model.Agreement.{Agree, AreOutstanding};
ghost use Rattle.gpu_descriptor.specs.Caller.Comparisons.{search_digits};
ghost use Rattle.gpu_descriptor.specs.Caller.Keeps.{Keeps};
ghost use Rattle.gpu_descriptor.specs.Caller.Frees.{Frees, GivesBack, Returns};
ghost use Rattle.gpu_descriptor.specs.Inner.Releases.{Compares};
ghost use Rattle.gpu_descriptor.specs.Inner.RunSteps.{EndsRun, lies_at};
ghost use Rattle.gpu_descriptor.specs.Caller.Sets.{items_of};
ghost use Rattle.gpu_descriptor.specs.Caller.States.{Agrees, keys_of, state_of};

use super::DescriptorAllocator;
use crate::set::DescriptorSet;
use gpu_descriptor_types::DescriptorDevice;
use std::vec::Vec;

impl<P, S> DescriptorAllocator<P, S> {
    /// Same as `free_from`.
    pub fn free<L, D: DescriptorDevice<L, P, S>, I: IntoIterator<Item = DescriptorSet<S>>>(
        &mut self,
        device: &mut D,
        sets: I,
    )
        requires ends { IsFiniteIterable I.into_iter_gives I.IntoIter.can_next I.IntoIter.remaining sets }
        requires agree { Agrees D.meaning.pool_name self.old (D.ledger device.old) }
        requires outstanding { (iter : I.IntoIter) → I.into_iter_gives sets iter → HoldsAlong
            I.IntoIter.next_gives iter (λ xs. AreOutstanding (items_of D.meaning.set_name xs)
            (state_of D.meaning.pool_name self.old (D.ledger device.old))) }
        ensures frees { (iter : I.IntoIter) × (left : I.IntoIter) × I.into_iter_gives sets iter ×
            Frees D.meaning I.IntoIter.next_gives iter left (side self.old (D.ledger device.old))
            (side self.new (D.ledger device.new)) }
        ensures keeps { Keeps D.meaning (side self.old (D.ledger device.old))
            (side self.new (D.ledger device.new)) }
    {
        let mut sets = sets.into_iter();
        self.free_from(device, &mut sets);
    }

    /// Frees the sets that the iterator yields up to its end. It allocates no memory and can't fail.
    ///
    /// It makes one device call per run of consecutive sets from one pool. Whenever the oldest pools of
    /// their key have no sets left, they are destroyed, except the key's last pool.
    ///
    /// `device` must be that of all other calls, and done with all work that uses one of the sets. Don't
    /// submit again what was recorded with them.
    #[inline]
    pub fn free_from<L, D: DescriptorDevice<L, P, S>, I: Iterator<Item = DescriptorSet<S>>>(
        &mut self,
        device: &mut D,
        sets: &mut I,
    )
        requires ends { CanDrain I.can_next I.remaining sets.old }
        requires agree { Agrees D.meaning.pool_name self.old (D.ledger device.old) }
        requires outstanding { HoldsAlong I.next_gives sets.old (λ xs. AreOutstanding
            (items_of D.meaning.set_name xs)
            (state_of D.meaning.pool_name self.old (D.ledger device.old))) }
        ensures frees { Frees D.meaning I.next_gives sets.old sets.new
            (side self.old (D.ledger device.old)) (side self.new (D.ledger device.new)) }
        ensures keeps { Keeps D.meaning (side self.old (D.ledger device.old))
            (side self.new (D.ledger device.new)) }
    {
        let mut ahead = sets.next();
        while let Some(first) = ahead {
            ahead = self.release_run(device, first, sets);
        }

        // A proof knows the allocator's invariant only where a field is read, and that of `keeps` needs
        // the invariant.
        prove!(
            self.update_after_bind_descriptors
                <= self.max_update_after_bind_descriptors_in_all_pools
        );
    }

    /// Frees one run, from `first` to before the first set from elsewhere, which is returned.
    #[inline]
    fn release_run<L, D: DescriptorDevice<L, P, S>, I: Iterator<Item = DescriptorSet<S>>>(
        &mut self,
        device: &mut D,
        first: DescriptorSet<S>,
        sets: &mut I,
    ) -> Option<DescriptorSet<S>>
        requires ends { CanDrain I.can_next I.remaining sets.old }
        requires agree { Agree (state_of D.meaning.pool_name self.old (D.ledger device.old)) }
        requires outstanding { HoldsAlong I.next_gives sets.old (λ xs. AreOutstanding
            (items_of D.meaning.set_name (first ∷ xs))
            (state_of D.meaning.pool_name self.old (D.ledger device.old))) }
        ensures ran { (run : List (DescriptorSet S)) ×
            EndsRun I.next_gives (lies_at first.key.is first.number) sets.old run result sets.new ×
            GivesBack D.meaning (first ∷ run) 1 (side self.old (D.ledger device.old))
            (side self.new (D.ledger device.new)) }
        ensures goes { OnSome result (IsNearerEnd I.can_next I.remaining sets.old sets.new) }
        ensures keys { keys_of self.new ≡ keys_of self.old }
        ensures limit { self.new.limit ≡ self.old.limit }
        ensures bound { self.new.bound ≡ self.old.bound }
        ensures range { self.new.ids ≡ self.old.ids }
        ensures looks_stay { self.new.looks ≡ self.old.looks }
        ensures compares { Compares (search_digits ((state_of D.meaning.pool_name self.old
            (D.ledger device.old)).books first.key.is)) self.old.comparisons self.new.comparisons }
    {
        let place = self.table.place_of_id(first.id);
        self.table.last = place;

        // A proof knows that an id has 64 bits only where it is read, and so that the count of keys has.
        prove!(self.table.with_empty <= self.table.next_id);
        let (key, bucket) = self.table.buckets.pair_mut(place);
        let before = bucket.total;
        let ahead = bucket.release_sets(
            device,
            first,
            sets,
            &mut self.comparisons,
            &mut self.table.with_empty,
        );
        bucket.destroy_empty_front(device, key, &mut self.budget.room, 1);
        let released = before - bucket.total;
        self.outstanding -= released;
        let descriptors = key.marked_descriptors_of_sets(released) as u32;
        self.update_after_bind_descriptors -= descriptors;
        ahead
    }
}

impl<P, S: Drop> DescriptorAllocator<P, S> {
    /// Frees the sets of a vector. Same as `free_from`.
    pub fn free_all<L, D: DescriptorDevice<L, P, S>>(
        &mut self,
        device: &mut D,
        sets: Vec<DescriptorSet<S>>,
    )
        // It requires of the sets one fact about their list, which `allocate` leaves true.
        requires agree { Agrees D.meaning.pool_name self.old (D.ledger device.old) }
        requires outstanding { AreOutstanding (items_of D.meaning.set_name sets.items)
            (state_of D.meaning.pool_name self.old (D.ledger device.old)) }
        ensures returns { Returns D.meaning sets.items (side self.old (D.ledger device.old))
            (side self.new (D.ledger device.new)) }
        ensures keeps { Keeps D.meaning (side self.old (D.ledger device.old))
            (side self.new (D.ledger device.new)) }
    {
        let mut back = sets.into_iter();
        self.free_from(device, &mut back);
    }
}
