//! Where a request puts its sets.
ghost use Rattle.std.specs.Prelude.{◌≡◌, ◌+◌, ◌-◌, ◌<◌, ◌≤◌, ◌∷◌, ◌++◌, [], List, ℕ};
ghost use Rattle.std.specs.Prelude.{length, take, drop, IsOk, OnOk, ◌==◌, None};
ghost use Rattle.std.specs.Prelude.{vec_len, vec_capacity};
ghost use Rattle.std.specs.Option.{option_to_list};
ghost use Rattle.gpu_descriptor_types.specs.Side.{side};
ghost use Rattle.gpu_descriptor.specs.Caller.Frees.{Returns};
ghost use Rattle.gpu_descriptor.specs.Caller.Keeps.{Keeps};
ghost use Rattle.gpu_descriptor.specs.Caller.Sets.{items_of};
ghost use Rattle.gpu_descriptor.specs.Caller.States.{Agrees, state_of};
ghost use Rattle.gpu_descriptor.specs.Model.Agreement.{AreOutstanding};
ghost use Rattle.gpu_descriptor.specs.declared.set.DescriptorSet.{DescriptorSet};

use crate::allocator::DescriptorAllocator;
use crate::set::DescriptorSet;
use gpu_descriptor_types::DescriptorDevice;
use std::alloc::AllocError;
use std::vec::Vec;

/// A list of sets, to which a request appends its sets. By it `allocate_into` and `allocate_one` share
/// the path of `allocate`.
pub(crate) trait SetPlaces<S> {
    /// The sets, in order, and how many more fit.
    ghost items: { Self → List (DescriptorSet S) };

    ghost places: { Self → ℕ };

    /// How many sets there are.
    fn count(&self) -> usize
        ensures { result ≡ length (items self.now) };

    /// Makes room for `count` more sets. If they fit already, it succeeds and allocates no memory.
    fn make_room(&mut self, count: u32) -> Result<(), AllocError>
        ensures items { items self.new ≡ items self.old }
        ensures more { places self.old ≤ places self.new }
        ensures room { OnOk result (count ≤ places self.new) }
        ensures fits { count ≤ places self.old → IsOk result };

    /// Appends a set.
    fn put(&mut self, set: DescriptorSet<S>)
        requires { 0 < places self.old }
        ensures items { items self.new ≡ items self.old ++ set ∷ [] }
        ensures places { places self.new + 1 ≡ places self.old };

    /// Frees all but the `first` first sets, as `free` does.
    fn free_after<L, P, D: DescriptorDevice<L, P, S>>(
        &mut self,
        first: usize,
        allocator: &mut DescriptorAllocator<P, S>,
        device: &mut D,
    )
        requires first { first ≤ length (items self.old) }
        requires agree { Agrees D.meaning.pool_name allocator.old (D.ledger device.old) }
        requires outstanding { AreOutstanding (items_of D.meaning.set_name
            (drop first (items self.old)))
            (state_of D.meaning.pool_name allocator.old (D.ledger device.old)) }
        ensures returns { Returns D.meaning (drop first (items self.old))
            (side allocator.old (D.ledger device.old)) (side allocator.new (D.ledger device.new)) }
        ensures keeps { Keeps D.meaning (side allocator.old (D.ledger device.old))
            (side allocator.new (D.ledger device.new)) }
        ensures items { items self.new ≡ take first (items self.old) };
}

impl<S: Drop> SetPlaces<S> for Vec<DescriptorSet<S>> {
    ghost items = { λ sets. sets.items };

    ghost places = { λ sets. vec_capacity sets - vec_len sets };

    #[inline]
    fn count(&self) -> usize {
        self.len()
    }

    /// A vector without memory gets room for `count` sets, and no more.
    #[inline]
    fn make_room(&mut self, count: u32) -> Result<(), AllocError> {
        if self.capacity() == 0 {
            self.reserve_exact(count as usize)
        } else {
            self.reserve(count as usize)
        }
    }

    #[inline]
    fn put(&mut self, set: DescriptorSet<S>)
        requires { 0 < vec_capacity self.old - vec_len self.old }
        ensures items { self.new.items ≡ self.old.items ++ set ∷ [] }
        ensures places { vec_capacity self.new - vec_len self.new + 1
            ≡ vec_capacity self.old - vec_len self.old }
    {
        self.push_reserved(set);
    }

    fn free_after<L, P, D: DescriptorDevice<L, P, S>>(
        &mut self,
        first: usize,
        allocator: &mut DescriptorAllocator<P, S>,
        device: &mut D,
    ) {
        let mut back = self.drain(first..);
        allocator.free_from(device, &mut back);
    }
}

/// A place for one set.
impl<S: Drop> SetPlaces<S> for Option<DescriptorSet<S>> {
    ghost items = { option_to_list };

    ghost places = { λ set. 1 - length (option_to_list set) };

    #[inline]
    fn count(&self) -> usize {
        match self {
            Some(_) => 1,
            None => 0,
        }
    }

    #[inline]
    fn make_room(&mut self, count: u32) -> Result<(), AllocError> {
        let free = match self {
            Some(_) => 0,
            None => 1,
        };
        if count <= free {
            Ok(())
        } else {
            Err(AllocError)
        }
    }

    #[inline]
    fn put(&mut self, set: DescriptorSet<S>)
        requires { 0 < 1 - length (option_to_list self.old) }
        ensures items { option_to_list self.new ≡ option_to_list self.old ++ set ∷ [] }
        ensures places { 1 - length (option_to_list self.new) + 1
            ≡ 1 - length (option_to_list self.old) }
    {
        *self = Some(set);
    }

    fn free_after<L, P, D: DescriptorDevice<L, P, S>>(
        &mut self,
        first: usize,
        allocator: &mut DescriptorAllocator<P, S>,
        device: &mut D,
    ) {
        let mut back = split_off(self, first).into_iter();
        allocator.free_from(device, &mut back);
    }
}

/// Takes the set out if none is to stay.
fn split_off<S>(set: &mut Option<DescriptorSet<S>>, first: usize) -> Option<DescriptorSet<S>>
    ensures out { option_to_list result ≡ drop first (option_to_list set.old) }
    ensures stays { option_to_list set.new ≡ take first (option_to_list set.old) }
{
    if first == 0 { set.take() } else { None }
}
