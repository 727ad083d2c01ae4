//! Sets by ticket.
ghost use Rattle.std.specs.Prelude.{◌≡◌, ◌+◌, ◌++◌, ◌∷◌, ◌<◌, ◌↔◌, [], length, map, slice_set};
ghost use Rattle.std.specs.Prelude.{None, Some, IsSome, IsTrue, OnOk, OnErr, vec_capacity, vec_len};
ghost use Rattle.std.specs.Option.{option_copied};
ghost use Rattle.descriptor_script.specs.Inner.Marks.{AreClear};
ghost use Rattle.descriptor_script.specs.Sessions.Tickets.{AreHeldOnce, held_sets, set_at};

use crate::marks::{clear_each, mark_each};
use gpu_descriptor::DescriptorSet;
use std::alloc::{AllocError, Global};
use std::vec::Vec;

/// A slot for each ticket that was given, with its set until that is freed.
#[derive(Debug, Drop)]
pub(crate) struct Slots<S> {
    pub(crate) alloc: Global,
    pub(crate) sets: Vec<Option<DescriptorSet<S>>>,

    /// Marks for a walk over a list of tickets. Between the walks none is set.
    pub(crate) listed: Vec<bool>,

    /// How many slots have a set.
    pub(crate) held: u64,
    ghost as_long: { vec_len listed ≡ vec_len sets },
    ghost clear: { AreClear listed.items },
    ghost counted: { held ≡ length (held_sets sets.items) },
}

impl<S> Slots<S> {
    ghost use Rattle.descriptor_script.specs.Inner.Slots.{HasSpareSlots};

    /// No ticket was given. It allocates no memory.
    pub(crate) fn new(alloc: Global) -> Self
        ensures { result.sets.items ≡ [] }
    {
        Slots {
            alloc,
            sets: Vec::new(alloc),
            listed: Vec::new(alloc),
            held: 0,
        }
    }

    /// The set of a ticket.
    pub(crate) fn get(&self, ticket: usize) -> Option<&DescriptorSet<S>>
        ensures { option_copied result ≡ set_at self.now.sets.items ticket }
    {
        match self.sets.get(ticket) {
            Some(slot) => slot.as_ref(),
            None => None,
        }
    }

    /// How many slots have a set.
    pub(crate) fn held(&self) -> u64
        ensures { result ≡ length (held_sets self.now.sets.items) }
    {
        self.held
    }

    /// The next ticket.
    pub(crate) fn next(&self) -> usize
        ensures { result ≡ length self.now.sets.items }
    {
        self.sets.len()
    }

    /// Reserves memory for `count` tickets.
    pub(crate) fn reserve(&mut self, count: u32) -> Result<(), AllocError>
        ensures reserve { OnOk result (HasSpareSlots count self.new) }
        ensures some { OnErr result (0 < count) }
        ensures sets { self.new.sets.items ≡ self.old.sets.items }
    {
        self.sets.reserve(count as usize)?;
        self.listed.reserve(count as usize)
    }

    /// Puts sets under the next tickets, over memory that was reserved.
    pub(crate) fn append(&mut self, sets: Vec<DescriptorSet<S>>)
    where
        S: Drop,
        requires { HasSpareSlots (length sets.items) self.old }
        ensures { self.new.sets.items ≡ self.old.sets.items ++ map Some sets.items }
    {
        for set in sets {
            self.push(set);
        }
    }

    /// Puts a set under the next ticket, over memory that was reserved.
    fn push(&mut self, set: DescriptorSet<S>)
        requires { HasSpareSlots 1 self.old }
        ensures sets { self.new.sets.items ≡ self.old.sets.items ++ Some set ∷ [] }
        ensures reserve { (vec_len self.new.sets ≡ vec_len self.old.sets + 1)
            × (vec_capacity self.new.sets ≡ vec_capacity self.old.sets) }
        ensures marks { (vec_len self.new.listed ≡ vec_len self.old.listed + 1)
            × (vec_capacity self.new.listed ≡ vec_capacity self.old.listed) }
    {
        self.sets.push_reserved(Some(set));
        self.listed.push_reserved(false);
        self.held += 1;
    }

    /// Takes the set of a ticket out of its slot.
    #[tactic(auto, using(crate::proofs::Emptied::held_one_less))]
    pub(crate) fn take(&mut self, ticket: usize) -> Option<DescriptorSet<S>>
        requires { IsSome (set_at self.old.sets.items ticket) }
        ensures set { result ≡ set_at self.old.sets.items ticket }
        ensures sets { self.new.sets.items ≡ slice_set self.old.sets.items ticket None }
    {
        let set = self.sets[ticket].take();
        self.held -= 1;
        set
    }

    /// Whether each ticket of the list has a set, and none is there twice.
    pub(crate) fn are_held_once(&mut self, tickets: &[usize]) -> bool
        ensures answer { IsTrue result ↔ AreHeldOnce self.old.sets.items tickets.now }
        ensures sets { self.new.sets.items ≡ self.old.sets.items }
    {
        let good = mark_each(&self.sets, &mut self.listed, tickets);
        clear_each(&mut self.listed, tickets);
        good
    }
}
