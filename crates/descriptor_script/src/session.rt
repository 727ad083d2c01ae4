//! A session: commands on an allocator, whose sets are named by tickets.
ghost use Rattle.std.specs.Prelude.{◌≡◌, ℕ, ◌≤◌, ◌++◌, [], ◌∷◌, length, slice_get, IfOk, IfErr, OnOk};
ghost use Rattle.std.specs.Prelude.{OnErr};
ghost use Rattle.std.specs.Option.{option_copied};
ghost use Rattle.gpu_descriptor_types.specs.Ledger.{Ledger};
ghost use Rattle.gpu_descriptor.specs.Caller.States.{Agrees, marked_load_of, outstanding_of};
ghost use Rattle.gpu_descriptor.specs.Caller.States.{pool_load_of};
ghost use Rattle.descriptor_script.specs.Sessions.Tickets.{held_sets, set_at};

mod run;
mod step;

use crate::slots::Slots;
use gpu_descriptor::{
    DescriptorAllocator, DescriptorSet, DescriptorSetLayoutCreateFlags, DescriptorTotalCount,
    SetLayout,
};
use std::alloc::Global;
use std::vec::Vec;

/// Runs commands on an allocator, and holds the live sets.
///
/// Each set has a ticket. Tickets begin at 0, and none is reused: a session keeps a slot for each
/// ticket that it ever gave. All steps of a session are made with one device.
#[derive(Debug, Drop)]
pub struct Session<L, P, S> {
    pub(crate) allocator: DescriptorAllocator<P, S>,
    pub(crate) layouts: Vec<SetLayout<L>>,
    pub(crate) slots: Slots<S>,
    ghost counted: { slots.held ≡ outstanding_of allocator },
    ghost within: { marked_load_of allocator ≤ allocator.limit },
    ghost in_room: { pool_load_of allocator ≤ allocator.limit },
}

impl<L, P, S> Session<L, P, S> {
    ghost use Rattle.descriptor_script.specs.Sessions.Session.{new_session, value_of};

    /// A session without layouts and sets, whose allocator has this limit on update-after-bind
    /// descriptors, and agrees with every device. It allocates no memory.
    pub fn new(alloc: Global, max: u32) -> Self
        ensures value { value_of result ≡ new_session max }
        ensures agree { (name : P → ℕ) (ledger : Ledger)
            → Agrees name (value_of result).allocator ledger }
    {
        Session {
            allocator: DescriptorAllocator::with_ids(alloc, max, 0..u64::MAX),
            layouts: Vec::new(alloc),
            slots: Slots::new(alloc),
        }
    }

    /// Puts a layout last, with the counts and the flags that it was made with, and returns its
    /// place. If an allocation fails the layout is returned, and nothing changed.
    pub fn add_layout(
        &mut self,
        layout: L,
        counts: DescriptorTotalCount,
        flags: DescriptorSetLayoutCreateFlags,
    ) -> Result<usize, L>
        ensures place { IfOk result (λ place. place ≡ length (value_of self.old).layouts) }
        ensures last { OnOk result (value_of self.new ≡ record (value_of self.old) {
          layouts = (value_of self.old).layouts ++ record {
            layout = layout;
            counts = counts;
            flags = flags;
          } ∷ [];
        }) }
        ensures back { IfErr result (λ returned. returned ≡ layout) }
        ensures same { OnErr result (value_of self.new ≡ value_of self.old) }
    {
        let place = self.layouts.len();
        match self.layouts.push(SetLayout {
            layout,
            counts,
            flags,
        }) {
            Ok(()) => Ok(place),
            Err(failed) => Err(failed.value.layout),
        }
    }

    /// The layout at a place.
    pub fn layout(&self, place: usize) -> Option<&SetLayout<L>>
        ensures { option_copied result ≡ slice_get (value_of self.now).layouts place }
    {
        self.layouts.get(place)
    }

    /// The allocator.
    pub fn allocator(&self) -> &DescriptorAllocator<P, S>
        ensures { result.now ≡ (value_of self.now).allocator }
    {
        &self.allocator
    }

    /// How many sets are held.
    pub fn held(&self) -> u64
        ensures held { result ≡ length (held_sets (value_of self.now).sets) }
        ensures outstanding { result ≡ outstanding_of (value_of self.now).allocator }
    {
        self.slots.held()
    }

    /// The ticket that comes next.
    pub fn next_ticket(&self) -> usize
        ensures { result ≡ length (value_of self.now).sets }
    {
        self.slots.next()
    }

    /// The set of a ticket; `None` where the ticket was never given or its set is freed.
    pub fn set(&self, ticket: usize) -> Option<&DescriptorSet<S>>
        ensures { option_copied result ≡ set_at (value_of self.now).sets ticket }
    {
        self.slots.get(ticket)
    }
}
