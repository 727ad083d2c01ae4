//! One command of a session.
ghost use Rattle.std.specs.Prelude.{◌≡◌, ◌<◌, ◌≤◌, ℕ, None, length};
ghost use Rattle.gpu_descriptor_types.specs.Side.{side};
ghost use Rattle.descriptor_script.specs.Sessions.Session.{IsReady, KeepsSession, value_of};
ghost use Rattle.descriptor_script.specs.Sessions.Tickets.{set_at};
ghost use Rattle.descriptor_script.specs.Sessions.Steps.{AllocatesTo, FreesTo};
ghost use Rattle.descriptor_script.specs.Sessions.Steps.{IsTurnedAway, StepsTo};

use super::Session;
use crate::command::{Command, Reply};
use crate::slots::Slots;
use crate::taking::Taking;
use gpu_descriptor::DescriptorDevice;
use std::mem;

impl<L, P: Drop, S: Drop> Session<L, P, S> {
    /// Does what a command says. `Free` and `Cleanup` allocate nothing.
    ///
    /// A reply of `BadTicket`, `BadLayout` or `NoMemory` says that nothing changed, and that the
    /// device was not asked.
    #[tactic(auto, using(crate::proofs::Given::no_fewer_tickets))]
    pub fn step<D: DescriptorDevice<L, P, S>>(&mut self, device: &mut D, command: &Command) -> Reply
        requires ready { IsReady D.meaning (side (value_of self.old) (D.ledger device.old)) }
        ensures step { StepsTo D.meaning command.now result
            (side (value_of self.old) (D.ledger device.old))
            (side (value_of self.new) (D.ledger device.new)) }
        ensures tickets { length (value_of self.old).sets ≤ length (value_of self.new).sets }
        ensures freed { (ticket : ℕ) → ticket < length (value_of self.old).sets
            → set_at (value_of self.old).sets ticket ≡ None
            → set_at (value_of self.new).sets ticket ≡ None }
        ensures device { IsTurnedAway result → device.new ≡ device.old }
        ensures keeps { KeepsSession D.meaning (side (value_of self.old) (D.ledger device.old))
            (side (value_of self.new) (D.ledger device.new)) }
    {
        match command {
            Command::Allocate { layout, count } => self.allocate(device, *layout, *count),
            Command::Free { tickets } => self.free(device, tickets),
            Command::Cleanup => {
                self.cleanup(device);
                Reply::Clean
            }
        }
    }

    /// Allocates sets of the layout at a place, and holds them under the next tickets.
    fn allocate<D: DescriptorDevice<L, P, S>>(
        &mut self,
        device: &mut D,
        layout: usize,
        count: u32,
    ) -> Reply
        requires ready { IsReady D.meaning (side (value_of self.old) (D.ledger device.old)) }
        ensures step { AllocatesTo D.meaning layout count
            (side (value_of self.old) (D.ledger device.old))
            (side (value_of self.new) (D.ledger device.new)) result }
        ensures device { IsTurnedAway result → device.new ≡ device.old }
        ensures keeps { KeepsSession D.meaning (side (value_of self.old) (D.ledger device.old))
            (side (value_of self.new) (D.ledger device.new)) }
    {
        let Some(layout) = self.layouts.get(layout) else {
            return Reply::BadLayout;
        };
        if self.slots.reserve(count).is_err() {
            return Reply::NoMemory;
        }
        let first = self.slots.next();
        match self.allocator.allocate_for(device, layout, count) {
            Ok(sets) => {
                self.slots.append(sets);
                Reply::Sets { first, count }
            }
            Err(error) => Reply::Refused(error),
        }
    }

    /// Frees the sets of these tickets.
    fn free<D: DescriptorDevice<L, P, S>>(&mut self, device: &mut D, tickets: &[usize]) -> Reply
        requires ready { IsReady D.meaning (side (value_of self.old) (D.ledger device.old)) }
        ensures step { FreesTo D.meaning tickets.now
            (side (value_of self.old) (D.ledger device.old))
            (side (value_of self.new) (D.ledger device.new)) result }
        ensures device { IsTurnedAway result → device.new ≡ device.old }
        ensures keeps { KeepsSession D.meaning (side (value_of self.old) (D.ledger device.old))
            (side (value_of self.new) (D.ledger device.new)) }
    {
        if !self.slots.are_held_once(tickets) {
            return Reply::BadTicket;
        }
        // The iterator owns the slots while the allocator reads it.
        let none = Slots::new(self.slots.alloc);
        let slots = mem::replace(&mut self.slots, none);
        let mut sets = Taking {
            slots,
            tickets: tickets.iter(),
        };
        self.allocator.free_from(device, &mut sets);
        let Taking { slots, tickets: _ } = sets;
        self.slots = slots;
        Reply::Freed(tickets.len())
    }

    /// Destroys the empty pools at the front of each key.
    pub(crate) fn cleanup<D: DescriptorDevice<L, P, S>>(&mut self, device: &mut D)
        requires ready { IsReady D.meaning (side (value_of self.old) (D.ledger device.old)) }
        ensures cleans { StepsTo D.meaning Command.Cleanup Reply.Clean
            (side (value_of self.old) (D.ledger device.old))
            (side (value_of self.new) (D.ledger device.new)) }
        ensures keeps { KeepsSession D.meaning (side (value_of self.old) (D.ledger device.old))
            (side (value_of self.new) (D.ledger device.new)) }
    {
        self.allocator.cleanup(device);
    }
}
