//! Commands, one after another.
ghost use Rattle.std.specs.Prelude.{◌≡◌, All, IfOk, OnErr};
ghost use Rattle.gpu_descriptor_types.specs.Side.{side};
ghost use Rattle.descriptor_script.specs.Sessions.Session.{IsReady, KeepsSession, value_of};
ghost use Rattle.descriptor_script.specs.Sessions.SessionRun.{IsStep, Runs};
ghost use Rattle.descriptor_script.specs.Sessions.Steps.{IsTurnedAway};

use super::Session;
use crate::command::{Command, Reply};
use gpu_descriptor::DescriptorDevice;
use std::alloc::AllocError;
use std::vec::Vec;

impl<L, P: Drop, S: Drop> Session<L, P, S> {
    /// Reserves memory for all replies, and then does the commands in order. On `Err` nothing was done.
    pub fn run<D: DescriptorDevice<L, P, S>>(
        &mut self,
        device: &mut D,
        commands: &[Command],
    ) -> Result<Vec<Reply>, AllocError>
        requires ready { IsReady D.meaning (side (value_of self.old) (D.ledger device.old)) }
        ensures runs { IfOk result (λ replies. Runs (IsStep D.meaning) commands.now replies.items
            (side (value_of self.old) (D.ledger device.old))
            (side (value_of self.new) (D.ledger device.new))) }
        ensures session { OnErr result (self.new ≡ self.old) }
        ensures device { OnErr result (device.new ≡ device.old) }
        ensures turned_away { IfOk result (λ replies. All IsTurnedAway replies.items
            → device.new ≡ device.old) }
        ensures keeps { KeepsSession D.meaning (side (value_of self.old) (D.ledger device.old))
            (side (value_of self.new) (D.ledger device.new)) }
    {
        let mut replies = Vec::with_capacity(self.slots.alloc, commands.len())?;
        for command in commands {
            let reply = self.step(device, command);
            replies.push_reserved(reply);
        }
        Ok(replies)
    }
}
