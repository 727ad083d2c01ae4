//! The headline, for every device that keeps its interface, however it refuses, and every list of calls
//! that keep their conditions: the allocator's pools have exactly the sets that were allocated and not
//! freed; freeing a batch, with one device call per run, has the same effect as freeing its sets one by
//! one; marked descriptors never exceed the limit; and a request fails only for a named cause.
ghost use Rattle.std.specs.Prelude.{◌≡◌, IfOk, OnErr};
ghost use Rattle.gpu_descriptor_types.specs.Side.{side};
ghost use Rattle.descriptor_script.specs.Sessions.Headline.{KeepsAll};
ghost use Rattle.descriptor_script.specs.Sessions.Session.{IsReady, KeepsSession, value_of};
ghost use Rattle.descriptor_script.specs.Sessions.SessionRun.{IsStep, Runs};

use crate::{Command, Reply, Session};
use gpu_descriptor::DescriptorDevice;
use std::alloc::AllocError;
use std::vec::Vec;

/// Runs commands as `Session::run` does. Its contract is the headline.
///
/// What `KeepsAll` says holds after each command of the list, refused ones too: there are states
/// from the first to the last, with the promise at each step. The condition is that of
/// `Session::run`: a session that was just made meets it, with layouts as the device means them, and
/// each call leaves it met.
pub fn headline<L, P: Drop, S: Drop, D: DescriptorDevice<L, P, S>>(
    session: &mut Session<L, P, S>,
    device: &mut D,
    commands: &[Command],
) -> Result<Vec<Reply>, AllocError>
    requires ready { IsReady D.meaning (side (value_of session.old) (D.ledger device.old)) }

    // At each command of the list all parts of the headline hold, which are the fields of `KeepsAll`.
    ensures together { IfOk result (λ replies. Runs (KeepsAll D.meaning) commands.now replies.items
        (side (value_of session.old) (D.ledger device.old))
        (side (value_of session.new) (D.ledger device.new))) }

    // Without memory for the replies nothing is done.
    ensures session { OnErr result (session.new ≡ session.old) }
    ensures ledger { OnErr result (D.ledger device.new ≡ D.ledger device.old) }

    // The next call may be made.
    ensures ready { IsReady D.meaning (side (value_of session.new) (D.ledger device.new)) }

    // Over the whole run the pools of others stay, and no pool is lost.
    ensures keeps { KeepsSession D.meaning (side (value_of session.old) (D.ledger device.old))
        (side (value_of session.new) (D.ledger device.new)) }

    // `together`, and at the same states the words of the model: each step is one that it allows, which
    // also says what pools are asked, created and destroyed.
    ensures runs { IfOk result (λ replies. Runs (λ command reply s t. KeepsAll D.meaning command
        reply s t × IsStep D.meaning command reply s t) commands.now replies.items
        (side (value_of session.old) (D.ledger device.old))
        (side (value_of session.new) (D.ledger device.new))) }
{
    session.run(device, commands)
}
