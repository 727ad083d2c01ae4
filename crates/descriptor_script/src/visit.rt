//! A visit to a device: of an allocator that is made, used and cleaned up nothing is left there,
//! once all its sets are free.
ghost use Rattle.std.specs.Prelude.{◌≡◌, [], IfOk, OnErr};
ghost use Rattle.gpu_descriptor_types.specs.Side.{Side, side};
ghost use Rattle.gpu_descriptor.specs.Caller.States.{state_of};
ghost use Rattle.gpu_descriptor.specs.Model.Agreement.{HasNoKeys, HasNoPools};
ghost use Rattle.descriptor_script.specs.Sessions.Session.{IsReady, KeepsSession, SessionValue, value_of};
ghost use Rattle.descriptor_script.specs.Sessions.Steps.{StepsTo};
ghost use Rattle.descriptor_script.specs.Sessions.Tickets.{held_sets};
ghost use Rattle.descriptor_script.specs.Sessions.SessionRun.{IsStep, Runs};

use crate::{Command, Reply, Session};
use gpu_descriptor::DescriptorDevice;
use std::alloc::AllocError;
use std::vec::Vec;

/// Runs commands, as `Session::run` does, on a session that has no pools, and then cleans up. If no
/// set is held then, the device has exactly the pools that it had before, whatever it refused in
/// between, the session's books are as new, and it may visit the device again. Without memory for
/// the replies it only cleans up.
///
/// A session that was just made meets the conditions, with layouts as the device means them. So
/// does a session without sets whose requests were refused before a pool came.
pub fn visit<L, P: Drop, S: Drop, D: DescriptorDevice<L, P, S>>(
    session: &mut Session<L, P, S>,
    device: &mut D,
    commands: &[Command],
) -> Result<Vec<Reply>, AllocError>
    requires ready { IsReady D.meaning (side (value_of session.old) (D.ledger device.old)) }
    requires began { HasNoPools (state_of D.meaning.pool_name (value_of session.old).allocator
        (D.ledger device.old)) }
    ensures runs { IfOk result (λ replies. (used : Side (SessionValue L P S))
        × Runs (IsStep D.meaning) commands.now replies.items
        (side (value_of session.old) (D.ledger device.old)) used
        × StepsTo D.meaning Command.Cleanup Reply.Clean used
        (side (value_of session.new) (D.ledger device.new))) }
    ensures cleans { OnErr result (StepsTo D.meaning Command.Cleanup Reply.Clean
        (side (value_of session.old) (D.ledger device.old))
        (side (value_of session.new) (D.ledger device.new))) }
    ensures pools { held_sets (value_of session.new).sets ≡ [] → (D.ledger device.new).pools
        ≡ (D.ledger device.old).pools }
    ensures ended { held_sets (value_of session.new).sets ≡ []
        → HasNoKeys (state_of D.meaning.pool_name (value_of session.new).allocator (D.ledger device.new)) }
    ensures keeps { KeepsSession D.meaning (side (value_of session.old) (D.ledger device.old))
        (side (value_of session.new) (D.ledger device.new)) }
{
    let replies = session.run(device, commands);
    session.cleanup(device);
    replies
}
