//! A session's list of commands, and its visits to a device, with ample memory: that each succeeds, and
//! that a visit leaves nothing, so that the session may be visited again. No clause says that memory is there.
ghost use Rattle.std.specs.Prelude.{OnOk};
ghost use Rattle.gpu_descriptor_types.specs.Side.{side};
ghost use Rattle.gpu_descriptor.specs.Caller.States.{state_of};
ghost use Rattle.descriptor_script.specs.Scripted.Raw.{pool_id, script_meaning};
ghost use Rattle.descriptor_script.specs.Sessions.Session.{IsReady, value_of};
ghost use Rattle.gpu_descriptor.specs.Model.Agreement.{HasNoPools};
ghost use Rattle.descriptor_vectors.specs.Logged.{ledger_logged};

use crate::LogDevice;
use crate::pair::one_layout;
use crate::seen::sets;
use descriptor_script::headline::headline;
use descriptor_script::visit::visit;
use descriptor_script::{Command, RawPool, RawSet, Reply, ScriptLayout, Session};
use std::alloc::{AllocError, Global};
use std::process::Abort;
use std::test::Fail;

/// Three sets come, and those of these tickets go back.
fn three_sets(alloc: Global, tickets: &[usize]) -> Result<Vec<Command>, AllocError> {
    let tickets = tickets.to_vec(alloc)?;
    let allocate = Command::Allocate {
        layout: 0,
        count: 3,
    };
    let mut commands = Vec::new(alloc);
    commands.push(allocate)?;
    commands.push(Command::Free { tickets })?;
    Ok(commands)
}

/// Visits the device, compares the replies, and sees that no set is held.
fn expect_visit(
    rt: &impl Abort,
    session: &mut Session<ScriptLayout, RawPool, RawSet>,
    device: &mut LogDevice,
    commands: &[Command],
    replies: &[Reply],
) -> Result<(), Fail>
    requires ready { IsReady script_meaning (side (value_of session.old)
        (ledger_logged device.old)) }
    requires began { HasNoPools (state_of pool_id (value_of session.old).allocator
        (ledger_logged device.old)) }
    ensures ready { IsReady script_meaning (side (value_of session.new)
        (ledger_logged device.new)) }
    ensures ended { OnOk result (HasNoPools (state_of pool_id (value_of session.new).allocator
        (ledger_logged device.new))) }
{
    let seen = visit(session, device, commands)?;
    assert_eq!(rt; seen.as_slice(), replies);
    if session.held() != 0 {
        return Err(Fail::new("a set is held"));
    }
    Ok(())
}

/// Does a list of commands, and compares the replies.
fn expect_done(
    rt: &impl Abort,
    session: &mut Session<ScriptLayout, RawPool, RawSet>,
    device: &mut LogDevice,
    commands: &[Command],
    replies: &[Reply],
) -> Result<(), AllocError>
    requires ready { IsReady script_meaning (side (value_of session.old)
        (ledger_logged device.old)) }
{
    let seen = headline(session, device, commands)?;
    assert_eq!(rt; seen.as_slice(), replies);
    Ok(())
}

/// Two visits, each with three sets that go back, and the commands of such a visit alone.
fn expect_visits(
    rt: &impl Abort,
    alloc: Global,
    session: &mut Session<ScriptLayout, RawPool, RawSet>,
    device: &mut LogDevice,
) -> Result<(), Fail>
    requires ready { IsReady script_meaning (side (value_of session.old)
        (ledger_logged device.old)) }
    requires began { HasNoPools (state_of pool_id (value_of session.old).allocator
        (ledger_logged device.old)) }
{
    let first = three_sets(alloc, &[0, 1, 2])?;
    let second = three_sets(alloc, &[3, 4, 5])?;
    let third = three_sets(alloc, &[6, 7, 8])?;
    let freed = Reply::Freed(3);
    expect_visit(rt, session, device, &first, &[sets(0, 3), freed])?;
    expect_visit(rt, session, device, &second, &[sets(3, 3), freed])?;
    expect_done(rt, session, device, &third, &[sets(6, 3), freed])?;
    Ok(())
}

#[test]
fn session_visits_twice(rt: HostRuntime) -> Result<(), Fail> {
    let mut device = LogDevice::new(rt.alloc());
    let mut session = one_layout(rt.alloc())?;
    expect_visits(&rt, rt.alloc(), &mut session, &mut device)
}
