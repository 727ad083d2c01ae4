//! Two sessions on one device, which take turns, and what the device sees: its calls in their order, which
//! no clause says.
ghost use Rattle.std.specs.Prelude.{IfOk};
ghost use Rattle.descriptor_script.specs.Sessions.Session.{value_of};
ghost use Rattle.descriptor_vectors.specs.Logged.{ledger_logged};
ghost use Rattle.descriptor_vectors.specs.Pairs.{ArePaired, IsNewSession, paired-prop};

use crate::seen::{expect_calls, expect_pools, expect_same, layout_of};
use crate::{Call, LogDevice};
use descriptor_script::{Command, RawPool, RawSet, Reply, ScriptLayout, Session};
use std::alloc::{AllocError, Global};
use std::process::Abort;
use std::test::Fail;

/// Two sessions, with the device that all their steps are made with.
#[derive(Drop)]
struct Pair {
    one: Session<ScriptLayout, RawPool, RawSet>,
    other: Session<ScriptLayout, RawPool, RawSet>,
    device: LogDevice,
    ghost paired: { ArePaired (value_of one) (value_of other) (ledger_logged device) } by { paired-prop (value_of one) (value_of other) (ledger_logged device) },
}

/// A session with a plain layout of one sampler.
pub fn one_layout(alloc: Global) -> Result<Session<ScriptLayout, RawPool, RawSet>, Fail>
    ensures { IfOk result (λ session. IsNewSession (value_of session)) }
{
    let layout = layout_of(1, false);
    let mut session = Session::new(alloc, 0);
    match session.add_layout(layout, layout.counts, layout.flags()) {
        Ok(_) => Ok(session),
        Err(_) => Err(Fail::new("no memory for a layout")),
    }
}

impl Pair {
    /// Both with a plain layout of one sampler.
    fn new(alloc: Global) -> Result<Self, Fail> {
        Ok(Pair {
            one: one_layout(alloc)?,
            other: one_layout(alloc)?,
            device: LogDevice::new(alloc),
        })
    }

    fn step_one(&mut self, command: &Command) -> Reply {
        self.one.step(&mut self.device, command)
    }

    fn step_other(&mut self, command: &Command) -> Reply {
        self.other.step(&mut self.device, command)
    }
}

fn allocate(count: u32) -> Command {
    Command::Allocate { layout: 0, count }
}

/// One takes 64 sets, the other one, the first one more, and then gives its 64 back.
fn take_in_turns(rt: &impl Abort, alloc: Global, pair: &mut Pair) -> Result<(), AllocError> {
    let mut tickets = [0; 64];
    for (place, ticket) in tickets.iter_mut().enumerate() {
        *ticket = place;
    }
    let tickets = tickets.to_vec(alloc)?;
    pair.step_one(&allocate(64));
    pair.step_other(&allocate(1));
    pair.step_one(&allocate(1));
    let freed = pair.step_one(&Command::Free { tickets });
    expect_same(rt, freed, Reply::Freed(64));
    Ok(())
}

fn expect_taken_in_turns(rt: &impl Abort, pair: &Pair) {
    let layout = layout_of(1, false);
    expect_pools(rt, pair.one.allocator(), &layout, &[(1, 1, 63)]);
    expect_pools(rt, pair.other.allocator(), &layout, &[(0, 1, 63)]);
    let calls = [
        Call::Create { pool: 0 },
        Call::Alloc { pool: 0, sets: 64 },
        Call::Create { pool: 1 },
        Call::Alloc { pool: 1, sets: 1 },
        Call::Create { pool: 2 },
        Call::Alloc { pool: 2, sets: 1 },
        Call::Release { pool: 0, sets: 64 },
        Call::Destroy { pool: 0 },
    ];
    expect_calls(rt, &pair.device, &calls);
}

fn share_the_device(rt: &impl Abort, alloc: Global, pair: &mut Pair) -> Result<(), Fail> {
    take_in_turns(rt, alloc, pair)?;
    expect_taken_in_turns(rt, pair);
    Ok(())
}

#[test]
fn two_allocators_on_one_device(rt: HostRuntime) -> Result<(), Fail> {
    let mut pair = Pair::new(rt.alloc())?;
    share_the_device(&rt, rt.alloc(), &mut pair)
}
