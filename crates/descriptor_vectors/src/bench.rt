//! A session and its device, with which all its steps are made. By its ghost field it is ready for the next step,
//! whatever was done before: so a test carries no condition from one call to the next.
ghost use Rattle.gpu_descriptor_types.specs.Counts.{kinds};
ghost use Rattle.gpu_descriptor_types.specs.Side.{side};
ghost use Rattle.descriptor_script.specs.Sessions.Session.{IsReady, value_of};
ghost use Rattle.descriptor_vectors.specs.Benches.{IsReady-prop};
ghost use Rattle.std.specs.Prelude.{◌≡◌};

use crate::seen::expect_same;
use descriptor_script::{Command, RawPool, RawSet, Reply, ScriptLayout, Session};
use gpu_descriptor::DescriptorDevice;
use std::alloc::{AllocError, Global};
use std::process::Abort;

/// What a session is asked.
#[derive(Clone, Copy)]
pub enum Ask<'a> {
    /// So many sets of the layout at this place.
    Sets(usize, u32),
    /// The sets of these tickets are freed.
    Free(&'a [usize]),
    Cleanup,
}

/// A session and its device, ready for the next step.
#[derive(Drop)]
pub struct Bench<D: DescriptorDevice<ScriptLayout, RawPool, RawSet>> {
    pub session: Session<ScriptLayout, RawPool, RawSet>,
    pub device: D,
    ghost ready: { IsReady D.meaning (side (value_of session) (D.ledger device)) } by { IsReady-prop
        D.meaning (side (value_of session) (D.ledger device)) },
}

impl<D: DescriptorDevice<ScriptLayout, RawPool, RawSet>> Bench<D> {
    /// A session without layouts.
    pub fn new(alloc: Global, device: D) -> Self {
        Bench {
            session: Session::new(alloc, u32::MAX),
            device,
        }
    }

    /// Puts a layout last that the device means as it stands.
    pub fn add_layout(&mut self, layout: ScriptLayout) -> Result<(), AllocError>
        requires counts { D.meaning.counts layout ≡ kinds layout.counts }
        requires mark { D.meaning.mark layout ≡ layout.mark }
    {
        match self
            .session
            .add_layout(layout, layout.counts, layout.flags())
        {
            Ok(_) => Ok(()),
            Err(_) => Err(AllocError),
        }
    }

    fn step(&mut self, command: &Command) -> Reply {
        self.session.step(&mut self.device, command)
    }

    pub fn ask(&mut self, alloc: Global, ask: Ask<'_>) -> Result<Reply, AllocError> {
        let command = match ask {
            Ask::Sets(layout, count) => Command::Allocate { layout, count },
            Ask::Free(tickets) => Command::Free {
                tickets: tickets.to_vec(alloc)?,
            },
            Ask::Cleanup => Command::Cleanup,
        };
        Ok(self.step(&command))
    }
}

/// Asks in order, and compares the replies.
pub fn expect_replies<D: DescriptorDevice<ScriptLayout, RawPool, RawSet>>(
    rt: &impl Abort,
    alloc: Global,
    bench: &mut Bench<D>,
    asks: &[(Ask<'_>, Reply)],
) -> Result<(), AllocError> {
    for (ask, wanted) in asks {
        expect_same(rt, bench.ask(alloc, *ask)?, *wanted);
    }
    Ok(())
}
