//! A manager over a scripted device that grants all, and the sets that are in use.
ghost use Rattle.gpu_descriptor.specs.Caller.Sets.{items_of};
ghost use Rattle.gpu_descriptor.specs.Caller.States.{Agrees};
ghost use Rattle.gpu_descriptor.proofs.callers.OneAgreement.{Agrees-prop};
ghost use Rattle.descriptor_script.specs.Scripted.Device.{ledger_of};
ghost use Rattle.descriptor_script.specs.Scripted.Raw.{pool_id, set_id};
ghost use Rattle.descriptor_frames.specs.Frames.{AreInUse, AreRetiredOut, allocator_of};

use crate::seen::{expect_pools, expect_same};
use bitflags::Flags;
use descriptor_frames::{FrameManager, RetireError};
use descriptor_script::{RawPool, RawSet, ScriptLayout, ScriptedDevice};
use gpu_descriptor::{
    AllocationError, DescriptorSet, DescriptorSetLayoutCreateFlags, DescriptorTotalCount,
};
use std::alloc::Global;
use std::collections::VecDeque;
use std::mem;
use std::process::Abort;
use std::test::Fail;

/// A manager, its device, and the sets that are in use, in the order in which they came.
///
/// Its ghost fields are what the manager's calls ask, so no test has a condition.
#[derive(Drop)]
pub struct Trial {
    alloc: Global,
    pub device: ScriptedDevice,
    pub manager: FrameManager<RawPool, RawSet>,
    pub in_use: VecDeque<DescriptorSet<RawSet>>,
    pub layout: ScriptLayout,
    ghost agree: { Agrees pool_id (allocator_of manager) (ledger_of device) } by { Agrees-prop
        pool_id (allocator_of manager) (ledger_of device) },
    ghost retired: { AreRetiredOut pool_id set_id manager (ledger_of device) },
    ghost used: { AreInUse pool_id set_id (items_of set_id in_use.items) manager
        (ledger_of device) },
}

impl Trial {
    /// So many sets with one sampler each are in use, under the greatest limit.
    pub fn new(alloc: Global, count: u32) -> Result<Self, AllocationError> {
        let mut counts = DescriptorTotalCount::default();
        counts.set_kind(0, 1);
        let layout = ScriptLayout {
            counts,
            mark: false,
        };
        let flags = DescriptorSetLayoutCreateFlags::empty();
        let mut device = ScriptedDevice::new(alloc, Vec::new(alloc));
        let mut manager = FrameManager::new(alloc, u32::MAX);
        let sets = manager.allocate(&mut device, &layout, flags, &counts, count)?;
        Ok(Trial {
            alloc,
            device,
            manager,
            in_use: VecDeque::from(sets),
            layout,
        })
    }

    /// Retires the first of the sets in use. One whose frame is before the last is the first again, and
    /// its name is returned.
    pub fn retire(&mut self, frame: u64) -> Result<Option<u64>, Fail> {
        let Some(set) = self.in_use.pop_front() else {
            return Err(Fail::from("no set is in use"));
        };
        let Err(error) = self.manager.retire(frame, set) else {
            return Ok(None);
        };
        let is_back = matches!(error, RetireError::FrameBack(_));
        let set = error.into_inner();
        let name = set.raw().id();
        self.in_use.push_front(set)?;
        if is_back {
            Ok(Some(name))
        } else {
            Err(Fail::from("no memory for a set"))
        }
    }

    /// Gives all sets in use back at once.
    pub fn free_all(&mut self) {
        let sets = mem::replace(&mut self.in_use, VecDeque::new(self.alloc));
        self.manager.free_all(&mut self.device, Vec::from(sets));
    }

    pub fn finish(&mut self, frame: u64) {
        self.manager.finish(&mut self.device, frame);
    }

    pub fn cleanup(&mut self) {
        self.manager.cleanup(&mut self.device);
    }
}

/// What is done at a trial, or seen there.
#[derive(Clone, Copy)]
pub enum FrameAct<'a> {
    /// The first of the sets in use is retired at this frame, or is returned under this name.
    Retire(u64, Option<u64>),
    /// All sets in use go back at once.
    FreeAll,
    /// Memory is reserved for so many sets.
    Reserve(usize),
    /// A frame is finished.
    Finish(u64),
    Cleanup,
    /// The number, the allocated and the available of each pool.
    Pools(&'a [(u64, u32, u32)]),
    /// How many sets are live, and how many of these are retired.
    Sets(u64, u64),
    /// How many pools were destroyed, and how many calls released sets.
    Device(u64, u64),
}

/// Compares how many sets are live, and how many of these are retired.
fn expect_sets(rt: &impl Abort, trial: &Trial, outstanding: u64, retired: u64) {
    let seen = [trial.manager.outstanding(), trial.manager.retired()];
    assert_eq!(rt; seen, [outstanding, retired]);
}

/// Compares how many pools were destroyed, and how many calls released sets.
fn expect_device(rt: &impl Abort, trial: &Trial, destroyed: u64, released: u64) {
    let seen = [trial.device.destroyed(), trial.device.released()];
    assert_eq!(rt; seen, [destroyed, released]);
}

/// Does one act, or sees what it says.
fn make(rt: &impl Abort, trial: &mut Trial, next: FrameAct<'_>) -> Result<(), Fail> {
    match next {
        FrameAct::Retire(frame, wanted) => expect_same(rt, trial.retire(frame)?, wanted),
        FrameAct::FreeAll => trial.free_all(),
        FrameAct::Reserve(count) => trial.manager.reserve(count)?,
        FrameAct::Finish(frame) => trial.finish(frame),
        FrameAct::Cleanup => trial.cleanup(),
        FrameAct::Pools(pools) => {
            expect_pools(rt, trial.manager.allocator(), &trial.layout, pools);
        }
        FrameAct::Sets(outstanding, retired) => expect_sets(rt, trial, outstanding, retired),
        FrameAct::Device(destroyed, released) => expect_device(rt, trial, destroyed, released),
    }
    Ok(())
}

/// Does the acts in order.
pub fn play(rt: &impl Abort, trial: &mut Trial, acts: &[FrameAct<'_>]) -> Result<(), Fail> {
    for next in acts {
        make(rt, trial, *next)?;
    }
    Ok(())
}
