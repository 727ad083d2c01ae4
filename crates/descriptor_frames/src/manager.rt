//! The frame manager: an allocator, and the sets that wait until the device is done with their frame.
ghost use Rattle.std.specs.Prelude.{◌≡◌, ℕ, length};
ghost use Rattle.gpu_descriptor_types.specs.Ledger.{Ledger};
ghost use Rattle.gpu_descriptor.specs.Caller.States.{Agrees, outstanding_of};
ghost use Rattle.gpu_descriptor.specs.Caller.Values.{all_ids};
ghost use Rattle.descriptor_frames.specs.Retired.{AreInOrder};

mod allocate;
mod free;
mod retire;

use crate::retired::Retired;
use gpu_descriptor::DescriptorAllocator;
use std::alloc::Global;
use std::collections::VecDeque;
use std::ops::Range;

/// Allocates descriptor sets, and frees them when the frame that used them last is done.
///
/// Every call takes the same device. Dropping a manager is silent and destroys no pool of the device:
/// retire or free all sets, finish their frames and call `cleanup` first.
#[derive(Debug, Drop)]
pub struct FrameManager<P, S> {
    allocator: DescriptorAllocator<P, S>,
    retired: VecDeque<Retired<S>>,

    /// The greatest frame at which a set was ever retired, and 0 before the first. The list forgets it
    /// when its sets are freed.
    greatest: u64,
    ghost ordered: { AreInOrder retired.items greatest },
}

impl<P, S> FrameManager<P, S> {
    ghost use Rattle.descriptor_frames.specs.Frames.{AreRetiredOut, IsNewManager, allocator_of, greatest_of};
    ghost use Rattle.descriptor_frames.specs.Frames.{reserve_of, retired_of};

    /// A manager without sets, whose allocator has this limit on update-after-bind descriptors. It
    /// allocates no memory.
    pub fn new(alloc: Global, limit: u32) -> Self
        ensures { IsNewManager limit all_ids result }
    {
        FrameManager::with_ids(alloc, limit, 0..u64::MAX)
    }

    /// Same as `new`, but the ids of its allocator's keys are from this range. See
    /// `DescriptorAllocator::with_ids`.
    pub fn with_ids(alloc: Global, limit: u32, ids: Range<u64>) -> Self
        ensures { IsNewManager limit (ids.start, ids.end) result }
    {
        FrameManager {
            allocator: DescriptorAllocator::with_ids(alloc, limit, ids),
            retired: VecDeque::new(alloc),
            greatest: 0,
        }
    }

    /// How many sets are in use or retired.
    pub fn outstanding(&self) -> u64
        ensures { result ≡ outstanding_of (allocator_of self.now) }
    {
        self.allocator.outstanding()
    }

    /// How many sets are retired.
    pub fn retired(&self) -> u64
        ensures count { result ≡ length (retired_of self.now) }
        ensures order { AreInOrder (retired_of self.now) (greatest_of self.now) }
    {
        self.retired.len() as u64
    }

    /// The greatest frame at which a set was ever retired, and 0 before the first.
    pub fn greatest(&self) -> u64
        ensures { result ≡ greatest_of self.now }
    {
        self.greatest
    }

    /// Sets the bound on the descriptors of a new pool. See
    /// `DescriptorAllocator::set_max_pool_descriptors`.
    pub fn set_max_pool_descriptors(&mut self, bound: Option<u64>)
        ensures allocator { allocator_of self.new ≡ record (allocator_of self.old) { bound = bound } }
        ensures list { retired_of self.new ≡ retired_of self.old }
        ensures reserve { reserve_of self.new ≡ reserve_of self.old }
        ensures greatest { greatest_of self.new ≡ greatest_of self.old }

        // On any device.
        ensures agree { (pool_name : P → ℕ) (l : Ledger) → Agrees pool_name
            (allocator_of self.old) l → Agrees pool_name (allocator_of self.new) l }
        ensures retired { (pool_name : P → ℕ) (set_name : S → ℕ) (l : Ledger) → AreRetiredOut
            pool_name set_name self.old l → AreRetiredOut pool_name set_name self.new l }
    {
        self.allocator.set_max_pool_descriptors(bound);
    }

    /// The bound on the descriptors of a new pool, `None` without one.
    pub fn max_pool_descriptors(&self) -> Option<u64>
        ensures { result ≡ (allocator_of self.now).bound }
    {
        self.allocator.max_pool_descriptors()
    }

    /// The allocator, to read.
    pub fn allocator(&self) -> &DescriptorAllocator<P, S>
        ensures { result.now ≡ allocator_of self.now }
    {
        &self.allocator
    }
}
