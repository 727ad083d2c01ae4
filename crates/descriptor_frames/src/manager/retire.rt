//! Retiring sets, into memory that may be reserved before.
ghost use Rattle.std.specs.Prelude.{◌≡◌, ℕ, ◌+◌, ◌<◌, ◌≤◌, ◌↔◌, [], ◌∷◌, ◌++◌, IfErr, IsErrOf};
ghost use Rattle.std.specs.Prelude.{IsOk, OnErr, OnOk};
ghost use Rattle.gpu_descriptor_types.specs.Ledger.{Ledger};
ghost use Rattle.gpu_descriptor.specs.Caller.Sets.{item_of};
ghost use Rattle.descriptor_frames.specs.Errors.{handed_back};
ghost use Rattle.descriptor_frames.specs.Retired.{at_frame};

use super::FrameManager;
use crate::errors::RetireError;
use crate::retired::Retired;
use gpu_descriptor::DescriptorSet;
use std::alloc::AllocError;

impl<P, S> FrameManager<P, S> {
    ghost use Rattle.descriptor_frames.specs.Frames.{AreInUse, AreRetiredOut, Retires};
    ghost use Rattle.descriptor_frames.specs.Frames.{allocator_of, greatest_of, retired_of};
    ghost use Rattle.descriptor_frames.specs.Frames.{reserve_of};

    /// Reserves memory for `additional` more retired sets: the next ones are retired without an
    /// allocation.
    pub fn reserve(&mut self, additional: usize) -> Result<(), AllocError>
        ensures reserve { OnOk result (additional ≤ reserve_of self.new) }
        ensures full { OnErr result (reserve_of self.old < additional) }
        ensures reserve_stays { reserve_of self.old ≤ reserve_of self.new }
        ensures list { retired_of self.new ≡ retired_of self.old }
        ensures greatest { greatest_of self.new ≡ greatest_of self.old }
        ensures allocator { allocator_of self.new ≡ allocator_of self.old }
    {
        self.retired.reserve(additional)
    }

    /// Retires a set: it is freed when this frame or a later one is finished.
    ///
    /// Frames must not fall: it fails with `FrameBack` if the frame is below the greatest at which a set
    /// was ever retired, even if all these sets have been freed since; and with `Memory` if an
    /// allocation for one more fails. Either returns the set, and nothing changes.
    pub fn retire(&mut self, frame: u64, set: DescriptorSet<S>) -> Result<(), RetireError<S>>
        ensures last { OnOk result (retired_of self.new
            ≡ retired_of self.old ++ at_frame frame set ∷ []) }
        ensures greatest { OnOk result (greatest_of self.new ≡ frame) }

        // On any device: a set that was in use is so once less, and the retired ones are still
        // outstanding.
        ensures in_use { OnOk result ((pool_name : P → ℕ) (set_name : S → ℕ) (l : Ledger)
            → AreRetiredOut pool_name set_name self.old l
            → AreInUse pool_name set_name (item_of set_name set ∷ []) self.old l
            → Retires pool_name set_name (item_of set_name set ∷ []) self.old self.new l) }

        ensures fits { greatest_of self.old ≤ frame → 0 < reserve_of self.old → IsOk result }
        ensures reserve { OnOk result (reserve_of self.old ≤ reserve_of self.new + 1) }
        ensures frame_back { (IsErrOf result (RetireError.FrameBack set))
            ↔ (frame < greatest_of self.old) }
        ensures back { IfErr result (λ e. handed_back e ≡ set) }
        ensures list_stays { OnErr result (retired_of self.new ≡ retired_of self.old) }
        ensures greatest_stays { OnErr result (greatest_of self.new ≡ greatest_of self.old) }
        ensures reserve_stays { OnErr result (reserve_of self.old ≤ reserve_of self.new) }
        ensures allocator { allocator_of self.new ≡ allocator_of self.old }
    {
        if frame < self.greatest {
            return Err(RetireError::FrameBack(set));
        }
        if self.reserve(1).is_err() {
            return Err(RetireError::Memory(set));
        }
        self.put(frame, set);
        Ok(())
    }

    /// Puts a set last in the list, in reserved memory.
    pub(super) fn put(&mut self, frame: u64, set: DescriptorSet<S>)
        requires rising { greatest_of self.old ≤ frame }
        requires reserve { 0 < reserve_of self.old }
        ensures list { retired_of self.new ≡ retired_of self.old ++ at_frame frame set ∷ [] }
        ensures greatest { greatest_of self.new ≡ frame }
        ensures reserve { reserve_of self.new + 1 ≡ reserve_of self.old }
        ensures allocator { allocator_of self.new ≡ allocator_of self.old }
    {
        self.retired.push_back_reserved(Retired { frame, set });
        self.greatest = frame;
    }
}
