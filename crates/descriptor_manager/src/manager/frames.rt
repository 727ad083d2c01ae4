//! Frames and their sets.
ghost use Rattle.std.specs.Prelude.{◌≡◌, ℕ, ◌+◌, ◌<◌, ◌≤◌, ◌^◌, ◌↔◌, ◌⊎◌, [], ◌∷◌, length, max};
ghost use Rattle.std.specs.Prelude.{IfErr, IfOk, IfSome, IsErrOf, IsOk, IsSome, None, OnErr, OnOk};
ghost use Rattle.std.specs.Prelude.{false, true};
ghost use Rattle.descriptor_table.specs.Slots.{frame_at, is_due, slot_at};
ghost use Rattle.descriptor_manager.specs.Stores.{FreesSets, IsFreed, IsRefusedAtLast, Takes};
ghost use Rattle.descriptor_table.specs.Tables.{Turns};

use super::SetManager;
use crate::errors::{BeginFrameError, RequestError};
use crate::layout_registry::LayoutHandle;
use descriptor_table::{SetHandle, Use};
use gpu_descriptor::{AllocationError, DescriptorDevice};

impl<L: Drop, P: Drop, S: Drop, D: DescriptorDevice<L, P, S>> SetManager<L, P, S, D> {
    ghost use Rattle.gpu_descriptor.specs.declared.errors.AllocationError.{AllocationError};
    ghost use Rattle.descriptor_table.specs.declared.handle.SetHandle.{SetHandle};
    ghost use Rattle.descriptor_table.specs.declared.slot.Use.{Use};
    ghost use Rattle.descriptor_manager.specs.Managers.{ComeEach, OnlySetsChange, OnlySetsCome, done_of, frame_of, is_open, kept_of};
    ghost use Rattle.descriptor_manager.specs.Managers.{layout_of, seen, sets_by, side_of, slots_of};
    ghost use Rattle.descriptor_manager.specs.Managers.{store_of};

    /// Opens the next frame and returns its number. The first frame has number 1.
    ///
    /// It fails with `FrameOpen` if a frame is open, and with `NoMoreFrames` after frame `u64::MAX`. An
    /// error changes nothing.
    pub fn begin_frame(&mut self) -> Result<u64, BeginFrameError>
        ensures next { IfOk result (λ frame. (frame ≡ frame_of self.old + 1)
            × (frame_of self.new ≡ frame) × (is_open self.new ≡ true)) }
        ensures frame_open { (IsErrOf result BeginFrameError.FrameOpen) ↔ (is_open self.old ≡ true) }
        ensures no_more_frames { (IsErrOf result BeginFrameError.NoMoreFrames) ↔ ((is_open self.old
            ≡ false) × (frame_of self.old ≡ u64.MAX)) }
        ensures stays { OnErr result (self.new ≡ self.old) }
        ensures rest { seen self.new ≡ record (seen self.old)
            { frame = frame_of self.new; is_open = is_open self.new } }
    {
        if self.is_open {
            return Err(BeginFrameError::FrameOpen);
        }
        if self.frame == u64::MAX {
            return Err(BeginFrameError::NoMoreFrames);
        }
        self.frame += 1;
        self.is_open = true;
        Ok(self.frame)
    }

    /// Skips frames up to `frame`, so that the next one has a greater number. It is for a program that
    /// counts its frames itself. It does nothing if `frame` isn't after the last frame.
    ///
    /// It fails with `FrameOpen` if a frame is open, and then nothing changes.
    pub fn skip_to(&mut self, frame: u64) -> Result<(), BeginFrameError>
        ensures skips { OnOk result (frame_of self.new ≡ max (frame_of self.old) frame) }
        ensures frame_open { (IsErrOf result BeginFrameError.FrameOpen) ↔ (is_open self.old ≡ true) }
        ensures only { IfErr result (λ error. error ≡ BeginFrameError.FrameOpen) }
        ensures stays { OnErr result (self.new ≡ self.old) }
        ensures rest { seen self.new ≡ record (seen self.old) { frame = frame_of self.new } }
    {
        if self.is_open {
            return Err(BeginFrameError::FrameOpen);
        }
        self.frame = self.frame.max(frame);
        Ok(())
    }

    /// Allocates the set of a layout that was kept last for the open frame, as `allocate_for_frame` does,
    /// without a call of the device. `None`, and then nothing changes, if no frame is open, the layout's
    /// handle is invalid, no set of the layout is kept, or a set waits for a frame later than the open one.
    /// A loop that tries it first, and then `allocate_for_frame`, makes no call for a set that it reuses.
    #[inline(always)]
    pub fn reuse_for_frame(&mut self, layout: LayoutHandle) -> Option<SetHandle>
        ensures reuses { IfSome result (λ handle. IfSome (layout_of self.old layout) (λ known.
            ComeEach known.layout (handle ∷ []) self.old self.new)) }
        ensures takes { IfSome result (λ handle. IfSome (layout_of self.old layout) (λ known.
            Takes known.layout layout.slot.place 1 (Use.InFrame (frame_of self.old)) (handle ∷ [])
            (store_of self.old) (store_of self.new))) }
        ensures needs { IsSome result → (is_open self.old ≡ true)
            × IsSome (layout_of self.old layout) × (0 < kept_of layout self.old) }
        ensures meets { is_open self.old ≡ true → IsSome (layout_of self.old layout)
            → 0 < kept_of layout self.old → ((p : ℕ) → frame_at (slots_of self.old) p
            ≤ frame_of self.old) → IsSome result }
        ensures side { side_of self.new ≡ side_of self.old }
        ensures long { length (slots_of self.new) ≡ length (slots_of self.old) }
        ensures rest { OnlySetsChange self.old self.new }
        ensures none { result ≡ None → seen self.new ≡ seen self.old }
    {
        if !self.is_open {
            return None;
        }
        self.layouts.get(layout)?;
        self.store.reuse(layout.place(), self.frame)
    }

    /// Allocates a set of a layout for the open frame: the set of the layout that was kept last, or else
    /// a new one. Its handle is valid until the frame ends. The set is freed once the device is done
    /// with the frame.
    ///
    /// It fails with `NoFrame` without an open frame, and with `NoLayout` if the layout's handle is
    /// invalid; both change nothing. If the allocator refuses a new set while sets of any layout are
    /// kept, it frees all kept sets and destroys empty pools, as `cleanup` does, and retries once. It
    /// fails without that, and kept sets stay, in two cases: the set alone has more update-after-bind
    /// descriptors than the limit allows, or memory for the table of sets ran out before the allocator
    /// was asked.
    #[inline]
    pub fn allocate_for_frame(&mut self, layout: LayoutHandle) -> Result<SetHandle, RequestError>
        ensures allocates { IfOk result (λ handle. IfSome (layout_of self.old layout) (λ known.
            ComeEach known.layout (handle ∷ []) self.old self.new)) }
        ensures takes { IfOk result (λ handle. IfSome (layout_of self.old layout) (λ known.
            Takes known.layout layout.slot.place 1 (Use.InFrame (frame_of self.old)) (handle ∷ [])
            (store_of self.old) (store_of self.new))) }
        ensures kept { is_open self.old ≡ true → IsSome (layout_of self.old layout)
            → 0 < kept_of layout self.old → IsOk result × (side_of self.new ≡ side_of self.old)
            × (length (slots_of self.new) ≡ length (slots_of self.old)) }
        ensures no_frame { (IsErrOf result RequestError.NoFrame) ↔ (is_open self.old ≡ false) }
        ensures no_layout { (IsErrOf result RequestError.NoLayout) ↔ ((is_open self.old ≡ true)
            × (layout_of self.old layout ≡ None)) }
        ensures refused { (error : AllocationError) → IsErrOf result (RequestError.Allocation error)
            → IfSome (layout_of self.old layout) (λ known. IsRefusedAtLast known.layout 1 1 error
            (store_of self.old) (store_of self.new)) }
        ensures sets { OnlySetsCome result self.old self.new }
        ensures early { ((IsErrOf result RequestError.NoFrame) ⊎ (IsErrOf result
            RequestError.NoLayout)) → seen self.new ≡ seen self.old }
    {
        if !self.is_open {
            return Err(RequestError::NoFrame);
        }
        self.allocate_as(layout, Use::InFrame(self.frame))
    }

    /// Ends the open frame: the handles of its sets are invalid from now on. It can't fail.
    pub fn end_frame(&mut self)
        ensures { seen self.new ≡ record (seen self.old) { is_open = false } }
    {
        self.is_open = false;
    }

    /// The device is done with this frame and those before it, but not with an open one. The sets that
    /// wait for these frames are kept, or return to their pools. Whenever the oldest pools of a returned
    /// set's key have no sets left, they are destroyed, except the key's last pool.
    pub fn frame_done(&mut self, frame: u64)
        ensures back { FreesSets (Turns (is_due (done_of frame self.old))
            (IsFreed (store_of self.old))) (store_of self.old) (store_of self.new) }
        ensures none_due { (p : ℕ) → is_due (done_of frame self.old) (slot_at (slots_of self.new) p)
            ≡ false }
        ensures names { sets_by self.new ≡ sets_by self.old }
        ensures rest { OnlySetsChange self.old self.new }
    {
        let done = self.done(frame);
        self.store.finish(done);
    }

    /// The last frame that the device can be done with: `frame`, or the one before the open frame if that
    /// is earlier.
    #[inline]
    fn done(&self, frame: u64) -> u64
        ensures { result ≡ done_of frame self.now }
    {
        if self.is_open {
            frame.min(self.frame - 1)
        } else {
            frame
        }
    }
}
