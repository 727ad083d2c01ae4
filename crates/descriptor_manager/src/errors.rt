//! Why a call of a set manager fails.
ghost use Rattle.std.specs.Prelude.{Some};
ghost use Rattle.descriptor_manager.specs.Errors.{begin_frame_text, free_text, request_text};

use gpu_descriptor::AllocationError;
use std::error::Error;
use std::fmt;

/// Why no frame was opened or skipped.
#[derive(Clone, Copy, Debug, PartialEq, Eq)]
pub enum BeginFrameError {
    /// A frame is open already.
    FrameOpen,

    /// The last frame has the number `u64::MAX`.
    NoMoreFrames,
}

impl fmt::Display for BeginFrameError {
    ghost output = { λ error. Some (begin_frame_text error) };

    ghost styled_output = { λ error _. Some (begin_frame_text error) };

    fn fmt<W: fmt::Write>(&self, f: &mut fmt::Formatter<W>) -> fmt::Result {
        match self {
            BeginFrameError::FrameOpen => f.write_str("Frame already open"),
            BeginFrameError::NoMoreFrames => f.write_str("Frame numbers exhausted"),
        }
    }
}

impl Error for BeginFrameError {}

/// Why no set was allocated, or no layout was removed.
#[derive(Clone, Copy, Debug, PartialEq, Eq)]
pub enum RequestError {
    /// No frame is open.
    NoFrame,

    /// The handle is of no layout of the set manager.
    NoLayout,

    /// The allocator refused, or the set manager ran out of memory for its lists or for the handles
    /// (`OutOfHostMemory`).
    Allocation(AllocationError),
}

impl fmt::Display for RequestError {
    ghost output = { λ error. Some (request_text error) };

    ghost styled_output = { λ error _. Some (request_text error) };

    fn fmt<W: fmt::Write>(&self, f: &mut fmt::Formatter<W>) -> fmt::Result {
        match self {
            RequestError::NoFrame => f.write_str("No open frame"),
            RequestError::NoLayout => f.write_str("Unknown layout"),
            RequestError::Allocation(error) => error.fmt(f),
        }
    }
}

impl Error for RequestError {}

/// Why no set was freed.
#[derive(Clone, Copy, Debug, PartialEq, Eq)]
pub enum FreeError {
    /// A handle isn't that of a set that the set manager holds, or is given twice.
    NoSet,

    /// The frame of the last use has not been opened.
    FrameAhead,
}

impl fmt::Display for FreeError {
    ghost output = { λ error. Some (free_text error) };

    ghost styled_output = { λ error _. Some (free_text error) };

    fn fmt<W: fmt::Write>(&self, f: &mut fmt::Formatter<W>) -> fmt::Result {
        match self {
            FreeError::NoSet => f.write_str("Unknown set"),
            FreeError::FrameAhead => f.write_str("Frame not opened yet"),
        }
    }
}

impl Error for FreeError {}
