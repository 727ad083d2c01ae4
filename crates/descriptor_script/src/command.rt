//! What a session is asked, and what it replies.
use gpu_descriptor::AllocationError;
use std::vec::Vec;

/// What a session is asked to do.
#[derive(Debug, PartialEq, Eq, Drop)]
pub enum Command {
    /// Allocates `count` sets of the layout at this place.
    Allocate { layout: usize, count: u32 },

    /// Frees the sets of these tickets.
    Free { tickets: Vec<usize> },

    /// Destroys the empty pools at the front of each key, as `DescriptorAllocator::cleanup` does.
    Cleanup,
}

/// What a session did.
#[derive(Clone, Copy, Debug, PartialEq, Eq)]
pub enum Reply {
    /// Sets were allocated, under `count` tickets from `first` up.
    Sets { first: usize, count: u32 },

    /// The allocator refused.
    Refused(AllocationError),

    /// This many sets were freed.
    Freed(usize),

    /// A ticket was never given, or is freed, or is in the list twice. Nothing changed.
    BadTicket,

    /// There is no layout at this place. Nothing changed.
    BadLayout,

    /// There is no memory for the tickets. Nothing changed.
    NoMemory,

    /// The empty pools at the front of each key are gone.
    Clean,
}
