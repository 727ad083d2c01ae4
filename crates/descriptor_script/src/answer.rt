//! The words of a script.
ghost use Rattle.std.specs.Prelude.{◌≡◌};
ghost use Rattle.descriptor_script.specs.Scripted.Script.{alloc_error as alloc_error_of};
ghost use Rattle.descriptor_script.specs.Scripted.Script.{create_error as create_error_of};

use gpu_descriptor_types::{CreatePoolError, DeviceAllocationError};

/// What a device answers to a call that creates a pool or allocates sets.
#[derive(Clone, Copy, Debug, PartialEq, Eq)]
pub enum Answer {
    /// The call is granted, where names and memory are there.
    Ok,

    /// The device has no memory of its own left.
    Device,

    /// The host has no memory left.
    Host,

    /// The memory is too fragmented: of the device at a create, of the pool at an alloc.
    Frag,

    /// The pool can't give the sets. At a create this is read as `Frag`.
    Pool,
}

impl Answer {
    /// The error of a create that isn't granted at this word. At `Ok` names or memory have run out.
    pub(crate) fn create_error(self) -> CreatePoolError
        ensures { result ≡ create_error_of self }
    {
        match self {
            Answer::Device => CreatePoolError::OutOfDeviceMemory,
            Answer::Ok | Answer::Host => CreatePoolError::OutOfHostMemory,
            Answer::Frag | Answer::Pool => CreatePoolError::Fragmentation,
        }
    }

    /// The error of an alloc that isn't granted at this word. At `Ok` names or memory have run out.
    pub(crate) fn alloc_error(self) -> DeviceAllocationError
        ensures { result ≡ alloc_error_of self }
    {
        match self {
            Answer::Device => DeviceAllocationError::OutOfDeviceMemory,
            Answer::Ok | Answer::Host => DeviceAllocationError::OutOfHostMemory,
            Answer::Frag => DeviceAllocationError::FragmentedPool,
            Answer::Pool => DeviceAllocationError::OutOfPoolMemory,
        }
    }
}
