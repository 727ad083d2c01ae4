//! Why a request is refused.
ghost use Rattle.std.specs.Prelude.{◌≡◌, Some};
ghost use Rattle.gpu_descriptor.specs.Model.Outcomes.{error_of_create};
ghost use Rattle.gpu_descriptor.specs.Caller.Errors.{error_text};

use gpu_descriptor_types::CreatePoolError;
use std::error::Error;
use std::fmt;

/// Why sets were not allocated.
#[derive(Clone, Copy, Debug, PartialEq, Eq)]
pub enum AllocationError {
    /// The device has run out of its own memory. A later request may succeed once memory on the device
    /// is freed.
    OutOfDeviceMemory,

    /// The host has run out of memory: the device returned this, or an allocation failed. A later
    /// request may succeed once memory is freed. Or no id is left for a new key: then every later
    /// request for a new key fails.
    OutOfHostMemory,

    /// The sets, or a new pool for them, would exceed the limit on update-after-bind descriptors, or a
    /// number would exceed 64 bits; or the device's memory is too fragmented for a new pool, or a new
    /// pool refused as fragmented or full.
    Fragmentation,
}

impl fmt::Display for AllocationError {
    ghost output = { λ error. Some (error_text error) };

    ghost styled_output = { λ error _. Some (error_text error) };

    fn fmt<W: fmt::Write>(&self, f: &mut fmt::Formatter<W>) -> fmt::Result {
        match self {
            AllocationError::OutOfDeviceMemory => f.write_str("Device memory exhausted"),
            AllocationError::OutOfHostMemory => f.write_str("Host memory exhausted"),
            AllocationError::Fragmentation => f.write_str("Fragmentation"),
        }
    }
}

impl Error for AllocationError {}

impl From<CreatePoolError> for AllocationError {
    ghost from_gives = { λ error result. result ≡ error_of_create error };

    fn from(error: CreatePoolError) -> AllocationError {
        match error {
            CreatePoolError::OutOfDeviceMemory => AllocationError::OutOfDeviceMemory,
            CreatePoolError::OutOfHostMemory => AllocationError::OutOfHostMemory,
            CreatePoolError::Fragmentation => AllocationError::Fragmentation,
        }
    }
}
