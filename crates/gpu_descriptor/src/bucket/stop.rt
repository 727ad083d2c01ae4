//! Why a request stops at the pools of its key, and which error it then returns.
ghost use Rattle.std.specs.Prelude.{◌≡◌, if◌then◌else◌};
ghost use Rattle.gpu_descriptor_types.specs.Ledger.{pool_refusals};
ghost use Rattle.gpu_descriptor.specs.Model.Outcomes.{error_of_alloc, stop_error};

use crate::errors::AllocationError;
use gpu_descriptor_types::{CreatePoolError, DeviceAllocationError};

/// Why a request stops at the pools of its key.
#[derive(Clone, Copy)]
pub(crate) enum Stop {
    /// An existing pool returned that memory has run out.
    ExistingPoolWithoutMemory(DeviceAllocationError),

    /// The limit leaves no room for a new pool.
    NoRoomUnderLimit,

    /// An allocation failed, for the books of a new pool.
    NoMemoryForPool,

    /// The device created no new pool.
    PoolNotCreated(CreatePoolError),

    /// The new pool refused, and was destroyed.
    NewPoolRefused(DeviceAllocationError),
}

/// The error of a request that stopped for this reason.
pub(crate) fn error_of(stop: Stop) -> AllocationError
    ensures { result ≡ stop_error stop }
{
    match stop {
        Stop::ExistingPoolWithoutMemory(error) => error_of_pool(error),
        Stop::NoRoomUnderLimit => AllocationError::Fragmentation,
        Stop::NoMemoryForPool => AllocationError::OutOfHostMemory,
        Stop::PoolNotCreated(error) => AllocationError::from(error),
        Stop::NewPoolRefused(error) => error_of_pool(error),
    }
}

/// A pool that refuses as fragmented or full counts as fragmentation.
fn error_of_pool(error: DeviceAllocationError) -> AllocationError
    ensures { result ≡ error_of_alloc error }
{
    match error {
        DeviceAllocationError::OutOfDeviceMemory => AllocationError::OutOfDeviceMemory,
        DeviceAllocationError::OutOfHostMemory => AllocationError::OutOfHostMemory,
        DeviceAllocationError::FragmentedPool | DeviceAllocationError::OutOfPoolMemory => {
            AllocationError::Fragmentation
        }
    }
}

/// Whether a refusal concerns only the pool, and not memory.
pub(crate) fn is_of_pool(error: DeviceAllocationError) -> bool
    ensures { pool_refusals error ≡ (if result then 1 else 0) }
{
    match error {
        DeviceAllocationError::FragmentedPool | DeviceAllocationError::OutOfPoolMemory => true,
        DeviceAllocationError::OutOfDeviceMemory | DeviceAllocationError::OutOfHostMemory => false,
    }
}
