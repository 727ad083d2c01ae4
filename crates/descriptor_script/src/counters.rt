//! How often a device did each thing.
ghost use Rattle.std.specs.Prelude.{◌≡◌};
ghost use Rattle.gpu_descriptor_types.specs.Ledger.{alloc_refused, create_refused, no_rise};
ghost use Rattle.descriptor_script.specs.Inner.Counters.{counters_of};

use crate::counter::Counter;
use gpu_descriptor_types::{CreatePoolError, DeviceAllocationError};

/// The counters of a ledger.
#[derive(Debug, Drop)]
pub struct Counters {
    pub created: Counter,
    pub destroyed: Counter,
    pub asked: Counter,
    pub released: Counter,
    pub device_memory: Counter,
    pub host_memory: Counter,
    pub fragmentation: Counter,
    pub pool_refused: Counter,
}

impl Counters {
    pub fn zero() -> Self
        ensures { counters_of result ≡ no_rise }
    {
        Counters {
            created: Counter::zero(),
            destroyed: Counter::zero(),
            asked: Counter::zero(),
            released: Counter::zero(),
            device_memory: Counter::zero(),
            host_memory: Counter::zero(),
            fragmentation: Counter::zero(),
            pool_refused: Counter::zero(),
        }
    }

    /// Counts a create that was refused.
    pub fn refuse_create(&mut self, error: CreatePoolError)
        ensures { counters_of self.new ≡ create_refused error (counters_of self.old) }
    {
        match error {
            CreatePoolError::OutOfDeviceMemory => self.device_memory.rise(),
            CreatePoolError::OutOfHostMemory => self.host_memory.rise(),
            CreatePoolError::Fragmentation => self.fragmentation.rise(),
        }
    }

    /// Counts an alloc that was refused.
    pub fn refuse_alloc(&mut self, error: DeviceAllocationError)
        ensures { counters_of self.new ≡ alloc_refused error (counters_of self.old) }
    {
        self.asked.rise();
        match error {
            DeviceAllocationError::OutOfDeviceMemory => self.device_memory.rise(),
            DeviceAllocationError::OutOfHostMemory => self.host_memory.rise(),
            DeviceAllocationError::FragmentedPool => self.pool_refused.rise(),
            DeviceAllocationError::OutOfPoolMemory => self.pool_refused.rise(),
        }
    }
}
