//! What a descriptor set allocator and its device share: counts of descriptors, the size of a new
//! pool, and the interface of a device.
#![tactic(auto)]

mod counts;
mod device;
mod errors;
mod flags;
pub mod laws;
mod layouts;
mod pool_size;
mod sink;
mod tally;

pub use counts::DescriptorTotalCount;
pub use device::DescriptorDevice;
pub use errors::{CreatePoolError, DeviceAllocationError};
pub use flags::DescriptorPoolCreateFlags;
pub use layouts::Layouts;
pub use pool_size::{
    bounded_pool_sets, bounded_pool_size, counts_of_sets, cut_pool_sets, cut_pool_size,
    greatest_count, new_pool_sets, new_pool_size, pool_sets_for_greatest,
};
pub use sink::SetSink;
pub use tally::Tally;
