//! A descriptor set allocator for Vulkan-like APIs. It allocates sets by layout from pools of a device,
//! and frees each to its own pool.
#![tactic(auto)]

mod allocator;
mod bucket;
mod budget;
mod compact;
mod errors;
mod flags;
mod key;
mod key_table;
pub mod laws;
mod layout;
mod places;
mod set;
mod set_key;
mod view;

pub use allocator::DescriptorAllocator;
pub use compact::CompactDescriptorSet;
pub use errors::AllocationError;
pub use flags::DescriptorSetLayoutCreateFlags;
pub use gpu_descriptor_types::{
    CreatePoolError, DescriptorDevice, DescriptorPoolCreateFlags, DescriptorTotalCount,
    DeviceAllocationError, Layouts, SetSink, Tally, bounded_pool_size, cut_pool_size,
    new_pool_size,
};
pub use layout::SetLayout;
pub use set::DescriptorSet;
pub use view::PoolView;
