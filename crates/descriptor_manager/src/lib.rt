//! A set manager: descriptor sets over a device that it owns. Sets of a frame are freed once the device
//! is done with the frame; other sets live until they are freed. A freed set is kept and reused for its
//! layout.
#![tactic(auto)]

mod errors;
mod layout_registry;
mod manager;
mod returning;
mod store;

pub use descriptor_table::{SetHandle, SetName};
pub use errors::{BeginFrameError, FreeError, RequestError};
pub use layout_registry::LayoutHandle;
pub use manager::{Counts, SetManager};
