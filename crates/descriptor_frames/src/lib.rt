//! A frame manager: descriptor sets that are freed when a frame is done.
//!
//! A set that the device's work may still read is retired with the frame of that work. When the frame is
//! finished, the sets that were retired at it or before are freed.
#![tactic(auto)]

mod due;
mod errors;
mod manager;
mod retired;

pub use errors::RetireError;
pub use manager::FrameManager;
