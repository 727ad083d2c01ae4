//! Devices and callers of the allocator and of the set manager, proved: what a user of them may write.
#![tactic(auto)]

pub mod batches;
pub mod drawing;
pub mod few_pools;
pub mod game;
pub mod one_frame;
pub mod one_layout;
pub mod own_device;
pub mod owned_allocator;
pub mod proper_use;
pub mod two_layouts;
