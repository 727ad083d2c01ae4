//! The values that callers of the allocator and of the device interface see.
mod counts;
mod flags;
mod sets;
