//! The public interface, item by item (`interface`); a device that lists its calls; and tests that rt ci alone runs, with
//! ample memory: callers of all crates, the golden tests, and each refusal of a device. No clause says that they
//! succeed. Tests have a crate of their own, since CI proves a crate with tests twice. Most of what the packages for
//! Rust have too is tested there.
#![tactic(auto)]

#[cfg(test)]
mod bench;
#[cfg(test)]
mod callers;
#[cfg(test)]
mod frames;
#[cfg(test)]
mod frees;
#[cfg(test)]
mod golden;
#[cfg(test)]
mod hostile;
mod interface;
mod log;
mod log_device;
#[cfg(test)]
mod manager;
#[cfg(test)]
mod pair;
#[cfg(test)]
mod refusals;
#[cfg(test)]
mod refused_first;
#[cfg(test)]
mod runs;
#[cfg(test)]
mod seen;
#[cfg(test)]
mod sets;
#[cfg(test)]
mod streams;
#[cfg(test)]
mod values;
#[cfg(test)]
mod visits;

pub use log::Call;
pub use log_device::LogDevice;
