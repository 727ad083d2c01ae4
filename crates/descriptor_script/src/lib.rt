//! Sessions, which hold sets by ticket and run commands on any device; the headline, which says of
//! such runs what the allocator promises; and a device that answers by a script, for tests and for
//! programs without a graphics card.
#![tactic(auto)]

mod answer;
mod command;
mod counter;
mod counters;
mod device;
pub mod headline;
mod live;
mod marks;
mod pools;
mod raw;
mod refusal;
mod script;
mod session;
mod slots;
mod taking;
pub mod visit;

pub use answer::Answer;
pub use command::{Command, Reply};
pub use device::ScriptedDevice;
pub use raw::{RawPool, RawSet, ScriptLayout};
pub use refusal::refuse_at;
pub use session::Session;
