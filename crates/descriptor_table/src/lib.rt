//! The table of a set manager's descriptor sets. Each set has a slot, and stays there while it is
//! reused.
#![tactic(auto)]

mod group;
mod handle;
mod handle_table;
pub mod laws;
mod lists;
mod set_table;
mod slot;
mod slot_list;
mod users;

pub use group::Group;
pub use handle::{SetHandle, SetName, place_of};
pub use handle_table::HandleTable;
pub use set_table::SetTable;
pub use slot::Use;
