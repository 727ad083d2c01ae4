//! The lines of the program: it reads commands on layouts, sets and pools from any reader, and
//! writes an answer for each to any writer.
#![tactic(auto)]

mod answer;
mod command;
mod device;
mod exit;
mod input;
mod layouts;
mod program;
mod words;

pub use answer::kinds_answer;
pub use device::{LineDevice, ScriptedMeaning};
pub use exit::Exit;
pub use program::{run_lines, run_lines_on, write_bytes};
