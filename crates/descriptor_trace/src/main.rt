//! Runs the lines of standard input, and writes what the device was asked and what it answered to
//! standard output (rust/line-program/LINES.md). The answers of the lines are dropped.
#![tactic(auto)]

mod text;
mod traced;

use descriptor_lines::{Exit, run_lines_on};
use std::io;
use std::io::{BufWriter, Write};
use std::process::ExitCode;
use traced::Traced;

fn main(rt: HostRuntime) -> ExitCode {
    let Ok(mut output) = BufWriter::new(rt.alloc(), rt.stdout()) else {
        return ExitCode::from(Exit::NoMemory.code());
    };
    let exit = match Traced::new(rt.alloc(), &mut output) {
        Ok(device) => run_lines_on(rt.alloc(), device, &mut rt.stdin(), &mut io::sink()).0,
        Err(_) => Exit::NoMemory,
    };
    if output.flush().is_err() {
        return ExitCode::from(Exit::WriteFault.code());
    }
    ExitCode::from(exit.code())
}
