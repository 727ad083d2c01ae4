//! Runs the lines of standard input, and writes their answers to standard output. It is `main` alone,
//! since no crate can depend on a program: tests call `run_lines`.
#![tactic(auto)]

use descriptor_lines::run_lines;
use std::process::ExitCode;

fn main(rt: HostRuntime) -> ExitCode {
    ExitCode::from(run_lines(rt.alloc(), &mut rt.stdin(), &mut rt.stdout()).code())
}
