//! Whole runs of the line program over memory: the golden tests. What is written is proved, but not that a request
//! succeeds where memory and places are there.
use crate::golden::FILES;
use crate::streams::{empty_writer, expect_run, reader_of};
use descriptor_lines::Exit;
use std::alloc::Global;
use std::process::Abort;

/// A golden test: its lines, all that the program answers, and how the run ends.
pub struct Golden {
    pub name: &'static str,
    pub lines: &'static [u8],
    pub answers: &'static str,
    pub exit: Exit,
}

fn expect_answers(rt: &impl Abort, alloc: Global, test: &Golden) {
    let mut input = reader_of(test.lines);
    let mut output = empty_writer(alloc);
    let wanted = (test.answers.as_bytes(), test.exit);
    expect_run(rt, test.name, &mut input, &mut output, alloc, wanted);
}

#[test]
fn golden_tests_are_answered(rt: HostRuntime) {
    for file in FILES {
        for test in file {
            expect_answers(&rt, rt.alloc(), test);
        }
    }
}
