//! Readers and writers that stop, fail, or give and take a byte a call. No contract sees a reader or a writer fail, so
//! no clause says when a run ends so.

use crate::golden::FILES;
use crate::runs::Golden;
use crate::streams::{empty_writer, expect_run, reader_of};
use descriptor_lines::{Exit, run_lines};
use std::alloc::Global;
use std::io;
use std::io::{ErrorKind, Read};
use std::process::Abort;
use std::test::Fail;

/// Lines and their answers: a pool that refuses, and a set that is freed to it.
const REFUSAL: [(&str, &str); 7] = [
    ("layout s plain sampler=1\n", "layout s total 1\n"),
    ("alloc s 60\n", "sets 0-59: 0*60\n"),
    ("script frag\n", "script 1\n"),
    ("alloc s 10\n", "sets 60-69: 1*10\n"),
    (
        "show\n",
        "pool s 0 60/0\npool s 1 10/54\ndevice created 2 destroyed 0 asked 3 released 0\n\
         held 70 marked 0\n",
    ),
    ("free 0\n", "freed 1\n"),
    (
        "show\n",
        "pool s 0 59/1\npool s 1 10/54\ndevice created 2 destroyed 0 asked 3 released 1\n\
         held 69 marked 0\n",
    ),
];

/// The lines, and the answers of those that end within so many bytes.
fn refusal_within(alloc: Global, bytes: usize) -> Result<(String, String), Fail> {
    let mut lines = String::new(alloc);
    let mut answers = String::new(alloc);
    for (line, answer) in REFUSAL {
        lines.push_str(line)?;
        if lines.len() <= bytes {
            answers.push_str(answer)?;
        }
    }
    Ok((lines, answers))
}

/// The complete lines are answered. What is left is a line too, which may be faulty.
#[test]
fn input_is_cut_anywhere(rt: HostRuntime) -> Result<(), Fail> {
    let (lines, _) = refusal_within(rt.alloc(), 0)?;
    for cut in 0..=lines.len() {
        let (_, answers) = refusal_within(rt.alloc(), cut)?;
        let mut input = reader_of(lines.as_bytes());
        input.until_stop = cut;
        let mut output = empty_writer(rt.alloc());
        let exit = run_lines(rt.alloc(), &mut input, &mut output);
        assert!(rt; matches!(exit, Exit::Done | Exit::BadLine), "at {cut}");
        assert!(rt; output.text.starts_with(answers.as_bytes()), "at {cut}");
    }
    Ok(())
}

/// What is left when the input ends is run, and not when a read fails.
#[test]
fn input_ends_within_a_line(rt: HostRuntime) {
    let bytes = b"layout s plain sampler=1\nalloc s";
    let mut input = reader_of(bytes);
    let mut output = empty_writer(rt.alloc());
    let answers = b"layout s total 1\nline 2: bad word count\n".as_slice();
    let wanted = (answers, Exit::BadLine);
    expect_run(&rt, "the end", &mut input, &mut output, rt.alloc(), wanted);
    let mut input = reader_of(bytes);
    input.until_stop = bytes.len();
    input.failure = Some(ErrorKind::Other);
    let mut output = empty_writer(rt.alloc());
    let wanted = (b"layout s total 1\n".as_slice(), Exit::ReadFault);
    expect_run(
        &rt,
        "a failure",
        &mut input,
        &mut output,
        rt.alloc(),
        wanted,
    );
}

/// Golden tests of requests, a refusal, frees and a cleanup.
const SHORT: [&str; 3] = [
    "memory_is_found_for_a_request_and_its_new_pool-1",
    "pool_that_refuses_counts_as_full-1",
    "memory_is_found_where_places_are_known_and_numbers_begin_again-1",
];

/// The golden tests of these names are answered by so many bytes a read call and a write call.
fn expect_by(rt: &impl Abort, alloc: Global, test: &Golden, read: usize, write: usize) {
    let mut input = reader_of(test.lines);
    input.step = read;
    let mut output = empty_writer(alloc);
    output.step = write;
    let wanted = (test.answers.as_bytes(), test.exit);
    expect_run(rt, test.name, &mut input, &mut output, alloc, wanted);
}

#[test]
fn a_byte_a_call(rt: HostRuntime) {
    let mut found = 0usize;
    for file in FILES {
        for test in file {
            if SHORT.contains(&test.name) {
                found = found.saturating_add(1);
                expect_by(&rt, rt.alloc(), test, 1, usize::MAX);
                expect_by(&rt, rt.alloc(), test, usize::MAX, 1);
            }
        }
    }
    assert_eq!(rt; found, SHORT.len());
}

/// Gives as many bytes `a` as it is asked for, without an end.
#[derive(Drop)]
struct OneLetter;

impl Read for OneLetter {
    fn read(&mut self, buf: &mut [u8]) -> io::Result<usize> {
        buf.fill(b'a');
        Ok(buf.len())
    }
}

/// A comment of so many bytes with the end of its line.
fn comment_of(alloc: Global, length: usize) -> Result<Vec<u8>, Fail> {
    let mut bytes = vec![in alloc; b'#'; length]?;
    bytes.push(b'\n')?;
    Ok(bytes)
}

#[test]
fn lines_are_too_long(rt: HostRuntime) -> Result<(), Fail> {
    let fault = (b"line 1: line too long\n".as_slice(), Exit::BadLine);
    let mut output = empty_writer(rt.alloc());
    let name = "a line without an end";
    expect_run(&rt, name, &mut OneLetter, &mut output, rt.alloc(), fault);
    for (length, wanted) in [(4096, (b"".as_slice(), Exit::Done)), (4097, fault)] {
        let bytes = comment_of(rt.alloc(), length)?;
        let mut input = reader_of(&bytes);
        let mut output = empty_writer(rt.alloc());
        expect_run(
            &rt,
            "a comment",
            &mut input,
            &mut output,
            rt.alloc(),
            wanted,
        );
    }
    Ok(())
}

/// The first call fails, or one within the words of a fault.
#[test]
fn writes_fail(rt: HostRuntime) {
    for (lines, taken) in [
        (b"layout s plain\n".as_slice(), b"".as_slice()),
        (b"alloc x 1".as_slice(), b"line 1: no".as_slice()),
    ] {
        let mut input = reader_of(lines);
        let mut output = empty_writer(rt.alloc());
        output.until_stop = taken.len();
        output.failure = Some(ErrorKind::Other);
        let wanted = (taken, Exit::WriteFault);
        expect_run(&rt, "a write", &mut input, &mut output, rt.alloc(), wanted);
    }
}
