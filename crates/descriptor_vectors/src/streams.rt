//! Readers and writers over memory that give and take so much as a test says, and a run of the line program between them.
ghost use Rattle.std.specs.Prelude.{◌≡◌, IfOk};

use descriptor_lines::{Exit, run_lines};
use std::alloc::Global;
use std::io;
use std::io::{ErrorKind, Read, Write};
use std::process::Abort;

/// Gives its bytes, at most `step` a call. After `until_stop` of them one call fails as `failure`
/// says, or gives nothing. Then it goes on.
#[derive(Drop)]
pub struct Source<'a> {
    pub rest: &'a [u8],
    pub step: usize,
    pub until_stop: usize,
    pub failure: Option<ErrorKind>,
}

impl Read for Source<'_> {
    fn read(&mut self, buf: &mut [u8]) -> io::Result<usize> {
        if self.until_stop == 0 {
            self.until_stop = usize::MAX;
            return stop(self.failure);
        }
        let max = self.step.min(self.until_stop);
        let count = self.rest.len().min(max).min(buf.len());
        let (given, rest) = self.rest.split_at(count);
        buf[..count].copy_from_slice(given);
        self.rest = rest;
        self.until_stop -= count;
        Ok(count)
    }
}

/// Takes at most `step` bytes a call. After `until_stop` of them one call fails as `failure` says,
/// or takes nothing. Then it goes on.
#[derive(Drop)]
pub struct Sink {
    pub text: Vec<u8>,
    pub step: usize,
    pub until_stop: usize,
    pub failure: Option<ErrorKind>,
}

impl Write for Sink {
    fn write(&mut self, buf: &[u8]) -> io::Result<usize> {
        if self.until_stop == 0 {
            self.until_stop = usize::MAX;
            return stop(self.failure);
        }
        let count = buf.len().min(self.step).min(self.until_stop);
        self.text.extend_from_slice(&buf[..count])?;
        self.until_stop -= count;
        Ok(count)
    }

    fn flush(&mut self) -> io::Result<()> {
        Ok(())
    }
}

/// The answer of a call that moves no byte.
fn stop(failure: Option<ErrorKind>) -> io::Result<usize>
    ensures { IfOk result (λ count. count ≡ 0) }
{
    match failure {
        Some(kind) => Err(io::Error::from(kind)),
        None => Ok(0),
    }
}

pub fn reader_of(input: &[u8]) -> Source<'_> {
    Source {
        rest: input,
        step: usize::MAX,
        until_stop: usize::MAX,
        failure: None,
    }
}

pub fn empty_writer(alloc: Global) -> Sink {
    Sink {
        text: Vec::new(alloc),
        step: usize::MAX,
        until_stop: usize::MAX,
        failure: None,
    }
}

/// Runs the input, and compares all of the output and how the run ends.
pub fn expect_run(
    rt: &impl Abort,
    name: &str,
    input: &mut impl Read,
    output: &mut Sink,
    alloc: Global,
    wanted: (&[u8], Exit),
) {
    let exit = run_lines(alloc, input, output);
    assert_eq!(rt; (output.text.as_slice(), exit), wanted, "{name}");
}
