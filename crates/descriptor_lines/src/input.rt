//! Lines out of a reader.
ghost use Rattle.std.specs.Prelude.{◌≡◌, ◌+◌, ◌-◌, ◌<◌, ◌≤◌, ℕ, List, [], Some, IfOk, IfSome, IfErr, IfNone};
ghost use Rattle.std.specs.Prelude.{OnErr, OnOk, Err, IsFalse, length, vec_len, slice_range};
ghost use Rattle.std.specs.Io.BufRead.{strip_last};
ghost use Rattle.std.specs.List.{position_or_len};
ghost use Rattle.std.specs.Io.KnownBytes.{IsAtEnd, Keeps};
ghost use Rattle.descriptor_lines.specs.Words.{is_byte};
ghost use Rattle.descriptor_lines.specs.Lines.{HasEnd, HasNoEnd};
ghost use Rattle.descriptor_lines.specs.Lines.{before_end, after_end, buffer_len, longest_line};

use crate::words::first_of;
use std::alloc::{AllocError, Global};
use std::io::Read;
use std::vec::{self, Vec};

/// The greatest length of a line, in bytes without its end.
pub const MAX_LINE_LEN: usize = 4096;

/// The max number of read calls in a run.
pub const MAX_READS: u32 = 100_000_000;

/// The max number of bytes that a read call asks for.
const BUFFER_LEN: usize = 65536;

/// Why there is no next line, where the input is not at its end.
#[derive(Clone, Copy, Debug, PartialEq, Eq)]
pub enum InputFault {
    /// The line has too many bytes. The rest of it was not read.
    LineTooLong,
    /// A read failed, or there were too many.
    Read,
}

/// The place of a line among the bytes that were read.
#[derive(Clone, Copy, Debug)]
pub struct Span {
    start: usize,
    end: usize,
    ghost ordered: { start ≤ end },
    ghost within: { end ≤ buffer_len },
}

/// Bytes that were read and are in no line yet.
#[derive(Drop)]
pub struct LineBuffer {
    bytes: Vec<u8>,
    start: usize,
    /// Up to here no line ends.
    searched: usize,
    end: usize,
    is_at_end: bool,
    reads_left: u32,
    ghost whole: { vec_len bytes ≡ buffer_len },
    ghost from_start: { start ≤ searched },
    ghost to_end: { searched ≤ end },
    ghost within: { end ≤ buffer_len },
    ghost unended: { HasNoEnd (slice_range bytes.items start searched) },
}

impl LineBuffer {
    ghost use Rattle.descriptor_lines.specs.LineBuffers.{SeesEndOf, TakesLine, buffered, unread};

    /// A buffer for a reader that may be called `reads` times.
    pub fn new(alloc: Global, reads: u32) -> Result<Self, AllocError>
        ensures empty { IfOk result (λ buffer. buffer.start ≡ buffer.end) }
        ensures open { IfOk result (λ buffer. IsFalse buffer.is_at_end) }
        ensures reads { IfOk result (λ buffer. buffer.reads_left ≡ reads) }
    {
        Ok(LineBuffer {
            bytes: vec![in alloc; 0; BUFFER_LEN]?,
            start: 0,
            searched: 0,
            end: 0,
            is_at_end: false,
            reads_left: reads,
        })
    }

    /// The place of the next line, or `None` at the end of the input.
    ///
    /// After an error the lines that were complete have been given, and the next one is not.
    pub fn next_line<R: Read>(&mut self, input: &mut R) -> Result<Option<Span>, InputFault>
        ensures short { IfOk result (λ span. IfSome span (λ span.
            span.end - span.start ≤ longest_line)) }

        // Where the bytes are known that are in no line yet.
        ensures known { IfOk result (λ span. (bytes : List ℕ) → unread self.old
            (R.remaining input.old) ≡ Some bytes → TakesLine bytes span self.new (unread self.new
            (R.remaining input.new))) }
        ensures kept { OnErr result (Keeps (unread self.old (R.remaining input.old))
            (unread self.new (R.remaining input.new))) }
        ensures too_long { result ≡ Err InputFault.LineTooLong → (bytes : List ℕ)
            → unread self.old (R.remaining input.old) ≡ Some bytes
            → longest_line < length (before_end bytes) }

        ensures end { IfOk result (λ span. IfNone span (SeesEndOf self.old (R.remaining input.old)
            → IsAtEnd (R.remaining input.new))) }
        ensures sees { SeesEndOf self.old (R.remaining input.old)
            → SeesEndOf self.new (R.remaining input.new) }
    {
        loop {
            if let Some(span) = self.take_line()? {
                return Ok(Some(span));
            }
            if self.is_at_end {
                return Ok(self.take_rest());
            }
            self.read_more(input)?;
        }
    }

    /// The line at this place, without the carriage return that it may end in.
    pub fn line(&self, span: Span) -> &[u8]
        // Two calls, so that no byte is copied: a method that lends a part of what it changes can't say
        // what it left.
        ensures bytes { result.now ≡ strip_last 13 (slice_range self.now.bytes.items span.start
            span.end) }
        ensures short { length result.now ≤ span.end - span.start }
    {
        let line = &self.bytes[span.start..span.end];
        line.strip_suffix(b"\r").unwrap_or(line)
    }

    /// The line that ends among the bytes.
    fn take_line(&mut self) -> Result<Option<Span>, InputFault>
        ensures short { IfOk result (λ span. IfSome span (λ span.
            span.end - span.start ≤ longest_line)) }
        ensures found { IfOk result (λ span. IfSome span (λ _. HasEnd (buffered self.old))) }
        ensures line { IfOk result (λ span. IfSome span (λ span.
            slice_range self.new.bytes.items span.start span.end
            ≡ before_end (buffered self.old))) }
        ensures rest { IfOk result (λ span. IfSome span (λ _. buffered self.new
            ≡ after_end (buffered self.old))) }
        ensures none { IfOk result (λ span. IfNone span (HasNoEnd (buffered self.old))) }
        ensures kept { IfOk result (λ span. IfNone span (buffered self.new ≡ buffered self.old)) }
        ensures few { IfOk result (λ span. IfNone span
            (self.new.end - self.new.start ≤ longest_line)) }
        ensures fault { IfErr result (λ fault. fault ≡ InputFault.LineTooLong) }
        ensures too_long { OnErr result (longest_line < length (before_end (buffered self.old))) }
        ensures kept_whole { OnErr result (buffered self.new ≡ buffered self.old) }
        ensures reads { self.new.reads_left ≡ self.old.reads_left }
        ensures end { self.new.is_at_end ≡ self.old.is_at_end }
    {
        let start = self.start;
        let end = start + self.line_len();
        if MAX_LINE_LEN < end - start {
            return Err(InputFault::LineTooLong);
        }
        if end == self.end {
            self.searched = end;
            return Ok(None);
        }
        self.start = end + 1;
        self.searched = end + 1;
        Ok(Some(Span { start, end }))
    }

    /// How many bytes there are before the first end of a line, or in all.
    fn line_len(&self) -> usize
        ensures len { result ≡ position_or_len (is_byte 10) (buffered self.now) }
        ensures within { result ≤ self.now.end - self.now.start }
    {
        let rest = &self.bytes[self.searched..self.end];
        self.searched - self.start + first_of(rest, b'\n').unwrap_or(rest.len())
    }

    /// The bytes, in which no line ends, as a last line, where there are some.
    fn take_rest(&mut self) -> Option<Span>
        requires { HasNoEnd (buffered self.old) }
        ensures whole { IfSome result (λ span. span.end - span.start
            ≡ self.old.end - self.old.start) }
        ensures some { IfSome result (λ _. 0 < length (buffered self.old)) }
        ensures line { IfSome result (λ span. slice_range self.new.bytes.items span.start span.end
            ≡ buffered self.old) }
        ensures none { IfNone result (buffered self.old ≡ []) }
        ensures empty { buffered self.new ≡ [] }
        ensures end { self.new.is_at_end ≡ self.old.is_at_end }
    {
        let span = Span {
            start: self.start,
            end: self.end,
        };
        self.start = self.end;
        self.searched = self.end;
        (span.start < span.end).then_some(span)
    }

    /// Reads once after the bytes, of which there are at most as many as a line may have.
    fn read_more<R: Read>(&mut self, input: &mut R) -> Result<(), InputFault>
        requires few { self.old.end - self.old.start ≤ longest_line }
        requires open { IsFalse self.old.is_at_end }
        ensures counted { OnOk result (self.new.reads_left + 1 ≡ self.old.reads_left) }
        ensures fault { IfErr result (λ fault. fault ≡ InputFault.Read) }
        ensures kept { Keeps (unread self.old (R.remaining input.old))
            (unread self.new (R.remaining input.new)) }
        ensures sees { SeesEndOf self.new (R.remaining input.new) }
    {
        self.reads_left = self.reads_left.checked_sub(1).ok_or(InputFault::Read)?;
        self.move_to_front();
        let Ok(count) = input.read(&mut self.bytes[self.end..]) else {
            return Err(InputFault::Read);
        };
        self.is_at_end = count == 0;
        self.end += count;
        Ok(())
    }

    /// Moves the bytes to the front of the buffer, so that more bytes fit after them.
    fn move_to_front(&mut self)
        requires { self.old.end - self.old.start ≤ longest_line }
        ensures fits { self.new.end ≤ longest_line }
        ensures bytes { buffered self.new ≡ buffered self.old }
        ensures reads { self.new.reads_left ≡ self.old.reads_left }
        ensures end { self.new.is_at_end ≡ self.old.is_at_end }
    {
        let start = self.start;
        if start == 0 {
            return;
        }
        self.bytes.copy_within(start..self.end, 0);
        self.end -= start;
        self.searched -= start;
        self.start = 0;
    }
}
