//! The answers of the commands that a session runs.
ghost use Rattle.std.specs.Prelude.{◌≡◌, ◌+◌, ◌<◌, ◌≤◌, ◌*◌, ◌^◌, ◌++◌, length};
ghost use Rattle.std.specs.Prelude.{string_bytes, string_capacity};
ghost use Rattle.gpu_descriptor.specs.Caller.Errors.{error_text};
ghost use Rattle.descriptor_script.specs.Sessions.Session.{value_of};
ghost use Rattle.descriptor_lines.specs.Answers.{HasReserveFor};
ghost use Rattle.descriptor_lines.specs.Replies.{TicketsFit, pool_at};
ghost use Rattle.descriptor_lines.specs.ReplyTexts.{max_bytes, sets_asked, sets_given};
ghost use Rattle.descriptor_lines.specs.ReplyTexts.{text_of_reply};
ghost use Rattle.descriptor_lines.specs.ReplyTexts.{pools_from, range_text, sets_text};
ghost use Rattle.descriptor_lines.specs.ReplyTexts.{stretch_text, stretches_text};

use super::NO_MEMORY;
use super::reserved::{put, put_number};
use crate::program::LineSession;
use descriptor_script::{Command, Reply};
use gpu_descriptor::AllocationError;
use std::string::String;

/// The max of the bytes of an answer without its runs: two tickets of up to 20 digits, and the words
/// around them.
const SHORT_LEN: usize = 64;

/// The max of the bytes of a run for each of its sets: the name of a pool of up to 20 digits, the
/// length, a blank and `*`.
const STRETCH_LEN: usize = 23;

/// Neighbours with the same device pool, and how many they are.
#[derive(Clone, Copy, Debug)]
struct Stretch {
    pool: u64,
    length: u64,
}

/// How many bytes the answer of a command may have.
pub fn reserve_for(command: &Command) -> usize
    ensures { result ≡ max_bytes (sets_asked command.now) }
{
    match command {
        Command::Allocate { layout: _, count } => SHORT_LEN + STRETCH_LEN * *count as usize,
        Command::Free { tickets: _ } | Command::Cleanup => SHORT_LEN,
    }
}

/// Puts what the session replied after the answer.
pub fn reply_answer(answer: &mut String, session: &LineSession, reply: &Reply)
    requires fits { TicketsFit reply.now }
    requires reserve { HasReserveFor (max_bytes (sets_given reply.now)) answer.old }
    ensures text { string_bytes answer.new ≡ string_bytes answer.old
        ++ text_of_reply (value_of session.now).sets reply.now }
    ensures enough { length (text_of_reply (value_of session.now).sets reply.now)
        ≤ max_bytes (sets_given reply.now) }
{
    match reply {
        Reply::Sets { first, count } => sets_answer(answer, session, *first, *count),
        Reply::Refused(error) => {
            put(answer, "refused: ");
            put(answer, text_of_error(error));
            put(answer, "\n");
        }
        Reply::Freed(count) => {
            put_number(answer, "freed ", *count as u64);
            put(answer, "\n");
        }
        Reply::BadTicket => put(answer, "bad ticket\n"),
        Reply::Clean => put(answer, "clean\n"),
        Reply::NoMemory => put(answer, NO_MEMORY),
        Reply::BadLayout => {}
    }
}

/// What the output says of the error.
fn text_of_error(error: &AllocationError) -> &'static str
    ensures { result.now ≡ error_text error.now }
{
    match error {
        AllocationError::OutOfDeviceMemory => "Device memory exhausted",
        AllocationError::OutOfHostMemory => "Host memory exhausted",
        AllocationError::Fragmentation => "Fragmentation",
    }
}

/// The tickets of allocated sets, and their device pools, run by run.
fn sets_answer(answer: &mut String, session: &LineSession, first: usize, count: u32)
    requires fits { first + count < 2 ^ 64 }
    requires reserve { HasReserveFor (max_bytes count) answer.old }
    ensures text { string_bytes answer.new ≡ string_bytes answer.old
        ++ sets_text (value_of session.now).sets first count }
    ensures enough { length (sets_text (value_of session.now).sets first count) ≤ max_bytes count }
{
    if count == 0 {
        put(answer, "sets none\n");
        return;
    }
    range_answer(answer, first, first + count as usize - 1);
    stretches_answer(answer, session, first, count);
    put(answer, "\n");
}

/// The tickets from the first to the last.
fn range_answer(answer: &mut String, first: usize, last: usize)
    requires { HasReserveFor (length (range_text first last)) answer.old }
    ensures text { string_bytes answer.new ≡ string_bytes answer.old ++ range_text first last }
    ensures reserve { string_capacity answer.old ≤ string_capacity answer.new }
{
    put_number(answer, "sets ", first as u64);
    put_number(answer, "-", last as u64);
    put(answer, ":");
}

/// The device pools of `count` tickets from the first up, run by run.
fn stretches_answer(answer: &mut String, session: &LineSession, first: usize, count: u32)
    requires some { 0 < count }
    requires fits { first + count < 2 ^ 64 }
    requires reserve { HasReserveFor (23 * count) answer.old }
    ensures text { string_bytes answer.new ≡ string_bytes answer.old
        ++ stretches_text (pools_from (value_of session.now).sets first count) }
    ensures enough { length (stretches_text (pools_from (value_of session.now).sets first count))
        ≤ 23 * count }
    ensures reserve { string_capacity answer.old ≤ string_capacity answer.new }
{
    let mut stretch = Stretch {
        pool: device_pool(session, first),
        length: 1,
    };
    for ticket in first + 1..first + count as usize {
        let pool = device_pool(session, ticket);
        if pool == stretch.pool {
            stretch.length += 1;
        } else {
            stretch_answer(answer, stretch);
            stretch = Stretch { pool, length: 1 };
        }
    }
    stretch_answer(answer, stretch);
}

/// The name of the device pool of a ticket's set, or 0 without one.
fn device_pool(session: &LineSession, ticket: usize) -> u64
    ensures { result ≡ pool_at (value_of session.now).sets ticket }
{
    match session.set(ticket) {
        Some(set) => set.raw().pool(),
        None => 0,
    }
}

/// A run: the name of its pool, and its length.
fn stretch_answer(answer: &mut String, stretch: Stretch)
    requires { HasReserveFor (length (stretch_text (stretch.pool, stretch.length))) answer.old }
    ensures text { string_bytes answer.new ≡ string_bytes answer.old
        ++ stretch_text (stretch.pool, stretch.length) }
    ensures reserve { string_capacity answer.old ≤ string_capacity answer.new }
{
    put_number(answer, " ", stretch.pool);
    put_number(answer, "*", stretch.length);
}
