//! The tickets of a line that gives sets back.
ghost use Rattle.std.specs.Prelude.{◌≡◌, ◌+◌, ◌-◌, ◌^◌, ◌≤◌, ◌++◌, vec_len, vec_capacity};
ghost use Rattle.std.specs.Prelude.{OnOk, reverse};
ghost use Rattle.std.specs.List.{range_with_len};
ghost use Rattle.descriptor_lines.specs.Fault.{Reads};
ghost use Rattle.std.specs.Result.{result_map_both};
ghost use Rattle.gpu_descriptor_types.specs.Bounds.{greatest_u64};
ghost use Rattle.descriptor_lines.specs.Numbers.{number_in};
ghost use Rattle.descriptor_lines.specs.Tickets.{joined, max_tickets};
ghost use Rattle.descriptor_lines.specs.Tickets.{tickets_between, tickets_in, tickets_of};
ghost use Rattle.descriptor_lines.specs.Words.{words_left};

use super::fault::{Fault, Refusal};
use super::text;
use super::text::Words;
use std::alloc::Global;
use std::vec::Vec;

/// The greatest number of tickets of a line.
const MAX_TICKETS: usize = 1_000_000;

/// The tickets from the first to the last, up or down in steps of 1.
#[derive(Clone, Copy, Debug)]
struct Span {
    first: usize,
    last: usize,
}

/// The tickets that the words after `free` write, one word after the other.
///
/// The fault is that of the first word that is wrong, or with which the tickets are too many.
pub fn parse_free(alloc: Global, words: Words<'_>) -> Result<Vec<usize>, Refusal>
    ensures { Reads (λ tickets. tickets.items) result (tickets_in (words_left words.entry)) }
{
    let mut tickets = Vec::new(alloc);
    for word in words {
        add_tickets(&mut tickets, parse_span(word)?)?;
    }
    Ok(tickets)
}

/// The tickets of a word: one, `T`, or a range, `A-B`.
fn parse_span(word: &[u8]) -> Result<Span, Fault>
    ensures { result_map_both (λ span. tickets_between span.first span.last) (λ fault. fault) result
        ≡ tickets_of word.now }
{
    let (first, last) = text::around(word, b'-').unwrap_or((word, word));
    Ok(Span {
        first: parse_ticket(first)?,
        last: parse_ticket(last)?,
    })
}

fn parse_ticket(word: &[u8]) -> Result<usize, Fault>
    ensures { result ≡ number_in greatest_u64 word.now }
{
    let ticket = text::number_within(word, u64::MAX)?;
    Ok(ticket as usize)
}

/// Puts the tickets after the others. They are counted before any of them is written, since a short
/// word can name more than memory holds.
#[tactic(auto, using(crate::proofs::TicketLemmas::count_between))]
fn add_tickets(tickets: &mut Vec<usize>, span: Span) -> Result<(), Refusal>
    requires { vec_len tickets.old ≤ max_tickets }
    ensures added { Reads (λ _. tickets.new.items) result
        (joined tickets.old.items (tickets_between span.first span.last)) }
    ensures few { OnOk result (vec_len tickets.new ≤ max_tickets) }
{
    let steps = span.first.abs_diff(span.last);
    if MAX_TICKETS - tickets.len() <= steps {
        return Err(Refusal::Fault(Fault::TooManyTickets));
    }
    tickets.reserve(steps + 1)?;
    if span.first <= span.last {
        push_rising(tickets, span.first, steps + 1);
    } else {
        push_falling(tickets, span.first, steps + 1);
    }
    Ok(())
}

/// Puts so many tickets from the first up after the others, over memory that was reserved.
fn push_rising(tickets: &mut Vec<usize>, first: usize, count: usize)
    requires reserve { vec_len tickets.old + count ≤ vec_capacity tickets.old }
    requires fits { first + count ≤ 2 ^ 64 }
    ensures items { tickets.new.items ≡ tickets.old.items ++ range_with_len first count }
    ensures len { vec_len tickets.new ≡ vec_len tickets.old + count }
{
    for step in 0..count {
        tickets.push_reserved(first + step);
    }
}

/// Puts so many tickets from the first down after the others, over memory that was reserved.
fn push_falling(tickets: &mut Vec<usize>, first: usize, count: usize)
    requires reserve { vec_len tickets.old + count ≤ vec_capacity tickets.old }
    requires fits { count ≤ first + 1 }
    ensures items { tickets.new.items ≡ tickets.old.items ++ reverse (range_with_len
        (first + 1 - count) count) }
    ensures len { vec_len tickets.new ≡ vec_len tickets.old + count }
{
    for step in 0..count {
        tickets.push_reserved(first - step);
    }
}
