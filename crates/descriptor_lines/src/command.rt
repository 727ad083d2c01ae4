//! The commands that lines give.
ghost use Rattle.std.specs.Prelude.{◌≡◌, ◌⊎◌, ◌↔◌, ℕ, List, [], ◌∷◌, IsTrue, IsFalse, IfErr, IfOk, IfSome, length};
ghost use Rattle.std.specs.Prelude.{OnOk, Ok, Err, None};
ghost use Rattle.std.specs.Prelude.{option_map};
ghost use Rattle.descriptor_lines.specs.Orders.{BeginsList, line_in, order_in, order_of, timely as timely_of};
ghost use Rattle.descriptor_lines.specs.Commands.{IsRunnable};
ghost use Rattle.descriptor_lines.specs.Fault.{Reads};
ghost use Rattle.std.specs.Result.{result_map_both};
ghost use Rattle.descriptor_lines.specs.Words.{words as words_of, words_left, is_silent};

mod layout;
mod script;

use crate::layouts::{Layout, LayoutTable};
use crate::words::{Fault, Keyword, Refusal, Words, number_within, parse_free, parse_u32};
use descriptor_script::Answer;
use gpu_descriptor_types::DescriptorTotalCount;
use layout::parse_layout;
use script::parse_script;
use std::alloc::Global;
use std::vec::Vec;

/// The greatest count of sets that a line may ask for.
const MAX_SETS: u64 = 1_000_000;

/// A command, with all that its line says.
#[derive(Debug, Drop)]
pub enum Command<'a> {
    /// Begins with this limit on marked descriptors.
    Limit {
        max: u32,
    },

    /// Makes a layout of a new name.
    Layout {
        name: &'a str,
        layout: Layout,
    },

    /// Asks for the size of a new pool of a layout with these counts.
    Size {
        counts: DescriptorTotalCount,
        total: u64,
        wanted: u32,
    },

    /// Gives the device a new script.
    Script {
        script: Vec<Answer>,
    },

    /// Allocates `count` sets of the layout at this place.
    Alloc {
        layout: usize,
        count: u32,
    },

    /// Frees the sets of these tickets.
    Free {
        tickets: Vec<usize>,
    },

    /// Destroys the empty pools at the front of each key.
    Cleanup,

    /// Asks for the pools and the counters.
    Show,
}

impl<'a> Command<'a> {
    /// The command of a line, or `None` where the line has no words or is a comment. A limit may
    /// come only where `has_begun` is false: where no line before it had a command.
    pub fn parse(
        alloc: Global,
        line: &'a [u8],
        layouts: &LayoutTable,
        has_begun: bool,
    ) -> Result<Option<Command<'a>>, Refusal>
        requires fresh { IsFalse has_begun → length layouts.now.by_name.entries ≡ 0 }
        ensures reads { Reads (option_map order_of) result
            (line_in layouts.now has_begun (words_of line.now)) }
        ensures memory { result ≡ Err Refusal.NoMemory → BeginsList (words_of line.now) }
        ensures silent { result ≡ Ok None ↔ IsTrue (is_silent (words_of line.now)) }
        ensures runnable { IfOk result (λ command. IfSome command (IsRunnable layouts.now)) }
    {
        let mut words = Words::new(line);
        let Some(word) = words.next() else {
            return Ok(None);
        };
        if let [b'#', ..] = word {
            return Ok(None);
        }
        let keyword = Keyword::of_word(word).ok_or(Fault::UnknownCommand)?;
        let keyword = timely(keyword, has_begun)?;
        let command = parse_words(alloc, keyword, words, layouts)?;
        Ok(Some(command))
    }
}

/// The command, unless it is a limit and comes too late.
fn timely(keyword: Keyword, has_begun: bool) -> Result<Keyword, Fault>
    ensures timely { result ≡ timely_of keyword has_begun }
    ensures first { IfOk result (λ keyword. keyword ≡ Keyword.Limit → IsFalse has_begun) }
{
    match keyword {
        Keyword::Limit if has_begun => Err(Fault::LimitNotFirst),
        _ => Ok(keyword),
    }
}

/// The command of the words after its first.
fn parse_words<'a>(
    alloc: Global,
    keyword: Keyword,
    mut words: Words<'a>,
    layouts: &LayoutTable,
) -> Result<Command<'a>, Refusal>
    requires fresh { keyword ≡ Keyword.Limit → length layouts.now.by_name.entries ≡ 0 }
    ensures reads { Reads order_of result
        (order_in layouts.now keyword
        (words_left words.entry)) }
    ensures memory { result ≡ Err Refusal.NoMemory → (keyword ≡ Keyword.Script)
        ⊎ (keyword ≡ Keyword.Free) }
    ensures runnable { IfOk result (IsRunnable layouts.now) }
{
    match keyword {
        Keyword::Limit => {
            let (Some(max), None) = (words.next(), words.next()) else {
                return Err(Refusal::Fault(Fault::BadWordCount));
            };
            let max = parse_u32(max)?;
            Ok(Command::Limit { max })
        }
        Keyword::Layout => Ok(parse_layout(words, layouts)?),
        Keyword::Size => Ok(parse_size(words, layouts)?),
        Keyword::Script => {
            let script = parse_script(alloc, words)?;
            Ok(Command::Script { script })
        }
        Keyword::Alloc => Ok(parse_alloc(words, layouts)?),
        Keyword::Free => {
            let tickets = parse_free(alloc, words)?;
            Ok(Command::Free { tickets })
        }
        Keyword::Cleanup => {
            expect_end(words)?;
            Ok(Command::Cleanup)
        }
        Keyword::Show => {
            expect_end(words)?;
            Ok(Command::Show)
        }
    }
}

/// `size NAME TOTAL WANTED`.
fn parse_size<'a>(mut words: Words<'a>, layouts: &LayoutTable) -> Result<Command<'a>, Fault>
    ensures reads { result_map_both order_of (λ fault. fault) result ≡ order_in layouts.now Keyword.Size (words_left words.entry) }
    ensures runnable { IfOk result (IsRunnable layouts.now) }
{
    let (Some(name), Some(total), Some(wanted), None) = (
        words.next(),
        words.next(),
        words.next(),
        words.next(),
    ) else {
        return Err(Fault::BadWordCount);
    };
    let name = crate::words::name(name).ok_or(Fault::BadName)?;
    let counts = layouts.get(name).ok_or(Fault::NoSuchLayout)?.counts;
    let total = number_within(total, u64::MAX)?;
    let wanted = parse_u32(wanted)?;
    Ok(Command::Size {
        counts,
        total,
        wanted,
    })
}

/// `alloc NAME N`.
fn parse_alloc<'a>(mut words: Words<'a>, layouts: &LayoutTable) -> Result<Command<'a>, Fault>
    ensures reads { result_map_both order_of (λ fault. fault) result ≡ order_in layouts.now Keyword.Alloc (words_left words.entry) }
    ensures runnable { IfOk result (IsRunnable layouts.now) }
{
    let (Some(name), Some(count), None) = (words.next(), words.next(), words.next()) else {
        return Err(Fault::BadWordCount);
    };
    let name = crate::words::name(name).ok_or(Fault::BadName)?;
    let layout = layouts.place(name).ok_or(Fault::NoSuchLayout)?;
    let count = number_within(count, MAX_SETS)? as u32;
    Ok(Command::Alloc { layout, count })
}

/// The end of a line whose command has no arguments.
fn expect_end(mut words: Words<'_>) -> Result<(), Fault>
    ensures end { OnOk result (words_left words.entry ≡ []) }
    ensures more { IfErr result (λ fault. (fault ≡ Fault.BadWordCount) × (word : List ℕ)
        × (others : List (List ℕ)) × (words_left words.entry ≡ word ∷ others)) }
{
    if words.next().is_some() {
        return Err(Fault::BadWordCount);
    }
    Ok(())
}
