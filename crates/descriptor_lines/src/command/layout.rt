//! The command that makes a layout.
ghost use Rattle.std.specs.Prelude.{◌≡◌, IfOk};
ghost use Rattle.descriptor_lines.specs.Commands.{IsRunnable};
ghost use Rattle.descriptor_lines.specs.Orders.{mark_in, order_in, order_of};
ghost use Rattle.std.specs.Result.{result_map_both};
ghost use Rattle.descriptor_lines.specs.Words.{words_left};

use super::Command;
use crate::layouts::{Layout, LayoutTable};
use crate::words::{Fault, Keyword, Words, parse_counts};

/// `layout NAME plain` or `mark`, and the kinds with their counts.
pub fn parse_layout<'a>(mut words: Words<'a>, layouts: &LayoutTable) -> Result<Command<'a>, Fault>
    ensures reads { result_map_both order_of (λ fault. fault) result ≡ order_in layouts.now Keyword.Layout (words_left words.entry) }
    ensures runnable { IfOk result (IsRunnable layouts.now) }
{
    let (Some(name), Some(mark)) = (words.next(), words.next()) else {
        return Err(Fault::BadWordCount);
    };
    let name = crate::words::name(name).ok_or(Fault::BadName)?;
    if layouts.get(name).is_some() {
        return Err(Fault::NameIsTaken);
    }
    let mark = parse_mark(mark)?;
    let counts = parse_counts(words)?;
    if layouts.is_full() {
        return Err(Fault::TooManyLayouts);
    }
    let layout = Layout { counts, mark };
    Ok(Command::Layout { name, layout })
}

fn parse_mark(word: &[u8]) -> Result<bool, Fault>
    ensures { result ≡ mark_in word.now }
{
    match word {
        b"plain" => Ok(false),
        b"mark" => Ok(true),
        _ => Err(Fault::BadMark),
    }
}
