//! The command that gives the device a new script.
ghost use Rattle.std.specs.Prelude.{◌≡◌};
ghost use Rattle.descriptor_lines.specs.Fault.{Reads};
ghost use Rattle.descriptor_lines.specs.ScriptWords.{answer_in, script_in};
ghost use Rattle.descriptor_lines.specs.Words.{words_left};

use crate::words::{Fault, Refusal, Words};
use descriptor_script::Answer;
use std::alloc::Global;
use std::vec::Vec;

/// `script WORD ..`.
pub fn parse_script(alloc: Global, words: Words<'_>) -> Result<Vec<Answer>, Refusal>
    ensures { Reads (λ script. script.items) result (script_in (words_left words.entry)) }
{
    let mut script = Vec::new(alloc);
    for word in words {
        let answer = parse_answer(word)?;
        script.reserve(1)?;
        script.push_reserved(answer);
    }
    Ok(script)
}

fn parse_answer(word: &[u8]) -> Result<Answer, Fault>
    ensures { result ≡ answer_in word.now }
{
    match word {
        b"ok" => Ok(Answer::Ok),
        b"device" => Ok(Answer::Device),
        b"host" => Ok(Answer::Host),
        b"frag" => Ok(Answer::Frag),
        b"pool" => Ok(Answer::Pool),
        _ => Err(Fault::BadAnswerWord),
    }
}
