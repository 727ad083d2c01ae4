//! The parts of a line: words, numbers, names and kinds.
ghost use Rattle.std.specs.Prelude.{◌≡◌, ◌≤◌, ◌<◌, ◌↔◌, length, option_map};
ghost use Rattle.std.specs.Prelude.{IfOk, IsSome, IfSome, position, slice_get};
ghost use Rattle.std.specs.Prelude.{slice_index, Contains, Some, false};
ghost use Rattle.std.specs.Bool.{then_some};
ghost use Rattle.std.specs.Iterator.{YieldsFirstBy, item_count};
ghost use Rattle.descriptor_lines.specs.Kinds.{kind_names, place_of_kind};
ghost use Rattle.descriptor_lines.specs.Names.{is_name as is_name_of};
ghost use Rattle.descriptor_lines.specs.Names.{is_name_byte as is_name_byte_of};
ghost use Rattle.descriptor_lines.specs.Numbers.{is_number as is_number_of};
ghost use Rattle.descriptor_lines.specs.Numbers.{number_in};
ghost use Rattle.descriptor_lines.specs.Words.{around as around_of};
ghost use Rattle.descriptor_lines.specs.Words.{words as words_of, is_blank as is_blank_of, is_byte};
ghost use Rattle.descriptor_lines.specs.Words.{words_left};

use super::fault::Fault;
use std::str;

/// The greatest number of digits of a number.
const MAX_DIGITS: usize = 20;

/// The greatest length of a name, in bytes.
const MAX_NAME_LEN: usize = 32;

/// How many kinds of descriptors there are.
pub const KIND_COUNT: usize = 14;

/// The names of the kinds of descriptors, in the order of the fields of the counts.
const KIND_NAMES: [&str; KIND_COUNT] = [
    "sampler",
    "combined_image_sampler",
    "sampled_image",
    "storage_image",
    "uniform_texel_buffer",
    "storage_texel_buffer",
    "uniform_buffer",
    "storage_buffer",
    "uniform_buffer_dynamic",
    "storage_buffer_dynamic",
    "input_attachment",
    "acceleration_structure",
    "inline_uniform_block_bytes",
    "inline_uniform_block_bindings",
];

/// Whether a byte parts words: a space or a tab.
pub fn is_blank(byte: u8) -> bool
    ensures { result ≡ is_blank_of byte }
{
    byte == b' ' || byte == b'\t'
}

/// The words of a line: its longest stretches without blanks, in order.
#[derive(Clone, Copy, Debug)]
pub struct Words<'a> {
    rest: &'a [u8],
}

impl<'a> Words<'a> {
    pub fn new(line: &'a [u8]) -> Self
        ensures { words_left result ≡ words_of line.now }
    {
        Words { rest: line }
    }
}

impl<'a> Iterator for Words<'a> {
    type Item = &'a [u8];

    ghost next_gives = { YieldsFirstBy (λ word. word.now) words_left };

    ghost remaining = { item_count words_left };

    #[tactic(auto, using(crate::proofs::WordLemmas::words_split))]
    fn next(&mut self) -> Option<&'a [u8]> {
        let rest = without_blanks(self.rest);
        let end = first_blank(rest).unwrap_or(rest.len());
        let (word, rest) = rest.split_at(end);
        self.rest = rest;
        if word.is_empty() { None } else { Some(word) }
    }
}

/// The line from its first byte that is no blank.
fn without_blanks(line: &[u8]) -> &[u8]
    ensures same_words { words_of result.now ≡ words_of line.now }
    ensures begins { 0 < length result.now → is_blank_of (slice_index result.now 0) ≡ false }
{
    let mut rest = line;
    while let [first, others @ ..] = rest {
        if !is_blank(*first) {
            return rest;
        }
        rest = others;
    }
    rest
}

/// The place of the first blank.
fn first_blank(line: &[u8]) -> Option<usize>
    ensures { result ≡ position is_blank_of line.now }
{
    line.iter().position(|byte| is_blank(*byte))
}

/// Whether a word is a number: 1 to 20 digits, leading zeros allowed.
fn is_number(word: &[u8]) -> bool
    ensures { result ≡ is_number_of word.now }
{
    !word.is_empty() && word.len() <= MAX_DIGITS && word.iter().all(|byte| byte.is_ascii_digit())
}

/// The number that a word writes: 1 to 20 digits, leading zeros allowed, of a value up to
/// `greatest`.
#[tactic(auto, using(crate::proofs::NumberLemmas::value_more, crate::proofs::NumberLemmas::digit_at, crate::proofs::NumberLemmas::too_great), unfolding(crate::specs::Numbers::number_in))]
pub fn number_within(word: &[u8], greatest: u64) -> Result<u64, Fault>
    ensures number { result ≡ number_in greatest word.now }
    ensures within { IfOk result (λ number. number ≤ greatest) }
{
    if !is_number(word) {
        return Err(Fault::BadNumber);
    }
    let mut value = 0u64;
    for byte in word {
        let tens = value.checked_mul(10).ok_or(Fault::BadNumber)?;
        value = tens
            .checked_add(u64::from(*byte - b'0'))
            .ok_or(Fault::BadNumber)?;
    }
    (value <= greatest).then_some(value).ok_or(Fault::BadNumber)
}

/// Whether a byte may be in a name.
fn is_name_byte(byte: u8) -> bool
    ensures { result ≡ is_name_byte_of byte }
{
    byte.is_ascii_alphanumeric() || byte == b'_' || byte == b'-'
}

/// Whether a word is a name: 1 to 32 letters, digits, `_` and `-` of ASCII.
fn is_name(word: &[u8]) -> bool
    ensures { result ≡ is_name_of word.now }
{
    !word.is_empty() && word.len() <= MAX_NAME_LEN && word.iter().all(|byte| is_name_byte(*byte))
}

/// The word as a name: 1 to 32 letters, digits, `_` and `-` of ASCII.
#[tactic(auto, using(crate::proofs::NameLemmas::text_from_name))]
pub fn name(word: &[u8]) -> Option<&str>
    ensures { option_map (λ name. name.now) result
        ≡ then_some (is_name_of word.now) word.now }
{
    if is_name(word) {
        str::from_utf8(word).ok()
    } else {
        None
    }
}

/// The name of the kind at this place, in the order of the fields of the counts.
pub fn kind_name(place: usize) -> &'static str
    requires { place < 14 }
    ensures { slice_get kind_names place ≡ Some result.now }
{
    KIND_NAMES[place]
}

/// The place of the kind of this name, in the order of the fields of the counts.
pub fn kind(word: &[u8]) -> Option<usize>
    ensures place { result ≡ place_of_kind word.now }
    ensures within { IfSome result (λ place. place < 14) }
{
    KIND_NAMES.iter().position(|name| name.as_bytes() == word)
}

/// The place of the first byte of this value.
pub fn first_of(word: &[u8], value: u8) -> Option<usize>
    ensures place { result ≡ position (is_byte value) word.now }
    ensures found { IsSome result ↔ Contains word.now value }
{
    word.iter().position(|byte| *byte == value)
}

/// What comes before and after the first byte of this value, if the word has one.
pub fn around(word: &[u8], value: u8) -> Option<(&[u8], &[u8])>
    ensures { option_map (λ parts. (parts.0.now, parts.1.now)) result
        ≡ around_of value word.now }
{
    let place = first_of(word, value)?;
    Some((&word[..place], &word[place + 1..]))
}
