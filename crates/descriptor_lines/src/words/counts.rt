//! Words that give the counts of a layout.
ghost use Rattle.std.specs.Prelude.{◌≡◌};
ghost use Rattle.gpu_descriptor_types.specs.Counts.{kinds};
ghost use Rattle.std.specs.Result.{result_map_both};
ghost use Rattle.descriptor_lines.specs.Kinds.{counts_in};
ghost use Rattle.gpu_descriptor_types.specs.Bounds.{greatest_u32};
ghost use Rattle.descriptor_lines.specs.Numbers.{number_in};
ghost use Rattle.descriptor_lines.specs.Words.{words_left};

use super::fault::Fault;
use super::text;
use super::text::Words;
use gpu_descriptor_types::DescriptorTotalCount;

/// The counts out of words `KIND=N`, each kind at most once.
pub fn parse_counts(words: Words<'_>) -> Result<DescriptorTotalCount, Fault>
    ensures { result_map_both kinds (λ fault. fault) result ≡ counts_in (words_left words.entry) }
{
    let mut counts = DescriptorTotalCount::default();
    let mut is_named = [false; text::KIND_COUNT];
    for word in words {
        let (kind, count) = text::around(word, b'=').ok_or(Fault::BadKind)?;
        let kind = text::kind(kind).ok_or(Fault::BadKind)?;
        if is_named[kind] {
            return Err(Fault::KindTwice);
        }
        is_named[kind] = true;
        counts.set_kind(kind, parse_u32(count)?);
    }
    Ok(counts)
}

/// The number of 32 bits that a word writes.
pub fn parse_u32(word: &[u8]) -> Result<u32, Fault>
    ensures { result ≡ number_in greatest_u32 word.now }
{
    let number = text::number_within(word, u64::from(u32::MAX))?;
    Ok(number as u32)
}
