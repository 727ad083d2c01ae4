//! The lines of a trace (rust/line-program/LINES.md).
ghost use Rattle.std.specs.Prelude.{◌≡◌, ◌++◌, OnOk, codes, string_bytes};
ghost use Rattle.gpu_descriptor_types.specs.Counts.{kinds};
ghost use Rattle.gpu_descriptor_types.specs.Flags.{bits};
ghost use Rattle.descriptor_script.specs.Scripted.Script.{alloc_error, create_error};
ghost use Rattle.descriptor_lines.specs.ScriptWords.{word_of_answer};
ghost use Rattle.descriptor_trace.specs.TraceTexts as says;

use bitflags::Flags;
use descriptor_lines::kinds_answer;
use descriptor_script::{RawPool, ScriptLayout};
use gpu_descriptor::{
    CreatePoolError, DescriptorPoolCreateFlags, DescriptorTotalCount, DeviceAllocationError,
};
use std::alloc::AllocError;

/// Bytes that every line of a call fits into: fourteen kinds with their counts take fewer.
pub const LINE_LEN: usize = 1024;

/// Appends the line of a create: the arguments, and the device's answer.
pub fn create_line(
    text: &mut String,
    sets: u32,
    flags: DescriptorPoolCreateFlags,
    counts: &DescriptorTotalCount,
    answer: &Result<RawPool, CreatePoolError>,
) -> Result<(), AllocError>
    ensures { OnOk result (string_bytes text.new ≡ string_bytes text.old
        ++ says.create_line sets (bits flags) (kinds counts.now) answer.now) }
{
    create_begin(text, answer)?;
    write!(text, ": {sets} sets")?;
    release_part(text, flags)?;
    mark_part(
        text,
        flags.contains(DescriptorPoolCreateFlags::UPDATE_AFTER_BIND),
    )?;
    counts_part(text, counts)?;
    create_end(text, answer)
}

/// Appends the line of a call that allocates sets of a layout from a pool, and the device's answer.
pub fn alloc_line(
    text: &mut String,
    pool: u64,
    sets: u32,
    layout: &ScriptLayout,
    answer: &Result<(), DeviceAllocationError>,
) -> Result<(), AllocError>
    ensures { OnOk result (string_bytes text.new ≡ string_bytes text.old
        ++ says.alloc_line pool sets layout.now.mark (kinds layout.now.counts) answer.now) }
{
    write!(text, "alloc {pool}: {sets}")?;
    mark_part(text, layout.mark)?;
    counts_part(text, &layout.counts)?;
    alloc_end(text, answer)
}

/// Appends the line of a call that frees sets of a pool.
pub fn release_line(text: &mut String, pool: u64, sets: usize) -> Result<(), AllocError>
    ensures { OnOk result (string_bytes text.new ≡ string_bytes text.old
        ++ says.release_line pool sets) }
{
    writeln!(text, "release {pool}: {sets}")
}

/// Appends the line of a destroy.
pub fn destroy_line(text: &mut String, pool: u64) -> Result<(), AllocError>
    ensures { OnOk result (string_bytes text.new ≡ string_bytes text.old
        ++ says.destroy_line pool) }
{
    writeln!(text, "destroy {pool}")
}

/// Appends the start of the line of a create: `create` and the pool's name.
fn create_begin(
    text: &mut String,
    answer: &Result<RawPool, CreatePoolError>,
) -> Result<(), AllocError>
    ensures { OnOk result (string_bytes text.new ≡ string_bytes text.old
        ++ (codes "create " ++ says.new_name answer.now)) }
{
    match answer {
        Ok(pool) => write!(text, "create {}", pool.id()),
        Err(_) => text.push_str("create -"),
    }
}

/// Appends `no release` if the pool can't free sets.
fn release_part(text: &mut String, flags: DescriptorPoolCreateFlags) -> Result<(), AllocError>
    ensures { OnOk result (string_bytes text.new ≡ string_bytes text.old
        ++ says.release_part (bits flags)) }
{
    if flags.contains(DescriptorPoolCreateFlags::FREE_DESCRIPTOR_SET) {
        return Ok(());
    }
    text.push_str(", no release")
}

/// Appends the mark of a pool for update-after-bind, if it is one.
fn mark_part(text: &mut String, mark: bool) -> Result<(), AllocError>
    ensures { OnOk result (string_bytes text.new ≡ string_bytes text.old ++ says.mark_part mark) }
{
    if mark {
        text.push_str(", mark")?;
    }
    Ok(())
}

/// Appends the counts that aren't 0.
fn counts_part(text: &mut String, counts: &DescriptorTotalCount) -> Result<(), AllocError>
    ensures { OnOk result (string_bytes text.new ≡ string_bytes text.old
        ++ says.counts_part (kinds counts.now)) }
{
    if counts.total() == 0 {
        return Ok(());
    }
    text.push(',')?;
    kinds_answer(text, &counts.to_array())
}

/// Appends the end of the line of a create: the refusal, if it was refused.
fn create_end(
    text: &mut String,
    answer: &Result<RawPool, CreatePoolError>,
) -> Result<(), AllocError>
    ensures { OnOk result (string_bytes text.new ≡ string_bytes text.old
        ++ says.line_end says.answer_of_create answer.now) }
{
    match answer {
        Ok(_) => text.push('\n'),
        Err(error) => refused_end(text, create_word(*error)),
    }
}

/// Appends the end of the line of a call that allocates sets: the refusal, if it was refused.
fn alloc_end(
    text: &mut String,
    answer: &Result<(), DeviceAllocationError>,
) -> Result<(), AllocError>
    ensures { OnOk result (string_bytes text.new ≡ string_bytes text.old
        ++ says.line_end says.answer_of_alloc answer.now) }
{
    match answer {
        Ok(()) => text.push('\n'),
        Err(error) => refused_end(text, alloc_word(*error)),
    }
}

/// Appends the end of the line of a call that was refused.
fn refused_end(text: &mut String, word: &str) -> Result<(), AllocError>
    ensures { OnOk result (string_bytes text.new ≡ string_bytes text.old
        ++ (codes ", refused: " ++ word.now ++ codes "\n")) }
{
    writeln!(text, ", refused: {word}")
}

/// The script's word for a refused create.
fn create_word(error: CreatePoolError) -> &'static str
    ensures word { result.now ≡ word_of_answer (says.answer_of_create error) }
    ensures refuses { create_error (says.answer_of_create error) ≡ error }
{
    match error {
        CreatePoolError::OutOfDeviceMemory => "device",
        CreatePoolError::OutOfHostMemory => "host",
        CreatePoolError::Fragmentation => "frag",
    }
}

/// The script's word for a refused call that allocates sets.
fn alloc_word(error: DeviceAllocationError) -> &'static str
    ensures word { result.now ≡ word_of_answer (says.answer_of_alloc error) }
    ensures refuses { alloc_error (says.answer_of_alloc error) ≡ error }
{
    match error {
        DeviceAllocationError::OutOfDeviceMemory => "device",
        DeviceAllocationError::OutOfHostMemory => "host",
        DeviceAllocationError::FragmentedPool => "frag",
        DeviceAllocationError::OutOfPoolMemory => "pool",
    }
}
