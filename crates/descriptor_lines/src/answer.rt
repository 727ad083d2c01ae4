//! What the output says: an answer or a fault for a line.
ghost use Rattle.std.specs.Prelude.{◌≡◌, ◌++◌, OnOk, sum, string_bytes};
ghost use Rattle.gpu_descriptor_types.specs.Counts.{kinds};
ghost use Rattle.descriptor_lines.specs.Answers as says;

mod reply;
mod reserved;

use crate::device::LineDevice;
use crate::words::{Fault, kind_name};
use gpu_descriptor::PoolView;
use gpu_descriptor_types::DescriptorTotalCount;
pub use reply::{reply_answer, reserve_for};
use std::alloc::AllocError;
use std::string::String;

/// The answer where there was no memory to run a line.
pub const NO_MEMORY: &str = "refused: no memory\n";

/// The answer of `size`: the sets of a pool, and its counts that are not 0.
pub fn size_answer(
    answer: &mut String,
    counts: &DescriptorTotalCount,
    sets: u32,
) -> Result<(), AllocError>
    ensures { OnOk result (string_bytes answer.new ≡ string_bytes answer.old
        ++ says.size_answer sets (kinds counts.now)) }
{
    write!(answer, "size {sets}")?;
    kinds_answer(answer, &counts.to_array())?;
    answer.push('\n')
}

/// Puts the kinds of which the counts are not 0 after the text, in the order of the fields: each as
/// a blank, its name, `=` and its count.
pub fn kinds_answer(answer: &mut String, counts: &[u32; 14]) -> Result<(), AllocError>
    ensures { OnOk result (string_bytes answer.new ≡ string_bytes answer.old
        ++ says.kinds_answer counts.now) }
{
    for (place, count) in counts.iter().enumerate() {
        kind_answer(answer, kind_name(place), *count)?;
    }
    Ok(())
}

/// A kind with its count, where that is not 0.
fn kind_answer(answer: &mut String, name: &str, count: u32) -> Result<(), AllocError>
    ensures { OnOk result (string_bytes answer.new ≡ string_bytes answer.old
        ++ says.kind_answer (name.now, count)) }
{
    if count == 0 {
        return Ok(());
    }
    write!(answer, " {name}={count}")
}

/// The line of `show` for a pool of the layout of this name.
pub fn pool_answer(answer: &mut String, name: &str, pool: &PoolView) -> Result<(), AllocError>
    ensures { OnOk result (string_bytes answer.new ≡ string_bytes answer.old
        ++ says.pool_answer name.now pool.now.number pool.now.allocated pool.now.available) }
{
    let PoolView {
        number,
        allocated,
        available,
    } = *pool;
    writeln!(answer, "pool {name} {number} {allocated}/{available}")
}

/// The line of `show` for the calls that the device had.
pub fn device_answer<D: LineDevice>(answer: &mut String, device: &D) -> Result<(), AllocError>
    ensures { OnOk result (string_bytes answer.new ≡ string_bytes answer.old
        ++ says.device_answer (D.ledger device.now).counters) }
{
    let created = device.created();
    let destroyed = device.destroyed();
    let asked = device.asked();
    let released = device.released();
    writeln!(
        answer,
        "device created {created} destroyed {destroyed} asked {asked} released {released}"
    )
}

/// The line of `show` for the live sets, and the descriptors of those that are marked.
pub fn held_answer(answer: &mut String, held: u64, marked: u32) -> Result<(), AllocError>
    ensures { OnOk result (string_bytes answer.new ≡ string_bytes answer.old
        ++ says.held_answer held marked) }
{
    writeln!(answer, "held {held} marked {marked}")
}

/// The last line of the output of a run that ended at a fault. Lines are numbered from 1.
pub fn fault_line(answer: &mut String, number: u64, fault: Fault) -> Result<(), AllocError>
    ensures { OnOk result (string_bytes answer.new ≡ string_bytes answer.old
        ++ says.fault_line number fault) }
{
    let words = fault.words();
    writeln!(answer, "line {number}: {words}")
}
