//! The line program.
ghost use Rattle.std.specs.Prelude.{◌≡◌, []};
ghost use Rattle.descriptor_script.specs.Scripted.Device.{empty_ledger};

use super::is_value;
use descriptor_lines::{
    Exit, LineDevice, ScriptedMeaning, kinds_answer, run_lines, run_lines_on, write_bytes,
};
use descriptor_script::Answer;
use std::alloc::{AllocError, Global};
use std::io::{Read, Write};

fn run<R: Read, W: Write>(alloc: Global, input: &mut R, output: &mut W) -> Exit {
    run_lines(alloc, input, output)
}

fn run_on<D: LineDevice + Drop, R: Read, W: Write>(
    alloc: Global,
    device: D,
    input: &mut R,
    output: &mut W,
) -> (Exit, D)
    requires ledger { D.ledger device ≡ empty_ledger }
    requires script { D.script device ≡ [] }
{
    run_lines_on(alloc, device, input, output)
}

fn means_its_script<D: ScriptedMeaning>() {}

fn hear<D: LineDevice>(device: &mut D, line: &[u8], words: Vec<Answer>) -> bool {
    means_its_script::<D>();
    device.hear(line);
    device.load(words);
    device.has_lost()
}

fn counters<D: LineDevice>(device: &D) -> [u64; 4] {
    [
        device.created(),
        device.destroyed(),
        device.asked(),
        device.released(),
    ]
}

fn answer(answer: &mut String, counts: &[u32; 14]) -> Result<(), AllocError> {
    kinds_answer(answer, counts)
}

fn write<W: Write>(output: &mut W, bytes: &[u8]) -> Result<(), Exit> {
    write_bytes(output, bytes)
}

fn name_of(exit: Exit) -> &'static str {
    is_value::<Exit>();
    match exit {
        Exit::Done => "done",
        Exit::BadLine => "bad line",
        Exit::ReadFault => "read fault",
        Exit::WriteFault => "write fault",
        Exit::NoMemory => "no memory",
    }
}

fn code(exit: Exit) -> u8 {
    exit.code()
}
