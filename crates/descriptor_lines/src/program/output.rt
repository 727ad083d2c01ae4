//! What there is to say of a line, on its way out. It is made as a text first, so that one write is
//! enough if the writer takes it all.
ghost use Rattle.std.specs.Prelude.{◌≡◌, ◌⊎◌, [], Err, IfErr, OnErr, OnOk, string_bytes};
ghost use Rattle.std.specs.Io.KnownBytes.{Appends};
ghost use Rattle.descriptor_lines.specs.Outcomes.{AppendsPrefix, IsNoFault, said_of};

use crate::answer;
use crate::exit::Exit;
use crate::words::Refusal;
use std::io::Write;
use std::string::String;

/// Writes what there is to say of a line. If it returns `Ok`, the text is empty then.
pub fn answer_line<W: Write>(
    output: &mut W,
    answer: &mut String,
    number: u64,
    outcome: Result<(), Refusal>,
) -> Result<(), Exit>
    // Where the line is not faulty.
    ensures ok { OnOk result (IsNoFault outcome) }
    ensures answered { OnOk result (Appends (W.contents output.old) (W.contents output.new)
        (said_of number outcome (string_bytes answer.old))) }
    ensures emptied { OnOk result (string_bytes answer.new ≡ []) }

    // Where it is, and where a write fails.
    ensures bad_line { result ≡ Err Exit.BadLine → ¬ (IsNoFault outcome) }
    ensures told { result ≡ Err Exit.BadLine → Appends (W.contents output.old)
        (W.contents output.new) (said_of number outcome (string_bytes answer.old)) }
    ensures broken { result ≡ Err Exit.WriteFault → AppendsPrefix (W.contents output.old)
        (W.contents output.new) (said_of number outcome (string_bytes answer.old)) }
    ensures err { IfErr result (λ exit. (exit ≡ Exit.BadLine) ⊎ (exit ≡ Exit.WriteFault)) }
{
    match outcome {
        Ok(()) => write_bytes(output, answer.as_bytes())?,
        Err(Refusal::NoMemory) => write_bytes(output, answer::NO_MEMORY.as_bytes())?,
        Err(Refusal::Fault(fault)) => {
            answer.clear();
            // Memory for it is reserved since the start. If the text fails all the same, the line of the
            // fault isn't written, as if a write fails.
            answer::fault_line(answer, number, fault).map_err(|_| Exit::WriteFault)?;
            write_bytes(output, answer.as_bytes())?;
            return Err(Exit::BadLine);
        }
    }
    answer.clear();
    Ok(())
}

/// Writes all of these bytes, where each write takes some of them.
pub fn write_bytes<W: Write>(output: &mut W, bytes: &[u8]) -> Result<(), Exit>
    ensures written { OnOk result (Appends (W.contents output.old) (W.contents output.new)
        bytes.now) }
    ensures prefix { OnErr result (AppendsPrefix (W.contents output.old) (W.contents output.new)
        bytes.now) }
    ensures fault { IfErr result (λ exit. exit ≡ Exit.WriteFault) }
{
    let mut rest = bytes;
    while !rest.is_empty() {
        match output.write(rest) {
            Ok(0) | Err(_) => return Err(Exit::WriteFault),
            Ok(count) => rest = &rest[count..],
        }
    }
    Ok(())
}
