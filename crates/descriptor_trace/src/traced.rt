//! A device that writes down what passes through it.
ghost use Rattle.std.specs.Prelude.{◌≡◌, ◌+◌, [], map, None, IsFalse, IsOk, IfErr, IfOk};
ghost use Rattle.std.specs.Prelude.{OnErr, OnOk, length, string_bytes};
ghost use Rattle.std.specs.Io.KnownBytes.{Appends, Keeps};
ghost use Rattle.descriptor_lines.specs.Outcomes.{AppendsPrefix};
ghost use Rattle.std.specs.Iterator.{HoldsAlong};
ghost use Rattle.gpu_descriptor_types.specs.Counts.{kinds};
ghost use Rattle.gpu_descriptor_types.specs.Flags.{bits};
ghost use Rattle.gpu_descriptor_types.specs.Layouts.{layout, left};
ghost use Rattle.gpu_descriptor_types.specs.Ledger.{AreLive, CanDrain, CanPut, HasNoSets, Puts, PutsNone};
ghost use Rattle.gpu_descriptor_types.specs.Ledger.{after_create, after_destroy, after_no_create};
ghost use Rattle.gpu_descriptor_types.specs.Ledger.{Releases};
ghost use Rattle.descriptor_script.specs.Scripted.Device.{empty_ledger};
ghost use Rattle.descriptor_script.specs.Scripted.Raw.{pool_id, script_meaning, set_id};
ghost use Rattle.descriptor_script.specs.Scripted.Script.{alloc_error, create_error};
ghost use Rattle.descriptor_trace.specs.TraceTexts as says;
ghost use Rattle.descriptor_trace.specs.Traced.{WritesDown};

use crate::text;
use descriptor_lines::{Exit, LineDevice, ScriptedMeaning, write_bytes};
use descriptor_script::{Answer, RawPool, RawSet, ScriptLayout, ScriptedDevice};
use gpu_descriptor::{
    CreatePoolError, DescriptorDevice, DescriptorPoolCreateFlags, DescriptorTotalCount,
    DeviceAllocationError, Layouts, SetSink,
};
use std::alloc::{AllocError, Global};
use std::io::Write;

/// A scripted device that writes each call as a line (rust/line-program/LINES.md). Once a line can't be
/// written, it writes no more, and `has_lost` is true.
#[derive(Drop)]
pub struct Traced<W> {
    device: ScriptedDevice,
    output: W,
    text: String,
    has_lost: bool,
}

impl<W: Write + Drop> Traced<W> {
    ghost use Rattle.descriptor_script.specs.Scripted.Device.{ledger_of, names_given, script_of};

    /// A device without pools and without a script.
    pub fn new(alloc: Global, output: W) -> Result<Self, AllocError>
        ensures ledger { IfOk result (λ d. ledger_of d.device ≡ empty_ledger) }
        ensures script { IfOk result (λ d. script_of d.device ≡ []) }
        ensures names { IfOk result (λ d. names_given d.device ≡ record { pools = 0; sets = 0 }) }
        ensures output { IfOk result (λ d. d.output ≡ output) }
        ensures whole { IfOk result (λ d. IsFalse d.has_lost) }
    {
        Ok(Traced {
            device: ScriptedDevice::new(alloc, Vec::new(alloc)),
            output,
            text: String::with_capacity(alloc, text::LINE_LEN)?,
            has_lost: false,
        })
    }
}

impl<W: Write> Traced<W> {
    /// Writes the text, if it was made.
    fn write_text(&mut self, made: Result<(), AllocError>)
        ensures device { self.new.device ≡ self.old.device }
        ensures made { IsFalse self.new.has_lost → IsOk made }
        ensures unmade { OnErr made (Keeps (W.contents self.old.output)
            (W.contents self.new.output)) }
        ensures written { WritesDown W.contents self.old self.new (string_bytes self.old.text) }
    {
        if self.has_lost {
            return;
        }
        if made.is_err() || write_bytes(&mut self.output, self.text.as_bytes()).is_err() {
            self.has_lost = true;
        }
    }

    /// Writes that `sets` sets of a pool were freed.
    fn write_release(&mut self, pool: u64, sets: usize)
        ensures device { self.new.device ≡ self.old.device }
        ensures written { WritesDown W.contents self.old self.new (says.release_line pool sets) }
    {
        self.text.clear();
        let made = text::release_line(&mut self.text, pool, sets);
        self.write_text(made);
    }
}

/// Writes a line of the input as a comment.
fn write_comment<W: Write>(output: &mut W, line: &[u8]) -> Result<(), Exit>
    ensures written { OnOk result (Appends (W.contents output.old) (W.contents output.new)
        (says.input_line line.now)) }
    ensures part { OnErr result (AppendsPrefix (W.contents output.old) (W.contents output.new)
        (says.input_line line.now)) }
{
    write_bytes(output, b"# ")?;
    write_bytes(output, line)?;
    write_bytes(output, b"\n")
}

impl<W: Write> DescriptorDevice<ScriptLayout, RawPool, RawSet> for Traced<W> {
    ghost use Rattle.descriptor_script.specs.Scripted.Device.{ReadsNone, ReadsWord, ledger_of, names_given};

    ghost meaning = { script_meaning };

    ghost ledger = { λ d. ledger_of d.device };

    fn create_descriptor_pool(
        &mut self,
        counts: &DescriptorTotalCount,
        max_sets: u32,
        flags: DescriptorPoolCreateFlags,
    ) -> Result<RawPool, CreatePoolError>
        ensures new_name { IfOk result (λ pool. (ledger_of self.old.device).pools (pool_id pool)
            ≡ None) }
        ensures ok { IfOk result (λ pool. ledger_of self.new.device ≡ after_create
            (kinds counts.now) max_sets (bits flags) (pool_id pool) (ledger_of self.old.device)) }
        ensures err { IfErr result (λ e. ledger_of self.new.device
            ≡ after_no_create e (ledger_of self.old.device)) }

        // Above are the trait's clauses, repeated; from here on those of the scripted device: a word
        // is read, and the pool has the next name.
        ensures reads { ReadsWord create_error result self.old.device self.new.device }
        ensures next_name { IfOk result (λ pool. pool_id pool
            ≡ (names_given self.old.device).pools) }
        ensures named { OnOk result (names_given self.new.device
            ≡ record (names_given self.old.device)
            { pools = (names_given self.old.device).pools + 1 }) }
        ensures unnamed { OnErr result (names_given self.new.device ≡ names_given self.old.device) }

        // The device's own: the call is written down, whether it is granted or refused.
        ensures written { WritesDown W.contents self.old self.new
            (says.create_line max_sets (bits flags) (kinds counts.now) result) }
    {
        let answer = self.device.create_descriptor_pool(counts, max_sets, flags);
        self.text.clear();
        let made = text::create_line(&mut self.text, max_sets, flags, counts, &answer);
        self.write_text(made);
        answer
    }

    fn destroy_descriptor_pool(&mut self, pool: RawPool)
        requires { HasNoSets (pool_id pool) (ledger_of self.old.device) }
        ensures ledger { ledger_of self.new.device
            ≡ after_destroy (pool_id pool) (ledger_of self.old.device) }

        // Besides the trait's: no word is read, and no name is given; and the call is written down.
        ensures reads { ReadsNone self.old.device self.new.device }
        ensures written { WritesDown W.contents self.old self.new
            (says.destroy_line (pool_id pool)) }
    {
        let id = pool.id();
        self.device.destroy_descriptor_pool(pool);
        self.text.clear();
        let made = text::destroy_line(&mut self.text, id);
        self.write_text(made);
    }

    fn alloc_descriptor_sets<K: SetSink<RawSet>>(
        &mut self,
        pool: &mut RawPool,
        layouts: Layouts<'_, ScriptLayout>,
        sets: &mut K,
    ) -> Result<(), DeviceAllocationError>
        requires fits { CanPut K.sink (pool_id pool.old) (left layouts) (kinds (layout layouts).counts)
            (layout layouts).mark sets.old (ledger_of self.old.device) }
        ensures name { pool_id pool.new ≡ pool_id pool.old }
        ensures ok { OnOk result (Puts K.sink script_meaning (layout layouts.entry)
            (pool_id pool.old) (left layouts.entry) sets.old sets.new (ledger_of self.old.device)
            (ledger_of self.new.device)) }
        ensures err { IfErr result (λ e. PutsNone K.sink (pool_id pool.old) e sets.old sets.new
            (ledger_of self.old.device) (ledger_of self.new.device)) }

        // Above are the trait's clauses, repeated; from here on those of the scripted device: a word
        // is read, and no pool is named.
        ensures reads { ReadsWord alloc_error result self.old.device self.new.device }
        ensures pools { (names_given self.new.device).pools ≡ (names_given self.old.device).pools }

        // The device's own: the call is written down, whether it is granted or refused.
        ensures written { WritesDown W.contents self.old self.new
            (says.alloc_line (pool_id pool.old) (left layouts.entry) (layout layouts.entry).mark
            (kinds (layout layouts.entry).counts) result) }
    {
        let (layout, count) = (layouts.layout(), layouts.len());
        let answer = self.device.alloc_descriptor_sets(pool, layouts, sets);
        self.text.clear();
        let made = text::alloc_line(&mut self.text, pool.id(), count, layout, &answer);
        self.write_text(made);
        answer
    }

    fn dealloc_descriptor_sets<I: Iterator<Item = RawSet>>(
        &mut self,
        pool: &mut RawPool,
        sets: &mut I,
    )
        requires ends { CanDrain I.can_next I.remaining sets.old }
        requires live { HoldsAlong I.next_gives sets.old
            (λ xs. AreLive (pool_id pool.old) (map set_id xs) (ledger_of self.old.device)) }
        ensures name { pool_id pool.new ≡ pool_id pool.old }
        ensures released { Releases I.next_gives set_id (pool_id pool.old) sets.old sets.new
            (ledger_of self.old.device) (ledger_of self.new.device) }

        // Besides the trait's: no word is read, and no name is given; and the call is written down.
        ensures reads { ReadsNone self.old.device self.new.device }
        ensures written { (gone : Releases I.next_gives set_id (pool_id pool.old) sets.old sets.new
            (ledger_of self.old.device) (ledger_of self.new.device)) × WritesDown W.contents
            self.old self.new (says.release_line (pool_id pool.old) (length gone.items)) }
    {
        let released = self.device.release(pool, sets);
        self.write_release(pool.id(), released);
    }
}

impl<W: Write> ScriptedMeaning for Traced<W> {
    ghost use Rattle.std.specs.Prelude.{refl};

    ghost scripted = { refl };
}

impl<W: Write> LineDevice for Traced<W> {
    ghost use Rattle.descriptor_script.specs.Scripted.Device.{ledger_of, names_given, script_of};

    ghost script = { λ d. script_of d.device };

    ghost lost = { λ d. d.has_lost };

    fn hear(&mut self, line: &[u8])
        ensures ledger { ledger_of self.new.device ≡ ledger_of self.old.device }
        ensures script { script_of self.new.device ≡ script_of self.old.device }

        // The device's own, in addition to the trait's: the line is written down before its calls.
        ensures written { WritesDown W.contents self.old self.new (says.input_line line.now) }
    {
        if self.has_lost {
            return;
        }
        if write_comment(&mut self.output, line).is_err() {
            self.has_lost = true;
        }
    }

    fn has_lost(&self) -> bool {
        self.has_lost
    }

    fn load(&mut self, words: Vec<Answer>)
        ensures script { script_of self.new.device ≡ words.items }
        ensures ledger { ledger_of self.new.device ≡ ledger_of self.old.device }

        // The device's own, in addition to the trait's: names and output stay.
        ensures names { names_given self.new.device ≡ names_given self.old.device }
        ensures output { self.new.output ≡ self.old.output }
        ensures lost { self.new.has_lost ≡ self.old.has_lost }
    {
        self.device.load(words);
    }

    fn created(&self) -> u64 {
        self.device.created()
    }

    fn destroyed(&self) -> u64 {
        self.device.destroyed()
    }

    fn asked(&self) -> u64 {
        self.device.asked()
    }

    fn released(&self) -> u64 {
        self.device.released()
    }
}
