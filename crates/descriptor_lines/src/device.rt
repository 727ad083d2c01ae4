//! The device that the lines speak to.
ghost use Rattle.std.specs.Prelude.{◌≡◌, ◌-◌, ◌^◌, Bool, List, false, min};
ghost use Rattle.descriptor_script.specs.declared.answer.Answer.{Answer};
ghost use Rattle.descriptor_script.specs.Scripted.Raw.{script_meaning};

use descriptor_script::{Answer, RawPool, RawSet, ScriptLayout, ScriptedDevice};
use gpu_descriptor::DescriptorDevice;
use std::vec::Vec;

/// A device of scripted pools, sets and layouts, which means them as the scripted device does.
pub trait ScriptedMeaning: DescriptorDevice<ScriptLayout, RawPool, RawSet> {
    /// Pools and sets have the names that they carry, layouts their counts and their mark.
    // A trait of its own, without calls: in a trait that has calls a ghost member can't name the ghost
    // members of the trait above.
    ghost scripted: { Self.DescriptorDevice.meaning ≡ script_meaning };
}

/// A device that takes a script, shows its counters, and receives the lines that it is used by.
pub trait LineDevice: ScriptedMeaning {
    /// The words that are still to be read.
    ghost script: { Self → List Answer };

    /// Whether something was lost that was to be written down.
    ghost lost: { Self → Bool };

    /// Hears a line that was read, before anything is run of it.
    fn hear(&mut self, line: &[u8])
        ensures ledger { Self.ledger self.new ≡ Self.ledger self.old }
        ensures script { script self.new ≡ script self.old };

    /// Whether the device lost something that it was to write down.
    fn has_lost(&self) -> bool
        ensures { result ≡ lost self.now };

    /// Discards the unread words, and begins with these.
    fn load(&mut self, words: Vec<Answer>)
        ensures script { script self.new ≡ words.items }
        ensures ledger { Self.ledger self.new ≡ Self.ledger self.old };

    /// How many pools were created, up to the greatest `u64`.
    fn created(&self) -> u64
        ensures { result ≡ min (Self.ledger self.now).counters.created (2 ^ 64 - 1) };

    /// How many pools were destroyed, up to the greatest `u64`.
    fn destroyed(&self) -> u64
        ensures { result ≡ min (Self.ledger self.now).counters.destroyed (2 ^ 64 - 1) };

    /// How many calls asked for sets, up to the greatest `u64`.
    fn asked(&self) -> u64
        ensures { result ≡ min (Self.ledger self.now).counters.asked (2 ^ 64 - 1) };

    /// How many calls released sets, up to the greatest `u64`.
    fn released(&self) -> u64
        ensures { result ≡ min (Self.ledger self.now).counters.released (2 ^ 64 - 1) };
}

impl ScriptedMeaning for ScriptedDevice {
    ghost use Rattle.std.specs.Prelude.{refl};

    ghost scripted = { refl };
}

/// A device that answers by a script alone ignores the lines.
impl LineDevice for ScriptedDevice {
    ghost use Rattle.descriptor_script.specs.Scripted.Device.{script_of};

    ghost script = { script_of };

    ghost lost = { λ _. false };

    fn hear(&mut self, _: &[u8]) {}

    fn has_lost(&self) -> bool {
        false
    }

    fn load(&mut self, words: Vec<Answer>) {
        self.load(words);
    }

    fn created(&self) -> u64 {
        self.created()
    }

    fn destroyed(&self) -> u64 {
        self.destroyed()
    }

    fn asked(&self) -> u64 {
        self.asked()
    }

    fn released(&self) -> u64 {
        self.released()
    }
}
