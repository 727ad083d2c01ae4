//! How often something was done.
ghost use Rattle.std.specs.Prelude.{◌≡◌, ◌+◌, ◌-◌, ◌^◌, min};

use gpu_descriptor_types::Tally;

/// Counts, and shows the count up to the greatest `u64`.
#[derive(Debug, Drop)]
pub struct Counter {
    // The ledger's count, which has no greatest value.
    pub tally: Tally,
    shown: u64,
    ghost tied: { shown ≡ min tally.count (2 ^ 64 - 1) },
}

impl Counter {
    pub fn zero() -> Counter
        ensures { result.tally.count ≡ 0 }
    {
        Counter {
            tally: Tally::zero(),
            shown: 0,
        }
    }

    /// Counts one more.
    pub fn rise(&mut self)
        ensures { self.new.tally.count ≡ self.old.tally.count + 1 }
    {
        self.tally = Tally::next(&self.tally);
        self.shown = self.shown.saturating_add(1);
    }

    /// The count, or the greatest `u64` where it is above.
    pub fn shown(&self) -> u64
        ensures { result ≡ min self.now.tally.count (2 ^ 64 - 1) }
    {
        self.shown
    }
}
