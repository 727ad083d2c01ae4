//! A counter without bytes.
ghost use Rattle.std.specs.Prelude.{◌≡◌, ℕ, ◌+◌};
ghost use Rattle.std.specs.Borrow.{ftrue};

use std::marker::Model;

/// A number without a greatest value, for contracts. It has no bytes, and its functions do nothing
/// when a program runs.
#[derive(Debug, Drop)]
pub struct Tally {
    pub ghost count: { ℕ },
}

impl Model for Tally {
    ghost also_owns = { λ _. ftrue };
}

// Its functions have proofs by hand, since no body can write ghost data.
impl Tally {
    pub fn zero() -> Tally
        ensures { result.count ≡ 0 }
    {
        Tally {}
    }

    pub fn next(_before: &Tally) -> Tally
        ensures { result.count ≡ _before.now.count + 1 }
    {
        Tally {}
    }
}
