//! The list of a device's calls, over memory that is reserved ahead.
ghost use Rattle.std.specs.Prelude.{◌≡◌, ◌+◌, ◌<◌, ◌≤◌, ◌++◌, [], ◌∷◌, OnOk, vec_len};
ghost use Rattle.std.specs.Prelude.{vec_capacity};

use std::alloc::{AllocError, Global};
use std::vec::Vec;

/// A call that the device granted.
#[derive(Clone, Copy, Debug, PartialEq, Eq)]
pub enum Call {
    /// A pool was created.
    Create { pool: u64 },

    /// Sets were allocated from a pool.
    Alloc { pool: u64, sets: u32 },

    /// Sets of a pool were freed.
    Release { pool: u64, sets: usize },

    /// A pool was destroyed.
    Destroy { pool: u64 },
}

/// Calls in their order, with memory for those that can't be refused.
#[derive(Debug, Drop)]
pub(crate) struct Log {
    pub(crate) calls: Vec<Call>,

    /// For how many calls to come memory is reserved.
    pub(crate) owed: usize,
    ghost fits: { vec_len calls + owed ≤ vec_capacity calls },
}

impl Log {
    pub(crate) fn new(alloc: Global) -> Self
        ensures calls { result.calls.items ≡ [] }
        ensures owed { result.owed ≡ 0 }
    {
        Log {
            calls: Vec::new(alloc),
            owed: 0,
        }
    }

    /// Reserves memory for `more` more calls.
    pub(crate) fn reserve(&mut self, more: usize) -> Result<(), AllocError>
        ensures reserve { OnOk result (vec_len self.new.calls + self.new.owed + more
            ≤ vec_capacity self.new.calls) }
        ensures calls { self.new.calls.items ≡ self.old.calls.items }
        ensures owed { self.new.owed ≡ self.old.owed }
    {
        match self.owed.checked_add(more) {
            Some(all) => self.calls.reserve(all),
            None => Err(AllocError),
        }
    }

    /// Puts a call that owes `owes` others.
    pub(crate) fn put(&mut self, call: Call, owes: usize)
        requires { vec_len self.old.calls + self.old.owed + (owes + 1) ≤ vec_capacity self.old.calls }
        ensures calls { self.new.calls.items ≡ self.old.calls.items ++ call ∷ [] }
        ensures owed { self.new.owed ≡ self.old.owed + owes }
    {
        self.calls.push_reserved(call);
        self.owed += owes;
    }

    /// Puts a call in the place of `count` owed ones.
    pub(crate) fn settle(&mut self, call: Call, count: usize)
        requires some { 0 < count }
        requires enough { count ≤ self.old.owed }
        ensures calls { self.new.calls.items ≡ self.old.calls.items ++ call ∷ [] }
        ensures owed { self.new.owed + count ≡ self.old.owed }
    {
        self.calls.push_reserved(call);
        self.owed -= count;
    }
}
