//! How many sets each layout has, the id of its sets, and which numbers of layouts are free.
ghost use Rattle.std.specs.Prelude.{◌≡◌, ◌≢◌, ◌==◌, ℕ, if◌then◌else◌, ◌+◌, ◌-◌, ◌<◌, ◌≤◌, [], ◌∷◌, ◌++◌, length, map, slice_set, vec_capacity};
ghost use Rattle.std.specs.Prelude.{IfSome, IsOk, None, OnOk};
ghost use Rattle.descriptor_table.specs.Places.{AreFree, users_at};

use std::alloc::{AllocError, Global};
use std::vec::Vec;

/// The users of a layout: its sets, and the layout itself while it is there.
#[derive(Drop)]
pub struct LayoutUse {
    pub(crate) count: u32,

    /// The id of its sets: that of the one that came last.
    pub(crate) id: u64,
}

/// The users of each layout, by its number. A number without users is free for another layout.
#[derive(Drop)]
pub struct LayoutUsers {
    pub(crate) uses: Vec<LayoutUse>,

    /// The numbers without users.
    pub(crate) free: Vec<u32>,
    ghost listed: { AreFree free.items (map (λ l. l.count) uses.items) },
    ghost room: { length uses.items ≤ vec_capacity free },
}

impl LayoutUsers {
    ghost use Rattle.descriptor_table.specs.Users.{HasNumberRoom, ids_in, users_in};

    /// No numbers. It allocates no memory.
    pub(crate) fn new(alloc: Global) -> Self
        ensures users { users_in result ≡ [] }
        ensures ids { ids_in result ≡ λ layout. 0 }
    {
        LayoutUsers {
            uses: Vec::new(alloc),
            free: Vec::new(alloc),
        }
    }

    /// Reserves memory for one more number.
    pub(crate) fn reserve(&mut self) -> Result<(), AllocError>
        ensures room { OnOk result (HasNumberRoom self.new) }
        ensures fits { HasNumberRoom self.old → IsOk result }
        ensures users { users_in self.new ≡ users_in self.old }
        ensures ids { ids_in self.new ≡ ids_in self.old }
    {
        self.uses.reserve(1)?;
        let numbers = self.uses.len() + 1;
        self.free.reserve(numbers.saturating_sub(self.free.len()))
    }

    /// Adds a number, of a layout that is there, in reserved memory.
    pub(crate) fn add(&mut self)
        requires { HasNumberRoom self.old }
        ensures users { users_in self.new ≡ users_in self.old ++ 1 ∷ [] }
        ensures ids { ids_in self.new ≡ ids_in self.old }
    {
        self.uses.push_reserved(LayoutUse { count: 1, id: 0 });
    }

    /// One more set of a layout that has users. The layout's sets have this id.
    #[inline]
    pub(crate) fn join(&mut self, layout: usize, id: u64)
        requires within { layout < length (users_in self.old) }
        requires some { users_at (users_in self.old) layout ≢ 0 }
        requires few { users_at (users_in self.old) layout < 4294967295 }
        ensures users { users_in self.new ≡ slice_set (users_in self.old) layout
            (users_at (users_in self.old) layout + 1) }
        ensures ids { (n : ℕ) → ids_in self.new n ≡ (if n == layout then id else ids_in self.old n) }
    {
        let users = &mut self.uses[layout];
        users.count += 1;
        users.id = id;
    }

    /// One user fewer of a layout. Returns the id of its sets.
    #[inline]
    pub(crate) fn leave(&mut self, layout: usize) -> u64
        requires within { layout < length (users_in self.old) }
        requires some { users_at (users_in self.old) layout ≢ 0 }
        requires number { layout < 4294967296 }
        ensures id { result ≡ ids_in self.old layout }
        ensures users { users_in self.new ≡ slice_set (users_in self.old) layout
            (users_at (users_in self.old) layout - 1) }
        ensures ids { ids_in self.new ≡ ids_in self.old }
    {
        let users = &mut self.uses[layout];
        users.count -= 1;
        let (count, id) = (users.count, users.id);
        if count == 0 {
            self.free.push_reserved(layout as u32);
        }
        id
    }

    /// Takes a free number for a layout, which is its user.
    pub(crate) fn take(&mut self) -> Option<u32>
        ensures within { IfSome result (λ layout. layout < length (users_in self.old)) }
        ensures free { IfSome result (λ layout. users_at (users_in self.old) layout ≡ 0) }
        ensures users { IfSome result (λ layout. users_in self.new
            ≡ slice_set (users_in self.old) layout 1) }
        ensures none { result ≡ None → ((layout : ℕ) → users_at (users_in self.old) layout ≢ 0)
            × (users_in self.new ≡ users_in self.old) }
        ensures room { HasNumberRoom self.old → HasNumberRoom self.new }
        ensures ids { ids_in self.new ≡ ids_in self.old }
    {
        let layout = self.free.pop()?;
        self.uses[layout as usize].count = 1;
        Some(layout)
    }
}
