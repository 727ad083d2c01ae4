//! The handles of sets.
ghost use Rattle.std.specs.Prelude.{◌≡◌, Bool, List, Option, is_some, map, true};
ghost use Rattle.std.specs.Option.{option_copied};
ghost use Rattle.std.proofs.Common.{sym};
ghost use Rattle.std.proofs.lemmas.List.{map-id};

/// The handle of a set, which is valid only for the set manager that gave it: until the set is freed, or
/// until its frame ends. It never becomes the handle of another set.
#[must_use = "a set is reached only by its handle"]
#[derive(Clone, Copy, Debug, PartialEq, Eq, Hash)]
pub struct SetHandle {
    pub(crate) manager: u64,
    pub(crate) place: u32,

    /// How many handles were given for the place, with this one; never 0.
    pub(crate) generation: u32,
}

impl SetHandle {
    /// A handle that is invalid for every set manager.
    pub const NONE: Self = SetHandle {
        manager: u64::MAX,
        place: u32::MAX,
        generation: 0,
    };
}

/// The place of the slot of a handle.
#[inline]
pub fn place_of(handle: SetHandle) -> u32
    ensures { result ≡ handle.place }
{
    handle.place
}

/// The type by which a caller names a set of type `T`: its handle, perhaps with data of the set.
pub trait SetName<T> {
    ghost use Rattle.descriptor_table.specs.declared.handle.SetHandle.{SetHandle};

    /// The handle of a name.
    ghost handle_of: { Self → SetHandle };

    /// The handles of names.
    ghost handles_of: { List Self → List SetHandle };

    /// Whether a name can be that of a set.
    ghost fit: { Self → Option T → Bool };

    /// The handle.
    fn handle(&self) -> SetHandle
        ensures { result ≡ handle_of self.now };

    /// The name of a set under a handle. `set` is never `None`: an `Option` leaves no test for it in a
    /// loop over sets.
    fn of(handle: SetHandle, set: Option<&T>) -> Self
        requires { is_some set ≡ true }
        ensures handle { handle_of result ≡ handle }
        ensures fits { fit result (option_copied set.entry) ≡ true };

    /// Whether this can be the name of the set that its handle has. `set` is never `None`.
    fn fits(&self, set: Option<&T>) -> bool
        requires { is_some set ≡ true }
        ensures { result ≡ fit self.now (option_copied set.entry) };

    /// The handles of names are those of each.
    ghost each: { (names : List Self) → handles_of names ≡ map handle_of names };
}

impl<T> SetName<T> for SetHandle {
    ghost handle_of = { λ handle. handle };

    ghost handles_of = { λ handles. handles };

    ghost fit = { λ handle set. true };

    ghost each = { λ handles. sym (map-id handles) };

    #[inline]
    fn handle(&self) -> SetHandle {
        *self
    }

    #[inline]
    fn of(handle: SetHandle, _set: Option<&T>) -> Self {
        handle
    }

    #[inline]
    fn fits(&self, _set: Option<&T>) -> bool {
        true
    }
}
