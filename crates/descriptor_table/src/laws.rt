//! Laws of handles. The functions do nothing: their contracts are the laws.
ghost use Rattle.std.specs.Prelude.{◌≡◌, ℕ, Bool, None, false};
ghost use Rattle.descriptor_table.specs.Sets.{sets_of};
ghost use Rattle.descriptor_table.specs.Slots.{Slots};
ghost use Rattle.descriptor_table.specs.Tables.{slots_of};
ghost use Rattle.descriptor_table.specs.declared.set_table.SetTable.{SetTable as Table};

use crate::handle::SetHandle;

/// No table gives `SetHandle::NONE`, whatever its number is, and in none it has a set.
pub fn none_is_no_handle<T>()
    ensures never { (number frame : ℕ) (opened : Bool) (slots : Slots T)
        → (sets_of number frame opened slots).given SetHandle.NONE ≡ false }
    ensures no_set { (table : Table T) (number frame : ℕ) (opened : Bool)
        → (sets_of number frame opened (slots_of table)).set SetHandle.NONE ≡ None }
{}
