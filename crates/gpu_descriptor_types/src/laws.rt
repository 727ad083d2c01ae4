//! Laws of the types, which their derives and impls keep. The functions do nothing: their contracts are
//! the laws.
ghost use Rattle.std.specs.Prelude.{◌≡◌, ◌↔◌, IsTrue};
ghost use Rattle.gpu_descriptor_types.specs.Counts.{kinds, no_counts};
ghost use Rattle.gpu_descriptor_types.specs.Flags.{bits};
ghost use Rattle.gpu_descriptor_types.specs.declared.counts.DescriptorTotalCount.{DescriptorTotalCount as Counts};
ghost use Rattle.gpu_descriptor_types.specs.declared.errors.CreatePoolError.{CreatePoolError as CreateError};
ghost use Rattle.gpu_descriptor_types.specs.declared.errors.DeviceAllocationError.{DeviceAllocationError as AllocError};
ghost use Rattle.gpu_descriptor_types.specs.declared.flags.DescriptorPoolCreateFlags.{DescriptorPoolCreateFlags as PoolFlags};

use crate::counts::DescriptorTotalCount;
use crate::errors::{CreatePoolError, DeviceAllocationError};
use crate::flags::DescriptorPoolCreateFlags;
use std::hash::Hash;

/// Counts are equal exactly if the fourteen are, and equal counts have equal hashes. A clone always
/// succeeds, and is equal.
pub fn counts_are_their_kinds()
    ensures equal { (a b : Counts) → IsTrue (⟦<DescriptorTotalCount as PartialEq>⟧.eq a b)
        ↔ (kinds a ≡ kinds b) }
    ensures clone { (a b : Counts) → ⟦<DescriptorTotalCount as Clone>⟧.is_clone a b → b ≡ a }
    ensures clone_succeeds { (a : Counts) → ⟦<DescriptorTotalCount as Clone>⟧.is_infallible a }
    ensures hash { (a b : Counts) → kinds a ≡ kinds b → ⟦<DescriptorTotalCount as Hash>⟧.hash_input
        a ≡ ⟦<DescriptorTotalCount as Hash>⟧.hash_input b }
    ensures default { (a : Counts) → ⟦<DescriptorTotalCount as Default>⟧.is_default a → kinds a
        ≡ no_counts }
{}

/// Flags of a pool are equal exactly if their bits are. A clone always succeeds, and is equal.
pub fn flags_are_their_bits()
    ensures equal { (a b : PoolFlags) → IsTrue (⟦<DescriptorPoolCreateFlags as PartialEq>⟧.eq a b)
        ↔ (bits a ≡ bits b) }
    ensures clone { (a b : PoolFlags) → ⟦<DescriptorPoolCreateFlags as Clone>⟧.is_clone a b → b
        ≡ a }
    ensures clone_succeeds { (a : PoolFlags) → ⟦<DescriptorPoolCreateFlags as Clone>⟧.is_infallible
        a }
{}

/// Errors are equal exactly if they are the same case. A clone always succeeds, and is equal.
pub fn errors_are_their_cases()
    ensures create_equal { (a b : CreateError) → IsTrue (⟦<CreatePoolError as PartialEq>⟧.eq a b)
        ↔ (a ≡ b) }
    ensures create_clone { (a b : CreateError) → ⟦<CreatePoolError as Clone>⟧.is_clone a b → b ≡ a }
    ensures create_clone_succeeds { (a : CreateError) → ⟦<CreatePoolError as Clone>⟧.is_infallible
        a }
    ensures alloc_equal { (a b : AllocError) → IsTrue (⟦<DeviceAllocationError as PartialEq>⟧.eq a
        b) ↔ (a ≡ b) }
    ensures alloc_clone { (a b : AllocError) → ⟦<DeviceAllocationError as Clone>⟧.is_clone a b → b
        ≡ a }
    ensures alloc_clone_succeeds { (a : AllocError)
        → ⟦<DeviceAllocationError as Clone>⟧.is_infallible a }
{}
