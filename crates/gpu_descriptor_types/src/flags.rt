//! The flags of a new pool.
ghost use Rattle.std.specs.Prelude.{⊤, [], ◌∷◌, codes};

use bitflags::{Flag, Flags, bitflag_items};

/// Flags of a new pool, combined by `|`.
///
/// The bits are this crate's own.
#[derive(Clone, Copy, Debug, PartialEq, Eq, Hash)]
pub struct DescriptorPoolCreateFlags(u32);

bitflag_items! {
    impl DescriptorPoolCreateFlags: u32 {
        /// Sets may be freed one at a time.
        const FREE_DESCRIPTOR_SET = 0x1;
        /// Sets of layouts that are marked as update-after-bind may be allocated.
        const UPDATE_AFTER_BIND = 0x2;
    }
}

impl Flags for DescriptorPoolCreateFlags {
    ghost use Rattle.gpu_descriptor_types.specs.Flags.{bits as bits_of};
    ghost use Rattle.gpu_descriptor_types.specs.Flags.{free_descriptor_set, update_after_bind};

    type Bits = u32;

    ghost exact = { ⊤ };

    ghost table = { (codes "FREE_DESCRIPTOR_SET", free_descriptor_set)
        ∷ (codes "UPDATE_AFTER_BIND", update_after_bind) ∷ [] };

    ghost set_of = { bits_of };

    fn flags<'a>() -> &'a [Flag<DescriptorPoolCreateFlags>] {
        DescriptorPoolCreateFlags::FLAGS
    }

    fn bits(&self) -> u32 {
        self.0
    }

    fn from_bits_retain(bits: u32) -> DescriptorPoolCreateFlags {
        DescriptorPoolCreateFlags(bits)
    }
}
