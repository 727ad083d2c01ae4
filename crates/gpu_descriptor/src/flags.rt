//! The flags of a layout.
ghost use Rattle.std.specs.Prelude.{⊤, [], ◌∷◌, codes};

use bitflags::{Flag, Flags, bitflag_items};

/// Flags of a layout, combined by `|`.
#[derive(Clone, Copy, Debug, PartialEq, Eq, Hash)]
pub struct DescriptorSetLayoutCreateFlags(u32);

bitflag_items! {
    impl DescriptorSetLayoutCreateFlags: u32 {
        /// Sets of this layout are allocated from pools with
        /// `DescriptorPoolCreateFlags::UPDATE_AFTER_BIND`. Pass it if, and only if, the layout was
        /// created with it.
        const UPDATE_AFTER_BIND = 0x2;
    }
}

impl Flags for DescriptorSetLayoutCreateFlags {
    ghost use Rattle.gpu_descriptor.specs.Caller.Flags.{layout_bits};

    type Bits = u32;

    ghost exact = { ⊤ };

    ghost table = { (codes "UPDATE_AFTER_BIND", 2) ∷ [] };

    ghost set_of = { layout_bits };

    fn flags<'a>() -> &'a [Flag<DescriptorSetLayoutCreateFlags>] {
        DescriptorSetLayoutCreateFlags::FLAGS
    }

    fn bits(&self) -> u32 {
        self.0
    }

    fn from_bits_retain(bits: u32) -> DescriptorSetLayoutCreateFlags {
        DescriptorSetLayoutCreateFlags(bits)
    }
}
