//! The layouts, pools and sets of a scripted device.
ghost use Rattle.std.specs.Prelude.{◌≡◌};
ghost use Rattle.gpu_descriptor.specs.Caller.Flags.{is_marked};
ghost use Rattle.gpu_descriptor.specs.Caller.SetLayouts.{IsMeant};
ghost use Rattle.descriptor_script.specs.Scripted.Raw.{pool_id, script_meaning, set_id, set_pool};

use bitflags::Flags;
use gpu_descriptor::{DescriptorSetLayoutCreateFlags, SetLayout};
use gpu_descriptor_types::DescriptorTotalCount;

/// A layout: its descriptors, and whether it is marked as update-after-bind.
#[derive(Clone, Copy, Debug)]
pub struct ScriptLayout {
    pub counts: DescriptorTotalCount,
    pub mark: bool,
}

impl ScriptLayout {
    /// The flags with which the layout is made.
    pub fn flags(&self) -> DescriptorSetLayoutCreateFlags
        ensures { is_marked result ≡ self.now.mark }
    {
        if self.mark {
            DescriptorSetLayoutCreateFlags::UPDATE_AFTER_BIND
        } else {
            DescriptorSetLayoutCreateFlags::empty()
        }
    }

    /// The layout with its counts and its flags, for the calls that take a `SetLayout`.
    pub fn to_set_layout(self) -> SetLayout<ScriptLayout>
        ensures meant { IsMeant script_meaning result }
        ensures layout { result.layout ≡ self }
    {
        SetLayout {
            layout: self,
            counts: self.counts,
            flags: self.flags(),
        }
    }
}

/// A pool of the device.
#[derive(Debug, Drop)]
pub struct RawPool {
    pub(crate) id: u64,
}

impl RawPool {
    /// The name of the pool.
    pub fn id(&self) -> u64
        ensures { result ≡ pool_id self.now }
    {
        self.id
    }
}

/// A set of the device.
#[derive(Debug, Drop)]
pub struct RawSet {
    pub(crate) id: u64,
    pub(crate) pool: u64,
}

impl RawSet {
    /// The name of the set.
    pub fn id(&self) -> u64
        ensures { result ≡ set_id self.now }
    {
        self.id
    }

    /// The name of the pool that the set was allocated from.
    pub fn pool(&self) -> u64
        ensures { result ≡ set_pool self.now }
    {
        self.pool
    }
}
