//! The callers of one layout and of two, on a device of its own.
ghost use Rattle.std.specs.Prelude.{◌≡◌};
ghost use Rattle.descriptor_script.specs.Scripted.Device.{empty_ledger};
ghost use Rattle.descriptor_examples.specs.FewPools.{few_ledger};

use crate::few_pools::FewPools;
use crate::{one_layout, two_layouts};
use bitflags::Flags;
use descriptor_script::ScriptLayout;
use gpu_descriptor::{
    AllocationError, DescriptorSetLayoutCreateFlags, DescriptorTotalCount, SetLayout,
};
use std::alloc::Global;

/// What a drawing leaves.
#[derive(Drop)]
pub struct Drawn<const MAX: u32> {
    pub device: FewPools<MAX>,
    pub answer: Result<(), AllocationError>,
}

/// Makes a device and an allocator, allocates sets of one layout, and frees all. The device then has
/// the pools that a new one has.
pub fn render_one(alloc: Global) -> Drawn<1>
    ensures pools { (few_ledger result.device).pools ≡ empty_ledger.pools }
{
    let counts = DescriptorTotalCount {
        sampler: 1,
        ..DescriptorTotalCount::default()
    };
    let layout = ScriptLayout {
        counts,
        mark: false,
    };
    let flags = DescriptorSetLayoutCreateFlags::empty();
    let mut device = FewPools::new(alloc);
    let answer = one_layout::draw_once(alloc, &mut device, &layout, flags, &counts);
    Drawn { device, answer }
}

/// The same with sets of two layouts.
pub fn render(alloc: Global) -> Drawn<5>
    ensures pools { (few_ledger result.device).pools ≡ empty_ledger.pools }
{
    let textures = DescriptorTotalCount {
        sampler: 1,
        ..DescriptorTotalCount::default()
    };
    let buffers = DescriptorTotalCount {
        uniform_buffer: 2,
        ..DescriptorTotalCount::default()
    };
    let first = SetLayout {
        layout: ScriptLayout {
            counts: textures,
            mark: false,
        },
        counts: textures,
        flags: DescriptorSetLayoutCreateFlags::empty(),
    };
    let second = SetLayout {
        layout: ScriptLayout {
            counts: buffers,
            mark: true,
        },
        counts: buffers,
        flags: DescriptorSetLayoutCreateFlags::UPDATE_AFTER_BIND,
    };
    let mut device = FewPools::new(alloc);
    let answer = two_layouts::draw_once(alloc, &mut device, &first, &second);
    Drawn { device, answer }
}
