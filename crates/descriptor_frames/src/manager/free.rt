//! Freeing sets, at once or when their frames are done, and destroying pools without sets.
ghost use Rattle.std.specs.Iterator.{HoldsAlong};
ghost use Rattle.gpu_descriptor_types.specs.Ledger.{CanDrain};
ghost use Rattle.gpu_descriptor_types.specs.Side.{side};
ghost use Rattle.gpu_descriptor.specs.Caller.Frees.{Frees, Returns};
ghost use Rattle.gpu_descriptor.specs.Caller.Keeps.{Keeps};
ghost use Rattle.gpu_descriptor.specs.Caller.Sets.{items_of};
ghost use Rattle.gpu_descriptor.specs.Caller.States.{Agrees};
ghost use Rattle.std.specs.Prelude.{◌≡◌, ◌+◌, ◌≤◌, [], length, false, true};
ghost use Rattle.descriptor_frames.specs.Retired.{later};
ghost use Rattle.gpu_descriptor.specs.Caller.CleansUp.{Sweeps, TrimsKey};
ghost use Rattle.gpu_descriptor.specs.Caller.Call.{layout_key};
ghost use Rattle.gpu_descriptor.specs.Caller.SetLayouts.{IsMeant};

use super::FrameManager;
use crate::due::Due;
use gpu_descriptor::{DescriptorDevice, DescriptorSet, SetLayout};
use std::vec::Vec;

impl<P, S> FrameManager<P, S> {
    ghost use Rattle.descriptor_frames.specs.Frames.{AreInUse, KeepsRetired, LeavesUse};
    ghost use Rattle.descriptor_frames.specs.Frames.{allocator_of, AreRetiredOut};
    ghost use Rattle.descriptor_frames.specs.Frames.{KeepsInUse, due_sets, greatest_of, retired_of};
    ghost use Rattle.descriptor_frames.specs.Frames.{reserve_of};

    /// Frees the sets in use that the iterator yields up to its end, at once. Same as
    /// `DescriptorAllocator::free_from`; retired sets stay. It allocates no memory. Nothing that uses
    /// one of the sets may have been submitted, or the device must be done with it.
    pub fn free_from<L, D: DescriptorDevice<L, P, S>, I: Iterator<Item = DescriptorSet<S>>>(
        &mut self,
        device: &mut D,
        sets: &mut I,
    )
        requires ends { CanDrain I.can_next I.remaining sets.old }
        requires agree { Agrees D.meaning.pool_name (allocator_of self.old) (D.ledger device.old) }
        requires in_use { HoldsAlong I.next_gives sets.old (λ xs. AreInUse D.meaning.pool_name
            D.meaning.set_name (items_of D.meaning.set_name xs) self.old (D.ledger device.old)) }

        ensures frees { (freed : Frees D.meaning I.next_gives sets.old sets.new
            (side (allocator_of self.old) (D.ledger device.old))
            (side (allocator_of self.new) (D.ledger device.new))) × LeavesUse D.meaning.pool_name
            D.meaning.set_name self.old self.new (D.ledger device.old) (D.ledger device.new)
            (items_of D.meaning.set_name freed.sets) }
        ensures keeps { KeepsRetired D.meaning (side self.old (D.ledger device.old))
            (side self.new (D.ledger device.new)) }
    {
        self.allocator.free_from(device, sets);
    }

    /// Frees all sets that were retired at this frame or before, those of earlier frames first. It
    /// allocates no memory and can't fail. The device must be done with the work of these frames.
    ///
    /// The number of steps is about that of the freed sets; the others are not moved. Without any it
    /// makes no device call and changes nothing.
    pub fn finish<L, D: DescriptorDevice<L, P, S>>(&mut self, device: &mut D, frame: u64)
        requires agree { Agrees D.meaning.pool_name (allocator_of self.old) (D.ledger device.old) }
        requires retired { AreRetiredOut D.meaning.pool_name D.meaning.set_name self.old
            (D.ledger device.old) }

        ensures returns { Returns D.meaning (due_sets frame self.old)
            (side (allocator_of self.old) (D.ledger device.old))
            (side (allocator_of self.new) (D.ledger device.new)) }
        ensures keeps { Keeps D.meaning (side (allocator_of self.old) (D.ledger device.old))
            (side (allocator_of self.new) (D.ledger device.new)) }

        ensures rest { retired_of self.new ≡ later frame (retired_of self.old) }
        ensures count { length (retired_of self.new) + length (due_sets frame self.old)
            ≡ length (retired_of self.old) }
        ensures all { greatest_of self.old ≤ frame → retired_of self.new ≡ [] }
        ensures reserve { reserve_of self.new
            ≡ reserve_of self.old + length (due_sets frame self.old) }
        ensures greatest { greatest_of self.new ≡ greatest_of self.old }
        ensures retired { AreRetiredOut D.meaning.pool_name D.meaning.set_name self.new
            (D.ledger device.new) }
        ensures in_use { KeepsInUse D.meaning.pool_name D.meaning.set_name self.old self.new
            (D.ledger device.old) (D.ledger device.new) }
    {
        // An iterator that borrows the list, since splitting it would move the other sets, or allocate.
        let mut due = Due {
            retired: &mut self.retired,
            frame,
        };
        self.allocator.free_from(device, &mut due);
        due.end();
    }
}

impl<P, S: Drop> FrameManager<P, S> {
    ghost use Rattle.descriptor_frames.specs.Frames.{AreInUse, KeepsRetired, LeavesUse};
    ghost use Rattle.descriptor_frames.specs.Frames.{allocator_of};

    /// Frees sets in use at once. Same as `DescriptorAllocator::free_all`; retired sets stay. Nothing
    /// that uses one of the sets may have been submitted, or the device must be done with it.
    pub fn free_all<L, D: DescriptorDevice<L, P, S>>(
        &mut self,
        device: &mut D,
        sets: Vec<DescriptorSet<S>>,
    )
        requires agree { Agrees D.meaning.pool_name (allocator_of self.old) (D.ledger device.old) }
        requires in_use { AreInUse D.meaning.pool_name D.meaning.set_name
            (items_of D.meaning.set_name sets.items) self.old (D.ledger device.old) }

        ensures returns { Returns D.meaning sets.items
            (side (allocator_of self.old) (D.ledger device.old))
            (side (allocator_of self.new) (D.ledger device.new)) }
        ensures keeps { KeepsRetired D.meaning (side self.old (D.ledger device.old))
            (side self.new (D.ledger device.new)) }
        ensures in_use { LeavesUse D.meaning.pool_name D.meaning.set_name self.old self.new
            (D.ledger device.old) (D.ledger device.new) (items_of D.meaning.set_name sets.items) }
    {
        self.allocator.free_all(device, sets);
    }
}

impl<P: Drop, S> FrameManager<P, S> {
    ghost use Rattle.descriptor_frames.specs.Frames.{KeepsInUse, KeepsRetired, allocator_of};

    /// Destroys pools without sets. Same as `DescriptorAllocator::cleanup`. A pool of a retired set
    /// stays.
    pub fn cleanup<L, D: DescriptorDevice<L, P, S>>(&mut self, device: &mut D)
        requires agree { Agrees D.meaning.pool_name (allocator_of self.old) (D.ledger device.old) }
        ensures cleans_up { Sweeps false D.meaning (side (allocator_of self.old) (D.ledger device.old))
            (side (allocator_of self.new) (D.ledger device.new)) }
        ensures keeps { KeepsRetired D.meaning (side self.old (D.ledger device.old))
            (side self.new (D.ledger device.new)) }
        ensures in_use { KeepsInUse D.meaning.pool_name D.meaning.set_name self.old self.new
            (D.ledger device.old) (D.ledger device.new) }
    {
        self.allocator.cleanup(device);
    }

    /// Destroys all pools without sets. Same as `DescriptorAllocator::trim`. A pool of a retired set
    /// stays.
    pub fn trim<L, D: DescriptorDevice<L, P, S>>(&mut self, device: &mut D)
        requires agree { Agrees D.meaning.pool_name (allocator_of self.old) (D.ledger device.old) }
        ensures trims { Sweeps true D.meaning (side (allocator_of self.old) (D.ledger device.old))
            (side (allocator_of self.new) (D.ledger device.new)) }
        ensures keeps { KeepsRetired D.meaning (side self.old (D.ledger device.old))
            (side self.new (D.ledger device.new)) }
        ensures in_use { KeepsInUse D.meaning.pool_name D.meaning.set_name self.old self.new
            (D.ledger device.old) (D.ledger device.new) }
    {
        self.allocator.trim(device);
    }

    /// Destroys the pools of a layout's key that have no set. Same as `DescriptorAllocator::trim_layout`. A
    /// pool of a retired set stays.
    pub fn trim_layout<L, D: DescriptorDevice<L, P, S>>(
        &mut self,
        device: &mut D,
        layout: &SetLayout<L>,
    )
        requires meant { IsMeant D.meaning layout.now }
        requires agree { Agrees D.meaning.pool_name (allocator_of self.old) (D.ledger device.old) }
        ensures trims { TrimsKey D.meaning (layout_key D.meaning layout.now.layout)
            (side (allocator_of self.old) (D.ledger device.old))
            (side (allocator_of self.new) (D.ledger device.new)) }
        ensures keeps { KeepsRetired D.meaning (side self.old (D.ledger device.old))
            (side self.new (D.ledger device.new)) }
        ensures in_use { KeepsInUse D.meaning.pool_name D.meaning.set_name self.old self.new
            (D.ledger device.old) (D.ledger device.new) }
    {
        self.allocator.trim_layout(device, layout);
    }
}
