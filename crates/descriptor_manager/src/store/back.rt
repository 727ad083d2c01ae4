//! Sets that are freed: each is kept, or returns to its pool.
ghost use Rattle.std.specs.Prelude.{min, ◌≡◌, ℕ, ◌<◌, ◌≤◌, ◌↔◌, length, false, true, is_some, IsFalse, IsTrue};
ghost use Rattle.gpu_descriptor.specs.Caller.CleansUp.{Sweeps};
ghost use Rattle.gpu_descriptor.specs.Caller.Keeps.{Keeps};
ghost use Rattle.gpu_descriptor.specs.Caller.SetLayouts.{IsMeant};

use super::Store;
use crate::returning::Returning;
use descriptor_table::{Group, SetName};
use gpu_descriptor::{CompactDescriptorSet, DescriptorDevice, SetLayout};

impl<L: Drop, P: Drop, S: Drop, D: DescriptorDevice<L, P, S>> Store<L, P, S, D> {
    ghost use Rattle.descriptor_table.specs.Groups.{is_of};
    ghost use Rattle.descriptor_table.specs.Sets.{AllFit, AreHeldOnce};
    ghost use Rattle.descriptor_table.specs.Slots.{is_due, is_kept_of, slot_at};
    ghost use Rattle.descriptor_table.specs.Tables.{Becomes, MayBecome, HasLayout, TurnEach, Turns, is_kept, removed_as};
    ghost use Rattle.descriptor_table.specs.Tables.{settings_of, used_for, vacated};
    ghost use Rattle.descriptor_table.specs.declared.slot.Use.{Use};
    ghost use Rattle.descriptor_manager.specs.Stores.{AreCleaned, Cleans, FreesSets, IsFreed, KeepsStore};
    ghost use Rattle.descriptor_manager.specs.Stores.{IsAtRest, NoneComes};
    ghost use Rattle.descriptor_manager.specs.Stores.{Removes, Settles, SettlesTo};
    ghost use Rattle.descriptor_manager.specs.Stores.{kept_of, removed_in};
    ghost use Rattle.descriptor_manager.specs.Stores.{pools_besides, side_of, slots_in};
    ghost use Rattle.descriptor_manager.specs.WholeSets.{whole_sets};

    /// Returns the sets of a group to their pools. In most frames none goes.
    #[inline]
    fn give(&mut self, group: Group)
        ensures frees { FreesSets (Turns (is_of group) (Becomes vacated)) self.old self.new }
        ensures keeps { Keeps D.meaning (side_of self.old) (side_of self.new) }
        ensures stays { KeepsStore self.old self.new }
        ensures coming { self.new.coming ≡ self.old.coming }
    {
        if self.table.is_empty(group) {
            // A proof knows the allocator's invariant only from what its readers promise.
            prove!(self.allocator.update_after_bind_descriptors() <= u32::MAX);
            prove!(self.allocator.update_after_bind_capacity() <= u32::MAX);
            return;
        }
        self.give_each(group);
    }

    /// Returns the sets of a group to their pools, run by run.
    fn give_each(&mut self, group: Group)
        ensures frees { FreesSets (Turns (is_of group) (Becomes vacated)) self.old self.new }
        ensures keeps { Keeps D.meaning (side_of self.old) (side_of self.new) }
        ensures stays { KeepsStore self.old self.new }
        ensures coming { self.new.coming ≡ self.old.coming }
    {
        let mut sets = Returning {
            table: &mut self.table,
            group,
        };
        self.allocator.free_from(&mut self.device, &mut sets);
        sets.end();
    }

    /// Returns all kept sets to their pools, and destroys all empty pools. Sets in use aren't kept
    /// later.
    #[cold]
    pub(crate) fn cleanup(&mut self)
        requires rest { IsAtRest self.old }
        ensures cleaned { AreCleaned (slots_in self.old) (slots_in self.new) }
        ensures emptied { length (whole_sets self.new.table) ≡ 0
            → ((side_of self.new).ledger).pools ≡ pools_besides self.old }
        ensures cleans { Cleans self.old self.new }
        ensures settles { Settles NoneComes self.old self.new }
        ensures coming { self.new.coming ≡ self.old.coming }
    {
        self.table.age();
        self.table.trim(0);
        self.give(Group::Going);
        self.allocator.trim(&mut self.device);
    }

    /// Destroys all empty pools. Kept sets stay.
    pub(crate) fn trim(&mut self)
        requires rest { IsAtRest self.old }
        ensures trims { Sweeps true D.meaning (side_of self.old) (side_of self.new) }
        ensures slots { slots_in self.new ≡ slots_in self.old }
        ensures settles { Settles NoneComes self.old self.new }
    {
        self.allocator.trim(&mut self.device);
    }

    /// Frees the sets that wait for `frame` or an earlier one: each is kept, or returns to its pool.
    pub(crate) fn finish(&mut self, frame: u64)
        requires rest { IsAtRest self.old }
        ensures back { FreesSets (Turns (is_due frame) (IsFreed self.old)) self.old self.new }
        ensures none_due { (p : ℕ) → is_due frame (slot_at (slots_in self.new) p) ≡ false }
        ensures settles { Settles NoneComes self.old self.new }
    {
        self.table.settle_due(frame);
        self.give(Group::Going);
    }

    /// Frees the held sets of `names` at once: each is kept, or returns to its pool. If a name has no
    /// held set, or is in the list twice, it changes nothing and returns `false`.
    pub(crate) fn free_each<N: SetName<CompactDescriptorSet<S>>>(&mut self, names: &[N]) -> bool
        requires rest { IsAtRest self.old }
        ensures once { IsTrue result ↔ (AreHeldOnce self.old.table.number (slots_in self.old)
            (N.handles_of names.now) × AllFit N.handle_of N.fit (slots_in self.old) names.now) }
        ensures frees { IsTrue result → FreesSets (TurnEach (N.handles_of names.now)
            (IsFreed self.old)) self.old self.new }
        ensures none { IsFalse result → (slots_in self.new ≡ slots_in self.old)
            × (side_of self.new ≡ side_of self.old) }
        ensures settles { Settles NoneComes self.old self.new }
    {
        if !self.table.settle_held(names) {
            return false;
        }
        self.give(Group::Going);
        true
    }

    /// Lets the held sets of `names` wait for a frame. If a name has no held set, or is in the list
    /// twice, it changes nothing and returns `false`.
    pub(crate) fn wait_each<N: SetName<CompactDescriptorSet<S>>>(
        &mut self,
        names: &[N],
        frame: u64,
    ) -> bool
        requires rest { IsAtRest self.old }
        ensures once { IsTrue result ↔ (AreHeldOnce self.old.table.number (slots_in self.old)
            (N.handles_of names.now) × AllFit N.handle_of N.fit (slots_in self.old) names.now) }
        ensures waits { IsTrue result → TurnEach (N.handles_of names.now)
            (Becomes (used_for (Use.Waits frame))) (slots_in self.old) (slots_in self.new) }
        ensures none { IsFalse result → slots_in self.new ≡ slots_in self.old }
        ensures side { side_of self.new ≡ side_of self.old }
        ensures settles { Settles NoneComes self.old self.new }
    {
        self.table.wait_each(names, frame)
    }

    /// Sets how many sets of a layout are kept at most. Those above `max` return to their pools.
    pub(crate) fn set_max_kept(&mut self, max: u32)
        requires rest { IsAtRest self.old }
        ensures trims { FreesSets (Turns is_kept (MayBecome vacated)) self.old self.new }
        ensures few { (layout : ℕ) → kept_of layout self.new ≤ max }
        ensures as_many { (layout : ℕ) → min max (kept_of layout self.old) ≤ kept_of layout self.new }
        ensures settles { SettlesTo (record (settings_of self.old.table) { keep = max }) NoneComes
            self.old self.new }
    {
        self.table.trim(max);
        self.table.set_max_kept(max);
        self.give(Group::Going);
    }

    /// Removes a layout: its kept sets return to their pools, and its other sets aren't kept once they
    /// are freed. Then the empty pools of its key are destroyed. No layout gets its number before all
    /// its sets are back.
    pub(crate) fn remove_layout(&mut self, known: &SetLayout<L>, layout: u32)
        requires meant { IsMeant D.meaning known.now }
        requires rest { IsAtRest self.old }
        requires layout { HasLayout layout self.old.table }
        ensures removes { Removes known.now.layout layout self.old self.new }
        ensures settles { SettlesTo (record (settings_of self.old.table)
            { removed = removed_as true layout (removed_in self.old) }) NoneComes self.old self.new }
    {
        self.give(Group::KeptOf(layout as usize));
        self.table.remove_layout(layout);
        self.allocator.trim_layout(&mut self.device, known);
    }

    /// Returns all sets to their pools: those that are held, those that wait for a frame, and those that
    /// are kept.
    pub(crate) fn free_all(&mut self)
        requires rest { IsAtRest self.old }
        ensures frees { FreesSets (Turns (λ slot. is_some slot.set) (Becomes vacated)) self.old
            self.new }
        ensures settles { Settles NoneComes self.old self.new }
    {
        self.table.let_waiting_go();
        self.table.let_held_go();
        self.table.trim(0);
        self.give(Group::Going);
    }
}
