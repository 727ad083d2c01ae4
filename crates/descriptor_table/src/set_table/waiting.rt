//! Sets that wait for a frame.
ghost use Rattle.std.specs.Prelude.{◌≡◌, ◌≢◌, ◌↔◌, IsFalse, IsTrue, true};
ghost use Rattle.descriptor_table.specs.Slots.{frame_of, last_up_to, waits_for, nexts_in, places_in, waits};

use super::SetTable;
use super::queue::{insert, place_before};
use crate::handle::SetName;
use crate::slot::{Chain, Queue, Use};

/// For how many frames a table knows where the last call put a set.
pub(super) const FRAMES: u64 = 8;

impl<T> SetTable<T> {
    ghost use Rattle.descriptor_table.specs.Sets.{AllFit, AreHeldOnce};
    ghost use Rattle.descriptor_table.specs.Slots.{is_due};
    ghost use Rattle.descriptor_table.specs.Tables.{Becomes, Changes, Picks, PicksAny, Stays, TurnEach};
    ghost use Rattle.descriptor_table.specs.Tables.{slots_of, used_for};

    /// Lets the held sets of `names` wait for a frame, all or none. If a name has no held set, or is in the list
    /// twice, none does, and it returns `false`.
    pub fn wait_each<N: SetName<T>>(&mut self, names: &[N], frame: u64) -> bool
        ensures once { IsTrue result ↔ (AreHeldOnce self.old.number (slots_of self.old)
            (N.handles_of names.now) × AllFit N.handle_of N.fit (slots_of self.old) names.now) }
        ensures waits { IsTrue result → TurnEach (N.handles_of names.now)
            (Becomes (used_for (Use.Waits frame))) (slots_of self.old) (slots_of self.new) }
        ensures none { IsFalse result → slots_of self.new ≡ slots_of self.old }
        ensures stays { Stays self.old self.new }
    {
        let Some(name) = names.first() else {
            return true;
        };
        let last = name.handle().place;
        let recent = (frame % FRAMES) as usize;
        let near = place_before(&self.slots, self.waiting, self.recent[recent], frame);
        let Some(first) = self
            .slots
            .use_each(self.number, names, Use::Waits(frame), None, 0)
        else {
            return false;
        };
        let count = names.len() as u32;
        let sets = Queue {
            list: Chain { first, count },
            last,
        };
        insert(&mut self.slots, &mut self.waiting, near, sets);
        self.recent[recent] = last;
        true
    }

    /// The place in the queue after which a set in this use comes, if it waits for a frame. `None` if it comes first.
    #[inline]
    pub(super) fn place_for(&self, used: Use) -> Option<u32>
        ensures { waits_for (λ frame. true) used ≡ true → result ≡ last_up_to (slots_of self.now)
            (frame_of used) (places_in (nexts_in self.now.slots) self.now.waiting) }
    {
        if !used.waits() {
            return None;
        }
        place_before(&self.slots, self.waiting, u32::MAX, used.frame())
    }

    /// Takes the first set out of the queue.
    #[inline]
    fn take_first(&mut self) -> usize
        requires some { self.old.waiting.list.count ≢ 0 }
        ensures first { result ≡ self.old.waiting.list.first }
        ensures takes { Changes (Picks waits (used_for Use.Taken) result) self.old self.new }
    {
        let place = self.waiting.list.first as usize;
        let next = self.slots.at(place).next;
        self.waiting.list.pop(next);
        self.slots.set_use(place, Use::Taken);
        place
    }

    /// Takes a set that waits for a frame, if there is one.
    #[inline]
    pub(super) fn pick_waiting(&mut self) -> Option<usize>
        ensures { Changes (PicksAny waits result) self.old self.new }
    {
        if self.waiting.list.count == 0 {
            return None;
        }
        Some(self.take_first())
    }

    /// Takes a set that waits for a frame up to this one, if there is one.
    #[inline]
    pub(super) fn pick_due(&mut self, frame: u64) -> Option<usize>
        ensures { Changes (PicksAny (is_due frame) result) self.old self.new }
    {
        if self.waiting.list.count == 0 {
            return None;
        }
        if self.slots.frame(self.waiting.list.first as usize) > frame {
            return None;
        }
        Some(self.take_first())
    }
}
