//! The queue of the sets that wait for a frame, in rising order of their frames.
ghost use Rattle.std.specs.Prelude.{◌≡◌, ◌≢◌, ℕ, ◌+◌, ◌++◌, ◌<◌, ◌≤◌, IfSome, List, None, Some, false, is_some, length, slice_index_or, slice_set, true};
ghost use Rattle.std.specs.List.{last_or};
ghost use Rattle.std.specs.List.Sorted.{IsNonDecreasingBy};
ghost use Rattle.descriptor_table.specs.Places.{times};
ghost use Rattle.descriptor_table.specs.Slots.{IsQueue, Lists, Slot, frame_at, frame_of, last_up_to, waits_for, nexts_in, places_in, slot_at, slots_in, space_in, waits};

use crate::slot::{Chain, Queue, Use};
use crate::slot_list::SlotList;

/// A place in the queue of a set that waits for this frame or an earlier one: `hint`, or the first one. `None`
/// if there is none.
fn due_place<T>(slots: &SlotList<T>, queue: Queue, hint: u32, frame: u64) -> Option<u32>
    requires some { queue.list.count ≢ 0 }
    requires hint { waits (slot_at (slots_in slots.now) hint) ≡ true
        → times hint (places_in (nexts_in slots.now) queue) ≢ 0 }
    ensures found { IfSome result (λ place. (times place (places_in (nexts_in slots.now) queue) ≢ 0)
        × (frame_at (slots_in slots.now) place ≤ frame)) }
    ensures none { result ≡ None → frame < frame_at (slots_in slots.now) queue.list.first }
{
    if slots.is_due(hint, frame) {
        return Some(hint);
    }
    if slots.frame_at(queue.list.first) > frame {
        return None;
    }
    Some(queue.list.first)
}

/// The last place in the queue of a set that waits for this frame or an earlier one, while the last set waits
/// for a later one. It walks from `hint` on, or else from the first place.
#[inline(never)]
fn earlier_place<T>(slots: &SlotList<T>, queue: Queue, hint: u32, frame: u64) -> Option<u32>
    requires some { queue.list.count ≢ 0 }
    requires hint { waits (slot_at (slots_in slots.now) hint) ≡ true
        → times hint (places_in (nexts_in slots.now) queue) ≢ 0 }
    requires rises { IsNonDecreasingBy (frame_at (slots_in slots.now)) (places_in (nexts_in slots.now) queue) }
    requires ends { last_or (Some queue.last) (places_in (nexts_in slots.now) queue) ≡ Some queue.last }
    ensures { result ≡ last_up_to (slots_in slots.now) frame (places_in (nexts_in slots.now) queue) }
{
    let Some(mut near) = due_place(slots, queue, hint, frame) else {
        return None;
    };
    for _ in 1..queue.list.count {
        if near == queue.last {
            return Some(near);
        }
        let next = slots.next(near);
        if slots.frame_at(next) > frame {
            return Some(near);
        }
        near = next;
    }
    Some(near)
}

/// The place in the queue after which a set comes that waits for this frame. `None` if it comes first.
#[inline]
pub(super) fn place_before<T>(
    slots: &SlotList<T>,
    queue: Queue,
    hint: u32,
    frame: u64,
) -> Option<u32>
    requires hint { waits (slot_at (slots_in slots.now) hint) ≡ true
        → times hint (places_in (nexts_in slots.now) queue) ≢ 0 }
    requires rises { IsNonDecreasingBy (frame_at (slots_in slots.now)) (places_in (nexts_in slots.now) queue) }
    requires ends { last_or (Some queue.last) (places_in (nexts_in slots.now) queue) ≡ Some queue.last }
    requires last { queue.list.count ≢ 0 → waits (slot_at (slots_in slots.now) queue.last) ≡ true }
    ensures { result ≡ last_up_to (slots_in slots.now) frame (places_in (nexts_in slots.now) queue) }
{
    if queue.list.count == 0 {
        return None;
    }
    if slots.frame(queue.last as usize) <= frame {
        return Some(queue.last);
    }
    earlier_place(slots, queue, hint, frame)
}

/// Puts sets that wait for the same frame into the queue after a place, or first. They are linked as in a queue of
/// their own.
#[inline]
pub(super) fn insert<T>(slots: &mut SlotList<T>, queue: &mut Queue, near: Option<u32>, sets: Queue)
    requires place { (frame : ℕ) × (near ≡ last_up_to (slots_in slots.old) frame
        (places_in (nexts_in slots.old) queue.old))
        × ((p : ℕ) → times p (places_in (nexts_in slots.old) sets) ≢ 0 → frame_at (slots_in slots.old) p ≡ frame) }
    requires few { queue.old.list.count + sets.list.count < 4294967296 }
    requires has { Lists waits (slots_in slots.old) (places_in (nexts_in slots.old) queue.old
        ++ places_in (nexts_in slots.old) sets) }
    requires rises { IsNonDecreasingBy (frame_at (slots_in slots.old)) (places_in (nexts_in slots.old) queue.old) }
    requires ends { last_or (Some queue.old.last) (places_in (nexts_in slots.old) queue.old)
        ≡ Some queue.old.last }
    requires sets { last_or None (places_in (nexts_in slots.old) sets) ≡ Some sets.last }
    ensures queue { IsQueue (slots_in slots.old) (places_in (nexts_in slots.new) queue.new) queue.new.last }
    ensures nexts { (p : ℕ) → waits (slot_at (slots_in slots.old) p) ≡ false → slice_index_or
        (nexts_in slots.new) p 0 ≡ slice_index_or (nexts_in slots.old) p 0 }
    ensures slots { slots_in slots.new ≡ slots_in slots.old }
    ensures space { space_in slots.new ≡ space_in slots.old }
{
    match near {
        Some(near) => {
            if near == queue.last {
                queue.last = sets.last;
            } else {
                slots.set_next(sets.last as usize, slots.at(near as usize).next);
            }
            slots.set_next(near as usize, sets.list.first);
        }
        None => {
            slots.set_next(sets.last as usize, queue.list.first);
            queue.list.first = sets.list.first;
            if queue.list.count == 0 {
                queue.last = sets.last;
            }
        }
    }
    queue.list.count += sets.list.count;
}

/// Puts a slot into the queue after a place, or first, if its set came to a use in which it waits for a frame.
#[inline]
pub(super) fn enqueue<T>(
    slots: &mut SlotList<T>,
    queue: &mut Queue,
    near: Option<u32>,
    place: u32,
    used: Use,
)
    requires within { place < length (slots_in slots.old) }
    requires size { length (slots_in slots.old) < 4294967295 }
    requires came { (old : List (Slot T)) × (s : Slot T) × (slots_in slots.old ≡ slice_set old place s)
        × (s.used ≡ used) × (is_some s.set ≡ true) × (waits (slot_at old place) ≡ false)
        × IsQueue old (places_in (nexts_in slots.old) queue.old) queue.old.last
        × (waits_for (λ frame. true) used ≡ true → near ≡ last_up_to old (frame_of used)
        (places_in (nexts_in slots.old) queue.old)) }
    ensures queue { IsQueue (slots_in slots.new) (places_in (nexts_in slots.new) queue.new) queue.new.last }
    ensures nexts { (p : ℕ) → waits (slot_at (slots_in slots.old) p) ≡ false → slice_index_or
        (nexts_in slots.new) p 0 ≡ slice_index_or (nexts_in slots.old) p 0 }
    ensures slots { slots_in slots.new ≡ slots_in slots.old }
    ensures space { space_in slots.new ≡ space_in slots.old }
{
    if !used.waits() {
        return;
    }
    let set = Queue {
        list: Chain {
            first: place,
            count: 1,
        },
        last: place,
    };
    insert(slots, queue, near, set);
}
