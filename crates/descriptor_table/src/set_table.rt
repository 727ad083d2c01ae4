//! The table of a set manager's sets. Each set has a slot, and stays there while it is reused.
ghost use Rattle.std.specs.Prelude.{◌≡◌, ◌+◌, ◌<◌, ◌&&◌, [], length, true, if◌then◌else◌, IfSome, IsOk, None, OnErr, OnOk, false};
ghost use Rattle.std.specs.Option.{option_copied};
ghost use Rattle.descriptor_table.specs.Lists.{chains_in, layouts_in, removed_in};
ghost use Rattle.descriptor_table.specs.Slots.{AreCounted, AreSound, no_slot, slot_at, slot_of, slots_in};
ghost use Rattle.descriptor_table.specs.Places.{count};
ghost use Rattle.descriptor_table.specs.Users.{users_in};

mod back;
mod counts;
mod layouts;
mod lists;
mod queue;
mod sets;
mod waiting;

use self::waiting::FRAMES;
use crate::handle::SetHandle;
use crate::lists::Lists;
use crate::slot::{Chain, Queue};
use crate::slot_list::{AGED, SlotList};
use crate::users::LayoutUsers;
use std::alloc::{AllocError, Global};

/// The max number of slots.
const MAX_SLOTS: u64 = u32::MAX as u64 - 1;

/// The max number of layouts.
pub(crate) const MAX_LAYOUTS: usize = AGED as usize;

/// How many groups of sets that go there are.
pub(crate) const GROUPS: usize = 8;

/// A set manager's sets, each in a slot.
#[derive(Drop)]
pub struct SetTable<T> {
    /// The number that marks the set manager's handles.
    pub(crate) number: u64,
    pub(crate) slots: SlotList<T>,

    pub(crate) lists: Lists,
    pub(crate) users: LayoutUsers,

    /// The queue of the sets that wait for a frame, by rising frame.
    pub(crate) waiting: Queue,

    /// The max of the kept sets of a layout.
    pub(crate) keep: u32,

    /// By the remainder of frames, the place where the last call of `wait_each` put a set into the queue. A set may be gone from there.
    pub(crate) recent: [u32; FRAMES as usize],

    /// For each group the place of the last set that went, after which the next one comes if it still goes.
    pub(crate) near: [u32; GROUPS],
    ghost sound: { AreSound slots (chains_in lists) (layouts_in lists) waiting keep },
    ghost counted: { AreCounted (slots_in slots) (layouts_in lists) (removed_in lists) (users_in users) },
}

impl<T> SetTable<T> {
    ghost use Rattle.descriptor_table.specs.Sets.{find};
    ghost use Rattle.descriptor_table.specs.Tables.{HasPlaces, HasRoom, ids_of, settings_of};
    ghost use Rattle.descriptor_table.specs.Tables.{is_usable, slots_of};

    /// A table without sets and layouts. It allocates no memory.
    pub fn new(alloc: Global, number: u64) -> Self
        ensures slots { slots_of result ≡ [] }
        ensures settings { settings_of result ≡ record {
          number = number;
          layouts = 0;
          removed = λ layout. false;
          keep = u32.MAX;
        } }
    {
        SetTable {
            number,
            slots: SlotList::new(alloc),
            lists: Lists::new(alloc),
            users: LayoutUsers::new(alloc),
            waiting: Queue {
                list: Chain::EMPTY,
                last: 0,
            },
            keep: u32::MAX,
            recent: [u32::MAX; FRAMES as usize],
            near: [u32::MAX; GROUPS],
        }
    }

    /// The set of a handle, while `frame` is the open frame if `is_open`.
    #[inline]
    pub fn get(&self, handle: SetHandle, frame: u64, is_open: bool) -> Option<&T>
        ensures { option_copied result ≡ find self.now.number frame is_open (slots_of self.now)
            handle }
    {
        let slot = self.slots.last(self.number, handle)?;
        if !slot.used().is_live(frame, is_open) {
            return None;
        }
        slot.set.as_ref()
    }

    /// Reserves memory for `additional` more sets: slots without a set, and new slots for the others.
    /// Adding these sets then allocates no memory.
    #[inline]
    pub fn reserve(&mut self, additional: u32) -> Result<(), AllocError>
        ensures room { OnOk result (HasRoom additional self.new) }
        ensures fits { HasRoom additional self.old → IsOk result }
        ensures full { OnErr result (count is_usable (slots_of self.old) < additional) }
        ensures slots { slots_of self.new ≡ slots_of self.old }
        ensures settings { settings_of self.new ≡ settings_of self.old }
        ensures ids { ids_of self.new ≡ ids_of self.old }
    {
        let vacant = self.lists.vacant.count;
        if additional <= vacant {
            return Ok(());
        }
        self.reserve_slots(additional - vacant)
    }

    /// Reserves memory for `additional` more slots.
    fn reserve_slots(&mut self, additional: u32) -> Result<(), AllocError>
        ensures room { OnOk result (HasPlaces additional self.new) }
        ensures fits { HasPlaces additional self.old → IsOk result }
        ensures slots { slots_of self.new ≡ slots_of self.old }
        ensures settings { settings_of self.new ≡ settings_of self.old }
        ensures ids { ids_of self.new ≡ ids_of self.old }
    {
        let places = self.slots.len() as u64 + u64::from(additional);
        if places > MAX_SLOTS {
            return Err(AllocError);
        }
        self.slots.reserve(additional as usize)
    }
}
