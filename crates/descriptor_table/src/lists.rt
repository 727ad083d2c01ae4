//! The lists of slots without a set, of sets that go, and of the kept sets of each layout.
ghost use Rattle.std.specs.Prelude.{◌≡◌, ◌≢◌, ◌+◌, ◌-◌, ◌<◌, ◌≤◌, [], ◌∷◌, ◌++◌, false, true, slice_set, vec_capacity};

use crate::group::Group;
use crate::slot::Chain;
use std::alloc::Global;
use std::vec::Vec;

/// The lists of a table.
#[derive(Drop)]
pub struct Lists {
    /// The slots without a set.
    pub(crate) vacant: Chain,

    /// The sets that return to their pools.
    pub(crate) going: Chain,

    /// The kept sets of each layout, by its number.
    pub(crate) kept: Vec<Chain>,
}

impl Lists {
    ghost use Rattle.descriptor_table.specs.Groups.{list_of};
    ghost use Rattle.descriptor_table.specs.Lists.{HasList, Relisted, chains_in, layouts_in, removed_in};
    ghost use Rattle.descriptor_table.specs.Slots.{chain_at};
    ghost use Rattle.descriptor_table.specs.Tables.{removed_as};

    /// Lists without slots, and no layouts. It allocates no memory.
    pub(crate) fn new(alloc: Global) -> Self
        ensures chains { chains_in result ≡ record { first = 0; count = 0 } ∷ record { first = 0; count = 0 } ∷ [] }
        ensures layouts { layouts_in result ≡ 0 }
        ensures removed { removed_in result ≡ λ layout. false }
    {
        Lists {
            vacant: Chain::EMPTY,
            going: Chain::EMPTY,
            kept: Vec::new(alloc),
        }
    }

    /// The list of a group, empty if there is no such layout.
    #[inline]
    pub(crate) fn get(&self, group: Group) -> Chain
        ensures { result ≡ chain_at (chains_in self.now) (list_of group) }
    {
        match group {
            Group::Going => self.going,
            Group::KeptOf(layout) => match self.kept.get(layout) {
                Some(list) => list.shown(),
                None => Chain::EMPTY,
            },
        }
    }

    /// The first slot of the list of a group.
    #[inline]
    pub(crate) fn first(&self, group: Group) -> u32
        requires { HasList group self.now }
        ensures { result ≡ (chain_at (chains_in self.now) (list_of group)).first }
    {
        match group {
            Group::Going => self.going.first,
            Group::KeptOf(layout) => self.kept[layout].first,
        }
    }

    /// Makes a slot the first of the list of a group. Its next is to be the one that was first.
    #[inline]
    pub(crate) fn push(&mut self, group: Group, place: u32)
        requires there { HasList group self.old }
        requires few { (chain_at (chains_in self.old) (list_of group)).count + 1 < 4294967295 }
        ensures { Relisted (list_of group) (record {
          first = place;
          count = (chain_at (chains_in self.old) (list_of group)).count + 1;
        }) self.old self.new }
    {
        match group {
            Group::Going => self.going.push(place),
            Group::KeptOf(layout) => self.kept[layout].push(place),
        }
    }

    /// Puts slots first in the list of a layout. The next of the last one is to be the one that was first.
    #[inline]
    pub(crate) fn prepend(&mut self, layout: usize, first: u32, many: u32)
        requires there { HasList (Group.KeptOf layout) self.old }
        requires few { (chain_at (chains_in self.old) (layout + 2)).count + many < 4294967295 }
        ensures { Relisted (layout + 2) (record {
          first = first;
          count = (chain_at (chains_in self.old) (layout + 2)).count + many;
        }) self.old self.new }
    {
        let list = &mut self.kept[layout];
        list.first = first;
        list.count += many;
    }

    /// Takes the first slot from the list of a group, with the one that comes next.
    #[inline]
    pub(crate) fn pop(&mut self, group: Group, next: u32)
        requires there { HasList group self.old }
        requires some { (chain_at (chains_in self.old) (list_of group)).count ≢ 0 }
        requires few { (chain_at (chains_in self.old) (list_of group)).count < 4294967295 }
        ensures { Relisted (list_of group) (record {
          first = next;
          count = (chain_at (chains_in self.old) (list_of group)).count - 1;
        }) self.old self.new }
    {
        match group {
            Group::Going => self.going.pop(next),
            Group::KeptOf(layout) => self.kept[layout].pop(next),
        }
    }

    /// Adds a layout, in reserved memory.
    pub(crate) fn add(&mut self)
        requires { layouts_in self.old + 1 ≤ vec_capacity self.old.kept }
        ensures chains { chains_in self.new ≡ chains_in self.old ++ record { first = 0; count = 0 } ∷ [] }
        ensures layouts { layouts_in self.new ≡ layouts_in self.old + 1 }
        ensures removed { removed_in self.new ≡ removed_in self.old }
    {
        self.kept.push_reserved(Chain::EMPTY);
    }

    /// Gives a removed layout's number to another one.
    pub(crate) fn renew(&mut self, layout: u32)
        requires within { layout < layouts_in self.old }
        requires removed { removed_in self.old layout ≡ true }
        ensures chains { chains_in self.new ≡ chains_in self.old }
        ensures layouts { layouts_in self.new ≡ layouts_in self.old }
        ensures removed { removed_in self.new ≡ removed_as false layout (removed_in self.old) }
        ensures space { vec_capacity self.new.kept ≡ vec_capacity self.old.kept }
    {
        self.kept[layout as usize] = Chain::EMPTY;
    }

    /// Removes a layout, whose list becomes empty.
    pub(crate) fn remove(&mut self, layout: u32)
        requires { layout < layouts_in self.old }
        ensures chains { chains_in self.new ≡ slice_set (chains_in self.old) (layout + 2)
            (record { first = 0; count = 0 }) }
        ensures layouts { layouts_in self.new ≡ layouts_in self.old }
        ensures removed { removed_in self.new ≡ removed_as true layout (removed_in self.old) }
    {
        self.kept[layout as usize] = Chain::REMOVED;
    }
}
