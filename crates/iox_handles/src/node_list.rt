//! A node's handles, listed while they go one after another.
ghost use Rattle.std.specs.Option.{option_map};
ghost use Rattle.std.specs.Prelude.{◌≡◌, ◌≤◌, IfOk, OnOk, length};
ghost use Rattle.iox_handles.specs.NodeLists.{AllListed, is_list_of, listed_anew, no_list};
ghost use Rattle.iox_handles.specs.Places.{handles_there, least_in};

use crate::entry::Entry;
use crate::numbered::{Numbered, first_there, list_in};
use std::alloc::{AllocError, Global};
use std::marker::Model;

/// The handles that a node had when they were listed, by ascending numbers. Only `new` and
/// `reserve` take memory.
#[derive(Drop)]
pub struct NodeList {
    list: Vec<Numbered>,
    // Those before this place of the list are gone.
    from: usize,
    node: u64,
    // What the table's next number was.
    next: u64,
}

impl Model for NodeList {
    ghost use Rattle.std.specs.List.Sorted.{IsNonDecreasingBy};
    ghost use Rattle.std.specs.Prelude.{vec_capacity};
    ghost use Rattle.iox_handles.specs.NodeLists.{ListState};

    ghost Value = { ListState };

    ghost view = { λ l. record {
      list = l.list.items;
      from = l.from;
      node = l.node;
      next = l.next;
      room = vec_capacity l.list;
    } };

    ghost invariant = { λ l. IsNonDecreasingBy (λ v. v.number) l.list.items };
}

impl NodeList {
    /// No handle, and memory for so many.
    pub fn new(alloc: Global, room: usize) -> Result<NodeList, AllocError>
        ensures { IfOk result (λ l. l ≡ no_list room) }
    {
        Ok(NodeList {
            list: Vec::with_capacity(alloc, room)?,
            from: 0,
            node: 0,
            next: 0,
        })
    }

    /// Makes room for a list of so many handles.
    pub fn reserve(&mut self, room: usize) -> Result<(), AllocError>
        ensures reserved { OnOk result (room ≤ self.new.room) }
        ensures more { self.old.room ≤ self.new.room }
        ensures same { self.new ≡ record (self.old) { room = self.new.room } }
    {
        self.list.reserve(room.saturating_sub(self.list.len()))
    }

    /// Whether it is the list of that node, and no handle came since.
    #[inline]
    pub fn is_of(&self, node: u64, next: u64) -> bool
        ensures { result ≡ is_list_of self.now node next }
    {
        self.node == node && self.next == next
    }

    /// It is the list of no handles that there are.
    #[inline]
    pub fn forget(&mut self)
        ensures { self.new ≡ record (self.old) { next = 0 } }
    {
        self.next = 0;
    }

    /// Lists the node's handles.
    pub fn fill(&mut self, places: &[Entry], node: u64, next: u64)
        requires room { length places.now ≤ self.old.room }
        ensures listed { AllListed (handles_there places.now) self.new }
        ensures anew { self.new ≡ listed_anew self.old node next self.new.list }
    {
        self.list.clear();
        list_in(places, node, &mut self.list);
        self.list.sort_unstable_by_key(|listed| listed.number);
        self.from = 0;
        self.node = node;
        self.next = next;
    }

    /// The first of those listed that is there, which is the node's handle of the least number.
    pub fn first(&mut self, places: &[Entry]) -> Option<Numbered>
        requires listed { AllListed (handles_there places.now) self.old }
        ensures least { option_map (λ v. v.number) result
            ≡ least_in self.old.node (handles_there places.now) }
        ensures listed { AllListed (handles_there places.now) self.new }
        ensures same { self.new ≡ record (self.old) { from = self.new.from } }
    {
        let at = first_there(places, self.node, &self.list, self.from)?;
        self.from = at;
        Some(self.list[at])
    }
}
