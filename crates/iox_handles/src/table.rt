//! The table of a hub's handles.
ghost use Rattle.std.specs.Option.{option_and_then, option_map};
ghost use Rattle.std.specs.Prelude.{◌≡◌, ◌<◌, ◌≤◌, ◌+◌, ◌^◌, IfOk, IfSome, IsSome, None, OnErr, OnOk, Some, filter, is_some, length, map, true};
ghost use Rattle.iox_handles.specs.Least.{least};
ghost use Rattle.iox_handles.specs.Tallies.{is_counted_at, tally_place};
ghost use Rattle.iox_handles.specs.Tables.{IsSound, added, changed, count_like, count_of, handle_at, handle_of, handles_of, has_any, new_contents, removed, turned};

mod known;
mod near;
mod removing;

use crate::entry::Entry;
use crate::entry_test::EntryTest;
use crate::kind_change::KindChange;
use crate::least::least_in;
use crate::node_list::NodeList;
use crate::numbered::Numbered;
use crate::places::{
    REMAINDERS, count_alike_in, count_if_in, count_in, has_handle, known_place, place_of,
    place_of_port, remainder,
};
use crate::tally::{Tally, is_tallied};
use crate::vacant::{NOBODY, write};
use iox_model::kind::Kind;
use std::alloc::{AllocError, Global};
use std::marker::Model;

/// Where no handle is.
const NOWHERE: usize = usize::MAX;

/// A hub's handles, by their numbers. Room for them is reserved before they come: only `new` and
/// `reserve` take memory.
#[derive(Drop)]
pub struct Table {
    places: Vec<Entry>,
    // The vacant places.
    free: Vec<usize>,
    // How many places there may be, the vacant ones too.
    most: usize,
    // Above the number of each handle.
    next: u64,
    // By remainders of their numbers, where handles are likely to be: of those with one remainder,
    // where the last came.
    likely: [usize; REMAINDERS],
    // By remainders of ports' numbers, where a handle of the port was found last.
    found: [usize; REMAINDERS],
    // The handles of the node whose handles went last.
    listed: NodeList,
    // How many handles of some kinds ports have.
    tally: Tally,
}

impl Model for Table {
    ghost use Rattle.std.specs.Prelude.{vec_capacity};
    ghost use Rattle.iox_handles.specs.Tables.{Contents};
    ghost use Rattle.iox_handles.specs.Places.{handles_in, handles_there, room_in};
    ghost use Rattle.iox_handles.specs.Memory.{IsInMemory};

    ghost Value = { Contents };

    ghost view = { λ t. record {
      room = room_in t.most t.places.items t.free.items;
      next = t.next;
      handles = handles_in (handles_there t.places.items) t.next;
    } };

    ghost invariant = { λ t. IsInMemory t.places.items t.free.items t.most t.next
        (vec_capacity t.places) (vec_capacity t.free) t.listed t.tally.counts };
}

impl Table {
    /// A table with room for so many handles.
    pub fn new(alloc: Global, room: usize) -> Result<Table, AllocError>
        ensures { IfOk result (λ table. table ≡ new_contents room) }
    {
        let places = Vec::with_capacity(alloc, room)?;
        let free = Vec::with_capacity(alloc, room)?;
        let listed = NodeList::new(alloc, room)?;
        Ok(Table {
            places,
            free,
            most: room,
            next: 0,
            likely: [NOWHERE; REMAINDERS],
            found: [0; REMAINDERS],
            listed,
            tally: Tally::new(),
        })
    }

    /// How many handles may be added.
    #[inline]
    pub fn room(&self) -> usize
        ensures room { result ≡ self.now.room }
        ensures sound { IsSound self.now }
    {
        self.most - self.places.len() + self.free.len()
    }

    /// A number above that of each handle, which the next one may have.
    #[inline(always)]
    pub fn next_number(&self) -> u64
        ensures { result ≡ self.now.next }
    {
        self.next
    }

    /// Makes room for so many handles more.
    pub fn reserve(&mut self, more: usize) -> Result<(), AllocError>
        ensures reserved { OnOk result (self.new
            ≡ record (self.old) { room = self.old.room + more }) }
        ensures unchanged { OnErr result (self.new ≡ self.old) }
    {
        let Some(most) = self.most.checked_add(more) else {
            return Err(AllocError);
        };
        self.places.reserve(most - self.places.len())?;
        self.free.reserve(self.places.capacity() - self.free.len())?;
        self.listed.reserve(self.places.capacity())?;
        self.most = most;
        Ok(())
    }

    /// Adds a handle that is newer than all others, and tells its place.
    #[inline(always)]
    pub fn add(&mut self, entry: Entry) -> usize
        requires room { 0 < self.old.room }
        requires newer { self.old.next ≤ entry.number }
        requires number { entry.number + 1 < 2 ^ 64 }
        ensures added { self.new ≡ added self.old entry }
        ensures has { handle_at self.new entry.number ≡ Some entry }
    {
        self.next = entry.number + 1;
        self.tally.count(entry.port, entry.kind);
        let at = remainder(entry.number);
        match self.free.pop() {
            Some(place) => {
                write(&mut self.places[place], entry);
                self.likely[at] = place;
                place
            }
            None => {
                let place = self.places.len();
                self.places.push_reserved(entry);
                self.likely[at] = place;
                place
            }
        }
    }

    /// The handle of that number, which is looked for at the hint and in its likely place first.
    #[inline(always)]
    pub fn find(&self, number: u64, hint: usize) -> Option<Entry>
        ensures found { result ≡ handle_at self.now number }
        ensures sound { IsSound self.now }
    {
        let place = place_of(&self.places, number, &self.likely, hint)?;
        Some(self.places[place])
    }

    /// The handle of that number, which is there. It is looked for at the hint and in its likely
    /// place first.
    #[inline(always)]
    pub fn known(&self, number: u64, hint: usize) -> Entry
        requires { is_some (handle_at self.now number) ≡ true }
        ensures found { Some result ≡ handle_at self.now number }
        ensures sound { IsSound self.now }
    {
        let place = known_place(&self.places, number, &self.likely, hint);
        self.places[place]
    }

    /// The handle of that number, if it is at the hint.
    #[inline(always)]
    pub fn near(&self, number: u64, hint: usize) -> Option<Entry>
        ensures { IfSome result (λ entry. Some entry ≡ handle_at self.now number) }
    {
        if has_handle(&self.places, hint, number) {
            return Some(self.places[hint]);
        }
        None
    }

    /// Removes the handle of that number, which is looked for at the hint and in its likely place
    /// first.
    pub fn remove(&mut self, number: u64, hint: usize) -> Option<Entry>
        ensures found { result ≡ handle_at self.old number }
        ensures removed { IsSome result → self.new ≡ removed self.old number }
        ensures gone { handle_at self.new number ≡ None }
        ensures unchanged { result ≡ None → self.new ≡ self.old }
    {
        let place = place_of(&self.places, number, &self.likely, hint)?;
        let entry = self.places[place];
        self.tally.discount(entry.port, entry.kind);
        self.places[place].number = NOBODY;
        self.free.push_reserved(place);
        Some(entry)
    }

    /// Changes the handle of that number, which is looked for at the hint and in its likely place
    /// first.
    pub fn change(&mut self, entry: Entry, hint: usize) -> Option<Entry>
        ensures found { result ≡ handle_at self.old entry.number }
        ensures changed { IsSome result → self.new ≡ changed self.old entry }
        ensures unchanged { result ≡ None → self.new ≡ self.old }
    {
        let place = place_of(&self.places, entry.number, &self.likely, hint)?;
        let was = self.places[place];
        self.tally.discount(was.port, was.kind);
        self.tally.count(entry.port, entry.kind);
        self.places[place] = entry;
        self.listed.forget();
        Some(was)
    }

    /// Removes the node's handle of that number, which is looked for at the hint and in its likely
    /// place first.
    #[inline(always)]
    pub fn remove_of(&mut self, node: u64, number: u64, hint: usize) -> Option<Entry>
        ensures found { result ≡ handle_of self.old node number }
        ensures removed { IsSome result → self.new ≡ removed self.old number }
        ensures gone { handle_of self.new node number ≡ None }
        ensures unchanged { result ≡ None → self.new ≡ self.old }
        ensures sound { IsSound self.old }
    {
        let at = place_of(&self.places, number, &self.likely, hint)?;
        let entry = self.places[at];
        if entry.node != node {
            return None;
        }
        self.tally.discount(entry.port, entry.kind);
        self.places[at].number = NOBODY;
        self.free.push_reserved(at);
        Some(entry)
    }

    /// Changes the handle of that node and number, which is looked for at the hint and in its
    /// likely place first, and tells what it was.
    #[inline(always)]
    pub fn change_of(&mut self, entry: Entry, hint: usize) -> Option<Entry>
        ensures found { result ≡ handle_of self.old entry.node entry.number }
        ensures changed { IsSome result → self.new ≡ changed self.old entry }
        ensures unchanged { result ≡ None → self.new ≡ self.old }
        ensures sound { IsSound self.old }
    {
        let at = place_of(&self.places, entry.number, &self.likely, hint)?;
        let old = self.places[at];
        if old.node != entry.node {
            return None;
        }
        self.tally.discount(old.port, old.kind);
        self.tally.count(entry.port, entry.kind);
        self.places[at] = entry;
        Some(old)
    }

    /// Changes the kind of the node's handle of that number, where it is to change, and tells the
    /// handle as it is now. It is looked for at the hint and in its likely place first.
    #[inline(always)]
    pub fn change_kind<C: KindChange>(
        &mut self,
        node: u64,
        number: u64,
        hint: usize,
        change: &C,
    ) -> Option<Entry>
        ensures told { result ≡ option_and_then (turned (C.becomes change.now))
            (handle_of self.old node number) }
        ensures changed { IfSome result (λ h. self.new ≡ changed self.old h) }
        ensures unchanged { result ≡ None → self.new ≡ self.old }
        ensures sound { IsSound self.old }
    {
        let here = place_of(&self.places, number, &self.likely, hint)?;
        let old = self.places[here];
        if old.node != node {
            return None;
        }
        let kind = change.becomes(old)?;
        self.places[here].kind = kind;
        Some(Entry { kind, ..old })
    }

    /// The port has at most so many handles of that kind, and of those that are counted with it:
    /// there are so many of ports whose numbers have its remainder. Loans and pending responses are
    /// counted as they come and go; for any other kind it looks at all places.
    #[inline]
    pub fn at_most(&self, port: u64, kind: Kind) -> usize
        ensures most { count_like self.now port kind ≤ result }
        ensures counted { result
            ≡ length (filter (is_counted_at (tally_place port kind)) self.now.handles) }
    {
        if is_tallied(kind) {
            return self.tally.at_most(port, kind);
        }
        count_alike_in(&self.places, port, kind)
    }

    /// How many handles of that kind a port has. Where there may be any, it looks at all places.
    pub fn count(&self, port: u64, kind: Kind) -> usize
        ensures { result ≡ count_of self.now port kind }
    {
        if is_tallied(kind) && self.tally.at_most(port, kind) == 0 {
            return 0;
        }
        count_in(&self.places, port, kind)
    }

    /// How many handles pass the test. It looks at all places.
    pub fn count_if<T: EntryTest>(&self, test: &T) -> usize
        ensures { result ≡ length (filter (T.passes test.now) self.now.handles) }
    {
        count_if_in(&self.places, test)
    }

    /// Whether that port has a handle. It looks where one of the port was found last, then at the
    /// places behind that, and then at all: where the handles of a port go one after another, and
    /// this is asked after each, it looks at each place a few times in all.
    pub fn has_any(&mut self, port: u64) -> bool
        ensures told { result ≡ has_any self.old port }
        ensures unchanged { self.new ≡ self.old }
    {
        let at = remainder(port);
        let Some(place) = place_of_port(&self.places, port, self.found[at]) else {
            return false;
        };
        self.found[at] = place;
        true
    }

    /// The node's handle of the least number, by that number and its place. All of the node's are
    /// listed at first, and as long as none is added, the list serves: where they go one after
    /// another, and this is asked after each, it looks at each place a few times in all.
    pub fn first_of(&mut self, node: u64) -> Option<Numbered>
        ensures first { option_map (λ v. v.number) result
            ≡ least (map (λ h. h.number) (handles_of self.old node)) }
        ensures unchanged { self.new ≡ self.old }
    {
        if !self.listed.is_of(node, self.next) {
            self.listed.fill(&self.places, node, self.next);
        }
        self.listed.first(&self.places)
    }

    /// The least number of the node's handles. It looks at all places.
    pub fn least_of(&self, node: u64) -> Option<u64>
        ensures { result ≡ least (map (λ h. h.number) (handles_of self.now node)) }
    {
        least_in(&self.places, node)
    }
}
