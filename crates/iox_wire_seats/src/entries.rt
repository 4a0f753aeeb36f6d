//! The handles of a node, oldest first.
ghost use Rattle.std.specs.Prelude.{◌≡◌, ◌+◌, ◌-◌, ◌<◌, ◌++◌, ◌∷◌, [], IfOk, IfSome, None, OnErr, OnOk, length, max};
ghost use Rattle.iox_wire_locals.specs.Tables.{entry_at, with_entry, without_entry};
ghost use Rattle.iox_wire_seats.specs.Rows.{AreBelow, IsAscending, IsLowerBound, IsMissing, IsOnlyAt};

mod all;

use iox_wire_locals::Entry;
use std::alloc::{AllocError, Global};
use std::marker::Model;

/// The handles of a node, oldest first, which is in the order of their numbers. Room for them is
/// reserved before they come: only `new` and `reserve` take memory.
#[derive(Drop)]
pub struct Entries {
    entries: Vec<Entry>,
    // how many more may come
    room: usize,
}

impl Model for Entries {
    ghost use Rattle.std.specs.Prelude.{vec_capacity};
    ghost use Rattle.iox_wire_seats.specs.Rows.{HasCapacity, IsAscending, Rows};

    ghost Value = { Rows };

    ghost view = { λ t. record { room = t.room; entries = t.entries.items } };

    ghost invariant = { λ t. HasCapacity t.entries.items t.room (vec_capacity t.entries)
        × IsAscending t.entries.items };
}

impl Entries {
    /// A table with room for so many entries.
    pub fn new(alloc: Global, room: usize) -> Result<Entries, AllocError>
        ensures { IfOk result (λ table. table ≡ record { room = room; entries = [] }) }
    {
        Ok(Entries {
            entries: Vec::with_capacity(alloc, room)?,
            room,
        })
    }

    /// Makes room for so many entries.
    pub fn reserve(&mut self, room: usize) -> Result<(), AllocError>
        ensures reserved { OnOk result (self.new
            ≡ record (self.old) { room = max self.old.room room }) }
        ensures unchanged { OnErr result (self.new ≡ self.old) }
    {
        if self.room < room {
            self.entries.reserve(room)?;
            self.room = room;
        }
        Ok(())
    }

    /// Where the entry of that number stands.
    fn place(&self, number: u64) -> Option<usize>
        ensures found { IfSome result (IsOnlyAt number self.now.entries) }
        ensures within { IfSome result (λ place. place < length self.now.entries) }
        ensures missing { result ≡ None → IsMissing number self.now.entries }
    {
        let place = lower_bound(&self.entries, number);
        if place < self.entries.len() && self.entries[place].number == number {
            return Some(place);
        }
        None
    }

    /// The entry of that number.
    pub fn find(&self, number: u64) -> Option<Entry>
        ensures { result ≡ entry_at number self.now.entries }
    {
        let place = self.place(number)?;
        Some(self.entries[place])
    }

    /// Adds an entry that is newer than all others.
    pub fn add(&mut self, entry: Entry)
        requires room { 0 < self.old.room }
        requires newer { AreBelow entry.number self.old.entries }
        ensures { self.new
            ≡ record { room = self.old.room - 1; entries = self.old.entries ++ entry ∷ [] } }
    {
        self.room -= 1;
        self.entries.push_reserved(entry);
    }

    /// Removes the entry of that number, if there is one.
    pub fn remove(&mut self, entry: Entry)
        ensures gone { self.new.entries ≡ without_entry entry self.old.entries }
        ensures room { self.new.room + length self.new.entries
            ≡ self.old.room + length self.old.entries }
    {
        if let Some(place) = self.place(entry.number) {
            self.entries.remove(place);
            self.room += 1;
        }
    }

    /// Changes the entry of that number, if there is one.
    pub fn change(&mut self, entry: Entry)
        ensures { self.new ≡ record (self.old) { entries = with_entry entry self.old.entries } }
    {
        if let Some(place) = self.place(entry.number) {
            self.entries[place] = entry;
        }
    }
}

/// How many entries have a lower number.
fn lower_bound(entries: &[Entry], number: u64) -> usize
    requires { IsAscending entries.now }
    ensures { IsLowerBound number entries.now result }
{
    let mut low = 0;
    let mut high = entries.len();
    while low < high {
        let middle = low + (high - low) / 2;
        if entries[middle].number < number {
            low = middle + 1;
        } else {
            high = middle;
        }
    }
    low
}
