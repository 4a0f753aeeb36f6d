//! Which slots a port delivered on each of its ways and did not get back.
ghost use Rattle.std.specs.Prelude.{◌≡◌, ◌==◌, ◌<◌, IfSome, length, map, position};
ghost use Rattle.iox_model.specs.Maps.{same_way, without_number};
ghost use Rattle.iox_wire_seats.specs.Records.{Noted, with_noted};

mod count;

use crate::counts::is_same_way;
use iox_model::way::Way;
use std::alloc::{AllocError, Global};
use std::marker::Model;

/// The slots whose messages a port delivered on a way and did not get back.
#[derive(Drop)]
pub struct StoredRecorded {
    way: Way,
    slots: Vec<u64>,
}

impl Model for StoredRecorded {
    ghost use Rattle.std.specs.Prelude.{vec_capacity};
    ghost use Rattle.iox_wire_seats.specs.Records.{Noted};

    ghost Value = { Noted };

    ghost view = { λ r. record {
      recorded = record { way = r.way; slots = r.slots.items };
      capacity = vec_capacity r.slots;
    } };
}

impl StoredRecorded {
    ghost use Rattle.std.specs.Prelude.{◌≡◌, ◌==◌, ◌<◌, ◌≤◌, ◌++◌, ◌∷◌, [], IfOk, IfSome};
    ghost use Rattle.std.specs.Prelude.{length, position};
    ghost use Rattle.iox_model.specs.Maps.{without_number};
    ghost use Rattle.iox_wire_seats.specs.Records.{changed};

    /// Nothing was delivered on the way; there is room for so many slots.
    fn new(alloc: Global, way: Way, room: usize) -> Result<StoredRecorded, AllocError>
        ensures recorded { IfOk result (λ r. r.recorded ≡ record { way = way; slots = [] }) }
        ensures room { IfOk result (λ r. room ≤ r.capacity) }
    {
        Ok(StoredRecorded {
            way,
            slots: Vec::with_capacity(alloc, room)?,
        })
    }

    /// The way.
    fn way(&self) -> Way
        ensures { result ≡ self.now.recorded.way }
    {
        self.way
    }

    /// A slot joins them.
    fn note(&mut self, slot: u64)
        requires { length self.old.recorded.slots < self.old.capacity }
        ensures { self.new ≡ changed (λ slots. slots ++ slot ∷ []) self.old }
    {
        self.slots.push_reserved(slot);
    }

    /// Where a slot stands among them.
    fn place(&self, slot: u64) -> Option<usize>
        ensures first { result ≡ position (λ held. held == slot) self.now.recorded.slots }
        ensures within { IfSome result (λ place. place < length self.now.recorded.slots) }
    {
        self.slots.iter().position(|held| *held == slot)
    }

    /// A slot is one of them no more.
    fn take_back(&mut self, slot: u64)
        ensures { self.new ≡ changed (without_number slot) self.old }
    {
        if let Some(place) = self.place(slot) {
            self.slots.remove(place);
        }
    }
}

/// What a port delivered on each of its ways and did not get back. Each way has one record. Only
/// `add_way` takes memory.
#[derive(Drop)]
pub struct Records {
    records: Vec<StoredRecorded>,
}

impl Model for Records {
    ghost use Rattle.std.specs.Prelude.{List};
    ghost use Rattle.iox_model.specs.Maps.{AreDistinctWays};
    ghost use Rattle.iox_wire_seats.specs.Records.{Noted, ways_in};

    ghost Value = { List Noted };

    ghost view = { λ r. r.records.items };

    ghost invariant = { λ r. AreDistinctWays (ways_in r.records.items) };
}

impl Records {
    ghost use Rattle.std.specs.Prelude.{◌≡◌, ◌++◌, ◌∷◌, [], ◌<◌, ◌≤◌, IfSome, OnErr, OnOk, false};
    ghost use Rattle.std.specs.Prelude.{length, map, position};
    ghost use Rattle.iox_model.specs.Maps.{has_way, same_way, without_number};
    ghost use Rattle.iox_wire_seats.specs.Records.{HasRoomToNote, NotesHaveRoom, recorded_in};
    ghost use Rattle.iox_wire_seats.specs.Records.{ways_in, with_noted};

    /// Of no way.
    pub fn new(alloc: Global) -> Records
        ensures { result ≡ [] }
    {
        Records {
            records: Vec::new(alloc),
        }
    }

    /// One more way, with room for so many slots.
    pub fn add_way(&mut self, alloc: Global, way: Way, room: usize) -> Result<(), AllocError>
        requires { has_way way (ways_in self.old) ≡ false }
        ensures added { OnOk result (recorded_in self.new
            ≡ recorded_in self.old ++ record { way = way; slots = [] } ∷ []) }
        ensures room { NotesHaveRoom room self.old → NotesHaveRoom room self.new }
        ensures unchanged { OnErr result (self.new ≡ self.old) }
    {
        let record = StoredRecorded::new(alloc, way, room)?;
        self.records.reserve(1)?;
        self.records.push_reserved(record);
        Ok(())
    }

    /// Where the record of a way stands.
    fn place(&self, way: Way) -> Option<usize>
        ensures first { result ≡ position (λ n. same_way n.recorded.way way) self.now }
        ensures within { IfSome result (λ place. place < length self.now) }
    {
        self.records
            .iter()
            .position(|record| is_same_way(record.way(), way))
    }

    /// A slot was delivered on the way.
    pub fn note(&mut self, way: Way, slot: u64)
        requires { HasRoomToNote way self.old }
        ensures { self.new ≡ map (with_noted way (λ slots. slots ++ slot ∷ [])) self.old }
    {
        if let Some(place) = self.place(way) {
            self.records[place].note(slot);
        }
    }

    /// It was got back.
    pub fn take_back(&mut self, way: Way, slot: u64)
        ensures { self.new ≡ map (with_noted way (without_number slot)) self.old }
    {
        if let Some(place) = self.place(way) {
            self.records[place].take_back(slot);
        }
    }
}
