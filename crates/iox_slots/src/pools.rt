//! The pools of a hub, by place.
ghost use Rattle.std.specs.Prelude.{◌≡◌, ◌<◌, ◌^◌, ◌-◌, ◌+◌, ◌↔◌, IfOk, IfSome, IsSome, None, OnErr, OnOk};
ghost use Rattle.std.specs.Prelude.{Some, [], false, length, option_map, position, is_none, slice_get, true};
ghost use Rattle.std.specs.Bool.{OnFalse};
ghost use Rattle.iox_tables.specs.HubStates.Tables.{labels_of, owner_of, pool_at, slot_at, slots_of};
ghost use Rattle.iox_tables.specs.HubLoans.Slots.{put_slot_of};
ghost use Rattle.iox_slots.specs.FreeLists.{has_free_slot};
ghost use Rattle.iox_slots.specs.Pools.{Acquires, free_count, freed_by_one, has_slot, is_idle};
ghost use Rattle.iox_slots.specs.Pools.{is_taken_at, place_for_one, with_one_more, with_pool, with_slot, without_pool, Takes};
ghost use Rattle.iox_slots.specs.Slots.{held, let_go, new_pool, taken, written};

mod leaving;
mod own;
mod shared;

use crate::place::Place;
use crate::pool::Pool;
use crate::slot::Slot;
use iox_tables::wanted::{Label, Labels};
use iox_types::identifiers::UniqueSystemId;
use std::alloc::{AllocError, Global};
use std::marker::Model;

/// The pools of message slots of a hub's ports, by place. A port's pool stays where the port is
/// gone, until nobody has a message of it.
///
/// Only `add` takes memory.
#[derive(Drop)]
pub struct Pools {
    places: Vec<Place>,
    alloc: Global,
}

impl Model for Pools {
    ghost use Rattle.std.specs.Prelude.{List, Option};
    ghost use Rattle.iox_tables.specs.HubStates.Tables.{PoolState};

    ghost Value = { List (Option PoolState) };

    ghost view = { λ p. p.places.items };
}

impl Pools {
    /// No pool.
    pub fn new(alloc: Global) -> Pools
        ensures { result ≡ [] }
    {
        Pools {
            places: Vec::new(alloc),
            alloc,
        }
    }

    /// The slot of that number, of the pool in this place.
    #[inline]
    pub fn slot(&self, place: usize, slot: u64) -> Option<Slot>
        ensures { result ≡ slice_get (slots_of self.now place) slot }
    {
        if place < self.places.len() {
            return self.places[place].slot(slot);
        }
        None
    }

    /// Writes another message into a slot, and says whether there is such a slot. Who has the slot
    /// still has it.
    #[inline]
    pub fn write(
        &mut self,
        place: usize,
        slot: u64,
        serial: u64,
        lane: u64,
        request: u64,
        elements: u64,
    ) -> bool
        ensures there { result ≡ has_slot self.old place slot }
        ensures written { self.new
            ≡ with_slot (written serial lane request elements) self.old place slot }
    {
        if place < self.places.len() {
            return self.places[place].write(slot, serial, lane, request, elements);
        }
        false
    }

    #[inline]
    fn acquire_at(&mut self, place: usize) -> Option<u64>
        ensures free { IfSome result (λ k. has_free_slot self.old place k ≡ true) }
        ensures acquired { IfSome result (λ k. self.new ≡ with_slot held self.old place k) }
        ensures full { result ≡ None ↔ free_count self.old place ≡ 0 }
        ensures unchanged { result ≡ None → self.new ≡ self.old }
    {
        if place < self.places.len() {
            return self.places[place].acquire();
        }
        None
    }

    /// One has a slot that nobody had, and this is its number. It is `None` exactly if there is
    /// none, and then nothing changes.
    #[inline]
    pub fn acquire(&mut self, place: usize) -> Option<u64>
        ensures acquired { IfSome result (λ k. Acquires self.old place k self.new) }
        ensures counted { IfSome result (λ k. free_count self.new place + 1
            ≡ free_count self.old place) }
        ensures full { result ≡ None ↔ free_count self.old place ≡ 0 }
        ensures unchanged { result ≡ None → self.new ≡ self.old }
    {
        match self.acquire_at(place) {
            Some(slot) => Some(slot),
            None => None,
        }
    }

    #[inline(always)]
    fn take_there(
        &mut self,
        place: usize,
        serial: u64,
        lane: u64,
        request: u64,
        elements: u64,
    ) -> Option<u64>
        requires { place < length self.old }
        ensures free { IfSome result (λ k. has_free_slot self.old place k ≡ true) }
        ensures taken { IfSome result (λ k. self.new
            ≡ with_pool (put_slot_of k (taken serial lane request elements)) self.old place) }
        ensures full { result ≡ None ↔ free_count self.old place ≡ 0 }
        ensures unchanged { result ≡ None → self.new ≡ self.old }
    {
        self.places[place].take(serial, lane, request, elements)
    }

    #[inline]
    fn hold_at(&mut self, place: usize, slot: u64)
        requires taken { 0 < (slot_at self.old place slot).holders }
        requires fits { (slot_at self.old place slot).holders < 2 ^ 64 - 1 }
        ensures { self.new ≡ with_slot held self.old place slot }
    {
        self.places[place].hold(slot);
    }

    /// One more has a slot that somebody has.
    #[inline]
    pub fn hold(&mut self, place: usize, slot: u64)
        requires taken { 0 < (slot_at self.old place slot).holders }
        requires fits { (slot_at self.old place slot).holders < 2 ^ 64 - 1 }
        ensures held { self.new ≡ with_slot held self.old place slot }
        ensures more { (slot_at self.new place slot).holders
            ≡ (slot_at self.old place slot).holders + 1 }
        ensures counted { free_count self.new place ≡ free_count self.old place }
    {
        self.hold_at(place, slot);
    }

    #[inline]
    fn let_go_at(&mut self, place: usize, slot: u64) -> bool
        ensures had { result ≡ is_taken_at self.old place slot }
        ensures left { self.new ≡ with_slot let_go self.old place slot }
        ensures unchanged { OnFalse result (self.new ≡ self.old) }
    {
        if place < self.places.len() {
            return self.places[place].let_go(slot);
        }
        false
    }

    /// One less has a slot, and says whether anybody had it: where nobody did, and where there is
    /// no such slot, nothing changes. A slot that nobody has can be acquired again.
    #[inline]
    pub fn let_go(&mut self, place: usize, slot: u64) -> bool
        ensures had { result ≡ is_taken_at self.old place slot }
        ensures left { self.new ≡ with_slot let_go self.old place slot }
        ensures less { (slot_at self.new place slot).holders
            ≡ (slot_at self.old place slot).holders - 1 }
        ensures counted { free_count self.new place
            ≡ free_count self.old place + freed_by_one self.old place slot }
        ensures unchanged { OnFalse result (self.new ≡ self.old) }
    {
        self.let_go_at(place, slot)
    }

    // ---- what there is

    /// How many places there are: no pool is in any other.
    #[inline]
    pub fn places(&self) -> usize
        ensures { result ≡ length self.now }
    {
        self.places.len()
    }

    /// How many slots the pool in this place has.
    #[inline]
    pub fn len(&self, place: usize) -> usize
        ensures { result ≡ length (slots_of self.now place) }
    {
        if place < self.places.len() {
            return self.places[place].len();
        }
        0
    }

    /// How many of them nobody has.
    #[inline]
    pub fn free_len(&self, place: usize) -> usize
        ensures { result ≡ free_count self.now place }
    {
        if place < self.places.len() {
            return self.places[place].free_len();
        }
        0
    }

    /// Whether nobody has any of them.
    #[inline]
    pub fn is_idle(&self, place: usize) -> bool
        ensures { result ≡ is_idle self.now place }
    {
        if place < self.places.len() {
            return self.places[place].is_idle();
        }
        true
    }

    /// The port whose pool it is; 0 where there is no pool.
    #[inline]
    pub fn owner(&self, place: usize) -> u64
        ensures { result ≡ owner_of self.now place }
    {
        if place < self.places.len() {
            return self.places[place].port();
        }
        0
    }

    /// The ids of that port's node and of the port itself.
    #[inline]
    pub fn ids(&self, place: usize) -> Option<(UniqueSystemId, UniqueSystemId)>
        ensures { result ≡ option_map (λ p. (p.node_id, p.port_id)) (pool_at self.now place) }
    {
        if place < self.places.len() {
            return self.places[place].ids();
        }
        None
    }

    /// The port whose pool it is likely stands there among the ports, which `at` tells. A wrong
    /// place is only slower.
    #[inline]
    pub fn set_at(&mut self, place: usize, at: usize)
        ensures { self.new ≡ self.old }
    {
        if place < self.places.len() {
            self.places[place].set_at(at);
        }
    }

    // ---- pools come and go

    /// The first vacant place, if there is one.
    fn vacant(&self) -> Option<usize>
        ensures first { result ≡ position is_none self.now }
        ensures within { IfSome result (λ place. place < length self.now) }
    {
        self.places.iter().position(|place| place.is_vacant())
    }

    /// Makes a pool of so many slots that nobody has, and tells its place: the first that is
    /// vacant, or else a new one. It fails only for want of memory.
    pub fn add(
        &mut self,
        alloc: Global,
        port: u64,
        node_id: UniqueSystemId,
        port_id: UniqueSystemId,
        size: usize,
    ) -> Result<usize, AllocError>
        ensures place { IfOk result (λ place. place ≡ place_for_one self.old) }
        ensures added { OnOk result (self.new
            ≡ with_one_more self.old (new_pool port node_id port_id size)) }
        ensures unchanged { OnErr result (self.new ≡ self.old) }
    {
        let pool = Pool::new(alloc, port, node_id, port_id, size)?;
        match self.vacant() {
            Some(place) => {
                self.places[place] = Place::of(pool);
                Ok(place)
            }
            None => {
                self.places.push(Place::of(pool))?;
                Ok(self.places.len() - 1)
            }
        }
    }

    /// Removes the pool in this place, if there is one: the place is vacant then.
    pub fn remove(&mut self, place: usize)
        ensures { self.new ≡ without_pool self.old place }
    {
        if place < self.places.len() {
            self.places[place] = Place::none(self.alloc);
        }
    }
}

impl Labels for Pools {
    ghost label_of = { labels_of };

    #[inline]
    fn label(&self, pool: usize, place: u64) -> Label {
        match self.slot(pool, place) {
            Some(slot) => Label {
                lane: slot.lane(),
                request: slot.request(),
            },
            None => Label {
                lane: 0,
                request: 0,
            },
        }
    }
}
