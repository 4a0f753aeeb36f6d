//! The messages of one port, by slots.
ghost use Rattle.std.specs.Prelude.{◌≡◌, ◌<◌, ◌^◌, ◌-◌, ◌↔◌, ◌≤◌, [], IfOk, IfSome, None, count_by, false, length, nat_lt, slice_get, true};
ghost use Rattle.std.specs.Bool.{OnFalse};
ghost use Rattle.std.specs.List.{list_all};
ghost use Rattle.std.specs.Option.{option_map_or};
ghost use Rattle.std.specs.Vec.{vec_capacity};
ghost use Rattle.iox_slots.specs.FreeLists.{AreNumbersBelow};
ghost use Rattle.iox_slots.specs.Slots.{held, is_taken, let_go, new_pool, slot_in, taken, with_slot_of, written};
ghost use Rattle.iox_tables.specs.HubLoans.Slots.{put_slot_of};
ghost use Rattle.iox_tables.specs.HubStates.Tables.{is_free};

mod own;
mod shared;

use crate::slot::Slot;
use iox_tables::wanted::Label;
use iox_types::identifiers::UniqueSystemId;
use std::alloc::{AllocError, Global};
use std::marker::Model;

/// The messages of one port, by slots.
///
/// It takes memory when it is made, and never again.
#[derive(Drop)]
pub struct Pool {
    port: u64,
    node_id: UniqueSystemId,
    port_id: UniqueSystemId,
    slots: Vec<Slot>,
    // The slots that nobody has.
    free: Vec<u64>,
    // Whether each message that somebody has is on its slot's own lane. Where it is not set, nothing
    // is known of their lanes.
    own: bool,
}

/// The id of no port.
const NO_ID: UniqueSystemId = UniqueSystemId {
    process: 0,
    seconds: 0,
    nanoseconds: 0,
    counter: 0,
};

impl Model for Pool {
    ghost use Rattle.std.specs.Vec.{vec_capacity};
    ghost use Rattle.iox_tables.specs.HubStates.Tables.{PoolState};
    ghost use Rattle.iox_slots.specs.FreeLists.{IsFreeList};
    ghost use Rattle.iox_slots.specs.Lanes.{AreOnOwnLanesIf};

    ghost Value = { PoolState };

    ghost view = { λ p. record {
      port = p.port;
      node_id = p.node_id;
      port_id = p.port_id;
      slots = p.slots.items;
    } };

    ghost invariant = { λ p. IsFreeList p.slots.items p.free.items (vec_capacity p.free)
        × AreOnOwnLanesIf p.own p.slots.items };
}

/// So many numbers, from 0.
fn numbers(alloc: Global, count: usize) -> Result<Vec<u64>, AllocError>
    ensures numbers { IfOk result (λ numbers. AreNumbersBelow count numbers.items) }
    ensures memory { IfOk result (λ numbers. count ≤ vec_capacity numbers) }
{
    let mut numbers = Vec::with_capacity(alloc, count)?;
    for k in 0..count {
        numbers.push_reserved(k as u64);
    }
    Ok(numbers)
}

impl Pool {
    /// A pool of so many slots that nobody has. It fails only for want of memory.
    pub fn new(
        alloc: Global,
        port: u64,
        node_id: UniqueSystemId,
        port_id: UniqueSystemId,
        size: usize,
    ) -> Result<Pool, AllocError>
        ensures { IfOk result (λ pool. pool ≡ new_pool port node_id port_id size) }
    {
        Ok(Pool {
            port,
            node_id,
            port_id,
            slots: vec![in alloc; Slot::new(); size]?,
            free: numbers(alloc, size)?,
            own: true,
        })
    }

    /// A pool of no port, that has no slots.
    pub fn none(alloc: Global) -> Pool
        ensures slots { result.slots ≡ [] }
        ensures port { result.port ≡ 0 }
    {
        Pool {
            port: 0,
            node_id: NO_ID,
            port_id: NO_ID,
            slots: Vec::new(alloc),
            free: Vec::new(alloc),
            own: true,
        }
    }

    /// The port whose messages they are.
    #[inline]
    pub fn port(&self) -> u64
        ensures { result ≡ self.now.port }
    {
        self.port
    }

    /// The id of that port's node.
    #[inline]
    pub fn node_id(&self) -> UniqueSystemId
        ensures { result ≡ self.now.node_id }
    {
        self.node_id
    }

    /// The id of that port.
    #[inline]
    pub fn port_id(&self) -> UniqueSystemId
        ensures { result ≡ self.now.port_id }
    {
        self.port_id
    }

    /// How many slots there are.
    #[inline]
    pub fn len(&self) -> usize
        ensures { result ≡ length self.now.slots }
    {
        self.slots.len()
    }

    /// How many slots nobody has.
    #[inline]
    pub fn free_len(&self) -> usize
        ensures { result ≡ count_by is_free self.now.slots }
    {
        self.free.len()
    }

    /// Whether nobody has any slot.
    #[inline(always)]
    pub fn is_idle(&self) -> bool
        ensures { result ≡ list_all is_free self.now.slots }
    {
        self.free_len() == self.len()
    }

    /// The slot of that number, if there is one.
    #[inline]
    pub fn slot(&self, k: u64) -> Option<Slot>
        ensures { result ≡ slice_get self.now.slots k }
    {
        let k = k as usize;
        if k < self.slots.len() {
            return Some(self.slots[k]);
        }
        None
    }

    /// The label of the message in a slot that is there.
    #[inline(always)]
    pub fn label(&self, k: u64) -> Label
        requires { k < length self.now.slots }
        ensures lane { result.lane ≡ (slot_in self.now.slots k).lane }
        ensures request { result.request ≡ (slot_in self.now.slots k).request }
    {
        let slot = &self.slots[k as usize];
        Label {
            lane: slot.lane(),
            request: slot.request(),
        }
    }

    /// How many elements the message has in a slot that is there.
    #[inline(always)]
    pub fn elements(&self, k: u64) -> u64
        requires { k < length self.now.slots }
        ensures { result ≡ (slot_in self.now.slots k).elements }
    {
        self.slots[k as usize].elements()
    }

    /// Writes another message into a slot, and says whether there is such a slot.
    #[inline]
    pub fn write(&mut self, k: u64, serial: u64, lane: u64, request: u64, elements: u64) -> bool
        ensures there { result ≡ nat_lt k (length self.old.slots) }
        ensures written { self.new
            ≡ with_slot_of (written serial lane request elements) self.old k }
    {
        let k = k as usize;
        if k < self.slots.len() {
            self.slots[k] = self.slots[k].written(serial, lane, request, elements);
            self.own = false;
            return true;
        }
        false
    }

    /// One more has a slot that somebody has.
    #[inline(always)]
    pub fn hold(&mut self, k: u64)
        requires taken { 0 < (slot_in self.old.slots k).holders }
        requires fits { (slot_in self.old.slots k).holders < 2 ^ 64 - 1 }
        ensures { self.new ≡ with_slot_of held self.old k }
    {
        self.slots[k as usize].hold();
    }

    /// One less has a slot that somebody has.
    #[inline(always)]
    pub fn leave(&mut self, k: u64)
        requires { 0 < (slot_in self.old.slots k).holders }
        ensures { self.new ≡ with_slot_of let_go self.old k }
    {
        if self.slots[k as usize].leave() {
            self.free.push_reserved(k);
        }
    }

    /// One less has a slot, and says whether anybody had it. Where nobody did, and where there is
    /// no such slot, nothing changes.
    #[inline]
    pub fn let_go(&mut self, k: u64) -> bool
        ensures had { result ≡ is_taken self.old.slots k }
        ensures left { self.new ≡ with_slot_of let_go self.old k }
        ensures unchanged { OnFalse result (self.new ≡ self.old) }
    {
        let place = k as usize;
        if place >= self.slots.len() {
            return false;
        }
        let old = self.slots[place];
        if old.is_free() {
            return false;
        }
        self.leave(k);
        true
    }

    /// One has a slot that nobody had, and this is its number. It is `None` exactly if somebody has
    /// each slot.
    #[inline]
    pub fn acquire(&mut self) -> Option<u64>
        ensures acquired { IfSome result (λ k.
            (option_map_or is_free (slice_get self.old.slots k) false ≡ true)
            × (self.new ≡ with_slot_of held self.old k)) }
        ensures full { result ≡ None ↔ count_by is_free self.old.slots ≡ 0 }
        ensures unchanged { result ≡ None → self.new ≡ self.old }
    {
        match self.free.pop() {
            Some(k) => {
                let place = k as usize;
                self.slots[place] = self.slots[place].held();
                self.own = false;
                Some(k)
            }
            None => None,
        }
    }

    /// The same, with that message.
    #[inline(always)]
    pub fn take(&mut self, serial: u64, lane: u64, request: u64, elements: u64) -> Option<u64>
        ensures taken { IfSome result (λ k.
            (option_map_or is_free (slice_get self.old.slots k) false ≡ true)
            × (self.new ≡ put_slot_of k (taken serial lane request elements) self.old)) }
        ensures full { result ≡ None ↔ count_by is_free self.old.slots ≡ 0 }
        ensures unchanged { result ≡ None → self.new ≡ self.old }
    {
        match self.free.pop() {
            Some(k) => {
                let place = k as usize;
                self.slots[place] = Slot::taken(serial, lane, request, elements);
                self.own = false;
                Some(k)
            }
            None => None,
        }
    }
}
