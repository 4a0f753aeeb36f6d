//! What stands in one place: a pool, or nothing.
ghost use Rattle.std.specs.Prelude.{◌≡◌, ◌<◌, ◌^◌, ◌-◌, ◌↔◌, IfSome, None, Some, count_by, false, is_none, length, nat_lt, option_map, slice_get, true};
ghost use Rattle.std.specs.Bool.{OnFalse};
ghost use Rattle.std.specs.List.{list_all};
ghost use Rattle.std.specs.Option.{option_map_or};
ghost use Rattle.iox_slots.specs.Places.{port_of, slots_in};
ghost use Rattle.iox_slots.specs.Slots.{held, is_taken, let_go, slot_in, taken, with_slot_of, written};
ghost use Rattle.iox_tables.specs.HubLoans.Slots.{put_slot_of};
ghost use Rattle.iox_tables.specs.HubStates.Tables.{is_free};

mod own;
mod shared;

use crate::left::Left;
use crate::pool::Pool;
use crate::slot::Slot;
use iox_tables::wanted::Label;
use iox_types::identifiers::UniqueSystemId;
use std::alloc::Global;
use std::marker::Model;

/// What stands in one place: a pool, or nothing.
///
/// Where there is no pool, one without slots stands there, of port 0. So what asks for a slot, or
/// for the port, need not ask whether there is a pool.
#[derive(Drop)]
pub struct Place {
    // Whether there is a pool.
    there: bool,
    // Where its port likely stands among the ports. A wrong place is only slower.
    at: u32,
    pool: Pool,
}

impl Model for Place {
    ghost use Rattle.std.specs.Prelude.{Option};
    ghost use Rattle.iox_tables.specs.HubStates.Tables.{PoolState};
    ghost use Rattle.iox_slots.specs.Places.{IsPlace, pool_if};

    ghost Value = { Option PoolState };

    ghost view = { λ p. pool_if p.there p.pool };

    ghost invariant = { λ p. IsPlace p.there p.pool };
}

impl Place {
    /// Nothing.
    pub fn none(alloc: Global) -> Place
        ensures { result ≡ None }
    {
        Place {
            there: false,
            at: u32::MAX,
            pool: Pool::none(alloc),
        }
    }

    /// That pool.
    pub fn of(pool: Pool) -> Place
        ensures { result ≡ Some pool }
    {
        Place {
            there: true,
            at: u32::MAX,
            pool,
        }
    }

    // ---- what there is

    /// Whether there is no pool.
    #[inline]
    pub fn is_vacant(&self) -> bool
        ensures { result ≡ is_none self.now }
    {
        !self.there
    }

    /// The slot of that number, if there is a pool with one.
    #[inline]
    pub fn slot(&self, k: u64) -> Option<Slot>
        ensures { result ≡ slice_get (slots_in self.now) k }
    {
        self.pool.slot(k)
    }

    /// The label of the message in a slot that is there.
    #[inline(always)]
    pub fn label(&self, k: u64) -> Label
        requires { k < length (slots_in self.now) }
        ensures lane { result.lane ≡ (slot_in (slots_in self.now) k).lane }
        ensures request { result.request ≡ (slot_in (slots_in self.now) k).request }
    {
        self.pool.label(k)
    }

    /// How many elements the message has in a slot that is there.
    #[inline(always)]
    pub fn elements(&self, k: u64) -> u64
        requires { k < length (slots_in self.now) }
        ensures { result ≡ (slot_in (slots_in self.now) k).elements }
    {
        self.pool.elements(k)
    }

    /// Whether nobody has any slot.
    #[inline(always)]
    pub fn is_idle(&self) -> bool
        ensures { result ≡ list_all is_free (slots_in self.now) }
    {
        self.pool.is_idle()
    }

    /// How many slots there are.
    #[inline]
    pub fn len(&self) -> usize
        ensures { result ≡ length (slots_in self.now) }
    {
        self.pool.len()
    }

    /// How many slots nobody has.
    #[inline]
    pub fn free_len(&self) -> usize
        ensures { result ≡ count_by is_free (slots_in self.now) }
    {
        self.pool.free_len()
    }

    /// The port whose pool it is; 0 where there is none.
    #[inline]
    pub fn port(&self) -> u64
        ensures { result ≡ port_of self.now }
    {
        self.pool.port()
    }

    /// The ids of that port's node and of the port.
    #[inline]
    pub fn ids(&self) -> Option<(UniqueSystemId, UniqueSystemId)>
        ensures { result ≡ option_map (λ p. (p.node_id, p.port_id)) self.now }
    {
        if self.there {
            return Some((self.pool.node_id(), self.pool.port_id()));
        }
        None
    }

    /// Where its port likely stands among the ports. A wrong place is only slower.
    #[inline(always)]
    pub fn at(&self) -> usize {
        self.at as usize
    }

    /// Its port likely stands there among the ports.
    #[inline]
    pub fn set_at(&mut self, at: usize)
        ensures { self.new ≡ self.old }
    {
        self.at = (at & 0xffff_ffff) as u32;
    }

    // ---- one slot changes

    /// Writes another message into a slot, and says whether there is such a slot.
    #[inline]
    pub fn write(&mut self, k: u64, serial: u64, lane: u64, request: u64, elements: u64) -> bool
        ensures there { result ≡ nat_lt k (length (slots_in self.old)) }
        ensures written { self.new
            ≡ option_map (λ p. with_slot_of (written serial lane request elements) p k) self.old }
    {
        self.pool.write(k, serial, lane, request, elements)
    }

    /// One more has a slot that somebody has.
    #[inline(always)]
    pub fn hold(&mut self, k: u64)
        requires taken { 0 < (slot_in (slots_in self.old) k).holders }
        requires fits { (slot_in (slots_in self.old) k).holders < 2 ^ 64 - 1 }
        ensures { self.new ≡ option_map (λ p. with_slot_of held p k) self.old }
    {
        self.pool.hold(k);
    }

    /// One less has a slot that somebody has.
    #[inline(always)]
    pub fn leave(&mut self, k: u64)
        requires { 0 < (slot_in (slots_in self.old) k).holders }
        ensures { self.new ≡ option_map (λ p. with_slot_of let_go p k) self.old }
    {
        self.pool.leave(k);
    }

    /// The same, and what was known of the slot is told.
    #[inline(always)]
    pub fn leave_known(&mut self, k: u64) -> Left
        requires { 0 < (slot_in (slots_in self.old) k).holders }
        ensures lane { result.label.lane ≡ (slot_in (slots_in self.old) k).lane }
        ensures request { result.label.request ≡ (slot_in (slots_in self.old) k).request }
        ensures owner { result.owner ≡ port_of self.old }
        ensures idle { result.idle ≡ list_all is_free (slots_in self.new) }
        ensures left { self.new ≡ option_map (λ p. with_slot_of let_go p k) self.old }
    {
        let label = self.label(k);
        let owner = self.port();
        let at = self.at();
        self.leave(k);
        Left {
            label,
            owner,
            at,
            idle: self.is_idle(),
        }
    }

    /// One less has a slot, and says whether anybody had it.
    #[inline]
    pub fn let_go(&mut self, k: u64) -> bool
        ensures had { result ≡ is_taken (slots_in self.old) k }
        ensures left { self.new ≡ option_map (λ p. with_slot_of let_go p k) self.old }
        ensures unchanged { OnFalse result (self.new ≡ self.old) }
    {
        self.pool.let_go(k)
    }

    /// One has a slot that nobody had, and this is its number.
    #[inline]
    pub fn acquire(&mut self) -> Option<u64>
        ensures free { IfSome result (λ k.
            option_map_or is_free (slice_get (slots_in self.old) k) false ≡ true) }
        ensures acquired { IfSome result (λ k. self.new
            ≡ option_map (λ p. with_slot_of held p k) self.old) }
        ensures full { result ≡ None ↔ count_by is_free (slots_in self.old) ≡ 0 }
        ensures unchanged { result ≡ None → self.new ≡ self.old }
    {
        match self.pool.acquire() {
            Some(k) => Some(k),
            None => None,
        }
    }

    /// The same, with that message.
    #[inline(always)]
    pub fn take(&mut self, serial: u64, lane: u64, request: u64, elements: u64) -> Option<u64>
        ensures free { IfSome result (λ k.
            option_map_or is_free (slice_get (slots_in self.old) k) false ≡ true) }
        ensures taken { IfSome result (λ k. self.new
            ≡ option_map (λ p. put_slot_of k (taken serial lane request elements) p) self.old) }
        ensures full { result ≡ None ↔ count_by is_free (slots_in self.old) ≡ 0 }
        ensures unchanged { result ≡ None → self.new ≡ self.old }
    {
        match self.pool.take(serial, lane, request, elements) {
            Some(k) => Some(k),
            None => None,
        }
    }
}
