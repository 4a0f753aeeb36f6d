//! What a node keeps of all of its ports.
ghost use Rattle.std.specs.Prelude.{◌≡◌, ◌==◌, ◌<◌, IfSome, length, map, position};
ghost use Rattle.iox_wire_locals.specs.Desks.{counts_loan, gives_up, on_desk, picks};
ghost use Rattle.iox_wire_seats.specs.Desks.{AreOfDifferentPorts, MayGiveUp};

mod count;
mod lend;

use crate::desk::StoredDesk;
use iox_model::way::Way;
use iox_wire_locals::Entry;
use std::marker::Model;

/// What a node keeps of its ports. Each port has one desk.
#[derive(Drop)]
pub struct Desks {
    desks: Vec<StoredDesk>,
}

impl Model for Desks {
    ghost use Rattle.std.specs.Prelude.{List};
    ghost use Rattle.iox_wire_locals.specs.declared.table.Desk.{Desk};
    ghost use Rattle.iox_wire_seats.specs.Desks.{AreOfDifferentPorts};

    ghost Value = { List Desk };

    ghost view = { λ d. d.desks.items };

    ghost invariant = { λ d. AreOfDifferentPorts d.desks.items };
}

impl Desks {
    ghost use Rattle.std.specs.Prelude.{◌≡◌, ◌∷◌, [], IfSome, None, drop, map};
    ghost use Rattle.iox_wire_locals.specs.declared.table.NewLoan.{NewLoan};
    ghost use Rattle.iox_wire_locals.specs.Desks.{counts_loan, delivers, gets_back, gives_up};
    ghost use Rattle.iox_wire_locals.specs.Desks.{on_desk, picks, uses_less};
    ghost use Rattle.iox_wire_seats.specs.Desks.{IsUsed, MayCount, MayDeliver, MayGiveUp, free_at};

    /// The desks of these ports, no two of which are the same.
    pub fn new(desks: Vec<StoredDesk>) -> Desks
        requires { AreOfDifferentPorts desks.items }
        ensures { result ≡ desks.items }
    {
        Desks { desks }
    }

    /// Where the desk of a port stands.
    fn place(&self, port: u64) -> Option<usize>
        ensures first { result ≡ position (λ d. d.port == port) self.now }
        ensures within { IfSome result (λ place. place < length self.now) }
    {
        self.desks.iter().position(|desk| desk.port() == port)
    }

    /// A message of a port's own is given up.
    pub fn give_up(&mut self, entry: Entry)
        requires { MayGiveUp entry self.old }
        ensures { self.new ≡ map (on_desk entry.port (gives_up entry)) self.old }
    {
        if let Some(place) = self.place(entry.port) {
            self.desks[place].give_up(entry);
        }
    }

    /// One more loan of a port succeeded.
    pub fn count_loan(&mut self, port: u64)
        requires { MayCount port self.old }
        ensures { self.new ≡ map (on_desk port counts_loan) self.old }
    {
        if let Some(place) = self.place(port) {
            self.desks[place].count_loan();
        }
    }

    /// The message of a slot was delivered on a way.
    pub fn deliver(&mut self, port: u64, way: Way, slot: u64)
        requires { MayDeliver port way slot self.old }
        ensures { self.new ≡ map (on_desk port (delivers way slot)) self.old }
    {
        if let Some(place) = self.place(port) {
            self.desks[place].deliver(way, slot);
        }
    }

    /// It was got back from there.
    pub fn get_back(&mut self, port: u64, way: Way, slot: u64)
        requires { IsUsed port slot self.old }
        ensures { self.new ≡ map (on_desk port (gets_back way slot)) self.old }
    {
        if let Some(place) = self.place(port) {
            self.desks[place].get_back(way, slot);
        }
    }

    /// A slot of a port has one use less.
    pub fn use_less(&mut self, port: u64, slot: u64)
        requires { IsUsed port slot self.old }
        ensures { self.new ≡ map (on_desk port (uses_less slot)) self.old }
    {
        if let Some(place) = self.place(port) {
            self.desks[place].use_less(slot as usize);
        }
    }

    /// A new loan of a port, with that serial, takes its first free slot, and its lane. Without a
    /// free slot nothing changes.
    pub fn pick(&mut self, port: u64, serial: u64, lane: u64) -> Option<u64>
        ensures first { IfSome result (λ slot. free_at port self.old
            ≡ slot ∷ drop 1 (free_at port self.old)) }
        ensures picked { IfSome result (λ slot. (o : NewLoan) → o.serial ≡ serial → o.lane ≡ lane
            → self.new
            ≡ map (on_desk port (picks o slot (drop 1 (free_at port self.old)))) self.old) }
        ensures none { result ≡ None → free_at port self.old ≡ [] }
        ensures unchanged { result ≡ None → self.new ≡ self.old }
    {
        match self.place(port) {
            Some(place) => self.desks[place].pick(serial, lane),
            None => None,
        }
    }
}
