//! What a loan that is kept beside the seat reads of it, and what it leaves there.
ghost use Rattle.std.specs.Prelude.{◌≡◌};

use super::StoredSeat;
use iox_wire_locals::Entry;

impl StoredSeat {
    ghost use Rattle.std.specs.Prelude.{◌≡◌, ◌∷◌, [], IfSome, None, drop, false};
    ghost use Rattle.iox_wire_locals.specs.declared.table.NewLoan.{NewLoan};
    ghost use Rattle.iox_wire_locals.specs.Begins.{is_busy};
    ghost use Rattle.iox_wire_locals.specs.Known.{free_lanes, free_slots, loans_at};
    ghost use Rattle.iox_wire_locals.specs.Lendings.{first_lane};
    ghost use Rattle.iox_wire_seats.specs.Lends.{MayLend, gains_loan, picked};

    /// Its handles, oldest first.
    #[inline(always)]
    pub fn entries(&self) -> &[Entry]
        ensures { result.now ≡ self.now.seat.table }
    {
        self.entries.all()
    }

    /// How many loans of a port succeeded.
    #[inline(always)]
    pub fn loans(&self, port: u64) -> u64
        ensures { result ≡ loans_at self.now.seat port }
    {
        self.desks.loans(port)
    }

    /// The first free lane of a port; `none` if no lane is free.
    #[inline(always)]
    pub fn first_lane(&self, port: u64, none: u64) -> u64
        ensures { result ≡ first_lane none (free_lanes self.now.seat port) }
    {
        self.desks.first_lane(port, none)
    }

    /// A new loan of a port, with that serial, takes its first free slot, and its lane. Without a
    /// free slot nothing changes.
    pub fn pick(&mut self, port: u64, serial: u64, lane: u64) -> Option<u64>
        requires rests { is_busy self.old.seat.local ≡ false }
        ensures first { IfSome result (λ slot. free_slots self.old.seat port
            ≡ slot ∷ drop 1 (free_slots self.old.seat port)) }
        ensures picked { IfSome result (λ slot. (o : NewLoan) → o.serial ≡ serial → o.lane ≡ lane
            → self.new
            ≡ picked self.old port o slot (drop 1 (free_slots self.old.seat port))) }
        ensures none { result ≡ None → free_slots self.old.seat port ≡ [] }
        ensures unchanged { result ≡ None → self.new ≡ self.old }
    {
        self.desks.pick(port, serial, lane)
    }

    /// It has one handle more, of a loan, which succeeded.
    pub fn lend(&mut self, entry: Entry)
        requires rests { is_busy self.old.seat.local ≡ false }
        requires may { MayLend self.old entry.number entry.port }
        ensures { self.new ≡ gains_loan self.old entry }
    {
        self.entries.add(entry);
        self.desks.count_loan(entry.port);
        self.handles_made += 1;
    }
}
