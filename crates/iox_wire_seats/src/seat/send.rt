//! What a send that is kept beside the seat leaves there.
ghost use Rattle.std.specs.Prelude.{◌≡◌};
ghost use Rattle.iox_wire_locals.specs.Tables.{sent_entry};

use super::StoredSeat;
use iox_model::kind::Kind;
use iox_model::way::Way;
use iox_wire_locals::Entry;

impl StoredSeat {
    ghost use Rattle.std.specs.Prelude.{◌≡◌, false};
    ghost use Rattle.iox_wire_locals.specs.Begins.{is_busy};
    ghost use Rattle.iox_wire_locals.specs.Settlements.{after_refused_send, sends_away};
    ghost use Rattle.iox_wire_seats.specs.Aims.{KeepsRoom};
    ghost use Rattle.iox_wire_seats.specs.Desks.{IsUsed, MayDeliver, MayGiveUp};
    ghost use Rattle.iox_wire_seats.specs.Keeps.{delivered, got_back, requested};

    /// A message of one of its ports was delivered on a way.
    pub fn deliver(&mut self, port: u64, way: Way, slot: u64)
        requires rests { is_busy self.old.seat.local ≡ false }
        requires may { MayDeliver port way slot self.old.seat.desks }
        ensures { self.new ≡ delivered self.old port way slot }
    {
        self.desks.deliver(port, way, slot);
    }

    /// It was got back from there.
    pub fn get_back(&mut self, port: u64, way: Way, slot: u64)
        requires rests { is_busy self.old.seat.local ≡ false }
        requires used { IsUsed port slot self.old.seat.desks }
        ensures { self.new ≡ got_back self.old port way slot }
    {
        self.desks.get_back(port, way, slot);
    }

    /// A loan is a handle no more, and its message has one use less.
    pub fn send_away(&mut self, loan: Entry)
        requires rests { is_busy self.old.seat.local ≡ false }
        requires used { IsUsed loan.port loan.slot self.old.seat.desks }
        ensures seat { self.new.seat ≡ sends_away self.old.seat loan false }
        ensures room { KeepsRoom self.old self.new }
    {
        self.entries.remove(loan);
        self.desks.use_less(loan.port, loan.slot);
    }

    /// A loaned request was sent to so many servers: it is a pending response.
    pub fn send_request(&mut self, loan: Entry, servers: u64)
        requires { is_busy self.old.seat.local ≡ false }
        ensures { self.new ≡ requested self.old loan servers }
    {
        self.entries.change(pending_entry(loan, servers));
    }

    /// A loan whose send is refused is given up.
    pub fn give_up(&mut self, loan: Entry)
        requires rests { is_busy self.old.seat.local ≡ false }
        requires held { MayGiveUp loan self.old.seat.desks }
        ensures seat { self.new.seat ≡ after_refused_send self.old.seat loan false }
        ensures room { KeepsRoom self.old self.new }
    {
        self.entries.remove(loan);
        self.desks.give_up(loan);
    }
}

/// The pending response that a loaned request is once it is sent to so many servers.
#[inline(always)]
pub fn pending_entry(loan: Entry, servers: u64) -> Entry
    ensures { result ≡ sent_entry loan servers }
{
    Entry {
        kind: Kind::PendingResponse,
        connections: servers,
        ..loan
    }
}
