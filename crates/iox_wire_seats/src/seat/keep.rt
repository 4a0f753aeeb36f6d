//! What a call that is kept beside the seat asks of it, and what such a call leaves there.
ghost use Rattle.std.specs.Prelude.{◌≡◌};

use super::StoredSeat;
use iox_model::way::Way;
use iox_wire_locals::Entry;

impl StoredSeat {
    ghost use Rattle.std.specs.Prelude.{◌≡◌, ◌+◌, ◌-◌, ◌<◌, ◌^◌, nat_le};
    ghost use Rattle.std.specs.Bool.{OnFalse};
    ghost use Rattle.iox_model.specs.Maps.{has_number};
    ghost use Rattle.iox_wire_locals.specs.Known.{count_on};
    ghost use Rattle.iox_wire_seats.specs.Counts.{IsBelow};
    ghost use Rattle.iox_wire_seats.specs.Keeps.{counted, gains_received};
    ghost use Rattle.iox_wire_seats.specs.Rows.{AreBelow};

    /// Counts one more access.
    #[inline(always)]
    pub fn count_access(&mut self)
        requires { self.old.seat.accesses + 1 < 2 ^ 64 }
        ensures { self.new ≡ counted self.old }
    {
        self.accesses += 1;
    }

    /// Whether it forgot a node.
    #[inline(always)]
    pub fn has_forgotten(&self, node: u64) -> bool
        ensures { result ≡ has_number node self.now.seat.forgot }
    {
        self.forgot.contains(&node)
    }

    /// Whether as many messages of a way as that are its handles.
    #[inline(always)]
    pub fn has_as_many(&self, way: Way, limit: u64) -> bool
        ensures many { result ≡ nat_le limit (count_on self.now.seat way) }
        ensures below { OnFalse result (IsBelow (2 ^ 64 - 1) way self.now.seat.borrowed) }
    {
        self.counts.has_as_many(way, limit)
    }

    /// It has one handle more, of a message that came on that way.
    pub fn receive(&mut self, entry: Entry, way: Way)
        requires room { 0 < self.old.room }
        requires newer { AreBelow entry.number self.old.seat.table }
        requires handles { self.old.seat.handles_made + 1 < 2 ^ 64 }
        requires below { IsBelow (2 ^ 64 - 1) way self.old.seat.borrowed }
        ensures { self.new ≡ gains_received self.old entry way }
    {
        self.entries.add(entry);
        self.counts.add(way);
        self.handles_made += 1;
    }
}
