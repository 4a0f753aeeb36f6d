//! A receive ends with a handle of what it took.
ghost use Rattle.std.specs.Prelude.{◌≡◌, ◌-◌, length, slice_index};

use super::Receiving;
use crate::at::{ReceiveAt, ReceiveReply};
use iox_model::kind::{Kind, Role};
use iox_wire_locals::Entry;
use iox_wire_seats::StoredSeat;

impl Receiving {
    ghost use Rattle.std.specs.Prelude.{◌≡◌, ◌+◌, ◌<◌, ◌^◌, ◌-◌, Some, length};
    ghost use Rattle.iox_wire_locals.specs.declared.local.Local.TheVariants.{Idle};
    ghost use Rattle.iox_wire_locals.specs.NewLoans.{received_entry, received_length, request_in};
    ghost use Rattle.iox_wire_seats.specs.Counts.{IsBelow};
    ghost use Rattle.iox_wire_seats.specs.Keeps.{gains_received};
    ghost use Rattle.iox_wire_receives.specs.declared.at.ReceiveReply.TheVariants.{Handle};
    ghost use Rattle.iox_wire_receives.specs.Aims.{MayReceive};

    /// The request that the header tells.
    #[inline(always)]
    pub(super) fn request(&self) -> u64
        requires { length self.now.header ≡ received_length self.now.visit }
        ensures { result ≡ request_in self.now.visit self.now.header }
    {
        self.header[self.header.len() - 2]
    }

    /// The handle of what it took.
    fn entry(&self) -> Entry
        requires { length self.now.header ≡ received_length self.now.visit }
        ensures { result
            ≡ received_entry self.now.terms.number self.now.visit self.now.source.way self.now.slot
            self.now.header }
    {
        let way = self.source.way;
        let visit = self.visit;
        let (kind, client, lane) = match visit.role {
            Role::Client => (Kind::Response, visit.port, way.lane),
            Role::Server => (Kind::ActiveRequest, way.sender, self.header[4]),
        };
        Entry {
            number: self.terms.number,
            kind,
            port: visit.port,
            sender: way.sender,
            slot: self.slot,
            client,
            lane,
            request: self.request(),
            elements: self.header[self.header.len() - 1],
            connections: 0,
        }
    }

    /// It is over: the node has one handle more.
    #[inline(always)]
    pub(super) fn take(&mut self, seat: &mut StoredSeat) -> Option<ReceiveReply>
        requires header { length self.old.header ≡ received_length self.old.visit }
        requires may { MayReceive seat.old self.old.terms.number }
        requires below { IsBelow (2 ^ 64 - 1) self.old.source.way seat.old.seat.borrowed }
        ensures seat { seat.new
            ≡ gains_received seat.old
            (received_entry self.old.terms.number self.old.visit self.old.source.way self.old.slot
            self.old.header) self.old.source.way }
        ensures over { self.new.local ≡ Idle }
        ensures reply { result ≡ Some (Handle self.old.terms.number) }
        ensures terms { self.new.terms ≡ self.old.terms }
        ensures ways { self.new.room ≡ self.old.room }
    {
        seat.receive(self.entry(), self.source.way);
        self.at = ReceiveAt::Rest;
        Some(ReceiveReply::Handle(self.terms.number))
    }
}
