//! A receive loads the header of what it took, and judges by it.
ghost use Rattle.std.specs.Prelude.{◌≡◌};
ghost use Rattle.iox_model.specs.Messages.{names};
ghost use Rattle.iox_wire_locals.specs.Locals.{state_told};

use super::Receiving;
use super::visit::header_length;
use crate::at::{ReceiveAt, ReceiveReply};
use crate::source::part_of;
use iox_model::kind::Role;
use iox_wire_seats::StoredSeat;

impl Receiving {
    ghost use Rattle.std.specs.Prelude.{◌≡◌, ◌+◌, ◌<◌, ◌^◌, None};
    ghost use Rattle.iox_wire_seats.specs.Aims.{KeepsRoom};
    ghost use Rattle.iox_wire_receives.specs.Aims.{Answers, GoesOn, MayTakeOneMore, IsAsking};
    ghost use Rattle.iox_wire_receives.specs.Aims.{IsLoading, MayReceive, StaysAimed};

    /// A word of the header is loaded.
    #[inline(always)]
    pub(super) fn load_on(&mut self, seat: &mut StoredSeat, seen: u64) -> Option<ReceiveReply>
        requires there { IsLoading self.old.local }
        requires accesses { seat.old.seat.accesses + 1 < 2 ^ 64 }
        requires counts { MayTakeOneMore seat.old.seat self.old.local }
        requires may { MayReceive seat.old self.old.terms.number }
        ensures next { GoesOn seat.old self.old seen seat.new self.new }
        ensures over { Answers seat.old self.old seen result }
        ensures aimed { StaysAimed seat.old self.old seat.new self.new }
        ensures accesses { seat.new.seat.accesses ≡ seat.old.seat.accesses + 1 }
        ensures room { KeepsRoom seat.old seat.new }
        ensures rests { seat.new.seat.local ≡ seat.old.seat.local }
        ensures may { result ≡ None → MayReceive seat.new self.new.terms.number }
        ensures counts { MayTakeOneMore seat.new.seat self.new.local }
        ensures terms { self.new.terms ≡ self.old.terms }
        ensures ways { self.new.room ≡ self.old.room }
    {
        seat.count_access();
        self.header.push_reserved(seen);
        if self.header.len() < header_length(self.visit.role) {
            return None;
        }
        self.at = ReceiveAt::Asks;
        match self.visit.role {
            Role::Client => {
                if self.request() == self.visit.request {
                    return self.take(seat);
                }
                if seat.has_forgotten(self.source.node) {
                    self.pop_again();
                } else {
                    self.give_back();
                }
            }
            Role::Server => {
                if self.terms.fire_and_forget {
                    return self.take(seat);
                }
                let source = self.source;
                let first = source.place + self.terms.state;
                self.place = part_of(first, self.header[4], source.lanes, self.terms.lane_words);
            }
        }
        None
    }
    /// It sees the request state of what it took.
    #[inline(always)]
    pub(super) fn ask_on(&mut self, seat: &mut StoredSeat, seen: u64) -> Option<ReceiveReply>
        requires there { IsAsking self.old.local }
        requires accesses { seat.old.seat.accesses + 1 < 2 ^ 64 }
        requires counts { MayTakeOneMore seat.old.seat self.old.local }
        requires may { MayReceive seat.old self.old.terms.number }
        ensures next { GoesOn seat.old self.old seen seat.new self.new }
        ensures over { Answers seat.old self.old seen result }
        ensures aimed { StaysAimed seat.old self.old seat.new self.new }
        ensures accesses { seat.new.seat.accesses ≡ seat.old.seat.accesses + 1 }
        ensures room { KeepsRoom seat.old seat.new }
        ensures rests { seat.new.seat.local ≡ seat.old.seat.local }
        ensures may { result ≡ None → MayReceive seat.new self.new.terms.number }
        ensures counts { MayTakeOneMore seat.new.seat self.new.local }
        ensures terms { self.new.terms ≡ self.old.terms }
        ensures ways { self.new.room ≡ self.old.room }
    {
        seat.count_access();
        let request = self.header[self.header.len() - 2];
        if is_named(seen, request) {
            return self.take(seat);
        }
        self.give_back();
        None
    }
}

/// Whether a request state, as its word tells it, names that request.
#[inline(always)]
fn is_named(word: u64, request: u64) -> bool
    ensures { result ≡ names (state_told word) request }
{
    let hinted = (1 << 63) + 1;
    if word == 0 {
        false
    } else if word >= hinted {
        word - hinted == request
    } else {
        word - 1 == request
    }
}
