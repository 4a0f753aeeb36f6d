//! The send of a request delivers, server by server, and gets back what that pushes out.
ghost use Rattle.std.specs.Prelude.{◌≡◌};

use super::Requesting;
use crate::at::{RequestAt, RequestReply};
use iox_steps::QueueEvent;
use iox_wire_seats::StoredSeat;

impl Requesting {
    ghost use Rattle.std.specs.Prelude.{◌≡◌, ◌+◌, ◌<◌, ◌^◌, ℕ, IfSome, false, is_none};
    ghost use Rattle.iox_wire_locals.specs.Begins.{is_busy};
    ghost use Rattle.iox_wire_request_sends.specs.Aims.{Answers, FindsUsed, GoesOn, IsEvicting, IsGettingBack, IsPushing};
    ghost use Rattle.iox_wire_request_sends.specs.Aims.{IsOneStep, IsSameSend, IsToldBy, LoanMayEnd};
    ghost use Rattle.iox_wire_request_sends.specs.Aims.{StaysAimed};

    /// An access of the push.
    #[inline(always)]
    pub(super) fn push_on(&mut self, seat: &mut StoredSeat, seen: u64) -> Option<RequestReply>
        requires there { IsPushing self.old.local }
        requires accesses { seat.old.seat.accesses + 1 < 2 ^ 64 }
        requires rests { is_busy seat.old.seat.local ≡ false }
        requires may { LoanMayEnd seat.old self.old }
        requires finds { FindsUsed seat.old self.old seen }
        ensures next { GoesOn seat.old self.old seen seat.new self.new }
        ensures over { Answers seat.old self.old seen result }
        ensures aimed { StaysAimed seat.old self.old seat.new self.new }
        ensures busy { is_busy self.new.local ≡ is_none result }
        ensures told { IfSome result (IsToldBy self.new.copied) }
        ensures same { IsSameSend self.old self.new }
        ensures step { IsOneStep seat.old seat.new }
    {
        seat.count_access();
        let QueueEvent::Publish(slot) = self.pusher.advance(self.site, seen) else {
            return None;
        };
        seat.deliver(self.loan.port, self.way(), slot);
        self.count += 1;
        self.at = RequestAt::Evicts;
        if self.pusher.is_at_rest() {
            self.last = self.may_evict();
            return self.deliver_next(seat);
        }
        None
    }

    /// It pushes the oldest out, unless the server took that.
    #[inline(always)]
    pub(super) fn evict_on(&mut self, seat: &mut StoredSeat, seen: u64) -> Option<RequestReply>
        requires there { IsEvicting self.old.local }
        requires accesses { seat.old.seat.accesses + 1 < 2 ^ 64 }
        requires rests { is_busy seat.old.seat.local ≡ false }
        requires may { LoanMayEnd seat.old self.old }
        ensures next { GoesOn seat.old self.old seen seat.new self.new }
        ensures over { Answers seat.old self.old seen result }
        ensures aimed { StaysAimed seat.old self.old seat.new self.new }
        ensures busy { is_busy self.new.local ≡ is_none result }
        ensures told { IfSome result (IsToldBy self.new.copied) }
        ensures same { IsSameSend self.old self.new }
        ensures step { IsOneStep seat.old seat.new }
    {
        seat.count_access();
        if let QueueEvent::Evict = self.pusher.advance(self.site, seen) {
            self.at = RequestAt::GetsBack;
            return None;
        }
        self.last = Some(self.way());
        self.deliver_next(seat)
    }

    /// It learns what it pushed out.
    #[inline(always)]
    pub(super) fn get_back_on(&mut self, seat: &mut StoredSeat, seen: u64) -> Option<RequestReply>
        requires there { IsGettingBack self.old.local }
        requires accesses { seat.old.seat.accesses + 1 < 2 ^ 64 }
        requires rests { is_busy seat.old.seat.local ≡ false }
        requires may { LoanMayEnd seat.old self.old }
        requires finds { FindsUsed seat.old self.old seen }
        ensures next { GoesOn seat.old self.old seen seat.new self.new }
        ensures over { Answers seat.old self.old seen result }
        ensures aimed { StaysAimed seat.old self.old seat.new self.new }
        ensures busy { is_busy self.new.local ≡ is_none result }
        ensures told { IfSome result (IsToldBy self.new.copied) }
        ensures same { IsSameSend self.old self.new }
        ensures step { IsOneStep seat.old seat.new }
    {
        seat.count_access();
        let QueueEvent::Learn(slot) = self.pusher.advance(self.site, seen) else {
            return None;
        };
        seat.get_back(self.loan.port, self.way(), slot);
        self.last = None;
        self.deliver_next(seat)
    }
}
