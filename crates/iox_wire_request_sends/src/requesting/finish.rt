//! The send of a request is over.
ghost use Rattle.std.specs.Prelude.{◌≡◌};

use super::Requesting;
use crate::at::{RequestAt, RequestReply};
use iox_wire_seats::{StoredSeat, pending_entry};

impl Requesting {
    ghost use Rattle.std.specs.Prelude.{◌≡◌, IfSome, Some, false, true};
    ghost use Rattle.iox_wire_locals.specs.declared.local.Local.TheVariants.{Idle};
    ghost use Rattle.iox_wire_locals.specs.Begins.{is_busy};
    ghost use Rattle.iox_wire_locals.specs.Courses.{placed};
    ghost use Rattle.iox_wire_locals.specs.Settlements.{after_refused_send, sends_entry};
    ghost use Rattle.iox_wire_locals.specs.Tables.{Setting};
    ghost use Rattle.iox_wire_seats.specs.Aims.{KeepsRoom};
    ghost use Rattle.iox_wire_seats.specs.Desks.{MayGiveUp};
    ghost use Rattle.iox_wire_seats.specs.Lends.{MayLend};
    ghost use Rattle.iox_wire_request_sends.specs.Aims.{IsSameSend, IsToldBy, Knows, LeadsTo};
    ghost use Rattle.iox_wire_request_sends.specs.Aims.{LeavesSeat};
    ghost use Rattle.iox_wire_request_sends.specs.Aims.{LoanMayEnd, is_ending};
    ghost use Rattle.iox_wire_request_sends.specs.RequestDispatches.{told_sent};

    /// The loan is sent: it is a pending response.
    pub(super) fn finish(&mut self, seat: &mut StoredSeat) -> Option<RequestReply>
        requires rests { is_busy seat.old.seat.local ≡ false }
        requires made { self.old.copied ≡ true
            → MayLend seat.old self.old.loan.number self.old.loan.port }
        ensures seat { seat.new.seat
            ≡ sends_entry seat.old.seat self.old.loan self.old.copied self.old.count }
        ensures room { KeepsRoom seat.old seat.new }
        ensures over { self.new.local ≡ Idle }
        ensures same { IsSameSend self.old self.new }
        ensures reply { result
            ≡ Some (told_sent self.old.loan self.old.copied self.old.count) }
        ensures told { IfSome result (IsToldBy self.new.copied) }
    {
        self.at = RequestAt::Rest;
        if self.copied {
            seat.lend(pending_entry(self.loan, self.count));
            return Some(RequestReply::Handle(self.loan.number));
        }
        seat.send_request(self.loan, self.count);
        Some(RequestReply::Sent(self.count))
    }

    /// The loan is given up.
    pub(super) fn fail(
        &mut self,
        seat: &mut StoredSeat,
        reply: RequestReply,
    ) -> Option<RequestReply>
        requires rests { is_busy seat.old.seat.local ≡ false }
        requires made { self.old.copied ≡ true
            → MayLend seat.old self.old.loan.number self.old.loan.port }
        requires held { MayGiveUp self.old.loan seat.old.seat.desks }
        ensures seat { seat.new.seat
            ≡ after_refused_send seat.old.seat self.old.loan self.old.copied }
        ensures room { KeepsRoom seat.old seat.new }
        ensures over { self.new.local ≡ Idle }
        ensures same { IsSameSend self.old self.new }
        ensures reply { result ≡ Some reply }
    {
        self.at = RequestAt::Rest;
        if self.copied {
            seat.give_up_copy(self.loan);
        } else {
            seat.give_up(self.loan);
        }
        Some(reply)
    }

    /// Whether it has no access left.
    #[inline(always)]
    pub fn is_ending(&self) -> bool
        ensures { result ≡ is_ending self.now.local }
    {
        matches!(self.at, RequestAt::Refuses | RequestAt::TellsNobody)
    }

    /// Ends a send that has no access left.
    pub fn tell(&mut self, seat: &mut StoredSeat) -> Option<RequestReply>
        requires there { is_ending self.old.local ≡ true }
        requires rests { is_busy seat.old.seat.local ≡ false }
        requires may { LoanMayEnd seat.old self.old }
        ensures next { (p : Setting) → Knows p seat.old.seat self.old
            → LeadsTo p (placed seat.old.seat self.old.local) seat.new self.new result }
        ensures leaves { LeavesSeat seat.old seat.new self.new result }
        ensures same { IsSameSend self.old self.new }
    {
        if let RequestAt::Refuses = self.at {
            return self.fail(seat, RequestReply::ExceedsMaxActiveRequests);
        }
        self.count = 0;
        self.finish(seat)
    }
}
