//! The send of a response is over.
ghost use Rattle.std.specs.Prelude.{◌≡◌};

use super::Responding;
use crate::at::{RespondAt, RespondReply};
use iox_model::way::Way;
use iox_wire_seats::StoredSeat;

impl Responding {
    ghost use Rattle.std.specs.Prelude.{◌≡◌, Some, false, is_some, true};
    ghost use Rattle.iox_wire_locals.specs.declared.local.Local.TheVariants.{Idle};
    ghost use Rattle.iox_wire_locals.specs.Begins.{is_busy};
    ghost use Rattle.iox_wire_locals.specs.Courses.{placed};
    ghost use Rattle.iox_wire_locals.specs.Settlements.{sends_away};
    ghost use Rattle.iox_wire_locals.specs.Tables.{Setting, state_in};
    ghost use Rattle.iox_wire_locals.specs.Steps.{ending_at};
    ghost use Rattle.iox_wire_seats.specs.Aims.{KeepsRoom};
    ghost use Rattle.iox_wire_seats.specs.Desks.{IsUsed};
    ghost use Rattle.iox_wire_loans.specs.Aims.{after, answered};
    ghost use Rattle.iox_wire_sends.specs.declared.at.RespondReply.TheVariants as replies;
    ghost use Rattle.iox_wire_sends.specs.Aims.{IsSameSend, MayCountMade};
    ghost use Rattle.iox_wire_sends.specs.Dispatches.{reply_in};

    /// The way to the client, on which its request state lies, too.
    #[inline(always)]
    pub(super) fn way(&self) -> Way
        ensures { result ≡ state_in self.now.loan }
    {
        Way {
            sender: self.loan.port,
            receiver: self.loan.client,
            lane: self.loan.lane,
        }
    }

    /// The loan is gone. One that the same call made was no handle.
    fn let_go(&mut self, seat: &mut StoredSeat)
        requires rests { is_busy seat.old.seat.local ≡ false }
        requires used { IsUsed self.old.loan.port self.old.loan.slot seat.old.seat.desks }
        requires counts { MayCountMade seat.old self.old }
        ensures seat { seat.new.seat ≡ sends_away seat.old.seat self.old.loan self.old.copied }
        ensures accesses { seat.new.seat.accesses ≡ seat.old.seat.accesses }
        ensures rests { is_busy seat.new.seat.local ≡ false }
        ensures room { KeepsRoom seat.old seat.new }
        ensures over { self.new.local ≡ Idle }
        ensures same { IsSameSend self.old self.new }
    {
        self.at = RespondAt::Rest;
        if self.copied {
            seat.send_copy_away(self.loan);
        } else {
            seat.send_away(self.loan);
        }
    }

    /// It is sent, or nobody waits for it.
    pub(super) fn finish(&mut self, seat: &mut StoredSeat) -> Option<RespondReply>
        requires rests { is_busy seat.old.seat.local ≡ false }
        requires used { IsUsed self.old.loan.port self.old.loan.slot seat.old.seat.desks }
        requires counts { MayCountMade seat.old self.old }
        ensures seat { seat.new.seat ≡ sends_away seat.old.seat self.old.loan self.old.copied }
        ensures accesses { seat.new.seat.accesses ≡ seat.old.seat.accesses }
        ensures rests { is_busy seat.new.seat.local ≡ false }
        ensures room { KeepsRoom seat.old seat.new }
        ensures over { self.new.local ≡ Idle }
        ensures same { IsSameSend self.old self.new }
        ensures reply { result ≡ Some replies.Done }
    {
        self.let_go(seat);
        Some(RespondReply::Done)
    }

    /// It is not sent.
    pub(super) fn fail(&mut self, seat: &mut StoredSeat) -> Option<RespondReply>
        requires rests { is_busy seat.old.seat.local ≡ false }
        requires used { IsUsed self.old.loan.port self.old.loan.slot seat.old.seat.desks }
        requires counts { MayCountMade seat.old self.old }
        ensures seat { seat.new.seat ≡ sends_away seat.old.seat self.old.loan self.old.copied }
        ensures accesses { seat.new.seat.accesses ≡ seat.old.seat.accesses }
        ensures rests { is_busy seat.new.seat.local ≡ false }
        ensures room { KeepsRoom seat.old seat.new }
        ensures over { self.new.local ≡ Idle }
        ensures same { IsSameSend self.old self.new }
        ensures reply { result ≡ Some replies.UnableToDeliver }
    {
        self.let_go(seat);
        Some(RespondReply::UnableToDeliver)
    }

    /// Whether it has no access left.
    #[inline(always)]
    pub fn is_ending(&self) -> bool
        ensures { result ≡ is_some (ending_at self.now.local) }
    {
        matches!(self.at, RespondAt::Tells)
    }

    /// Ends a send that has no access left.
    pub fn tell(&mut self, seat: &mut StoredSeat) -> RespondReply
        requires there { is_some (ending_at self.old.local) ≡ true }
        requires rests { is_busy seat.old.seat.local ≡ false }
        requires used { IsUsed self.old.loan.port self.old.loan.slot seat.old.seat.desks }
        requires counts { MayCountMade seat.old self.old }
        ensures next { (p : Setting) → placed seat.new.seat self.new.local
            ≡ after p (placed seat.old.seat self.old.local) }
        ensures reply { (p : Setting) → answered p (placed seat.old.seat self.old.local)
            ≡ Some (reply_in result) }
        ensures over { self.new.local ≡ Idle }
        ensures same { IsSameSend self.old self.new }
        ensures accesses { seat.new.seat.accesses ≡ seat.old.seat.accesses }
        ensures rests { is_busy seat.new.seat.local ≡ false }
        ensures room { KeepsRoom seat.old seat.new }
    {
        // that the loan is one of a response is wanted
        let _at = &self.at;
        self.let_go(seat);
        RespondReply::Done
    }
}
