//! How the send of a response begins.
ghost use Rattle.std.specs.Prelude.{◌≡◌};

use super::Responding;
use crate::at::RespondAt;
use crate::terms::ResponseTerms;
use iox_wire_locals::Entry;
use iox_wire_seats::StoredSeat;

impl Responding {
    ghost use Rattle.std.specs.Prelude.{ℕ, ◌≡◌, false, true};
    ghost use Rattle.iox_model.specs.Handles.{is_response_loan};
    ghost use Rattle.iox_wire_locals.specs.Begins.{is_busy};
    ghost use Rattle.iox_wire_locals.specs.Courses.{placed, sends};
    ghost use Rattle.iox_wire_locals.specs.Tables.{Setting};
    ghost use Rattle.iox_wire_seats.specs.Aims.{IsInMemory};
    ghost use Rattle.iox_wire_seats.specs.Seats.{Placed};
    ghost use Rattle.iox_wire_sends.specs.Aims.{FindsUsed, IsToldOf};

    /// Begins to send a loaned response. No send may be under way.
    pub fn begin(&mut self, seat: &StoredSeat, loan: Entry, terms: ResponseTerms)
        requires rests { is_busy self.old.local ≡ false }
        requires kind { is_response_loan loan.kind ≡ true }
        requires messages { IsInMemory terms.messages }
        requires returning { IsInMemory terms.returning }
        ensures begun { (p : Setting) → IsToldOf p loan terms
            → placed seat.now.seat self.new.local ≡ sends p seat.now.seat loan false }
        ensures busy { is_busy self.new.local ≡ true }
        ensures first { (x : Placed) → (seen : ℕ) → FindsUsed x self.new seen }
        ensures loan { self.new.loan ≡ loan }
        ensures own { self.new.copied ≡ false }
        ensures terms { self.new.terms ≡ terms }
    {
        self.prepare(terms);
        self.start(seat, loan, false);
    }

    /// Is told about the way on which it sends later. No send may be under way.
    pub fn prepare(&mut self, terms: ResponseTerms)
        requires rests { is_busy self.old.local ≡ false }
        requires messages { IsInMemory terms.messages }
        requires returning { IsInMemory terms.returning }
        ensures terms { self.new.terms ≡ terms }
        ensures rests { is_busy self.new.local ≡ false }
    {
        self.terms = terms;
    }

    /// Begins to send a loan on the way that it was told about. Its own call may have made it.
    pub fn start(&mut self, seat: &StoredSeat, loan: Entry, copied: bool)
        requires rests { is_busy self.old.local ≡ false }
        requires kind { is_response_loan loan.kind ≡ true }
        ensures begun { (p : Setting) → IsToldOf p loan self.old.terms
            → placed seat.now.seat self.new.local ≡ sends p seat.now.seat loan copied }
        ensures busy { is_busy self.new.local ≡ true }
        ensures first { (x : Placed) → (seen : ℕ) → FindsUsed x self.new seen }
        ensures loan { self.new.loan ≡ loan }
        ensures copied { self.new.copied ≡ copied }
        ensures terms { self.new.terms ≡ self.old.terms }
    {
        self.loan = loan;
        self.copied = copied;
        if seat.has_forgotten(self.terms.node) {
            self.at = RespondAt::Tells;
        } else {
            self.at = RespondAt::Asks;
        }
    }
}
