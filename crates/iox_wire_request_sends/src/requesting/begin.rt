//! How the send of a request begins.
ghost use Rattle.std.specs.Prelude.{◌≡◌, ◌==◌, ◌&&◌, length, filter};
ghost use Rattle.iox_model.specs.declared.kind.Kind.TheVariants.{PendingResponse};
ghost use Rattle.iox_model.specs.Handles.{same_kind};

use super::Requesting;
use crate::at::RequestAt;
use crate::target::{RequestTerms, Target};
use iox_model::kind::Kind;
use iox_wire_locals::Entry;
use iox_wire_seats::StoredSeat;

impl Requesting {
    ghost use Rattle.std.specs.Prelude.{ℕ, ◌≡◌, ◌≤◌, false, length, true};
    ghost use Rattle.iox_model.specs.declared.kind.Role.TheVariants.{Server};
    ghost use Rattle.iox_model.specs.Handles.{is_request_loan};
    ghost use Rattle.iox_model.specs.Peers.{others};
    ghost use Rattle.iox_wire_locals.specs.Begins.{is_busy};
    ghost use Rattle.iox_wire_locals.specs.Courses.{placed, sends};
    ghost use Rattle.iox_wire_locals.specs.Known.{known};
    ghost use Rattle.iox_wire_locals.specs.Lendings.{next_handle};
    ghost use Rattle.iox_wire_locals.specs.Tables.{Setting};
    ghost use Rattle.iox_wire_seats.specs.Aims.{HasRoomForHint};
    ghost use Rattle.iox_wire_seats.specs.Desks.{MayGiveUp};
    ghost use Rattle.iox_wire_seats.specs.Lends.{MayLend};
    ghost use Rattle.iox_wire_seats.specs.Seats.{Placed};
    ghost use Rattle.iox_wire_request_sends.specs.Aims.{FindsUsed, IsAimed, IsToldOf, LoanMayEnd};
    ghost use Rattle.iox_wire_request_sends.specs.Targets.{AreTargets, AreWithin, servers_of};

    /// Begins to send a loaned request to these servers. No send may be under way.
    pub fn begin(&mut self, seat: &StoredSeat, loan: Entry, terms: RequestTerms, targets: &[Target])
        requires rests { is_busy self.old.local ≡ false }
        requires kind { is_request_loan loan.kind ≡ true }
        requires request { HasRoomForHint loan }
        requires within { AreWithin terms targets.now }
        requires fits { length targets.now ≤ self.old.room }
        ensures begun { (p : Setting) → IsToldOf p loan terms
            → servers_of targets.now ≡ others (known p seat.now.seat) seat.now.seat.node Server
            → placed seat.now.seat self.new.local
            ≡ sends p seat.now.seat loan false }
        ensures aimed { (p : Setting) → IsToldOf p loan terms → AreTargets p terms loan targets.now
            → IsAimed p seat.now.seat self.new }
        ensures busy { is_busy self.new.local ≡ true }
        ensures may { (x : Placed) → MayGiveUp loan x.seat.desks → LoanMayEnd x self.new }
        ensures first { (x : Placed) → (seen : ℕ) → FindsUsed x self.new seen }
        ensures loan { self.new.loan ≡ loan }
        ensures own { self.new.copied ≡ false }
        ensures room { self.new.room ≡ self.old.room }
    {
        self.prepare(terms, targets);
        self.start(seat, loan, false);
    }

    /// Is told about the servers, to which it sends later. No send may be under way.
    pub fn prepare(&mut self, terms: RequestTerms, targets: &[Target])
        requires rests { is_busy self.old.local ≡ false }
        requires within { AreWithin terms targets.now }
        requires fits { length targets.now ≤ self.old.room }
        ensures terms { self.new.terms ≡ terms }
        ensures targets { self.new.targets ≡ targets.now }
        ensures rests { is_busy self.new.local ≡ false }
        ensures room { self.new.room ≡ self.old.room }
    {
        self.targets.fill(targets);
        self.terms = terms;
    }

    /// Begins to send a loan to the servers that it was told about. Its own call may have made it.
    pub fn start(&mut self, seat: &StoredSeat, loan: Entry, copied: bool)
        requires rests { is_busy self.old.local ≡ false }
        requires kind { is_request_loan loan.kind ≡ true }
        requires request { HasRoomForHint loan }
        ensures begun { (p : Setting) → IsToldOf p loan self.old.terms
            → servers_of self.old.targets
            ≡ others (known p seat.now.seat) seat.now.seat.node Server
            → placed seat.now.seat self.new.local ≡ sends p seat.now.seat loan copied }
        ensures aimed { (p : Setting) → IsToldOf p loan self.old.terms
            → AreTargets p self.old.terms loan self.old.targets
            → (copied ≡ true → loan.number ≡ next_handle p seat.now.seat)
            → IsAimed p seat.now.seat self.new }
        ensures busy { is_busy self.new.local ≡ true }
        ensures may { (x : Placed) → MayGiveUp loan x.seat.desks
            → (copied ≡ true → MayLend x loan.number loan.port) → LoanMayEnd x self.new }
        ensures first { (x : Placed) → (seen : ℕ) → FindsUsed x self.new seen }
        ensures loan { self.new.loan ≡ loan }
        ensures copied { self.new.copied ≡ copied }
        ensures terms { self.new.terms ≡ self.old.terms }
        ensures targets { self.new.targets ≡ self.old.targets }
        ensures room { self.new.room ≡ self.old.room }
    {
        self.loan = loan;
        self.copied = copied;
        self.targets.restart();
        if self.terms.active <= pending_responses(seat.entries(), loan.port) {
            self.at = RequestAt::Refuses;
            return;
        }
        match self.targets.next() {
            Some(target) => self.empty(target),
            None => self.at = RequestAt::TellsNobody,
        }
    }
}

/// How many pending responses a port has.
fn pending_responses(entries: &[Entry], port: u64) -> u64
    ensures { result
        ≡ length (filter (λ e. (e.port == port) && same_kind e.kind PendingResponse) entries.now) }
{
    let pending = entries
        .iter()
        .filter(|entry| entry.port == port && is_pending(entry.kind));
    pending.count() as u64
}

/// Whether a handle of that kind is a pending response.
fn is_pending(kind: Kind) -> bool
    ensures { result ≡ same_kind kind PendingResponse }
{
    matches!(kind, Kind::PendingResponse)
}
