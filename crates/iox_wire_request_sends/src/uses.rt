//! Callers, proved only from the clauses.
ghost use Rattle.std.specs.Prelude.{ℕ, ◌≡◌, ◌+◌, ◌<◌, ◌≤◌, ◌^◌, false, length, true};
ghost use Rattle.iox_model.specs.declared.call.Call.TheVariants.{Send};
ghost use Rattle.iox_model.specs.declared.kind.Role.TheVariants.{Server};
ghost use Rattle.iox_model.specs.Handles.{is_request_loan};
ghost use Rattle.iox_model.specs.Peers.{others};
ghost use Rattle.iox_wire_words.specs.Programs.{program_access};
ghost use Rattle.iox_wire_locals.specs.declared.seat.Seat.{Seat};
ghost use Rattle.iox_wire_locals.specs.Begins.{begins_at_entry, is_busy};
ghost use Rattle.iox_wire_locals.specs.Courses.{placed, sends};
ghost use Rattle.iox_wire_locals.specs.Known.{known};
ghost use Rattle.iox_wire_locals.specs.Locals.{program_of};
ghost use Rattle.iox_wire_locals.specs.Steps.{next};
ghost use Rattle.iox_wire_locals.specs.Tables.{Setting};
ghost use Rattle.iox_wire_seats.specs.Aims.{HasRoomForHint};
ghost use Rattle.iox_wire_seats.specs.Desks.{MayGiveUp};
ghost use Rattle.iox_wire_request_sends.specs.Aims.{IsAimed, IsToldOf};
ghost use Rattle.iox_wire_request_sends.specs.Targets.{AreTargets, AreWithin, servers_of};

use crate::at::RequestReply;
use crate::requesting::Requesting;
use crate::target::{RequestTerms, Target};
use iox_steps::Access;
use iox_wire_locals::Entry;
use iox_wire_seats::StoredSeat;

/// The send of a request begins as the definitions begin it.
pub fn request_send_begins(
    requesting: &mut Requesting,
    seat: &StoredSeat,
    loan: Entry,
    terms: RequestTerms,
    targets: &[Target],
)
    requires rests { is_busy requesting.old.local ≡ false }
    requires kind { is_request_loan loan.kind ≡ true }
    requires request { HasRoomForHint loan }
    requires within { AreWithin terms targets.now }
    requires fits { length targets.now ≤ requesting.old.room }
    ensures begun { (p : Setting) → (n : ℕ) → IsToldOf p loan terms
        → servers_of targets.now ≡ others (known p seat.now.seat) seat.now.seat.node Server
        → placed seat.now.seat requesting.new.local
        ≡ begins_at_entry p seat.now.seat (Send n) loan }
{
    requesting.begin(seat, loan, terms, targets)
}

/// It makes the accesses of the definitions.
pub fn access_of_a_request_send(requesting: &Requesting) -> Access
    ensures { (p : Setting) → (x : Seat) → IsAimed p x requesting.now → result
        ≡ program_access p.layout (program_of p requesting.now.local) }
{
    requesting.asks()
}

/// A send begins and makes one access, as the node does.
pub fn request_sent_by_one_step(
    requesting: &mut Requesting,
    seat: &mut StoredSeat,
    loan: Entry,
    terms: RequestTerms,
    targets: &[Target],
    seen: u64,
) -> Option<RequestReply>
    requires rests { is_busy requesting.old.local ≡ false }
    requires kind { is_request_loan loan.kind ≡ true }
    requires request { HasRoomForHint loan }
    requires within { AreWithin terms targets.now }
    requires fits { length targets.now ≤ requesting.old.room }
    requires seat_rests { is_busy seat.old.seat.local ≡ false }
    requires accesses { seat.old.seat.accesses + 1 < 2 ^ 64 }
    requires held { MayGiveUp loan seat.old.seat.desks }
    ensures { (p : Setting) → IsToldOf p loan terms → AreTargets p terms loan targets.now
        → servers_of targets.now ≡ others (known p seat.old.seat) seat.old.seat.node Server
        → placed seat.new.seat requesting.new.local
        ≡ next p (sends p seat.old.seat loan false) seen }
{
    requesting.begin(seat, loan, terms, targets);
    requesting.go_on(seat, seen)
}

/// One send may follow another: what is over is at rest.
pub fn next_request_send_begins(
    requesting: &mut Requesting,
    seat: &StoredSeat,
    loan: Entry,
    terms: RequestTerms,
    targets: &[Target],
) -> bool
    requires kind { is_request_loan loan.kind ≡ true }
    requires request { HasRoomForHint loan }
    requires within { AreWithin terms targets.now }
    requires fits { length targets.now ≤ requesting.old.room }
    ensures { is_busy requesting.new.local ≡ true }
{
    if requesting.is_busy() {
        return false;
    }
    requesting.begin(seat, loan, terms, targets);
    true
}
