//! Callers, proved only from the clauses.
ghost use Rattle.std.specs.Prelude.{ℕ, ◌≡◌, ◌+◌, ◌<◌, ◌^◌, false, true};
ghost use Rattle.iox_model.specs.declared.call.Call.TheVariants.{Send};
ghost use Rattle.iox_model.specs.Handles.{is_response_loan};
ghost use Rattle.iox_wire_words.specs.Programs.{program_access};
ghost use Rattle.iox_wire_locals.specs.Begins.{begins_at_entry, is_busy};
ghost use Rattle.iox_wire_locals.specs.Courses.{placed, sends};
ghost use Rattle.iox_wire_locals.specs.Locals.{program_of};
ghost use Rattle.iox_wire_locals.specs.Steps.{next};
ghost use Rattle.iox_wire_locals.specs.Tables.{Setting};
ghost use Rattle.iox_wire_seats.specs.Aims.{IsInMemory};
ghost use Rattle.iox_wire_seats.specs.Desks.{IsUsed};
ghost use Rattle.iox_wire_sends.specs.Aims.{IsAimed, IsToldOf};

use crate::at::RespondReply;
use crate::responding::Responding;
use crate::terms::ResponseTerms;
use iox_steps::Access;
use iox_wire_locals::Entry;
use iox_wire_seats::StoredSeat;

/// The send of a response begins as the definitions begin it.
pub fn response_send_begins(
    responding: &mut Responding,
    seat: &StoredSeat,
    loan: Entry,
    terms: ResponseTerms,
)
    requires rests { is_busy responding.old.local ≡ false }
    requires kind { is_response_loan loan.kind ≡ true }
    requires messages { IsInMemory terms.messages }
    requires returning { IsInMemory terms.returning }
    ensures { (p : Setting) → (n : ℕ) → IsToldOf p loan terms
        → placed seat.now.seat responding.new.local
        ≡ begins_at_entry p seat.now.seat (Send n) loan }
{
    responding.begin(seat, loan, terms);
}

/// It makes the accesses of the definitions.
pub fn access_of_a_send(responding: &Responding) -> Access
    ensures { (p : Setting) → IsAimed p responding.now → result
        ≡ program_access p.layout (program_of p responding.now.local) }
{
    responding.asks()
}

/// A send begins and makes one access, as the node does.
pub fn response_sent_by_one_step(
    responding: &mut Responding,
    seat: &mut StoredSeat,
    loan: Entry,
    terms: ResponseTerms,
    seen: u64,
) -> Option<RespondReply>
    requires rests { is_busy responding.old.local ≡ false }
    requires kind { is_response_loan loan.kind ≡ true }
    requires messages { IsInMemory terms.messages }
    requires returning { IsInMemory terms.returning }
    requires seat_rests { is_busy seat.old.seat.local ≡ false }
    requires accesses { seat.old.seat.accesses + 1 < 2 ^ 64 }
    requires used { IsUsed loan.port loan.slot seat.old.seat.desks }
    ensures { (p : Setting) → IsToldOf p loan terms
        → placed seat.new.seat responding.new.local
        ≡ next p (sends p seat.old.seat loan false) seen }
{
    responding.begin(seat, loan, terms);
    responding.go_on(seat, seen)
}

/// One send may follow another: what is over is at rest.
pub fn next_response_send_begins(
    responding: &mut Responding,
    seat: &StoredSeat,
    loan: Entry,
    terms: ResponseTerms,
) -> bool
    requires kind { is_response_loan loan.kind ≡ true }
    requires messages { IsInMemory terms.messages }
    requires returning { IsInMemory terms.returning }
    ensures { is_busy responding.new.local ≡ true }
{
    if responding.is_busy() {
        return false;
    }
    responding.begin(seat, loan, terms);
    true
}
