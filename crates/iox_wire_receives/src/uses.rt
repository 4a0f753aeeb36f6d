//! Callers, proved only from the clauses.
ghost use Rattle.std.specs.Prelude.{ℕ, ◌≡◌, ◌+◌, ◌<◌, ◌≤◌, ◌^◌, false, length, true};
ghost use Rattle.iox_model.specs.declared.call.Call.TheVariants.{Receive};
ghost use Rattle.iox_model.specs.Receives.{server_ways};
ghost use Rattle.iox_model.specs.States.{Port};
ghost use Rattle.iox_wire_words.specs.Programs.{program_access};
ghost use Rattle.iox_wire_locals.specs.declared.seat.Seat.{Seat};
ghost use Rattle.iox_wire_locals.specs.Begins.{begins_at_entry, begins_at_port, is_busy};
ghost use Rattle.iox_wire_locals.specs.Begins.{pending_visit, server_visit, ways_for};
ghost use Rattle.iox_wire_locals.specs.Courses.{placed};
ghost use Rattle.iox_wire_locals.specs.Known.{known};
ghost use Rattle.iox_wire_locals.specs.Locals.{program_of};
ghost use Rattle.iox_wire_locals.specs.NewLoans.{received_length};
ghost use Rattle.iox_wire_locals.specs.Steps.{next};
ghost use Rattle.iox_wire_locals.specs.Tables.{Setting};
ghost use Rattle.iox_wire_receives.specs.Aims.{MayTakeOneMore, IsAimed, MayReceive};
ghost use Rattle.iox_wire_receives.specs.Sources.{AreSources, AreWithin, ways_of};

use crate::at::ReceiveReply;
use crate::receiving::Receiving;
use crate::source::{ReceiveTerms, Source};
use iox_steps::Access;
use iox_wire_locals::{Entry, Visit};
use iox_wire_seats::StoredSeat;

/// A pending response's receive begins as the definitions begin it.
pub fn response_receive_begins(
    receiving: &mut Receiving,
    seat: &StoredSeat,
    visit: Visit,
    terms: ReceiveTerms,
    sources: &[Source],
)
    requires rests { is_busy receiving.old.local ≡ false }
    requires within { AreWithin terms (received_length visit) sources.now }
    requires fits { length sources.now ≤ receiving.old.room }
    ensures { (p : Setting) → (n : ℕ) → (e : Entry) → visit ≡ pending_visit e
        → ways_of sources.now ≡ ways_for p seat.now.seat e
        → AreSources p terms (received_length visit) sources.now
        → placed seat.now.seat receiving.new.local
        ≡ begins_at_entry p seat.now.seat (Receive n) e }
{
    receiving.begin(seat, visit, terms, sources)
}

/// So does a server's.
pub fn request_receive_begins(
    receiving: &mut Receiving,
    seat: &StoredSeat,
    visit: Visit,
    terms: ReceiveTerms,
    sources: &[Source],
)
    requires rests { is_busy receiving.old.local ≡ false }
    requires within { AreWithin terms (received_length visit) sources.now }
    requires fits { length sources.now ≤ receiving.old.room }
    ensures { (p : Setting) → (n : ℕ) → (q : Port) → visit ≡ server_visit q → ways_of sources.now
        ≡ server_ways (known p seat.now.seat) q
        → AreSources p terms (received_length visit) sources.now
        → placed seat.now.seat receiving.new.local
        ≡ begins_at_port p seat.now.seat (Receive n) q }
{
    receiving.begin(seat, visit, terms, sources)
}

/// What it asks for is what its place asks for.
pub fn asks_at_its_place(receiving: &Receiving) -> Access
    ensures { (p : Setting) → (x : Seat) → IsAimed p x receiving.now → result
        ≡ program_access p.layout (program_of p receiving.now.local) }
{
    receiving.asks()
}

/// One access is one step of the node.
pub fn received_by_one_step(
    receiving: &mut Receiving,
    seat: &mut StoredSeat,
    seen: u64,
) -> Option<ReceiveReply>
    requires busy { is_busy receiving.old.local ≡ true }
    requires accesses { seat.old.seat.accesses + 1 < 2 ^ 64 }
    requires may { MayReceive seat.old receiving.old.terms.number }
    requires counts { MayTakeOneMore seat.old.seat receiving.old.local }
    ensures { (p : Setting) → IsAimed p seat.old.seat receiving.old
        → placed seat.new.seat receiving.new.local
        ≡ next p (placed seat.old.seat receiving.old.local) seen }
{
    receiving.go_on(seat, seen)
}
