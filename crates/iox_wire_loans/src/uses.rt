//! Callers, proved only from the clauses.
ghost use Rattle.std.specs.Prelude.{ℕ, ◌≡◌, ◌+◌, ◌<◌, ◌≤◌, ◌^◌, false, length, true};
ghost use Rattle.iox_model.specs.declared.call.Call.TheVariants.{Loan};
ghost use Rattle.iox_model.specs.Loans.{request_ways, response_ways};
ghost use Rattle.iox_model.specs.States.{Port};
ghost use Rattle.iox_steps.specs.declared.site.QueueKind.TheVariants.{Index};
ghost use Rattle.iox_wire_words.specs.Programs.{program_access};
ghost use Rattle.iox_wire_locals.specs.declared.seat.Seat.{Seat};
ghost use Rattle.iox_wire_locals.specs.Begins.{begins_at_entry, begins_at_port, is_busy};
ghost use Rattle.iox_wire_locals.specs.Courses.{placed};
ghost use Rattle.iox_wire_locals.specs.Known.{known};
ghost use Rattle.iox_wire_locals.specs.Lendings.{next_handle};
ghost use Rattle.iox_wire_locals.specs.Locals.{program_of};
ghost use Rattle.iox_wire_locals.specs.Steps.{next};
ghost use Rattle.iox_wire_locals.specs.Tables.{Setting};
ghost use Rattle.iox_wire_seats.specs.Aims.{QueuesInMemory};
ghost use Rattle.iox_wire_seats.specs.Lends.{MayLend};
ghost use Rattle.iox_wire_seats.specs.Seats.{ways_of};
ghost use Rattle.iox_wire_loans.specs.Aims.{GetsBackUsed, IsAimed};
ghost use Rattle.iox_wire_loans.specs.Lenders.{HasClientLimits, LenderIsTold, HasServerLimits, IsWhole};

use crate::at::LendReply;
use crate::lender::Lender;
use crate::lending::Lending;
use iox_steps::Access;
use iox_wire_locals::Entry;
use iox_wire_seats::{Stop, StoredSeat};

/// A client's loan begins as the definitions begin it.
pub fn request_loan_begins(
    lending: &mut Lending,
    seat: &mut StoredSeat,
    lender: &Lender<'_>,
    number: u64,
    elements: u64,
    stops: &[Stop],
)
    requires rests { is_busy lending.old.local ≡ false }
    requires seat { is_busy seat.old.seat.local ≡ false }
    requires whole { IsWhole lender.now }
    requires within { QueuesInMemory Index lender.now.room stops.now }
    requires fits { length stops.now ≤ lending.old.ways_room }
    requires words { lender.now.places.slot_words ≤ lending.old.words_room }
    ensures begun { (p : Setting) → (n : ℕ) → (q : Port) → q ≡ p.port lender.now.port
        → LenderIsTold p lender.now → HasClientLimits p lender.now
        → number ≡ next_handle p seat.old.seat
        → ways_of stops.now ≡ request_ways (known p seat.old.seat) q.node lender.now.port
        → placed seat.new.seat lending.new.local
        ≡ begins_at_port p seat.old.seat (Loan n elements) q }
{
    lending.lend_request(seat, lender, number, elements, stops)
}

/// So does a server's.
pub fn response_loan_begins(
    lending: &mut Lending,
    seat: &mut StoredSeat,
    lender: &Lender<'_>,
    request: Entry,
    number: u64,
    elements: u64,
    stops: &[Stop],
)
    requires rests { is_busy lending.old.local ≡ false }
    requires seat { is_busy seat.old.seat.local ≡ false }
    requires whole { IsWhole lender.now }
    requires within { QueuesInMemory Index lender.now.room stops.now }
    requires fits { length stops.now ≤ lending.old.ways_room }
    requires words { lender.now.places.slot_words ≤ lending.old.words_room }
    ensures begun { (p : Setting) → (n : ℕ) → LenderIsTold p lender.now
        → HasServerLimits p lender.now
        → request.port ≡ lender.now.port → number ≡ next_handle p seat.old.seat
        → ways_of stops.now
        ≡ response_ways (known p seat.old.seat) (p.port lender.now.port).node lender.now.port
        → placed seat.new.seat lending.new.local
        ≡ begins_at_entry p seat.old.seat (Loan n elements) request }
{
    lending.lend_response(seat, lender, request, number, elements, stops)
}

/// What it asks for is what its place asks for.
pub fn asks_at_its_place(lending: &Lending) -> Access
    ensures { (p : Setting) → (x : Seat) → IsAimed p x lending.now → result
        ≡ program_access p.layout (program_of p lending.now.local) }
{
    lending.asks()
}

/// One access is one step of the node.
pub fn lent_by_one_step(
    lending: &mut Lending,
    seat: &mut StoredSeat,
    seen: u64,
) -> Option<LendReply>
    requires busy { is_busy lending.old.local ≡ true }
    requires rests { is_busy seat.old.seat.local ≡ false }
    requires accesses { seat.old.seat.accesses + 1 < 2 ^ 64 }
    requires may { MayLend seat.old lending.old.order.number lending.old.order.port }
    requires used { GetsBackUsed seat.old.seat lending.old.local }
    ensures { (p : Setting) → IsAimed p seat.old.seat lending.old
        → placed seat.new.seat lending.new.local
        ≡ next p (placed seat.old.seat lending.old.local) seen }
{
    lending.go_on(seat, seen)
}
