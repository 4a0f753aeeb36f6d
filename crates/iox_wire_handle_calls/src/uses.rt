//! Callers, proved only from the clauses.
ghost use Rattle.std.specs.Prelude.{◌≡◌, ◌+◌, ◌<◌, ◌^◌, ◌≤◌, Err, IfOk, IfSome, None, OnOk, Some, vec_capacity};
ghost use Rattle.iox_model.specs.declared.call.Call.TheVariants.{IsConnected, Read, SetHint};
ghost use Rattle.iox_model.specs.declared.call.WireCall.TheVariants.{Port};
ghost use Rattle.iox_model.specs.declared.kind.Role.TheVariants.{Client};
ghost use Rattle.iox_model.specs.declared.reply.Refusal.TheVariants as refusals;
ghost use Rattle.iox_wire_stops.specs.Plans.{most_ways, port_of};
ghost use Rattle.iox_wire_stops.specs.PlansOf.{IsSettingOf};
ghost use Rattle.iox_wire_stops.specs.Begins.{begin, refusal_at};
ghost use Rattle.iox_wire_stops.specs.Locals.{program_of};
ghost use Rattle.iox_wire_stops.specs.Steps.{next};
ghost use Rattle.iox_wire_stops.specs.Tables.{Setting, entry_at};
ghost use Rattle.iox_wire_stops.specs.Aims.{HasRoomForHint};
ghost use Rattle.iox_wire_stops.specs.Programs.{program_access};
ghost use Rattle.iox_wire_handle_calls.specs.declared.error.BeginError.TheVariants as errors;
ghost use Rattle.iox_wire_handle_calls.specs.HandleCalls.{write_of};
ghost use Rattle.iox_wire_handle_calls.specs.PlacedHandles.{HasLoanSlot, HasRoomForSlots, IsReadable};
ghost use Rattle.iox_wire_handle_calls.specs.PlacedHandles.{IsWritableAs};
ghost use Rattle.iox_wire_stops.specs.OwnStates.{HasStates};

use crate::asking::begin_is_connected;
use crate::error::BeginError;
use crate::hinting::begin_set_hint;
use crate::reading::begin_read;
use crate::writing::begin_write;
use iox_model::kind::Role;
use iox_steps::Access;
use iox_wire_stops::{SeatReply, Stop, StoredSeat, WordMap};

/// A write begins, and makes one access, as the node does.
pub fn payload_written_by_one_step(
    seat: &mut StoredSeat,
    map: &WordMap,
    number: u64,
    words: &[u64],
    seen: u64,
) -> Result<Option<SeatReply>, BeginError>
    requires no_port { port_of map.now number ≡ None }
    requires slot { IfSome (entry_at number seat.old.seat.table) (HasLoanSlot map.now) }
    requires writable { IfSome (entry_at number seat.old.seat.table)
        (IsWritableAs map.now Client) }
    requires words { HasRoomForSlots map.now seat.old.words_room }
    requires accesses { seat.old.seat.accesses + 1 < 2 ^ 64 }
    ensures { (p : Setting) → IsSettingOf map.now p → OnOk result (seat.new.seat
        ≡ next p
        (begin p seat.old.seat (write_of p seat.old.seat number Client words.now)) seen) }
{
    begin_write(seat, map, number, Role::Client, words)?;
    Ok(seat.go_on(seen))
}

/// The first access of a read is that of the definitions.
pub fn first_word_of_a_message(
    seat: &mut StoredSeat,
    map: &WordMap,
    number: u64,
) -> Result<Access, BeginError>
    requires no_port { port_of map.now number ≡ None }
    requires readable { IfSome (entry_at number seat.old.seat.table) (IsReadable map.now) }
    requires words { HasRoomForSlots map.now seat.old.words_room }
    ensures { (p : Setting) → IsSettingOf map.now p → IfOk result (λ access. access
        ≡ program_access p.layout
        (program_of p (begin p seat.old.seat (Port (Read number))).local)) }
{
    begin_read(seat, map, number)?;
    Ok(seat.asks())
}

/// What the definitions refuse for its number is refused so.
pub fn unknown_message_is_refused(
    seat: &mut StoredSeat,
    map: &WordMap,
    number: u64,
) -> Result<(), BeginError>
    requires no_port { port_of map.now number ≡ None }
    requires readable { IfSome (entry_at number seat.old.seat.table) (IsReadable map.now) }
    requires words { HasRoomForSlots map.now seat.old.words_room }
    ensures { (p : Setting) → IsSettingOf map.now p
        → refusal_at p seat.old.seat (Port (Read number)) ≡ Some refusals.UnknownNumber
        → result ≡ Err errors.UnknownNumber }
{
    begin_read(seat, map, number)
}

/// A question begins, and sees a request state.
pub fn connection_asked_by_one_step(
    seat: &mut StoredSeat,
    map: &WordMap,
    number: u64,
    stops: &mut Vec<Stop>,
    seen: u64,
) -> Result<Option<SeatReply>, BeginError>
    requires no_port { port_of map.now number ≡ None }
    requires states { IfSome (entry_at number seat.old.seat.table) (HasStates map.now) }
    requires list { most_ways map.now ≤ vec_capacity stops.old }
    requires rooms { most_ways map.now ≤ seat.old.ways_room }
    requires accesses { seat.old.seat.accesses + 1 < 2 ^ 64 }
    ensures { (p : Setting) → IsSettingOf map.now p → OnOk result (seat.new.seat
        ≡ next p (begin p seat.old.seat (Port (IsConnected number))) seen) }
{
    begin_is_connected(seat, map, number, stops)?;
    Ok(seat.go_on(seen))
}

/// What the definitions refuse as busy takes no hint.
pub fn busy_node_gives_no_hint(
    seat: &mut StoredSeat,
    map: &WordMap,
    number: u64,
    stops: &mut Vec<Stop>,
) -> Result<(), BeginError>
    requires no_port { port_of map.now number ≡ None }
    requires states { IfSome (entry_at number seat.old.seat.table) (HasStates map.now) }
    requires list { most_ways map.now ≤ vec_capacity stops.old }
    requires rooms { most_ways map.now ≤ seat.old.ways_room }
    requires hint { IfSome (entry_at number seat.old.seat.table) HasRoomForHint }
    ensures { (p : Setting) → IsSettingOf map.now p
        → refusal_at p seat.old.seat (Port (SetHint number)) ≡ Some refusals.Busy
        → result ≡ Err errors.Busy }
{
    begin_set_hint(seat, map, number, stops)
}
