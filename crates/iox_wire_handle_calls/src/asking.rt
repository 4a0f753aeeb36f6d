//! Questions about a request: whether its peer is connected, and whether a hint was given.
ghost use Rattle.std.specs.Prelude.{◌≡◌, ◌≤◌, IfErr, IfSome, None, OnErr, OnOk, vec_capacity};
ghost use Rattle.iox_model.specs.declared.call.Call.TheVariants.{HasHint, IsConnected};
ghost use Rattle.iox_model.specs.declared.call.WireCall.TheVariants.{Port};
ghost use Rattle.iox_wire_stops.specs.Plans.{most_ways, port_of};
ghost use Rattle.iox_wire_stops.specs.PlansOf.{IsSettingOf};
ghost use Rattle.iox_wire_stops.specs.Begins.{refusal_at};
ghost use Rattle.iox_wire_stops.specs.Tables.{Setting, entry_at};
ghost use Rattle.iox_wire_stops.specs.Aims.{HasSameRooms};
ghost use Rattle.iox_wire_handle_calls.specs.HandleCalls.{IsBegun, refusal_in};
ghost use Rattle.iox_wire_stops.specs.OwnStates.{HasStates};

use crate::asked::Asked;
use crate::error::BeginError;
use crate::naming::named;
use iox_wire_stops::{Stop, StoredSeat, WordMap, list_states_of};

/// Begins to ask whether the peer of the handle of that number is connected. The number is no
/// port's. What it lists in `stops` is of no use later.
pub fn begin_is_connected(
    seat: &mut StoredSeat,
    map: &WordMap,
    number: u64,
    stops: &mut Vec<Stop>,
) -> Result<(), BeginError>
    requires no_port { port_of map.now number ≡ None }
    requires states { IfSome (entry_at number seat.old.seat.table) (HasStates map.now) }
    requires list { most_ways map.now ≤ vec_capacity stops.old }
    requires rooms { most_ways map.now ≤ seat.old.ways_room }
    ensures begun { (p : Setting) → IsSettingOf map.now p
        → OnOk result (IsBegun p seat.old (Port (IsConnected number)) seat.new) }
    ensures allowed { (p : Setting) → IsSettingOf map.now p
        → OnOk result (refusal_at p seat.old.seat (Port (IsConnected number)) ≡ None) }
    ensures refused { (p : Setting) → IsSettingOf map.now p → IfErr result (λ error.
        refusal_at p seat.old.seat (Port (IsConnected number)) ≡ refusal_in error) }
    ensures rooms { HasSameRooms seat.old seat.new }
    ensures unchanged { OnErr result (seat.new ≡ seat.old) }
    ensures accesses { seat.new.seat.accesses ≡ seat.old.seat.accesses }
    ensures room { seat.new.room ≡ seat.old.room }
    ensures list { vec_capacity stops.new ≡ vec_capacity stops.old }
{
    let entry = named(seat, map, Asked::IsConnected, number)?;
    list_states_of(map, seat, entry, stops);
    seat.check(entry, false, stops);
    Ok(())
}

/// Begins to ask whether a hint was given to the request of that number. The number is no port's.
/// What it lists in `stops` is of no use later.
pub fn begin_has_hint(
    seat: &mut StoredSeat,
    map: &WordMap,
    number: u64,
    stops: &mut Vec<Stop>,
) -> Result<(), BeginError>
    requires no_port { port_of map.now number ≡ None }
    requires states { IfSome (entry_at number seat.old.seat.table) (HasStates map.now) }
    requires list { most_ways map.now ≤ vec_capacity stops.old }
    requires rooms { most_ways map.now ≤ seat.old.ways_room }
    ensures begun { (p : Setting) → IsSettingOf map.now p
        → OnOk result (IsBegun p seat.old (Port (HasHint number)) seat.new) }
    ensures allowed { (p : Setting) → IsSettingOf map.now p
        → OnOk result (refusal_at p seat.old.seat (Port (HasHint number)) ≡ None) }
    ensures refused { (p : Setting) → IsSettingOf map.now p → IfErr result (λ error.
        refusal_at p seat.old.seat (Port (HasHint number)) ≡ refusal_in error) }
    ensures rooms { HasSameRooms seat.old seat.new }
    ensures unchanged { OnErr result (seat.new ≡ seat.old) }
    ensures accesses { seat.new.seat.accesses ≡ seat.old.seat.accesses }
    ensures room { seat.new.room ≡ seat.old.room }
    ensures list { vec_capacity stops.new ≡ vec_capacity stops.old }
{
    let entry = named(seat, map, Asked::HasHint, number)?;
    list_states_of(map, seat, entry, stops);
    seat.check(entry, true, stops);
    Ok(())
}
