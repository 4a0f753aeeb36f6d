//! The question whether a response waits.
ghost use Rattle.std.specs.Prelude.{◌≡◌, ◌*◌, ◌≤◌, IfErr, IfSome, None, OnErr, OnOk, vec_capacity};
ghost use Rattle.iox_model.specs.declared.call.Call.TheVariants.{HasResponse};
ghost use Rattle.iox_model.specs.declared.call.WireCall.TheVariants.{Port};
ghost use Rattle.iox_model.specs.declared.kind.Role.TheVariants.{Server};
ghost use Rattle.iox_wire_stops.specs.Plans.{most_ways, port_of};
ghost use Rattle.iox_wire_stops.specs.PlansOf.{IsSettingOf};
ghost use Rattle.iox_wire_stops.specs.Begins.{refusal_at};
ghost use Rattle.iox_wire_stops.specs.Stored.{header_length};
ghost use Rattle.iox_wire_stops.specs.Tables.{Setting, entry_at};
ghost use Rattle.iox_wire_stops.specs.Aims.{HasSameRooms};
ghost use Rattle.iox_wire_handle_calls.specs.HandleCalls.{IsBegun, refusal_in};
ghost use Rattle.iox_wire_stops.specs.OwnStates.{HasStates};

use crate::asked::Asked;
use crate::error::BeginError;
use crate::naming::named;
use iox_wire_stops::{Source, Stop, StoredSeat, WordMap, client_place, list_waiting_responses};

/// Begins to look whether a response waits for the pending response of that number. The number is
/// no port's. What it lists in `sources` and `stops` is of no use later.
pub fn begin_has_response(
    seat: &mut StoredSeat,
    map: &WordMap,
    number: u64,
    sources: &mut Vec<Source>,
    stops: &mut Vec<Stop>,
) -> Result<(), BeginError>
    requires no_port { port_of map.now number ≡ None }
    requires states { IfSome (entry_at number seat.old.seat.table) (HasStates map.now) }
    requires header { map.now.response.header.size ≡ 8 * header_length Server }
    requires sources { most_ways map.now ≤ vec_capacity sources.old }
    requires stops { most_ways map.now ≤ vec_capacity stops.old }
    requires rooms { most_ways map.now ≤ seat.old.ways_room }
    ensures begun { (p : Setting) → IsSettingOf map.now p
        → OnOk result (IsBegun p seat.old (Port (HasResponse number)) seat.new) }
    ensures allowed { (p : Setting) → IsSettingOf map.now p
        → OnOk result (refusal_at p seat.old.seat (Port (HasResponse number)) ≡ None) }
    ensures refused { (p : Setting) → IsSettingOf map.now p → IfErr result (λ error.
        refusal_at p seat.old.seat (Port (HasResponse number)) ≡ refusal_in error) }
    ensures rooms { HasSameRooms seat.old seat.new }
    ensures unchanged { OnErr result (seat.new ≡ seat.old) }
    ensures accesses { seat.new.seat.accesses ≡ seat.old.seat.accesses }
    ensures room { seat.new.room ≡ seat.old.room }
    ensures sources { vec_capacity sources.new ≡ vec_capacity sources.old }
    ensures stops { vec_capacity stops.new ≡ vec_capacity stops.old }
{
    let pending = named(seat, map, Asked::HasResponse, number)?;
    let client = client_place(map, pending.port, pending.lane);
    let queue = list_waiting_responses(map, client, pending.lane, sources, stops);
    seat.seek(queue, stops);
    Ok(())
}
