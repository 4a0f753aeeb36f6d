//! How a node begins a call of a handle.
ghost use Rattle.std.specs.Prelude.{◌*◌, ◌≡◌, ◌≤◌, IfErr, IfSome, None, OnErr, OnOk, vec_capacity};
ghost use Rattle.iox_model.specs.declared.call.Call.TheVariants.{Release};
ghost use Rattle.iox_model.specs.declared.call.WireCall.TheVariants.{Port};
ghost use Rattle.iox_model.specs.declared.kind.Role.TheVariants.{Server};
ghost use Rattle.iox_wire_begins.specs.Plans.{most_ways, port_of};
ghost use Rattle.iox_wire_begins.specs.HandleCalls.{IsBegun as IsBegunBy, refusal_in};
ghost use Rattle.iox_wire_begins.specs.PlacedHandles.{IsReadable};
ghost use Rattle.iox_wire_begins.specs.PlansOf.{IsSettingOf};
ghost use Rattle.iox_wire_begins.specs.Begins.{refusal_at};
ghost use Rattle.iox_wire_begins.specs.Stored.{header_length};
ghost use Rattle.iox_wire_begins.specs.Tables.{Setting, entry_at};
ghost use Rattle.iox_wire_nodes.specs.declared.call_at.CallAt.TheVariants.{Seats};
ghost use Rattle.iox_wire_nodes.specs.Begins.{IsBegun, called};
ghost use Rattle.iox_wire_nodes.specs.Nodes.{seat_in};
ghost use Rattle.iox_wire_begins.specs.Released.{MayReleaseNumber};
ghost use Rattle.iox_wire_begins.specs.Aims.{HasRoomForHint, HasSameRooms};
ghost use Rattle.iox_wire_begins.specs.OwnStates.{HasStates};
ghost use Rattle.iox_wire_begins.specs.ListRooms.{HasRoomToAsk};
ghost use Rattle.iox_wire_nodes.specs.Rooms.{KeepsRooms};

use super::StoredNode;
use crate::call_at::CallAt;
use crate::handle_call::HandleCall;
use iox_wire_begins::{
    Asked, BeginError, Source, Stop, StoredSeat, WordMap, begin_has_hint, begin_has_response,
    begin_is_connected, begin_read, begin_release, begin_set_hint, named,
};

/// Begins the release of the handle of that number, which is no port's, in a seat.
fn release(
    seat: &mut StoredSeat,
    map: &WordMap,
    number: u64,
    stops: &mut Vec<Stop>,
) -> Result<(), BeginError>
    requires no_port { port_of map.now number ≡ None }
    requires home { MayReleaseNumber map.now number seat.old.seat }
    requires list { most_ways map.now ≤ vec_capacity stops.old }
    requires rooms { HasRoomToAsk map.now seat.old }
    ensures begun { (p : Setting) → IsSettingOf map.now p
        → OnOk result (IsBegunBy p seat.old (Port (Release number)) seat.new) }
    ensures refused { (p : Setting) → IsSettingOf map.now p → IfErr result (λ error.
        refusal_at p seat.old.seat (Port (Release number)) ≡ refusal_in error) }
    ensures accesses { seat.new.seat.accesses ≡ seat.old.seat.accesses }
    ensures room { seat.new.room ≡ seat.old.room }
    ensures unchanged { OnErr result (seat.new ≡ seat.old) }
    ensures list { vec_capacity stops.new ≡ vec_capacity stops.old }
    ensures rooms { HasSameRooms seat.old seat.new }
{
    named(seat, map, Asked::Release, number)?;
    begin_release(map, seat, number, stops);
    Ok(())
}

/// Begins a call of the handle of that number, which is no port's, in a seat.
fn begin_in(
    seat: &mut StoredSeat,
    map: &WordMap,
    number: u64,
    call: HandleCall,
    sources: &mut Vec<Source>,
    stops: &mut Vec<Stop>,
) -> Result<(), BeginError>
    requires no_port { port_of map.now number ≡ None }
    requires home { MayReleaseNumber map.now number seat.old.seat }
    requires states { IfSome (entry_at number seat.old.seat.table) (HasStates map.now) }
    requires hint { IfSome (entry_at number seat.old.seat.table) HasRoomForHint }
    requires readable { IfSome (entry_at number seat.old.seat.table) (IsReadable map.now) }
    requires header { map.now.response.header.size ≡ 8 * header_length Server }
    requires sources { most_ways map.now ≤ vec_capacity sources.old }
    requires stops { most_ways map.now ≤ vec_capacity stops.old }
    requires rooms { HasRoomToAsk map.now seat.old }
    ensures begun { (p : Setting) → IsSettingOf map.now p
        → OnOk result (IsBegunBy p seat.old (called call number) seat.new) }
    ensures refused { (p : Setting) → IsSettingOf map.now p → IfErr result (λ error.
        refusal_at p seat.old.seat (called call number) ≡ refusal_in error) }
    ensures accesses { seat.new.seat.accesses ≡ seat.old.seat.accesses }
    ensures room { seat.new.room ≡ seat.old.room }
    ensures unchanged { OnErr result (seat.new ≡ seat.old) }
    ensures sources { vec_capacity sources.new ≡ vec_capacity sources.old }
    ensures stops { vec_capacity stops.new ≡ vec_capacity stops.old }
    ensures rooms { HasSameRooms seat.old seat.new }
{
    match call {
        HandleCall::Read => begin_read(seat, map, number),
        HandleCall::Release => release(seat, map, number, stops),
        HandleCall::IsConnected => begin_is_connected(seat, map, number, stops),
        HandleCall::SetHint => begin_set_hint(seat, map, number, stops),
        HandleCall::HasHint => begin_has_hint(seat, map, number, stops),
        HandleCall::HasResponse => begin_has_response(seat, map, number, sources, stops),
    }
}

impl StoredNode {
    /// Begins a call of the handle of that number, which is no port's. What it lists in `sources`
    /// and `stops` is of no use later.
    pub fn begin_on_handle(
        &mut self,
        map: &WordMap,
        number: u64,
        call: HandleCall,
        sources: &mut Vec<Source>,
        stops: &mut Vec<Stop>,
    ) -> Result<(), BeginError>
        requires no_port { port_of map.now number ≡ None }
        requires home { MayReleaseNumber map.now number self.old.seat.seat }
        requires states { IfSome (entry_at number self.old.seat.seat.table) (HasStates map.now) }
        requires hint { IfSome (entry_at number self.old.seat.seat.table) HasRoomForHint }
        requires readable { IfSome (entry_at number self.old.seat.seat.table) (IsReadable map.now) }
        requires header { map.now.response.header.size ≡ 8 * header_length Server }
        requires sources { most_ways map.now ≤ vec_capacity sources.old }
        requires stops { most_ways map.now ≤ vec_capacity stops.old }
        requires rooms { HasRoomToAsk map.now self.old.seat }
        ensures begun { (p : Setting) → IsSettingOf map.now p
            → OnOk result (IsBegun p self.old (called call number) self.new) }
        ensures refused { (p : Setting) → IsSettingOf map.now p → IfErr result (λ error.
            refusal_at p (seat_in self.old) (called call number) ≡ refusal_in error) }
        ensures at { OnOk result (self.new.at ≡ Seats) }
        ensures unchanged { OnErr result (self.new ≡ self.old) }
        ensures sources { vec_capacity sources.new ≡ vec_capacity sources.old }
        ensures stops { vec_capacity stops.new ≡ vec_capacity stops.old }
        ensures rooms { OnOk result (KeepsRooms self.old self.new) }
    {
        if self.is_busy() {
            return Err(BeginError::Busy);
        }
        begin_in(&mut self.seat, map, number, call, sources, stops)?;
        self.at = CallAt::Seats;
        Ok(())
    }
}
