//! The read of a message.
ghost use Rattle.std.specs.Prelude.{◌≡◌, IfErr, IfSome, None, OnErr, OnOk};
ghost use Rattle.iox_model.specs.declared.call.Call.TheVariants.{Read};
ghost use Rattle.iox_model.specs.declared.call.WireCall.TheVariants.{Port};
ghost use Rattle.iox_wire_stops.specs.Plans.{port_of};
ghost use Rattle.iox_wire_stops.specs.PlansOf.{IsSettingOf};
ghost use Rattle.iox_wire_stops.specs.Begins.{refusal_at};
ghost use Rattle.iox_wire_stops.specs.Tables.{Setting, entry_at};
ghost use Rattle.iox_wire_handle_calls.specs.HandleCalls.{IsBegun, refusal_in};
ghost use Rattle.iox_wire_handle_calls.specs.PlacedHandles.{HasRoomForSlots, IsReadable};
ghost use Rattle.iox_wire_stops.specs.Aims.{HasSameRooms};

use crate::asked::Asked;
use crate::error::BeginError;
use crate::naming::named;
use crate::places::{message_of, words_behind_header};
use crate::port_index::port_with_slot;
use iox_wire_stops::{StoredSeat, WordMap};

/// Begins to read the message of the handle of that number, which is no port's.
pub fn begin_read(seat: &mut StoredSeat, map: &WordMap, number: u64) -> Result<(), BeginError>
    requires no_port { port_of map.now number ≡ None }
    requires readable { IfSome (entry_at number seat.old.seat.table) (IsReadable map.now) }
    requires words { HasRoomForSlots map.now seat.old.words_room }
    ensures begun { (p : Setting) → IsSettingOf map.now p
        → OnOk result (IsBegun p seat.old (Port (Read number)) seat.new) }
    ensures refused { (p : Setting) → IsSettingOf map.now p → IfErr result (λ error.
        refusal_at p seat.old.seat (Port (Read number)) ≡ refusal_in error) }
    ensures rooms { HasSameRooms seat.old seat.new }
    ensures unchanged { OnErr result (seat.new ≡ seat.old) }
    ensures accesses { seat.new.seat.accesses ≡ seat.old.seat.accesses }
    ensures room { seat.new.room ≡ seat.old.room }
{
    let entry = named(seat, map, Asked::Read, number)?;
    let port = port_with_slot(map.plan(), entry.sender, entry.slot);
    let message = message_of(map, port, entry.slot as usize);
    let count = words_behind_header(map, port, entry.slot as usize, entry.elements);
    seat.read(entry, message, count);
    Ok(())
}
