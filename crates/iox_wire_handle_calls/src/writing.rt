//! The write of a payload.
ghost use Rattle.std.specs.Prelude.{◌≡◌, ◌*◌, ◌<◌, ◌^◌, ◌==◌, IfErr, IfSome, None, OnErr, OnOk, Some};
ghost use Rattle.std.specs.Prelude.{if◌then◌else◌};
ghost use Rattle.iox_wire_stops.specs.Plans.{port_of};
ghost use Rattle.iox_wire_stops.specs.PlansOf.{IsSettingOf};
ghost use Rattle.iox_wire_stops.specs.Begins.{refusal_at};
ghost use Rattle.iox_wire_stops.specs.Tables.{Setting, entry_at};
ghost use Rattle.iox_wire_handle_calls.specs.HandleCalls.{IsBegun, refusal_in, write_of};
ghost use Rattle.iox_wire_handle_calls.specs.PlacedHandles.{HasLoanSlot, HasRoomForSlots, IsWritableAs};
ghost use Rattle.iox_wire_handle_calls.specs.PlacedHandles.{words_each};
ghost use Rattle.iox_wire_stops.specs.Aims.{HasSameRooms};

use crate::asked::Asked;
use crate::error::BeginError;
use crate::naming::named;
use crate::places::payload_of;
use crate::port_index::port_with_slot;
use iox_model::kind::Role;
use iox_wire_stops::{StoredSeat, WordMap};

/// How many words an element has of a role's messages.
#[inline]
fn words_of_element(map: &WordMap, role: Role) -> usize
    ensures { result ≡ words_each map.now role }
{
    let details = map.plan().details(role);
    details.payload.size() / 8
}

/// How many elements so many words are that are written into a loan: all that it has, if there are
/// just as many words.
#[inline]
fn elements_written(loaned: u64, width: usize, words: usize) -> Option<u64>
    requires { loaned * width < 2 ^ 64 }
    ensures { result ≡ (if words == loaned * width then Some loaned else None) }
{
    if words as u64 == loaned * width as u64 {
        return Some(loaned);
    }
    None
}

/// Begins to write the payload of the loan of that number, a request's if the role is a client's.
/// The number is no port's. Of a loan whose elements have no words no word is written.
pub fn begin_write(
    seat: &mut StoredSeat,
    map: &WordMap,
    number: u64,
    role: Role,
    words: &[u64],
) -> Result<(), BeginError>
    requires no_port { port_of map.now number ≡ None }
    requires slot { IfSome (entry_at number seat.old.seat.table) (HasLoanSlot map.now) }
    requires writable { IfSome (entry_at number seat.old.seat.table) (IsWritableAs map.now role) }
    requires words { HasRoomForSlots map.now seat.old.words_room }
    ensures begun { (p : Setting) → IsSettingOf map.now p → OnOk result (IsBegun p seat.old
        (write_of p seat.old.seat number role words.now) seat.new) }
    ensures refused { (p : Setting) → IsSettingOf map.now p → IfErr result (λ error.
        refusal_at p seat.old.seat (write_of p seat.old.seat number role words.now)
        ≡ refusal_in error) }
    ensures rooms { HasSameRooms seat.old seat.new }
    ensures unchanged { OnErr result (seat.new ≡ seat.old) }
    ensures accesses { seat.new.seat.accesses ≡ seat.old.seat.accesses }
    ensures room { seat.new.room ≡ seat.old.room }
{
    let loan = named(seat, map, Asked::Write(role), number)?;
    // only what this promises is wanted
    let _total = map.total();
    let port = port_with_slot(map.plan(), loan.port, loan.slot);
    let payload = payload_of(map, port, loan.slot as usize);
    let each = words_of_element(map, role);
    let elements = elements_written(loan.elements, each, words.len());
    seat.write(loan, payload, elements, words);
    Ok(())
}
