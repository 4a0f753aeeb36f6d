//! What a call names: a handle.
ghost use Rattle.std.specs.Prelude.{ℕ, ◌≡◌, IfErr, IfOk, None, OnOk, Some, true};
ghost use Rattle.iox_model.specs.Commands.{Payload};
ghost use Rattle.iox_model.specs.Names.{suits};
ghost use Rattle.iox_model.specs.declared.call.WireCall.TheVariants.{Port};
ghost use Rattle.iox_wire_stops.specs.Plans.{port_of};
ghost use Rattle.iox_wire_stops.specs.PlansOf.{IsSettingOf};
ghost use Rattle.iox_wire_stops.specs.Begins.{begin, begins_at_entry};
ghost use Rattle.iox_wire_stops.specs.Begins.{refusal_at};
ghost use Rattle.iox_wire_stops.specs.Tables.{Setting, entry_at};
ghost use Rattle.iox_wire_handle_calls.specs.HandleCalls.{HasRole, call_of, refusal_in};

use crate::asked::Asked;
use crate::error::BeginError;
use iox_wire_stops::{Entry, StoredSeat, WordMap};

/// The handle of that number, which is no port's, if the node may begin the call on it.
#[inline(always)]
pub fn named(
    seat: &StoredSeat,
    map: &WordMap,
    asked: Asked,
    number: u64,
) -> Result<Entry, BeginError>
    requires no_port { port_of map.now number ≡ None }
    ensures found { IfOk result (λ e. entry_at number seat.now.seat.table ≡ Some e) }
    ensures suits { (n : ℕ) → (y : Payload) → HasRole asked y
        → IfOk result (λ e. suits true (call_of asked n y) e.kind ≡ true) }
    ensures allowed { (p : Setting) → (y : Payload) → IsSettingOf map.now p → HasRole asked y
        → OnOk result (refusal_at p seat.now.seat (Port (call_of asked number y)) ≡ None) }
    ensures begins { (p : Setting) → (y : Payload) → IsSettingOf map.now p → IfOk result (λ e.
        begin p seat.now.seat (Port (call_of asked number y))
        ≡ begins_at_entry p seat.now.seat (call_of asked number y) e) }
    ensures refused { (p : Setting) → (y : Payload) → IsSettingOf map.now p → HasRole asked y
        → IfErr result (λ error. refusal_at p seat.now.seat (Port (call_of asked number y))
        ≡ refusal_in error) }
{
    if seat.is_busy() {
        return Err(BeginError::Busy);
    }
    let Some(entry) = seat.entry(number) else {
        return Err(BeginError::UnknownNumber);
    };
    if !asked.suits(entry.kind) {
        return Err(BeginError::WrongKind);
    }
    Ok(entry)
}
