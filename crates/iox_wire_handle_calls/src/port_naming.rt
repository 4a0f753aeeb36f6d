//! What a call names: a port.
ghost use Rattle.std.specs.Prelude.{ℕ, ◌≡◌, ◌<◌, IfErr, OnOk, length, true};
ghost use Rattle.iox_model.specs.Commands.{Payload};
ghost use Rattle.iox_model.specs.Names.{suits};
ghost use Rattle.iox_model.specs.declared.call.WireCall.TheVariants.{Port};
ghost use Rattle.iox_wire_stops.specs.Plans.{number_at, role_of};
ghost use Rattle.iox_wire_stops.specs.PlansOf.{IsSettingOf};
ghost use Rattle.iox_wire_stops.specs.Begins.{begin, begins_at_port};
ghost use Rattle.iox_wire_stops.specs.Begins.{refusal_at};
ghost use Rattle.iox_wire_stops.specs.Tables.{Setting};
ghost use Rattle.iox_wire_handle_calls.specs.HandleCalls.{HasRole, call_of, port_kind, refusal_in};

use crate::asked::Asked;
use crate::error::BeginError;
use iox_model::kind::{Kind, Role};
use iox_wire_stops::{StoredSeat, WordMap};

/// Tests whether that node may begin the call on the port at an index, which has that number.
pub fn name_port(
    seat: &StoredSeat,
    map: &WordMap,
    asked: Asked,
    number: u64,
    port: usize,
    node: u64,
) -> Result<(), BeginError>
    requires node { seat.now.seat.node ≡ node }
    requires within { port < length map.now.ports.items }
    requires there { number_at map.now port ≡ number }
    ensures kind { (n : ℕ) → (y : Payload) → HasRole asked y → OnOk result (suits true
        (call_of asked n y) (port_kind (role_of map.now number)) ≡ true) }
    ensures allowed { (p : Setting) → (y : Payload) → IsSettingOf map.now p
        → (p.port number).held ≡ true → HasRole asked y
        → OnOk result (refusal_at p seat.now.seat (Port (call_of asked number y)) ≡ None) }
    ensures begins { (p : Setting) → (y : Payload) → IsSettingOf map.now p → OnOk result
        (begin p seat.now.seat (Port (call_of asked number y))
        ≡ begins_at_port p seat.now.seat (call_of asked number y) (p.port number)) }
    ensures refused { (p : Setting) → (y : Payload) → IsSettingOf map.now p
        → (p.port number).held ≡ true → HasRole asked y → IfErr result (λ error.
        refusal_at p seat.now.seat (Port (call_of asked number y)) ≡ refusal_in error) }
{
    if seat.is_busy() {
        return Err(BeginError::Busy);
    }
    let port = map.plan().ports[port];
    if port.node != node {
        return Err(BeginError::ForeignNumber);
    }
    if !asked.suits(kind_of(port.role)) {
        return Err(BeginError::WrongKind);
    }
    Ok(())
}

/// The kind of ports of a role.
fn kind_of(role: Role) -> Kind
    ensures { result ≡ port_kind role }
{
    match role {
        Role::Client => Kind::Client,
        Role::Server => Kind::Server,
    }
}
