//! The release of handles and ports, by their numbers.
ghost use Rattle.std.specs.Prelude.{◌≡◌, true};
ghost use Rattle.iox_model.specs.Names.{is_port};
ghost use Rattle.iox_hub_laws.specs.Sending.{is_handle};
ghost use Rattle.iceoryx2_ports.specs.Idling.{GivesBack};
ghost use Rattle.iceoryx2_ports.specs.Releases.{IsReleased};
ghost use Rattle.iceoryx2_ports.specs.Rooms.{GivesRoomBack};

use iox_hub_laws::{Backpressure, Hub};
use iox_model::kind::Kind;
use iox_store::Payload;
use iox_words::Words;

/// Releases the node's handle of that number and kind, if it has one.
#[inline(always)]
pub(crate) fn release_handle<Q: Payload, QH: Words, P: Payload, PH: Words, H: Backpressure>(
    hub: &mut Hub<Q, QH, P, PH, H>,
    node: u64,
    number: u64,
    kind: Kind,
    hint: usize,
)
    requires { is_handle kind ≡ true }
    ensures released { IsReleased hub.old node number kind hub.new }
    ensures idle { GivesBack hub.old node number kind hub.new }
    ensures room { GivesRoomBack hub.old node number kind hub.new }
{
    hub.is_in_order();
    if hub.release_if(node, number, kind, hint) {
        hub.is_in_order();
    }
}

/// Releases the node's port of that number and kind, if it has one.
pub(crate) fn release_port<Q: Payload, QH: Words, P: Payload, PH: Words, H: Backpressure>(
    hub: &mut Hub<Q, QH, P, PH, H>,
    node: u64,
    number: u64,
    kind: Kind,
)
    requires { is_port kind ≡ true }
    ensures { IsReleased hub.old node number kind hub.new }
{
    if hub.has(node, number, kind, 0) {
        hub.release_port(node, number);
        hub.is_in_order();
    }
}
