//! A request that is opened with the only server and delivered there, where the oldest message is
//! pushed out of a full lane.
ghost use Rattle.iox_control.specs.Controls.{IsControl, with_tables};
ghost use Rattle.iox_control.specs.Entries.{handle_state};
ghost use Rattle.iox_control_requests.specs.Deliveries.{with_pushed};
ghost use Rattle.iox_control_requests.specs.Requests.{ways_of, with_request_sent};
ghost use Rattle.iox_control_requests.specs.Servers.{request_ways};
ghost use Rattle.iox_hub_delivering.specs.Deliveries.{HasDelivered};
ghost use Rattle.iox_hub_ports.specs.InPlace.{AllApart, in_place, places_of};
ghost use Rattle.iox_hub_ports.specs.Known.{is_from};
ghost use Rattle.iox_lanes.specs.Lanes.{IsSound};
ghost use Rattle.iox_model.specs.Handles.{is_request_loan};
ghost use Rattle.iox_model.specs.declared.kind.Kind.TheVariants.{RequestMut};
ghost use Rattle.iox_model.specs.declared.kind.Role.TheVariants.{Server};
ghost use Rattle.iox_tables.specs.HubStates.Changes.{OnEach};
ghost use Rattle.iox_tables.specs.HubStates.Tables.{PortState, labels_of, slot_at};
ghost use Rattle.iox_tables.specs.HubStates.Ways.{lane_on};
ghost use Rattle.iox_tables.specs.HubStates.Wirings.{IsHandle};
ghost use Rattle.std.specs.Prelude.{◌-◌, ◌<◌, ◌^◌, ◌∷◌, ◌≡◌, ◌≤◌, [], Some, false, length, slice_get, true};

use crate::alone::lane_is_sound;
use crate::sends::become_pending_of_one;
use iox_control::Control;
use iox_handles::Entry;

/// Opens the handle's request with the server in that place, and puts its message last in line
/// there: one more has it. Where the oldest is pushed out of a full lane, one less has that. The
/// pipe of that rank is from the handle's client.
#[inline(always)]
fn push_on_known(control: &mut Control, place: usize, entry: Entry, rank: usize)
    requires there { place < length control.old.tables.ports }
    requires apart { AllApart control.old.tables.ports }
    requires taken { 0 < (slot_at control.old.tables.pools entry.pool entry.slot).holders }
    requires fits { (slot_at control.old.tables.pools entry.pool entry.slot).holders < 2 ^ 64 - 1 }
    requires from { in_place (is_from rank entry.port) false control.old.tables.ports place ≡ true }
    ensures { (p : PortState) → slice_get control.old.tables.ports place ≡ Some p
        → control.new ≡ with_pushed control.old p.number (handle_state entry)
        (labels_of control.old.tables.pools entry.pool entry.slot) }
{
    let label = control.label_of(entry.pool, entry.slot);
    control.hold(entry.pool, entry.slot);
    if let Some(oldest) = control.open_and_push_on(place, rank, entry.port, entry.slot, label) {
        control.let_go(entry.pool, oldest);
    }
}

/// Sends a client's loaned request to the only server, which is in that place, once the client got
/// all back. The oldest message is pushed out of a full lane. The pipe of that rank is from the
/// client. The handle is looked for at the hint first. It turns before anything else changes: so it
/// is known to stand where it was found, and need not be looked for again.
#[inline(always)]
pub fn send_over_oldest(control: &mut Control, place: usize, entry: Entry, rank: usize, hint: usize)
    requires order { IsControl control.old }
    requires calls { control.old.tables.calls ≤ 2 ^ 56 }
    requires named { IsHandle control.old.tables entry.node entry.number (handle_state entry) }
    requires kind { is_request_loan entry.kind ≡ true }
    requires returned { OnEach (λ w l. l.returned ≡ []) (lane_on control.old.tables.ports)
        (request_ways entry.port control.old.tables.ports) }
    requires only { places_of Server control.old.tables.ports ≡ place ∷ [] }
    requires there { place < length control.old.tables.ports }
    requires from { in_place (is_from rank entry.port) false control.old.tables.ports place ≡ true }
    requires filled { entry.kind ≡ RequestMut }
    ensures sound { OnEach (λ w l. IsSound l) (lane_on control.old.tables.ports)
        (request_ways entry.port control.old.tables.ports) }
    ensures count { 1 ≡ length (ways_of control.old.tables (handle_state entry) true) }
    ensures left { control.new ≡ with_tables control.old
        (record (with_request_sent control.old.tables (handle_state entry) true) {
          pools = control.new.tables.pools;
        }) }
    ensures holders { HasDelivered true entry.slot (lane_on control.old.tables.ports)
        (ways_of control.old.tables (handle_state entry) true)
        control.old.tables.pools control.new.tables.pools }
    ensures order { IsControl control.new }
{
    lane_is_sound(control, place, entry.port);
    become_pending_of_one(control, entry, hint);
    push_on_known(control, place, entry, rank);
}
