//! A request that is opened with each server and delivered there, with overflow.
ghost use Rattle.std.specs.Prelude.{◌≡◌, ◌<◌, ◌-◌, ◌^◌, None, Some, false, is_some, length, slice_get, true};
ghost use Rattle.iox_model.specs.declared.kind.Role.TheVariants.{Server};
ghost use Rattle.iox_model.specs.declared.way.RequestState.TheVariants.{Named};
ghost use Rattle.iox_model.specs.Handles.{is_request_loan};
ghost use Rattle.iox_model.specs.Messages.{request_way, response_way};
ghost use Rattle.iox_lanes.specs.Lanes.{IsSound, LaneState};
ghost use Rattle.iox_tables.specs.HubBooks.Keeps.{delivers};
ghost use Rattle.iox_tables.specs.HubStates.Changes.{OnEach, with_lanes};
ghost use Rattle.iox_tables.specs.HubStates.Releases.{pending_states, request_of};
ghost use Rattle.iox_tables.specs.HubStates.Sends.{with_opened};
ghost use Rattle.iox_tables.specs.HubStates.Tables.{PortState, labels_of, port_in, slot_at};
ghost use Rattle.iox_tables.specs.HubStates.Ways.{lane_on, with_lane_on, with_state_on};
ghost use Rattle.iox_tables.specs.HubStates.Wirings.{IsHandle};
ghost use Rattle.iox_hub_delivering.specs.Deliveries.{HasDelivered};
ghost use Rattle.iox_hub_delivering.specs.Steps.{with_out};
ghost use Rattle.iox_hub_ports.specs.InPlace.{AllApart, places_of};
ghost use Rattle.iox_hub_ports.specs.Ports.{on_way, pushed, pushed_out, way_from};
ghost use Rattle.iox_control.specs.Controls.{IsControl, with_tables};
ghost use Rattle.iox_control.specs.Entries.{handle_state};
ghost use Rattle.iox_control_requests.specs.Deliveries.{CanTake, with_pushed};
ghost use Rattle.iox_control_requests.specs.Requests.{ways_of};
ghost use Rattle.iox_control_requests.specs.Servers.{request_ways};

use crate::deliveries::lane_is_sound;
use iox_control::Control;
use iox_handles::Entry;
use iox_lanes::wanted::Label;

/// Where the pipes from the handle's client likely stand among those that lead to a server.
#[inline(always)]
fn rank_of(control: &Control, entry: Entry) -> usize
    requires { is_some (port_in control.now.tables.ports entry.port) ≡ true }
{
    let place = control.ports().known_place(entry.port, entry.at as usize);
    control.ports().rank(place)
}

/// Opens the request of that label with the server in that place, and puts its message last in line
/// there, where the oldest is pushed out of a full lane: then one less has that.
#[inline(always)]
fn push_to(control: &mut Control, place: usize, entry: Entry, label: Label, hint: usize)
    requires there { place < length control.old.tables.ports }
    requires apart { AllApart control.old.tables.ports }
    ensures pushed { (p : PortState) → slice_get control.old.tables.ports place ≡ Some p
        → control.new ≡ with_tables control.old (record (control.old.tables) {
          ports = with_lane_on (λ l. pushed l entry.slot)
              (with_state_on (λ r. Named label.request false) control.old.tables.ports
              (response_way entry.port label.lane p.number)) (request_way entry.port p.number);
          pools = with_out control.old.tables.pools entry.pool
              (on_way pushed_out None control.old.tables.ports
              (request_way entry.port p.number));
        }) }
    ensures apart { AllApart control.new.tables.ports }
    ensures places { places_of Server control.new.tables.ports
        ≡ places_of Server control.old.tables.ports }
{
    if let Some(oldest) = control.open_and_push_in(place, hint, entry.port, entry.slot, label) {
        control.let_go(entry.pool, oldest);
    }
}

/// Opens the handle's request, of that label, with the server in that place, and delivers it there.
/// The pipe is looked for at the hint first.
#[inline(always)]
fn open_and_push(control: &mut Control, place: usize, entry: Entry, label: Label, hint: usize)
    requires there { place < length control.old.tables.ports }
    requires apart { AllApart control.old.tables.ports }
    requires taken { 0 < (slot_at control.old.tables.pools entry.pool entry.slot).holders }
    requires fits { (slot_at control.old.tables.pools entry.pool entry.slot).holders < 2 ^ 64 - 1 }
    ensures sound { (p : PortState) → slice_get control.old.tables.ports place ≡ Some p
        → (l : LaneState)
        → lane_on control.old.tables.ports (way_from entry.port 0 p.number) ≡ Some l
        → IsSound l }
    ensures pushed { (p : PortState) → slice_get control.old.tables.ports place ≡ Some p
        → control.new ≡ with_pushed control.old p.number (handle_state entry) label }
    ensures apart { AllApart control.new.tables.ports }
    ensures places { places_of Server control.new.tables.ports
        ≡ places_of Server control.old.tables.ports }
{
    lane_is_sound(control, place, entry.port);
    control.hold(entry.pool, entry.slot);
    push_to(control, place, entry, label, hint);
}

/// Opens a client's loaned request, whose message has that label, with each server and delivers it
/// there, where the oldest message is pushed out of a full lane. Says how many servers there are.
/// The loan still has its slot.
pub fn push_to_all(control: &mut Control, entry: Entry, label: Label) -> u64
    requires order { IsControl control.old }
    requires named { IsHandle control.old.tables entry.node entry.number (handle_state entry) }
    requires kind { is_request_loan entry.kind ≡ true }
    requires label { label ≡ labels_of control.old.tables.pools entry.pool entry.slot }
    requires lanes { OnEach (λ w l. CanTake entry.pool l) (lane_on control.old.tables.ports)
        (request_ways entry.port control.old.tables.ports) }
    ensures sound { OnEach (λ w l. IsSound l) (lane_on control.old.tables.ports)
        (request_ways entry.port control.old.tables.ports) }
    ensures count { result ≡ length (ways_of control.old.tables (handle_state entry) true) }
    ensures left { control.new ≡ with_tables control.old
        (record (with_lanes (delivers true entry.slot) (with_opened control.old.tables
        (request_of control.old.tables (handle_state entry))
        (pending_states control.old.tables (handle_state entry)))
        (ways_of control.old.tables (handle_state entry) true)) {
          pools = control.new.tables.pools;
        }) }
    ensures holders { HasDelivered true entry.slot (lane_on control.old.tables.ports)
        (ways_of control.old.tables (handle_state entry) true)
        control.old.tables.pools control.new.tables.pools }
{
    let hint = rank_of(control, entry);
    let servers = control.ports().servers_len();
    for rank in 0..servers {
        let place = control.ports().server(rank);
        open_and_push(control, place, entry, label, hint);
    }
    servers as u64
}
