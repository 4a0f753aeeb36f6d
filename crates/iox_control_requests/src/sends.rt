//! A loaned request is opened, delivered, and becomes a pending response.
ghost use Rattle.std.specs.Prelude.{◌≡◌, ◌<◌, ◌≤◌, ◌^◌, ◌∷◌, [], None, Some, false, length, slice_get, true};
ghost use Rattle.iox_hub_delivering.specs.Deliveries.{HasDelivered};
ghost use Rattle.iox_tables.specs.HubStates.Ends.{with_call, with_changed};
ghost use Rattle.iox_tables.specs.HubStates.Releases.{pending_states, request_of};
ghost use Rattle.iox_tables.specs.HubStates.Sendings.{pending_of};
ghost use Rattle.iox_tables.specs.HubStates.Sends.{with_opened};
ghost use Rattle.iox_tables.specs.HubStates.Tables.{PortState, labels_of};
ghost use Rattle.iox_tables.specs.HubStates.Ways.{lane_on};
ghost use Rattle.iox_tables.specs.HubStates.Wirings.{IsHandle, handle_in};
ghost use Rattle.iox_tables.specs.HubStates.Changes.{OnEach, with_lanes};
ghost use Rattle.iox_tables.specs.HubBooks.Keeps.{delivers};
ghost use Rattle.iox_lanes.specs.Lanes.{IsSound};
ghost use Rattle.iox_model.specs.Handles.{is_request_loan};
ghost use Rattle.iox_model.specs.declared.kind.Role.TheVariants.{Server};
ghost use Rattle.iox_hub_ports.specs.InPlace.{in_place, places_of};
ghost use Rattle.iox_hub_ports.specs.Known.{is_from};
ghost use Rattle.iox_hub_ports.specs.Ports.{on_way, pushed_out};
ghost use Rattle.iox_model.specs.Messages.{request_way};
ghost use Rattle.iox_model.specs.declared.kind.Kind.TheVariants.{RequestMut};
ghost use Rattle.iox_control.specs.Controls.{IsControl, with_tables};
ghost use Rattle.iox_control.specs.Entries.{handle_state};
ghost use Rattle.iox_control_requests.specs.Deliveries.{CanTake};
ghost use Rattle.iox_control_requests.specs.Requests.{ways_of, with_request_sent};
ghost use Rattle.iox_control_requests.specs.Servers.{request_ways};

use crate::alone::{lane_is_sound, push_alone};
use crate::deliveries::deliver_to_all;
use crate::pushes::push_to_all;
use iox_control::Control;
use iox_handles::Entry;
use iox_lanes::wanted::Label;
use iox_model::kind::Kind;

/// Opens the handle's request, whose message has that label, with each server.
fn open_request(control: &mut Control, entry: Entry, label: Label)
    requires order { IsControl control.old }
    requires label { label ≡ labels_of control.old.tables.pools entry.pool entry.slot }
    ensures left { control.new ≡ with_tables control.old (with_opened control.old.tables
        (request_of control.old.tables (handle_state entry))
        (pending_states control.old.tables (handle_state entry))) }
    ensures order { IsControl control.new }
{
    control.open_all(entry.port, label.lane, label.request);
}

/// Opens a client's loaned request, whose message has that label, with each server and delivers it
/// there, once the client got all back, and says to how many: a full server gets nothing, unless
/// its oldest message is pushed out. The loan still has its slot.
fn open_and_deliver(control: &mut Control, entry: Entry, label: Label, overflow: bool) -> u64
    requires order { IsControl control.old }
    requires named { IsHandle control.old.tables entry.node entry.number (handle_state entry) }
    requires kind { is_request_loan entry.kind ≡ true }
    requires label { label ≡ labels_of control.old.tables.pools entry.pool entry.slot }
    requires lanes { OnEach (λ w l. CanTake entry.pool l) (lane_on control.old.tables.ports)
        (request_ways entry.port control.old.tables.ports) }
    ensures sound { OnEach (λ w l. IsSound l) (lane_on control.old.tables.ports)
        (request_ways entry.port control.old.tables.ports) }
    ensures count { result ≡ length (ways_of control.old.tables (handle_state entry) overflow) }
    ensures left { control.new ≡ with_tables control.old
        (record (with_lanes (delivers overflow entry.slot) (with_opened control.old.tables
        (request_of control.old.tables (handle_state entry))
        (pending_states control.old.tables (handle_state entry)))
        (ways_of control.old.tables (handle_state entry) overflow)) {
          pools = control.new.tables.pools;
        }) }
    ensures holders { HasDelivered overflow entry.slot (lane_on control.old.tables.ports)
        (ways_of control.old.tables (handle_state entry) overflow)
        control.old.tables.pools control.new.tables.pools }
{
    if overflow {
        return push_to_all(control, entry, label);
    }
    open_request(control, entry, label);
    deliver_to_all(control, entry, overflow)
}

/// The handle becomes a pending response with so many connections, and the call is counted.
fn become_pending(control: &mut Control, entry: Entry, hint: usize, count: u64)
    requires calls { control.old.tables.calls ≤ 2 ^ 56 }
    ensures { control.new ≡ with_tables control.old
        (with_call (with_changed control.old.tables (pending_of (handle_state entry) count))) }
{
    let pending = Entry {
        node: entry.node,
        number: entry.number,
        kind: Kind::PendingResponse,
        at: entry.at,
        port: entry.port,
        pool: entry.pool,
        slot: entry.slot,
        client: entry.client,
        connections: count,
    };
    control.change_handle(pending, hint);
    control.count_call();
}

/// Sends a client's loaned request, whose message has that label, once the client got all back, and
/// says to how many servers. It is opened with each server, and a full one gets nothing, unless its
/// oldest message is pushed out.
pub fn send_to_all(
    control: &mut Control,
    entry: Entry,
    label: Label,
    overflow: bool,
    hint: usize,
) -> u64
    requires order { IsControl control.old }
    requires calls { control.old.tables.calls ≤ 2 ^ 56 }
    requires named { IsHandle control.old.tables entry.node entry.number (handle_state entry) }
    requires kind { is_request_loan entry.kind ≡ true }
    requires label { label ≡ labels_of control.old.tables.pools entry.pool entry.slot }
    requires returned { OnEach (λ w l. l.returned ≡ []) (lane_on control.old.tables.ports)
        (request_ways entry.port control.old.tables.ports) }
    ensures sound { OnEach (λ w l. IsSound l) (lane_on control.old.tables.ports)
        (request_ways entry.port control.old.tables.ports) }
    ensures count { result ≡ length (ways_of control.old.tables (handle_state entry) overflow) }
    ensures left { control.new ≡ with_tables control.old
        (record (with_request_sent control.old.tables (handle_state entry) overflow) {
          pools = control.new.tables.pools;
        }) }
    ensures holders { HasDelivered overflow entry.slot (lane_on control.old.tables.ports)
        (ways_of control.old.tables (handle_state entry) overflow)
        control.old.tables.pools control.new.tables.pools }
    ensures order { IsControl control.new }
{
    let count = open_and_deliver(control, entry, label, overflow);
    become_pending(control, entry, hint, count);
    count
}

/// The same of a filled loan, which is there.
#[inline(always)]
pub(crate) fn become_pending_of_one(control: &mut Control, entry: Entry, hint: usize)
    requires calls { control.old.tables.calls ≤ 2 ^ 56 }
    requires there { handle_in control.old.tables.handles entry.node entry.number
        ≡ Some (handle_state entry) }
    requires filled { entry.kind ≡ RequestMut }
    ensures { control.new ≡ with_tables control.old
        (with_call (with_changed control.old.tables (pending_of (handle_state entry) 1))) }
{
    control.become_pending(entry.node, entry.number, hint, Kind::RequestMut, 1);
    control.count_call();
}

/// Sends a client's loaned request to the only server, which is in that place, once the client got
/// all back. Nothing is pushed out, and the pipe of that rank is from the client. The handle is
/// looked for at the hint first. It turns before anything else changes: so it is known to stand
/// where it was found, and need not be looked for again.
#[inline(always)]
pub fn send_to_only(control: &mut Control, place: usize, entry: Entry, rank: usize, hint: usize)
    requires order { IsControl control.old }
    requires calls { control.old.tables.calls ≤ 2 ^ 56 }
    requires named { IsHandle control.old.tables entry.node entry.number (handle_state entry) }
    requires kind { is_request_loan entry.kind ≡ true }
    requires returned { OnEach (λ w l. l.returned ≡ []) (lane_on control.old.tables.ports)
        (request_ways entry.port control.old.tables.ports) }
    requires only { places_of Server control.old.tables.ports ≡ place ∷ [] }
    requires there { place < length control.old.tables.ports }
    requires from { in_place (is_from rank entry.port) false control.old.tables.ports place ≡ true }
    requires none { (p : PortState) → slice_get control.old.tables.ports place ≡ Some p
        → on_way pushed_out None control.old.tables.ports (request_way entry.port p.number)
        ≡ None }
    requires filled { entry.kind ≡ RequestMut }
    ensures sound { OnEach (λ w l. IsSound l) (lane_on control.old.tables.ports)
        (request_ways entry.port control.old.tables.ports) }
    ensures count { 1 ≡ length (ways_of control.old.tables (handle_state entry) true) }
    ensures left { control.new ≡ with_tables control.old
        (record (with_request_sent control.old.tables (handle_state entry) true) {
          pools = control.new.tables.pools;
        }) }
    ensures holders { HasDelivered true entry.slot (lane_on control.old.tables.ports)
        (ways_of control.old.tables (handle_state entry) true)
        control.old.tables.pools control.new.tables.pools }
    ensures order { IsControl control.new }
{
    lane_is_sound(control, place, entry.port);
    become_pending_of_one(control, entry, hint);
    push_alone(control, place, entry, rank);
}
