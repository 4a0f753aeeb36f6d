//! The delivery of a request to all servers.
ghost use Rattle.std.specs.Prelude.{◌≡◌, ◌<◌, ◌-◌, ◌^◌, ◌||◌, None, Some, length, not, slice_get, true};
ghost use Rattle.std.specs.Bool.{OnFalse, OnTrue};
ghost use Rattle.iox_tables.specs.HubBooks.Keeps.{delivers};
ghost use Rattle.iox_hub_delivering.specs.Deliveries.{HasDelivered};
ghost use Rattle.iox_hub_delivering.specs.Steps.{with_out};
ghost use Rattle.iox_hub_ports.specs.Ports.{on_way_at, pushed, pushed_out, way_from, with_lane_at};
ghost use Rattle.iox_tables.specs.HubStates.Changes.{OnEach, with_lanes};
ghost use Rattle.iox_tables.specs.HubStates.Tables.{PortState, slot_at};
ghost use Rattle.iox_tables.specs.HubStates.Ways.{lane_on};
ghost use Rattle.iox_tables.specs.HubStates.Wirings.{IsHandle};
ghost use Rattle.iox_lanes.specs.Lanes.{IsSound, LaneState, is_full};
ghost use Rattle.iox_model.specs.Handles.{is_request_loan};
ghost use Rattle.iox_control.specs.Controls.{IsControl, with_tables};
ghost use Rattle.iox_control.specs.Entries.{handle_state};
ghost use Rattle.iox_control_requests.specs.Deliveries.{CanTake, ways_that_get, with_given};
ghost use Rattle.iox_control_requests.specs.Servers.{request_ways};

use iox_control::Control;
use iox_handles::Entry;

/// The lane from the client to the port in that place is sound. It has nothing to do: it is there
/// for its contract.
#[inline(always)]
pub fn lane_is_sound(control: &Control, place: usize, client: u64)
    ensures { (p : PortState) → slice_get control.now.tables.ports place ≡ Some p
        → (l : LaneState)
        → lane_on control.now.tables.ports (way_from client 0 p.number) ≡ Some l → IsSound l }
{
    control.ports().is_full_at(place, client, 0);
}

/// Puts the handle's message last in line for the port in that place, where the oldest message is
/// pushed out if the lane is full: then one less has that.
fn push_to(control: &mut Control, place: usize, entry: Entry)
    ensures { control.new ≡ with_tables control.old (record (control.old.tables) {
      ports = with_lane_at (λ l. pushed l entry.slot) control.old.tables.ports place entry.port 0;
      pools = with_out control.old.tables.pools entry.pool
          (on_way_at pushed_out None control.old.tables.ports place entry.port 0);
    }) }
{
    if let Some(oldest) = control.push_at(place, entry.port, 0, entry.slot) {
        control.let_go(entry.pool, oldest);
    }
}

/// Delivers the handle's message to the port in that place, and says whether it did: a full port
/// gets nothing, unless its oldest message is pushed out.
fn give(control: &mut Control, place: usize, entry: Entry, overflow: bool) -> bool
    requires lane { (p : PortState) → slice_get control.old.tables.ports place ≡ Some p
        → (l : LaneState)
        → lane_on control.old.tables.ports (way_from entry.port 0 p.number) ≡ Some l
        → CanTake entry.pool l }
    requires taken { 0 < (slot_at control.old.tables.pools entry.pool entry.slot).holders }
    requires fits { (slot_at control.old.tables.pools entry.pool entry.slot).holders < 2 ^ 64 - 1 }
    ensures sound { (p : PortState) → slice_get control.old.tables.ports place ≡ Some p
        → (l : LaneState)
        → lane_on control.old.tables.ports (way_from entry.port 0 p.number) ≡ Some l
        → IsSound l }
    ensures told { result
        ≡ (overflow || not (on_way_at is_full true control.old.tables.ports place entry.port 0)) }
    ensures given { OnTrue result
        (control.new ≡ with_given control.old place (handle_state entry) overflow) }
    ensures unchanged { OnFalse result (control.new ≡ control.old) }
{
    if overflow {
        lane_is_sound(control, place, entry.port);
        control.hold(entry.pool, entry.slot);
        push_to(control, place, entry);
        return true;
    }
    if control.ports().is_full_at(place, entry.port, 0) {
        return false;
    }
    control.hold(entry.pool, entry.slot);
    control.deliver_at(place, entry.port, 0, entry.slot);
    true
}

/// Delivers a client's loaned request to all servers, and says to how many: a full server gets
/// nothing, unless its oldest message is pushed out. The loan still has its slot.
pub fn deliver_to_all(control: &mut Control, entry: Entry, overflow: bool) -> u64
    requires order { IsControl control.old }
    requires named { IsHandle control.old.tables entry.node entry.number (handle_state entry) }
    requires kind { is_request_loan entry.kind ≡ true }
    requires lanes { OnEach (λ w l. CanTake entry.pool l) (lane_on control.old.tables.ports)
        (request_ways entry.port control.old.tables.ports) }
    ensures sound { OnEach (λ w l. IsSound l) (lane_on control.old.tables.ports)
        (request_ways entry.port control.old.tables.ports) }
    ensures count { result ≡ length (ways_that_get overflow control.old.tables.ports
        (request_ways entry.port control.old.tables.ports)) }
    ensures left { control.new ≡ with_tables control.old
        (record (with_lanes (delivers overflow entry.slot) control.old.tables
        (ways_that_get overflow control.old.tables.ports
        (request_ways entry.port control.old.tables.ports))) { pools = control.new.tables.pools }) }
    ensures holders { HasDelivered overflow entry.slot (lane_on control.old.tables.ports)
        (ways_that_get overflow control.old.tables.ports
        (request_ways entry.port control.old.tables.ports))
        control.old.tables.pools control.new.tables.pools }
{
    let mut count = 0;
    for rank in 0..control.ports().servers_len() {
        let place = control.ports().server(rank);
        if give(control, place, entry, overflow) {
            count += 1;
        }
    }
    count
}
