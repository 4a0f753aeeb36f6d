//! A request that is opened with the only server and delivered there, where nothing is pushed out.
ghost use Rattle.std.specs.Prelude.{◌≡◌, ◌<◌, ◌-◌, ◌^◌, None, Some, false, length, slice_get, true};
ghost use Rattle.iox_model.specs.Messages.{request_way};
ghost use Rattle.iox_lanes.specs.Lanes.{IsSound, LaneState};
ghost use Rattle.iox_tables.specs.HubStates.Tables.{PortState, labels_of, slot_at};
ghost use Rattle.iox_tables.specs.HubStates.Ways.{lane_on};
ghost use Rattle.iox_hub_ports.specs.InPlace.{AllApart, in_place};
ghost use Rattle.iox_hub_ports.specs.Known.{is_from};
ghost use Rattle.iox_hub_ports.specs.Ports.{on_way, pushed_out};
ghost use Rattle.iox_control.specs.Entries.{handle_state};
ghost use Rattle.iox_control_requests.specs.Deliveries.{with_pushed};

use iox_control::Control;
use iox_handles::Entry;
use iox_model::way::Way;

/// The lane from the client to the server in that place is sound. It has nothing to do: it is there
/// for its contract.
#[inline(always)]
pub fn lane_is_sound(control: &Control, place: usize, client: u64)
    requires { place < length control.now.tables.ports }
    ensures { (p : PortState) → slice_get control.now.tables.ports place ≡ Some p
        → (l : LaneState)
        → lane_on control.now.tables.ports (request_way client p.number) ≡ Some l → IsSound l }
{
    let way = Way {
        sender: client,
        receiver: control.ports().known_at(place).number,
        lane: 0,
    };
    control.ports().is_full(way);
}

/// Opens the handle's request with the server in that place, and puts its message last in line
/// there, where nothing is pushed out: one more has it. The pipe of that rank is from the handle's
/// client.
#[inline(always)]
pub fn push_alone(control: &mut Control, place: usize, entry: Entry, rank: usize)
    requires there { place < length control.old.tables.ports }
    requires apart { AllApart control.old.tables.ports }
    requires taken { 0 < (slot_at control.old.tables.pools entry.pool entry.slot).holders }
    requires fits { (slot_at control.old.tables.pools entry.pool entry.slot).holders < 2 ^ 64 - 1 }
    requires from { in_place (is_from rank entry.port) false control.old.tables.ports place ≡ true }
    requires none { (p : PortState) → slice_get control.old.tables.ports place ≡ Some p
        → on_way pushed_out None control.old.tables.ports (request_way entry.port p.number)
        ≡ None }
    ensures { (p : PortState) → slice_get control.old.tables.ports place ≡ Some p
        → control.new ≡ with_pushed control.old p.number (handle_state entry)
        (labels_of control.old.tables.pools entry.pool entry.slot) }
{
    let label = control.label_of(entry.pool, entry.slot);
    control.hold(entry.pool, entry.slot);
    control.open_and_push_on(place, rank, entry.port, entry.slot, label);
}
