//! The send of a response to its client on the usual way: all is tested before anything is
//! changed.
ghost use Rattle.std.specs.Prelude.{◌≡◌, ◌<◌, ◌^◌, Bool, IfSome, None, Some};
ghost use Rattle.iox_lanes.specs.Lanes.{IsSound, LaneState};
ghost use Rattle.iox_model.specs.WholeCalls.{IsWholeCall};
ghost use Rattle.iox_model.specs.declared.call.Call.TheVariants.{Send};
ghost use Rattle.iox_tables.specs.HubStates.States.{Given, state_shown};
ghost use Rattle.iox_tables.specs.HubStates.Tables.{HandleState};
ghost use Rattle.iox_tables.specs.HubStates.Ways.{lane_on};
ghost use Rattle.iox_tables.specs.HubStates.Wirings.{handle_in};
ghost use Rattle.iox_tables.specs.HubBooks.Keeps.{bare_pools};
ghost use Rattle.iox_tables.specs.HubMaking.Disconnections.{with_released};
ghost use Rattle.iox_hub_ports.specs.Ports.{place_in};
ghost use Rattle.iox_control.specs.Controls.{IsControl};
ghost use Rattle.iox_control.specs.Entries.{handle_state};
ghost use Rattle.iox_control_releasing.specs.Goings.{StaysTidy};
ghost use Rattle.iox_control_responses.specs.Responses.{IsResponse, reply_of_send, response_reply, with_response_ended};

use crate::handing::hand_over_alone;
use crate::near::find_near;
use crate::responded::Responded;
use iox_control::Control;
use iox_control_retrieving::has_one_out;
use iox_handles::Entry;
use iox_model::way::Way;

/// The lane of the way, whose receiver is in that place, is sound. It has nothing to do: it is
/// there for its contract.
#[inline(always)]
fn lane_is_sound(control: &Control, place: usize, way: Way)
    requires { place_in control.now.tables.ports way.receiver ≡ Some place }
    ensures { (l : LaneState) → lane_on control.now.tables.ports way ≡ Some l → IsSound l }
{
    control.ports().is_full_at(place, way.sender, way.lane);
}

/// Sends this loaned response to its client on the usual way, and ends its handle; else it answers
/// `None`, and nothing has changed. It is usual that responses overflow, so that no send fails, the
/// loan is the only message of its pool that somebody has, the own value of its server is there, so
/// that the server stays, and the client waits for the response.
#[inline(always)]
pub fn send_response_usual(
    control: &mut Control,
    node: u64,
    number: u64,
    hint: usize,
    entry: Entry,
) -> Option<Responded>
    requires response { IsResponse control.old.tables node number }
    requires entry { Some (handle_state entry) ≡ handle_in control.old.tables.handles node number }
    requires order { IsControl control.old }
    requires calls { control.old.tables.calls < 2 ^ 56 }
    ensures reply { IfSome result (λ responded. (fails : Bool) (h : HandleState)
        → handle_in control.old.tables.handles node number ≡ Some h
        → reply_of_send responded ≡ response_reply control.old.tables h fails) }
    ensures left { IfSome result (λ _. (fails : Bool) (h : HandleState)
        → handle_in control.old.tables.handles node number ≡ Some h
        → control.new.tables
        ≡ record (with_released (with_response_ended control.old.tables node number h fails)
        h.port) {
          pools = control.new.tables.pools;
        }) }
    ensures pools { bare_pools control.old.tables.pools ≡ bare_pools control.new.tables.pools }
    ensures tidy { StaysTidy control.old.tables control.new.tables }
    ensures order { IsControl control.new }
    ensures whole { IfSome result (λ responded. (x : Given)
        → IsWholeCall (state_shown x control.old.tables) node (Send number)
        (reply_of_send responded) (state_shown x control.new.tables)) }
    ensures unchanged { result ≡ None → control.new ≡ control.old }
{
    if !control.settings().response_overflow {
        return None;
    }
    if !has_one_out(control, entry.pool) {
        return None;
    }
    let label = control.label_of(entry.pool, entry.slot);
    let to = find_near(control, entry, label)?;
    let way = Way {
        sender: entry.port,
        receiver: entry.client,
        lane: label.lane,
    };
    lane_is_sound(control, to.place, way);
    hand_over_alone(control, node, number, hint, entry, way, to);
    Some(Responded::Done)
}
