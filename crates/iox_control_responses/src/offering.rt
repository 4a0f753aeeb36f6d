//! A response that is offered to its client.
ghost use Rattle.std.specs.Prelude.{◌≡◌, ◌<◌, ◌^◌, ◌&&◌, IfSome, Some, false, is_some, not, true};
ghost use Rattle.iox_lanes.specs.Lanes.{IsSound, LaneState, is_full};
ghost use Rattle.iox_model.specs.WholeCalls.{IsWholeCall};
ghost use Rattle.iox_model.specs.declared.call.Call.TheVariants.{Send};
ghost use Rattle.iox_tables.specs.HubStates.States.{Given, state_shown};
ghost use Rattle.iox_tables.specs.HubStates.Tables.{HandleState, HubTables, labels_of};
ghost use Rattle.iox_tables.specs.HubStates.Ways.{lane_on};
ghost use Rattle.iox_tables.specs.HubStates.Wirings.{handle_in};
ghost use Rattle.iox_tables.specs.HubBooks.Keeps.{bare_pools};
ghost use Rattle.iox_tables.specs.HubLoans.Questions.{is_named_by_client};
ghost use Rattle.iox_tables.specs.HubMaking.Disconnections.{with_released};
ghost use Rattle.iox_hub_ports.specs.Ports.{on_way, place_in};
ghost use Rattle.iox_control.specs.Controls.{IsControl};
ghost use Rattle.iox_control.specs.Entries.{handle_state};
ghost use Rattle.iox_control_responses.specs.Responses.{IsFailure, IsResponse, reply_of_send, response_reply, with_response_ended};

use crate::handing::hand_over;
use crate::responded::Responded;
use crate::targets::{Target, find_awaiting};
use iox_control::Control;
use iox_control_ending::{count, end_loan};
use iox_control_retrieving::{has_one_out, retrieve_unless};
use iox_handles::Entry;
use iox_lanes::wanted::Label;
use iox_model::way::Way;

/// The lane of the way is sound. It has nothing to do: it is there for its contract.
#[inline(always)]
fn lane_is_sound(control: &Control, way: Way)
    ensures { (l : LaneState) → lane_on control.now.tables.ports way ≡ Some l → IsSound l }
{
    control.ports().is_full(way);
}

/// Whether a response may not wait on the way: as many wait as may, and none of them is pushed out.
#[inline(always)]
pub fn is_shut(control: &Control, way: Way) -> bool
    ensures shut { result ≡ (on_way is_full true control.now.tables.ports way
        && not control.now.tables.settings.response_overflow) }
    ensures sound { (l : LaneState) → lane_on control.now.tables.ports way ≡ Some l → IsSound l }
{
    lane_is_sound(control, way);
    if control.settings().response_overflow {
        return false;
    }
    control.ports().is_full(way)
}

/// Offers it to its client, where that is told, or else to nobody: all that it comes to, once it is
/// looked for.
#[inline(always)]
fn offer_to(
    control: &mut Control,
    node: u64,
    number: u64,
    hint: usize,
    entry: Entry,
    label: Label,
    to: Option<Target>,
    fails: bool,
) -> Responded
    requires response { IsResponse control.old.tables node number }
    requires entry { Some (handle_state entry) ≡ handle_in control.old.tables.handles node number }
    requires order { IsControl control.old }
    requires calls { control.old.tables.calls < 2 ^ 56 }
    requires label { label ≡ labels_of control.old.tables.pools entry.pool entry.slot }
    requires awaits { is_some to
        ≡ is_named_by_client control.old.tables (handle_state entry) false }
    requires there { IfSome to (λ target.
        place_in control.old.tables.ports entry.client ≡ Some target.place) }
    ensures reply { (h : HandleState) → handle_in control.old.tables.handles node number ≡ Some h
        → reply_of_send result ≡ response_reply control.old.tables h fails }
    ensures left { (h : HandleState) → handle_in control.old.tables.handles node number ≡ Some h
        → control.new.tables ≡ record (with_response_ended control.old.tables node number h fails) {
          pools = control.new.tables.pools;
        } }
    ensures pools { bare_pools control.old.tables.pools ≡ bare_pools control.new.tables.pools }
    ensures order { IsControl control.new }
    ensures whole { (h : HandleState) → handle_in control.old.tables.handles node number ≡ Some h
        → (x : Given) → (control.old.tables.settings.response_overflow ≡ false
        → IsFailure x control.old.tables h fails) → (t : HubTables)
        → state_shown x (with_released control.new.tables h.port) ≡ state_shown x t
        → IsWholeCall (state_shown x control.old.tables) node (Send number)
        (reply_of_send result) (state_shown x t) }
{
    let alone = has_one_out(control, entry.pool);
    let way = Way {
        sender: entry.port,
        receiver: entry.client,
        lane: label.lane,
    };
    let shut = is_shut(control, way);
    let Some(to) = to else {
        count(control);
        end_loan(control, node, number, hint);
        return Responded::Done;
    };
    retrieve_unless(control, way, entry.pool, alone);
    if !shut {
        hand_over(control, node, number, hint, entry, way, to);
        return Responded::Done;
    }
    if fails {
        end_loan(control, node, number, hint);
        return Responded::Undelivered;
    }
    count(control);
    end_loan(control, node, number, hint);
    Responded::Done
}

/// Offers this loaned response to its client, and ends its handle, which is looked for by its
/// number, at the hint first: all of its send but the disconnection of the server, where nothing
/// else of that is left. Whether the send fails where the client is full, the caller says, by the
/// server's handler or its strategy. That counts only where responses do not overflow.
pub fn offer_response(
    control: &mut Control,
    node: u64,
    number: u64,
    hint: usize,
    entry: Entry,
    fails: bool,
) -> Responded
    requires response { IsResponse control.old.tables node number }
    requires entry { Some (handle_state entry) ≡ handle_in control.old.tables.handles node number }
    requires order { IsControl control.old }
    requires calls { control.old.tables.calls < 2 ^ 56 }
    ensures reply { (h : HandleState) → handle_in control.old.tables.handles node number ≡ Some h
        → reply_of_send result ≡ response_reply control.old.tables h fails }
    ensures left { (h : HandleState) → handle_in control.old.tables.handles node number ≡ Some h
        → control.new.tables ≡ record (with_response_ended control.old.tables node number h fails) {
          pools = control.new.tables.pools;
        } }
    ensures pools { bare_pools control.old.tables.pools ≡ bare_pools control.new.tables.pools }
    ensures order { IsControl control.new }
    ensures whole { (h : HandleState) → handle_in control.old.tables.handles node number ≡ Some h
        → (x : Given) → (control.old.tables.settings.response_overflow ≡ false
        → IsFailure x control.old.tables h fails) → (t : HubTables)
        → state_shown x (with_released control.new.tables h.port) ≡ state_shown x t
        → IsWholeCall (state_shown x control.old.tables) node (Send number)
        (reply_of_send result) (state_shown x t) }
{
    let label = control.label_of(entry.pool, entry.slot);
    let to = find_awaiting(control, entry, label);
    offer_to(control, node, number, hint, entry, label, to, fails)
}
