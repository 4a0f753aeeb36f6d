//! The send of a request to the only server on the usual way: all is tested before anything is
//! changed.
ghost use Rattle.std.specs.Prelude.{◌≡◌, ◌<◌, ◌≤◌, ◌^◌, ◌∷◌, [], Bool, IfSome, None, Some, false, length, true};
ghost use Rattle.iox_model.specs.Handles.{is_request_loan};
ghost use Rattle.iox_model.specs.WholeCalls.{IsWholeCall};
ghost use Rattle.iox_model.specs.declared.call.Call.TheVariants.{Send};
ghost use Rattle.iox_model.specs.declared.kind.Kind.TheVariants.{RequestMut};
ghost use Rattle.iox_model.specs.declared.kind.Role.TheVariants.{Server};
ghost use Rattle.iox_model.specs.declared.way.Way.{Way};
ghost use Rattle.iox_tables.specs.HubStates.Changes.{OnEach};
ghost use Rattle.iox_tables.specs.HubStates.States.{Given, state_shown};
ghost use Rattle.iox_tables.specs.HubStates.Tables.{HandleState};
ghost use Rattle.iox_tables.specs.HubStates.Ways.{lane_on};
ghost use Rattle.iox_tables.specs.HubStates.Wirings.{IsHandle, handle_in};
ghost use Rattle.iox_tables.specs.HubBooks.Keeps.{bare_pools};
ghost use Rattle.iox_hub_ports.specs.InPlace.{in_place, places_of};
ghost use Rattle.iox_hub_ports.specs.Known.{is_from};
ghost use Rattle.iox_control.specs.Controls.{IsControl};
ghost use Rattle.iox_control.specs.Entries.{handle_state};
ghost use Rattle.iox_control_releasing.specs.Goings.{StaysTidy};
ghost use Rattle.iox_control_retrieving.specs.Alone.{has_one_out};
ghost use Rattle.iox_control_requests.specs.declared.requested.Requested.TheVariants.{To};
ghost use Rattle.iox_control_requests.specs.Requests.{ways_of, with_request_sent, with_requests_back};
ghost use Rattle.iox_control_requests.specs.Sendings.{IsRequest, reply_of_send, request_outcome, with_request_ended};
ghost use Rattle.iox_control_requests.specs.Servers.{request_ways};

use crate::counts::is_spent;
use crate::sends::send_to_only;
use iox_control::Control;
use iox_control_retrieving::has_one_out;
use iox_handles::Entry;

/// Sends a client's loaned request to the only server, which is in that place. The loan is the only
/// message of its pool that somebody has, so nothing was given back to the client, and nothing is
/// pushed out. The pipe of that rank is from the client.
#[inline(always)]
fn attempt_alone(control: &mut Control, place: usize, entry: Entry, rank: usize, hint: usize)
    requires order { IsControl control.old }
    requires calls { control.old.tables.calls < 2 ^ 56 }
    requires named { IsHandle control.old.tables entry.node entry.number (handle_state entry) }
    requires kind { is_request_loan entry.kind ≡ true }
    requires alone { has_one_out control.old.tables.pools entry.pool ≡ true }
    requires only { places_of Server control.old.tables.ports ≡ place ∷ [] }
    requires there { place < length control.old.tables.ports }
    requires from { in_place (is_from rank entry.port) false control.old.tables.ports place ≡ true }
    requires filled { entry.kind ≡ RequestMut }
    ensures count { 1 ≡ length (ways_of (with_requests_back control.old.tables (handle_state entry))
        (handle_state entry) true) }
    ensures sent { control.new.tables
        ≡ record (with_request_sent (with_requests_back control.old.tables (handle_state entry))
        (handle_state entry) true) { pools = control.new.tables.pools } }
    ensures waits { OnEach (λ w l. length l.waiting ≤ l.buffer) (lane_on control.old.tables.ports)
        (request_ways entry.port control.old.tables.ports) }
    ensures messages { bare_pools control.old.tables.pools ≡ bare_pools control.new.tables.pools }
    ensures order { IsControl control.new }
{
    send_to_only(control, place, entry, rank, hint);
}

/// Sends this loaned request to the only server on the usual way, and says to how many it was
/// delivered; else it answers `None`, and nothing has changed. It is usual that requests overflow,
/// so that no send fails, the client may have one more pending response, the loan is the only
/// message of its pool that somebody has, and the client and its pipe stand where they are looked
/// for first.
#[inline(always)]
pub fn send_request_usual(
    control: &mut Control,
    node: u64,
    number: u64,
    hint: usize,
    entry: Entry,
) -> Option<u64>
    requires request { IsRequest control.old.tables node number }
    requires entry { Some (handle_state entry) ≡ handle_in control.old.tables.handles node number }
    requires order { IsControl control.old }
    requires calls { control.old.tables.calls < 2 ^ 56 }
    ensures reply { IfSome result (λ count. (fails : Way → Bool) (h : HandleState)
        → handle_in control.old.tables.handles node number ≡ Some h
        → To count ≡ request_outcome fails control.old.tables h) }
    ensures left { IfSome result (λ count. (h : HandleState)
        → handle_in control.old.tables.handles node number ≡ Some h
        → control.new.tables
        ≡ record (with_request_ended control.old.tables node number h (To count)) {
          pools = control.new.tables.pools;
        }) }
    ensures pools { bare_pools control.old.tables.pools ≡ bare_pools control.new.tables.pools }
    ensures tidy { StaysTidy control.old.tables control.new.tables }
    ensures order { IsControl control.new }
    ensures whole { IfSome result (λ count. (x : Given)
        → IsWholeCall (state_shown x control.old.tables) node (Send number)
        (reply_of_send (To count)) (state_shown x control.new.tables)) }
    ensures unchanged { result ≡ None → control.new ≡ control.old }
{
    if !control.settings().request_overflow {
        return None;
    }
    if is_spent(control, entry.port) {
        return None;
    }
    if !has_one_out(control, entry.pool) {
        return None;
    }
    let place = control.ports().only_server()?;
    let at = entry.at as usize;
    if !control.ports().is_near(entry.port, at) {
        return None;
    }
    let rank = control.ports().rank(at);
    if !control.ports().is_from(place, rank, entry.port) {
        return None;
    }
    attempt_alone(control, place, entry, rank, hint);
    Some(1)
}
