//! How sends of loans begin.
ghost use Rattle.std.specs.Prelude.{ℕ, ◌≡◌, ◌≤◌, false, true, vec_capacity};
ghost use Rattle.iox_model.specs.declared.call.Call.TheVariants.{Send};
ghost use Rattle.iox_model.specs.Handles.{is_request_loan, is_response_loan};
ghost use Rattle.iox_wire_handle_calls.specs.WayIndex.TheVariants.{Responses};
ghost use Rattle.iox_wire_handle_calls.specs.Plans.{IsLaneAt, IsWayAt, most_ways, number_at, way_at};
ghost use Rattle.iox_wire_begins.specs.WirePlans.{IsWirePlan};
ghost use Rattle.iox_wire_lenders.specs.Terms.{IsSettingWith};
ghost use Rattle.iox_wire_handle_calls.specs.Begins.{begins_at_entry, is_busy};
ghost use Rattle.iox_wire_handle_calls.specs.Courses.{placed};
ghost use Rattle.iox_wire_handle_calls.specs.Tables.{Setting, state_in};
ghost use Rattle.iox_wire_handle_calls.specs.Aims as requests;
ghost use Rattle.iox_wire_handle_calls.specs.SeatsAims.{HasRoomForHint};
ghost use Rattle.iox_wire_handle_calls.specs.SendsAims as responses;

use crate::told::{request_terms, response_terms};
use iox_wire_handle_calls::{
    Entry, Requesting, Responding, StoredSeat, Target, WordMap, list_targets,
};
use iox_wire_lenders::WireTerms;

/// Begins the send of a loaned request of the client at an index. No send may be under way. What it
/// lists in `targets` is of no use later.
pub fn begin_request_send(
    map: &WordMap,
    terms: &WireTerms,
    seat: &StoredSeat,
    requesting: &mut Requesting,
    loan: Entry,
    client: usize,
    targets: &mut Vec<Target>,
)
    requires rests { is_busy requesting.old.local ≡ false }
    requires kind { is_request_loan loan.kind ≡ true }
    requires request { HasRoomForHint loan }
    requires lane { IsLaneAt map.now client loan.lane }
    requires own { loan.port ≡ number_at map.now client }
    requires plan { IsWirePlan map.now terms.now }
    requires list { most_ways map.now ≤ vec_capacity targets.old }
    requires room { most_ways map.now ≤ requesting.old.room }
    ensures begun { (p : Setting) → (n : ℕ) → IsSettingWith map.now terms.now p
        → placed seat.now.seat requesting.new.local
        ≡ begins_at_entry p seat.now.seat (Send n) loan }
    ensures aimed { (p : Setting) → IsSettingWith map.now terms.now p
        → requests.IsAimed p seat.now.seat requesting.new }
    ensures loan { requesting.new.loan ≡ loan }
    ensures own { requesting.new.copied ≡ false }
    ensures list { vec_capacity targets.new ≡ vec_capacity targets.old }
    ensures room { requesting.new.room ≡ requesting.old.room }
{
    // only what this promises is wanted
    let _plan = map.plan();
    let own = request_terms(map, terms, client);
    let told = list_targets(map, seat, client, loan.lane, own, targets);
    requesting.begin(seat, loan, told, targets)
}

/// Begins the send of a loaned response of the server at an index, on its way to a lane of the
/// client at another. No send may be under way.
pub fn begin_response_send(
    map: &WordMap,
    terms: &WireTerms,
    seat: &StoredSeat,
    responding: &mut Responding,
    loan: Entry,
    client: usize,
    server: usize,
)
    requires rests { is_busy responding.old.local ≡ false }
    requires kind { is_response_loan loan.kind ≡ true }
    requires way { IsWayAt map.now (Responses client server loan.lane) }
    requires own { state_in loan ≡ way_at map.now (Responses client server loan.lane) }
    requires plan { IsWirePlan map.now terms.now }
    ensures begun { (p : Setting) → (n : ℕ) → IsSettingWith map.now terms.now p
        → placed seat.now.seat responding.new.local
        ≡ begins_at_entry p seat.now.seat (Send n) loan }
    ensures aimed { (p : Setting) → IsSettingWith map.now terms.now p
        → responses.IsAimed p responding.new }
    ensures loan { responding.new.loan ≡ loan }
    ensures own { responding.new.copied ≡ false }
{
    let told = response_terms(map, terms, client, server, loan.lane);
    responding.begin(seat, loan, told);
}
