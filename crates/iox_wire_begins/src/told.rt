//! What sends are told about the wire.
ghost use Rattle.std.specs.Prelude.{◌≡◌};
ghost use Rattle.iox_model.specs.declared.kind.Role.TheVariants.{Client};
ghost use Rattle.iox_wire_handle_calls.specs.WayIndex.TheVariants.{Responses};
ghost use Rattle.iox_wire_handle_calls.specs.Plans.{IsPortAt, IsWayAt, number_at, way_at};
ghost use Rattle.iox_wire_handle_calls.specs.Entry.{Entry};
ghost use Rattle.iox_wire_handle_calls.specs.Tables.{Setting, state_in};
ghost use Rattle.iox_wire_lenders.specs.Terms.{FitsPlan, IsSettingWith};
ghost use Rattle.iox_wire_handle_calls.specs.Aims as requests;
ghost use Rattle.iox_wire_handle_calls.specs.SeatsAims.{IsInMemory};
ghost use Rattle.iox_wire_handle_calls.specs.SendsAims as responses;

use iox_steps::QueueKind;
use iox_wire_handle_calls::{RequestTerms, ResponseTerms, WordMap, terms_of_response};
use iox_wire_lenders::WireTerms;

/// What the send of a request of the client at an index is told about the wire. It is not told yet
/// where words stand.
pub fn request_terms(map: &WordMap, terms: &WireTerms, client: usize) -> RequestTerms
    requires client { IsPortAt map.now Client client }
    requires fits { FitsPlan map.now terms.now }
    ensures { (p : Setting) → (loan : Entry) → IsSettingWith map.now terms.now p
        → loan.port ≡ number_at map.now client → requests.IsToldOf p loan result }
{
    let plan = map.plan();
    RequestTerms {
        kind: QueueKind::Index,
        capacity: 0,
        back: 0,
        room: 0,
        state: 0,
        overflow: plan.limits.request_overflow,
        fails: terms.ports[client].fails,
        active: plan.limits.active_requests as u64,
    }
}

/// What the send of a response is told about its way, from the server at an index to a lane of the
/// client at another.
pub fn response_terms(
    map: &WordMap,
    terms: &WireTerms,
    client: usize,
    server: usize,
    lane: u64,
) -> ResponseTerms
    requires way { IsWayAt map.now (Responses client server lane) }
    requires fits { FitsPlan map.now terms.now }
    ensures told { (p : Setting) → (loan : Entry) → IsSettingWith map.now terms.now p
        → state_in loan ≡ way_at map.now (Responses client server lane)
        → responses.IsToldOf p loan result }
    ensures messages { IsInMemory result.messages }
    ensures returning { IsInMemory result.returning }
{
    // only what this promises is wanted
    let _plan = map.plan();
    terms_of_response(map, client, server, lane, terms.ports[server].fails)
}
