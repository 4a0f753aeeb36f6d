//! The way of a response.
ghost use Rattle.std.specs.Prelude.{◌≡◌};
ghost use Rattle.iox_model.specs.Requests.{fails_at};
ghost use Rattle.iox_wire_messages.specs.WayIndex.TheVariants.{Responses};
ghost use Rattle.iox_wire_messages.specs.Plans.{IsWayAt, way_at};
ghost use Rattle.iox_wire_messages.specs.PlansOf.{IsSettingOf};
ghost use Rattle.iox_wire_messages.specs.Seat.{Seat};
ghost use Rattle.iox_wire_messages.specs.Entry.{Entry};
ghost use Rattle.iox_wire_messages.specs.Known.{known};
ghost use Rattle.iox_wire_messages.specs.Tables.{Setting, state_in};
ghost use Rattle.iox_wire_messages.specs.Aims.{IsInMemory};
ghost use Rattle.iox_wire_copies.specs.Aims.{IsToldOf};

use iox_wire_copies::ResponseTerms;
use iox_wire_messages::{WayIndex, WordMap};

/// What the send of a response is told about its way, from the server at an index to a lane of the
/// client at another. Whether it fails at a full client is told elsewhere.
pub fn terms_of_response(
    map: &WordMap,
    client: usize,
    server: usize,
    lane: u64,
    fails: bool,
) -> ResponseTerms
    requires { IsWayAt map.now (Responses client server lane) }
    ensures told { (p : Setting) → (loan : Entry) → IsSettingOf map.now p
        → state_in loan ≡ way_at map.now (Responses client server lane)
        → ((x : Seat)
        → fails_at (known p x) (way_at map.now (Responses client server lane)) ≡ fails)
        → IsToldOf p loan result }
    ensures messages { IsInMemory result.messages }
    ensures returning { IsInMemory result.returning }
{
    // only what this promises is wanted
    let _total = map.total();
    let plan = map.plan();
    let way = WayIndex::Responses {
        client,
        server,
        lane: lane as usize,
    };
    let messages = map.message_queue(way);
    let returning = map.returning_queue(way);
    let state = map.state(client, server, lane as usize);
    ResponseTerms {
        messages,
        returning,
        state,
        overflow: plan.limits.response_overflow,
        fails,
        node: plan.ports[client].node,
    }
}
