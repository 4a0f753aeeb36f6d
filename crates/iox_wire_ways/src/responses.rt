//! The ways from which a pending response receives.
ghost use Rattle.std.specs.Prelude.{◌≡◌, ◌*◌, ◌<◌, ◌≤◌, IfSome, [], length, map as each, vec_capacity, vec_len};
ghost use Rattle.iox_model.specs.declared.kind.Role.TheVariants.{Client, Server};
ghost use Rattle.iox_model.specs.Messages.{response_way};
ghost use Rattle.iox_model.specs.Peers.{ports_of_role};
ghost use Rattle.iox_wire_messages.specs.WayIndex.TheVariants.{Responses};
ghost use Rattle.iox_wire_messages.specs.Plans.{IsLaneAt, IsPortAt, IsWayAt, most_ways, number_at};
ghost use Rattle.iox_wire_messages.specs.PlansOf.{IsSettingOf};
ghost use Rattle.iox_wire_messages.specs.Seat.{Seat};
ghost use Rattle.iox_wire_messages.specs.Known.{known};
ghost use Rattle.iox_wire_messages.specs.Stored.{header_length};
ghost use Rattle.iox_wire_messages.specs.Tables.{Setting};
ghost use Rattle.iox_wire_receives.specs.declared.source.Source.{Source};
ghost use Rattle.iox_wire_receives.specs.Sources.{AreSources, AreWithin, ways_of};
ghost use Rattle.iox_wire_ways.specs.ResponseSources.{response_source, response_terms};
ghost use Rattle.iox_wire_ways.specs.Visits.{is_other, made_at};

use iox_model::kind::Role;
use iox_model::way::Way;
use iox_steps::QueueKind;
use iox_wire_messages::{PlanPort, WayIndex, WordMap};
use iox_wire_receives::{ReceiveTerms, Source};

/// Whether a port is a server, of whatever node.
fn is_server(port: PlanPort) -> bool
    ensures { result ≡ is_other Server [] port }
{
    matches!(port.role, Role::Server)
}

/// The way from a server to a lane of a client.
fn source_from(map: &WordMap, client: usize, lane: u64, server: usize) -> Source
    requires { IsWayAt map.now (Responses client server lane) }
    ensures { result ≡ response_source map.now client lane server }
{
    let port = map.plan().ports[server];
    let way = Way {
        sender: port.number,
        receiver: map.plan().ports[client].number,
        lane,
    };
    let messages = map.message_queue(WayIndex::Responses {
        client,
        server,
        lane: lane as usize,
    });
    Source {
        way,
        node: port.node,
        place: messages.base,
        region: map.region(server),
        slots: port.pool as u64,
        slot_words: port.slot_words,
        lanes: 0,
    }
}

/// What is the same of all servers, as the way of one of them tells it.
fn terms_with(
    map: &WordMap,
    client: usize,
    lane: u64,
    server: usize,
    fire_and_forget: bool,
    number: u64,
) -> ReceiveTerms
    requires { IsWayAt map.now (Responses client server lane) }
    ensures { result ≡ response_terms map.now fire_and_forget number }
{
    let way = WayIndex::Responses {
        client,
        server,
        lane: lane as usize,
    };
    let messages = map.message_queue(way);
    let returning = map.returning_queue(way);
    let limit = map.plan().limits.borrow_limit(Role::Server);
    ReceiveTerms {
        kind: messages.kind,
        capacity: messages.capacity,
        back: returning.base - messages.base,
        room: returning.capacity,
        state: 0,
        lane_words: 0,
        limit: limit as u64,
        fire_and_forget,
        number,
    }
}

/// The way from the port at an index to a lane of a client, if that is a server.
fn source_at(map: &WordMap, client: usize, lane: u64, index: usize) -> Option<Source>
    requires lane { IsLaneAt map.now client lane }
    requires within { index < length map.now.ports.items }
    ensures source { result
        ≡ made_at Source map.now (is_other Server []) (response_source map.now client lane) index }
    ensures server { IfSome result (λ source. IsPortAt map.now Server index) }
{
    if is_server(map.plan().ports[index]) {
        return Some(source_from(map, client, lane, index));
    }
    None
}

/// Lists the ways from which a pending response of the client at an index receives, on its lane,
/// and tells what is the same of all. What was listed before is lost. The handle that the receive
/// makes has that number. There is room for the ways.
pub fn list_response_sources(
    map: &WordMap,
    client: usize,
    lane: u64,
    fire_and_forget: bool,
    number: u64,
    sources: &mut Vec<Source>,
) -> ReceiveTerms
    requires lane { IsLaneAt map.now client lane }
    requires header { map.now.response.header.size ≡ 8 * header_length Server }
    requires list { most_ways map.now ≤ vec_capacity sources.old }
    ensures ways { (p : Setting) → (x : Seat) → IsSettingOf map.now p
        → ways_of sources.new.items
        ≡ each (response_way (number_at map.now client) lane) (ports_of_role (known p x) Server) }
    ensures sources { (p : Setting) → IsSettingOf map.now p
        → AreSources p result (header_length Server) sources.new.items }
    ensures within { AreWithin result (header_length Server) sources.new.items }
    ensures number { result.number ≡ number }
    ensures asks { result.fire_and_forget ≡ fire_and_forget }
    ensures many { vec_len sources.new ≤ length map.now.ports.items }
    ensures list { vec_capacity sources.new ≡ vec_capacity sources.old }
{
    // only what this promises is wanted
    let _total = map.total();
    let mut terms = ReceiveTerms {
        kind: QueueKind::Index,
        capacity: 0,
        back: 0,
        room: 0,
        state: 0,
        lane_words: 0,
        limit: 0,
        fire_and_forget,
        number,
    };
    sources.clear();
    for index in 0..map.plan().ports.len() {
        if let Some(source) = source_at(map, client, lane, index) {
            terms = terms_with(map, client, lane, index, fire_and_forget, number);
            sources.push_reserved(source);
        }
    }
    terms
}
