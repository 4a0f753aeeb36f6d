//! The ways from which a server receives.
ghost use Rattle.std.specs.Prelude.{◌≡◌, ◌<◌, ◌≤◌, IfSome, length, option_map, vec_capacity, vec_len};
ghost use Rattle.iox_model.specs.declared.kind.Role.TheVariants.{Client, Server};
ghost use Rattle.iox_model.specs.Receives.{server_ways};
ghost use Rattle.iox_wire_messages.specs.WayIndex.TheVariants.{Requests, Responses};
ghost use Rattle.iox_wire_messages.specs.Plans.{IsPortAt, IsWayAt, most_ways, number_at};
ghost use Rattle.iox_wire_messages.specs.PlansOf.{IsSettingOf};
ghost use Rattle.iox_wire_messages.specs.Known.{known};
ghost use Rattle.iox_wire_messages.specs.Stored.{header_length};
ghost use Rattle.iox_wire_messages.specs.Tables.{Setting};
ghost use Rattle.iox_wire_receives.specs.declared.source.Source.{Source};
ghost use Rattle.iox_wire_receives.specs.Sources.{AreSources, AreWithin, ways_of};
ghost use Rattle.iox_wire_ways.specs.RequestSources.{HasRequestWays, passed_over};
ghost use Rattle.iox_wire_ways.specs.RequestSources.{request_source, request_terms};
ghost use Rattle.iox_wire_ways.specs.Visits.{is_other, made_at};

use iox_model::kind::Role;
use iox_model::way::Way;
use iox_steps::QueueKind;
use iox_wire_messages::{PlanPort, StoredSeat, WayIndex, WordMap};
use iox_wire_receives::{ReceiveTerms, Source};

/// Whether a receive visits a port: it is a client, and its node is not forgotten or all are
/// visited.
fn is_visited(seat: &StoredSeat, fire_and_forget: bool, port: PlanPort) -> bool
    ensures { result ≡ is_other Client (passed_over fire_and_forget seat.now.seat.forgot) port }
{
    matches!(port.role, Role::Client) && (fire_and_forget || !seat.has_forgotten(port.node))
}

/// The way from a client to a server.
fn source_from(map: &WordMap, server: usize, client: usize) -> Source
    requires { IsWayAt map.now (Requests client server) }
    ensures { result ≡ request_source map.now server client }
{
    let port = map.plan().ports[client];
    let way = Way {
        sender: port.number,
        receiver: map.plan().ports[server].number,
        lane: 0,
    };
    let messages = map.message_queue(WayIndex::Requests { client, server });
    Source {
        way,
        node: port.node,
        place: messages.base,
        region: map.region(client),
        slots: port.pool as u64,
        slot_words: port.slot_words,
        lanes: port.pool as u64,
    }
}

/// What is the same of all clients, as the ways of one of them tell it.
fn terms_with(
    map: &WordMap,
    server: usize,
    client: usize,
    fire_and_forget: bool,
    number: u64,
) -> ReceiveTerms
    requires way { IsWayAt map.now (Requests client server) }
    requires lane { IsWayAt map.now (Responses client server 0) }
    requires known { HasRequestWays map.now }
    ensures { result ≡ request_terms map.now fire_and_forget number }
{
    let way = WayIndex::Requests { client, server };
    let lane = WayIndex::Responses {
        client,
        server,
        lane: 0,
    };
    let messages = map.message_queue(way);
    let returning = map.returning_queue(way);
    let first = map.message_queue(lane);
    let state = map.state(client, server, 0);
    let limit = map.plan().limits.borrow_limit(Role::Client);
    ReceiveTerms {
        kind: messages.kind,
        capacity: messages.capacity,
        back: returning.base - messages.base,
        room: returning.capacity,
        state: state - messages.base,
        lane_words: state + 1 - first.base,
        limit: limit as u64,
        fire_and_forget,
        number,
    }
}

/// The way from the client at an index to a server, if a receive visits that.
fn source_at(
    map: &WordMap,
    seat: &StoredSeat,
    server: usize,
    fire_and_forget: bool,
    index: usize,
) -> Option<Source>
    requires server { IsPortAt map.now Server server }
    requires within { index < length map.now.ports.items }
    ensures source { result ≡ made_at Source map.now
        (is_other Client (passed_over fire_and_forget seat.now.seat.forgot))
        (request_source map.now server) index }
    ensures client { IfSome result (λ source. IsPortAt map.now Client index) }
{
    if is_visited(seat, fire_and_forget, map.plan().ports[index]) {
        return Some(source_from(map, server, index));
    }
    None
}

/// Lists the ways from which the server at an index receives, and tells what is the same of all.
/// What was listed before is lost. The handle that the receive makes has that number. There is room
/// for the ways.
pub fn list_request_sources(
    map: &WordMap,
    seat: &StoredSeat,
    server: usize,
    fire_and_forget: bool,
    number: u64,
    sources: &mut Vec<Source>,
) -> ReceiveTerms
    requires server { IsPortAt map.now Server server }
    requires known { HasRequestWays map.now }
    requires list { most_ways map.now ≤ vec_capacity sources.old }
    ensures ways { (p : Setting) → IsSettingOf map.now p
        → p.limits.fire_and_forget ≡ fire_and_forget → ways_of sources.new.items
        ≡ server_ways (known p seat.now.seat) (p.port (number_at map.now server)) }
    ensures sources { (p : Setting) → IsSettingOf map.now p
        → AreSources p result (header_length Client) sources.new.items }
    ensures within { AreWithin result (header_length Client) sources.new.items }
    ensures number { result.number ≡ number }
    ensures asks { result.fire_and_forget ≡ fire_and_forget }
    ensures many { vec_len sources.new ≤ length map.now.ports.items }
    ensures list { vec_capacity sources.new ≡ vec_capacity sources.old }
{
    let mut terms = ReceiveTerms {
        kind: QueueKind::Index,
        capacity: 0,
        back: 0,
        room: 0,
        state: 0,
        lane_words: 0,
        limit: 0,
        fire_and_forget,
        number,
    };
    sources.clear();
    for index in 0..map.plan().ports.len() {
        if let Some(source) = source_at(map, seat, server, fire_and_forget, index) {
            terms = terms_with(map, server, index, fire_and_forget, number);
            sources.push_reserved(source);
        }
    }
    terms
}
