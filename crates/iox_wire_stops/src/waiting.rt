//! The queues in which the messages wait that a receive would visit.
ghost use Rattle.std.specs.Prelude.{◌≡◌, ◌*◌, ◌≤◌, length, map as each, vec_capacity};
ghost use Rattle.iox_model.specs.declared.kind.Role.TheVariants.{Server};
ghost use Rattle.iox_model.specs.Messages.{response_way};
ghost use Rattle.iox_model.specs.Peers.{ports_of_role};
ghost use Rattle.iox_model.specs.Receives.{server_ways};
ghost use Rattle.iox_wire_ways.specs.Plans.{IsLaneAt, IsPortAt, most_ways, number_at};
ghost use Rattle.iox_wire_ways.specs.PlansOf.{IsSettingOf};
ghost use Rattle.iox_wire_ways.specs.Seat.{Seat};
ghost use Rattle.iox_wire_ways.specs.Known.{known};
ghost use Rattle.iox_wire_ways.specs.Stored.{header_length};
ghost use Rattle.iox_wire_ways.specs.Tables.{Setting};
ghost use Rattle.iox_wire_ways.specs.Aims.{AreQueues, QueuesInMemory};
ghost use Rattle.iox_wire_ways.specs.Seats.{ways_of};
ghost use Rattle.iox_wire_stops.specs.Waiting.{stop_of};
ghost use Rattle.iox_wire_ways.specs.RequestSources.{HasRequestWays};

use iox_steps::Site;
use iox_wire_ways::{
    ReceiveTerms, Source, Stop, StoredSeat, WordMap, list_request_sources, list_response_sources,
};

/// Lists the queues of sources. What was listed before is lost. There is room for them.
fn list_queues(sources: &[Source], stops: &mut Vec<Stop>)
    requires { length sources.now ≤ vec_capacity stops.old }
    ensures stops { stops.new.items ≡ each stop_of sources.now }
    ensures list { vec_capacity stops.new ≡ vec_capacity stops.old }
{
    stops.clear();
    for index in 0..sources.len() {
        let source = sources[index];
        stops.push_reserved(Stop {
            way: source.way,
            place: source.place,
        });
    }
}

/// A queue like those of the sources that were told so.
fn queue_like(terms: ReceiveTerms) -> Site
    ensures kind { result.kind ≡ terms.kind }
    ensures capacity { result.capacity ≡ terms.capacity }
{
    Site {
        kind: terms.kind,
        base: 0,
        capacity: terms.capacity,
    }
}

/// Lists the queues in which requests wait for the server at an index, from all clients from which
/// it would receive, and tells a queue like them. What was listed before is lost.
pub fn list_waiting_requests(
    map: &WordMap,
    seat: &StoredSeat,
    server: usize,
    fire_and_forget: bool,
    sources: &mut Vec<Source>,
    stops: &mut Vec<Stop>,
) -> Site
    requires server { IsPortAt map.now Server server }
    requires known { HasRequestWays map.now }
    requires sources { most_ways map.now ≤ vec_capacity sources.old }
    requires stops { most_ways map.now ≤ vec_capacity stops.old }
    ensures ways { (p : Setting) → IsSettingOf map.now p
        → p.limits.fire_and_forget ≡ fire_and_forget → ways_of stops.new.items
        ≡ server_ways (known p seat.now.seat) (p.port (number_at map.now server)) }
    ensures queues { (p : Setting) → IsSettingOf map.now p
        → AreQueues p result.kind result.capacity stops.new.items }
    ensures within { QueuesInMemory result.kind result.capacity stops.new.items }
    ensures sources { vec_capacity sources.new ≡ vec_capacity sources.old }
    ensures few { length stops.new.items ≤ most_ways map.now }
    ensures stops { vec_capacity stops.new ≡ vec_capacity stops.old }
{
    let terms = list_request_sources(map, seat, server, fire_and_forget, 0, sources);
    list_queues(sources, stops);
    queue_like(terms)
}

/// Lists the queues in which responses wait on a lane of the client at an index, from all servers,
/// and tells a queue like them. What was listed before is lost.
pub fn list_waiting_responses(
    map: &WordMap,
    client: usize,
    lane: u64,
    sources: &mut Vec<Source>,
    stops: &mut Vec<Stop>,
) -> Site
    requires lane { IsLaneAt map.now client lane }
    requires header { map.now.response.header.size ≡ 8 * header_length Server }
    requires sources { most_ways map.now ≤ vec_capacity sources.old }
    requires stops { most_ways map.now ≤ vec_capacity stops.old }
    ensures ways { (p : Setting) → (x : Seat) → IsSettingOf map.now p → ways_of stops.new.items
        ≡ each (response_way (number_at map.now client) lane) (ports_of_role (known p x) Server) }
    ensures queues { (p : Setting) → IsSettingOf map.now p
        → AreQueues p result.kind result.capacity stops.new.items }
    ensures within { QueuesInMemory result.kind result.capacity stops.new.items }
    ensures sources { vec_capacity sources.new ≡ vec_capacity sources.old }
    ensures few { length stops.new.items ≤ most_ways map.now }
    ensures stops { vec_capacity stops.new ≡ vec_capacity stops.old }
{
    let terms = list_response_sources(map, client, lane, false, 0, sources);
    list_queues(sources, stops);
    queue_like(terms)
}
