//! The servers to which a request goes.
ghost use Rattle.std.specs.Prelude.{◌≡◌, ◌<◌, ◌≤◌, IfSome, length, vec_capacity};
ghost use Rattle.iox_model.specs.declared.kind.Role.TheVariants.{Client, Server};
ghost use Rattle.iox_model.specs.Peers.{others};
ghost use Rattle.iox_wire_messages.specs.WayIndex.TheVariants.{Requests, Responses};
ghost use Rattle.iox_wire_messages.specs.Plans.{IsLaneAt, IsPortAt, IsWayAt, most_ways, number_at};
ghost use Rattle.iox_wire_messages.specs.PlansOf.{IsSettingOf};
ghost use Rattle.iox_wire_messages.specs.Entry.{Entry};
ghost use Rattle.iox_wire_messages.specs.Known.{known};
ghost use Rattle.iox_wire_messages.specs.Tables.{Setting};
ghost use Rattle.iox_wire_copies.specs.Target.{Target};
ghost use Rattle.iox_wire_copies.specs.Targets.{AreTargets, AreWithin, servers_of};
ghost use Rattle.iox_wire_ways.specs.RequestTargets.{KeepsTerms, target_of, target_terms};
ghost use Rattle.iox_wire_ways.specs.Visits.{is_other, made_at};

use crate::returns::is_server_left;
use iox_wire_copies::{RequestTerms, Target};
use iox_wire_messages::{StoredSeat, WayIndex, WordMap};

/// A server, for a client.
fn target_from(map: &WordMap, client: usize, server: usize) -> Target
    requires { IsWayAt map.now (Requests client server) }
    ensures { result ≡ target_of map.now client server }
{
    let messages = map.message_queue(WayIndex::Requests { client, server });
    Target {
        server: map.plan().ports[server].number,
        place: messages.base,
    }
}

/// What is the same of all servers for a loan on that lane, as the ways of one of them tell it.
fn terms_with(
    map: &WordMap,
    client: usize,
    server: usize,
    lane: u64,
    terms: RequestTerms,
) -> RequestTerms
    requires { IsWayAt map.now (Responses client server lane) }
    ensures { result ≡ target_terms map.now lane terms }
{
    // only what this promises is wanted
    let _plan = map.plan();
    let way = WayIndex::Requests { client, server };
    let messages = map.message_queue(way);
    let returning = map.returning_queue(way);
    let state = map.state(client, server, lane as usize);
    RequestTerms {
        kind: messages.kind,
        capacity: messages.capacity,
        back: returning.base - messages.base,
        room: returning.capacity,
        state: state - messages.base,
        ..terms
    }
}

/// The server at an index, if the node did not forget it.
fn target_at(map: &WordMap, seat: &StoredSeat, client: usize, index: usize) -> Option<Target>
    requires client { IsPortAt map.now Client client }
    requires within { index < length map.now.ports.items }
    ensures target { result ≡ made_at Target map.now
        (is_other Server seat.now.seat.forgot) (target_of map.now client) index }
    ensures server { IfSome result (λ target. IsPortAt map.now Server index) }
{
    if is_server_left(seat, map.plan().ports[index]) {
        return Some(target_from(map, client, index));
    }
    None
}

/// Lists the servers to which a request of the client at an index goes that was lent on a lane,
/// those that the node did not forget, and tells where the words stand of each. What was listed
/// before is lost. There is room for them.
pub fn list_targets(
    map: &WordMap,
    seat: &StoredSeat,
    client: usize,
    lane: u64,
    terms: RequestTerms,
    targets: &mut Vec<Target>,
) -> RequestTerms
    requires lane { IsLaneAt map.now client lane }
    requires list { most_ways map.now ≤ vec_capacity targets.old }
    ensures servers { (p : Setting) → IsSettingOf map.now p → servers_of targets.new.items
        ≡ others (known p seat.now.seat) seat.now.seat.node Server }
    ensures targets { (p : Setting) → (loan : Entry) → IsSettingOf map.now p
        → loan.port ≡ number_at map.now client → loan.lane ≡ lane
        → AreTargets p result loan targets.new.items }
    ensures within { AreWithin result targets.new.items }
    ensures rest { KeepsTerms terms result }
    ensures few { length targets.new.items ≤ most_ways map.now }
    ensures list { vec_capacity targets.new ≡ vec_capacity targets.old }
{
    // only what this promises is wanted
    let _total = map.total();
    let mut told = terms;
    targets.clear();
    for index in 0..map.plan().ports.len() {
        if let Some(target) = target_at(map, seat, client, index) {
            told = terms_with(map, client, index, lane, terms);
            targets.push_reserved(target);
        }
    }
    told
}
