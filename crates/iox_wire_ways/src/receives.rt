//! How a receive begins, with its ways from the map.
ghost use Rattle.std.specs.Prelude.{ℕ, ◌≡◌, ◌*◌, ◌≤◌, false, vec_capacity};
ghost use Rattle.iox_model.specs.declared.call.Call.TheVariants.{Receive};
ghost use Rattle.iox_model.specs.declared.kind.Role.TheVariants.{Server};
ghost use Rattle.iox_wire_messages.specs.Plans.{IsLaneAt, IsPortAt, most_ways, number_at};
ghost use Rattle.iox_wire_messages.specs.PlansOf.{IsSettingOf};
ghost use Rattle.iox_wire_messages.specs.Begins.{begins_at_entry, begins_at_port, is_busy};
ghost use Rattle.iox_wire_messages.specs.Courses.{placed};
ghost use Rattle.iox_wire_messages.specs.Lendings.{next_handle};
ghost use Rattle.iox_wire_messages.specs.Stored.{header_length};
ghost use Rattle.iox_wire_messages.specs.Tables.{Setting};
ghost use Rattle.iox_wire_receives.specs.Aims.{MayTakeOneMore, IsAimed};
ghost use Rattle.iox_wire_ways.specs.RequestSources.{HasRequestWays};

use crate::responses::list_response_sources;
use crate::sources::list_request_sources;
use iox_model::kind::Role;
use iox_wire_messages::{Entry, StoredSeat, Visit, WordMap};
use iox_wire_receives::{Receiving, Source};

/// Begins the receive of the server at an index, whose handle will have that number. No receive may
/// be under way. What it lists in `sources` is of no use later.
pub fn begin_request_receive(
    map: &WordMap,
    seat: &StoredSeat,
    receiving: &mut Receiving,
    server: usize,
    fire_and_forget: bool,
    number: u64,
    sources: &mut Vec<Source>,
)
    requires rests { is_busy receiving.old.local ≡ false }
    requires server { IsPortAt map.now Server server }
    requires known { HasRequestWays map.now }
    requires list { most_ways map.now ≤ vec_capacity sources.old }
    requires room { most_ways map.now ≤ receiving.old.room }
    ensures begun { (p : Setting) → (n : ℕ) → IsSettingOf map.now p
        → p.limits.fire_and_forget ≡ fire_and_forget
        → placed seat.now.seat receiving.new.local
        ≡ begins_at_port p seat.now.seat (Receive n) (p.port (number_at map.now server)) }
    ensures aimed { (p : Setting) → IsSettingOf map.now p
        → p.limits.fire_and_forget ≡ fire_and_forget → number ≡ next_handle p seat.now.seat
        → IsAimed p seat.now.seat receiving.new }
    ensures counts { MayTakeOneMore seat.now.seat receiving.new.local }
    ensures number { receiving.new.terms.number ≡ number }
    ensures list { vec_capacity sources.new ≡ vec_capacity sources.old }
    ensures room { receiving.new.room ≡ receiving.old.room }
{
    let terms = list_request_sources(map, seat, server, fire_and_forget, number, sources);
    let visit = Visit {
        port: map.plan().ports[server].number,
        role: Role::Server,
        lane: 0,
        request: 0,
    };
    receiving.begin(seat, visit, terms, sources)
}

/// Begins the receive of a pending response of the client at an index, whose handle will have that
/// number. No receive may be under way. What it lists in `sources` is of no use later.
pub fn begin_response_receive(
    map: &WordMap,
    seat: &StoredSeat,
    receiving: &mut Receiving,
    pending: Entry,
    client: usize,
    fire_and_forget: bool,
    number: u64,
    sources: &mut Vec<Source>,
)
    requires rests { is_busy receiving.old.local ≡ false }
    requires client { number_at map.now client ≡ pending.port }
    requires lane { IsLaneAt map.now client pending.lane }
    requires header { map.now.response.header.size ≡ 8 * header_length Server }
    requires list { most_ways map.now ≤ vec_capacity sources.old }
    requires room { most_ways map.now ≤ receiving.old.room }
    ensures begun { (p : Setting) → (n : ℕ) → IsSettingOf map.now p
        → placed seat.now.seat receiving.new.local
        ≡ begins_at_entry p seat.now.seat (Receive n) pending }
    ensures aimed { (p : Setting) → IsSettingOf map.now p
        → p.limits.fire_and_forget ≡ fire_and_forget → number ≡ next_handle p seat.now.seat
        → IsAimed p seat.now.seat receiving.new }
    ensures counts { MayTakeOneMore seat.now.seat receiving.new.local }
    ensures number { receiving.new.terms.number ≡ number }
    ensures list { vec_capacity sources.new ≡ vec_capacity sources.old }
    ensures room { receiving.new.room ≡ receiving.old.room }
{
    let lane = pending.lane;
    let terms = list_response_sources(map, client, lane, fire_and_forget, number, sources);
    let visit = Visit {
        port: pending.port,
        role: Role::Client,
        lane,
        request: pending.request,
    };
    receiving.begin(seat, visit, terms, sources)
}
