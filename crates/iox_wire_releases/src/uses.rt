//! Callers, proved only from the clauses.
ghost use Rattle.std.specs.Prelude.{ℕ, ◌≡◌, ◌≢◌, ◌+◌, ◌<◌, ◌≤◌, ◌^◌, [], None, Some, true, vec_capacity};
ghost use Rattle.iox_word_places.specs.Plans.{most_ways};
ghost use Rattle.iox_model.specs.declared.call.Call.TheVariants.{Release};
ghost use Rattle.iox_model.specs.declared.call.WireCall.TheVariants.{Port};
ghost use Rattle.iox_model.specs.Messages.{names};
ghost use Rattle.iox_model.specs.Peers.{port_at};
ghost use Rattle.iox_steps.specs.declared.access.Access.TheVariants.{Store};
ghost use Rattle.iox_wire_words.specs.Programs.{state_place};
ghost use Rattle.iox_wire_locals.specs.declared.local.CallRefusal.TheVariants.{UnknownNumber};
ghost use Rattle.iox_wire_locals.specs.declared.local.Ending.TheVariants.{Refuses};
ghost use Rattle.iox_wire_locals.specs.declared.local.Local.TheVariants.{ReleaseCloses};
ghost use Rattle.iox_wire_locals.specs.declared.local.Local.TheVariants.{ReleaseExchanges};
ghost use Rattle.iox_wire_locals.specs.Begins.{begin};
ghost use Rattle.iox_wire_locals.specs.Courses.{ended};
ghost use Rattle.iox_wire_locals.specs.Known.{known};
ghost use Rattle.iox_wire_locals.specs.Locals.{state_told};
ghost use Rattle.iox_wire_locals.specs.Steps.{next};
ghost use Rattle.iox_wire_locals.specs.Tables.{Setting, entry_at};
ghost use Rattle.iox_wire_layouts.specs.PlansOf.{IsSettingOf};
ghost use Rattle.iox_wire_seats.specs.Aims.{IsAimed};
ghost use Rattle.iox_wire_releases.specs.Released.{MayReleaseNumber};

use crate::releases::begin_release;
use iox_model::way::Way;
use iox_steps::Access;
use iox_wire_locals::Entry;
use iox_wire_seats::{SeatReply, Stop, StoredSeat};
use iox_word_places::WordMap;

/// A release begins and makes its first access, as the definitions do.
pub fn released_by_one_step(
    map: &WordMap,
    seat: &mut StoredSeat,
    number: u64,
    stops: &mut Vec<Stop>,
    seen: u64,
) -> Option<SeatReply>
    requires home { MayReleaseNumber map.now number seat.old.seat }
    requires list { most_ways map.now ≤ vec_capacity stops.old }
    requires rooms { most_ways map.now ≤ seat.old.ways_room }
    requires accesses { seat.old.seat.accesses + 1 < 2 ^ 64 }
    ensures { (p : Setting) → IsSettingOf map.now p → seat.new.seat
        ≡ next p (begin p seat.old.seat (Port (Release number))) seen }
{
    begin_release(map, seat, number, stops);
    seat.go_on(seen)
}

/// What no port and no handle is named is refused.
pub fn nothing_is_released(map: &WordMap, seat: &mut StoredSeat, number: u64, stops: &mut Vec<Stop>)
    requires none { entry_at number seat.old.seat.table ≡ None }
    requires list { most_ways map.now ≤ vec_capacity stops.old }
    requires rooms { most_ways map.now ≤ seat.old.ways_room }
    ensures { (p : Setting) → IsSettingOf map.now p
        → port_at (known p seat.old.seat) number ≡ None
        → seat.new.seat ≡ ended seat.old.seat (Refuses UnknownNumber) }
{
    begin_release(map, seat, number, stops)
}

/// A request state is closed by one store.
pub fn lane_is_closed_by_a_store(seat: &StoredSeat, pending: Entry, way: Way) -> Access
    ensures { (p : Setting) → IsAimed p seat.now
        → seat.now.seat.local ≡ ReleaseCloses pending way [] → result
        ≡ Store (state_place p.layout way) 0 }
{
    seat.asks()
}

/// Where a hint came between, the exchange is made again from the word that was seen.
pub fn hint_comes_between(seat: &mut StoredSeat, request: Entry, old: u64, seen: u64)
    requires accesses { seat.old.seat.accesses + 1 < 2 ^ 64 }
    requires changed { seen ≢ old }
    requires named { names (state_told seen) request.request ≡ true }
    ensures { (p : Setting) → IsAimed p seat.old
        → seat.old.seat.local ≡ ReleaseExchanges request old
        → seat.new.seat.local ≡ ReleaseExchanges request seen }
{
    seat.go_on(seen);
}
