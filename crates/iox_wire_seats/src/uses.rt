//! Callers, proved only from the clauses.
ghost use Rattle.std.specs.Prelude.{◌≡◌, ◌+◌, ◌<◌, ◌^◌, ◌++◌, ◌∷◌, [], IfOk, IfSome, List, Some, map, slice_index, ℕ};
ghost use Rattle.iox_model.specs.declared.kind.Kind.TheVariants.{Response};
ghost use Rattle.iox_model.specs.Messages.{response_way};
ghost use Rattle.iox_steps.specs.declared.access.Access.TheVariants.{Load};
ghost use Rattle.iox_steps.specs.Sites.{size};
ghost use Rattle.iox_wire_locals.specs.ReceiveCourses.{releasing};
ghost use Rattle.iox_wire_locals.specs.Locals.{program_of};
ghost use Rattle.iox_wire_locals.specs.Steps.{next};
ghost use Rattle.iox_word_places.specs.Programs.{program_access};
ghost use Rattle.iox_wire_locals.specs.Tables.{Setting};
ghost use Rattle.iox_word_places.specs.declared.way_index.WayIndex.TheVariants.{Responses};
ghost use Rattle.iox_word_places.specs.Plans.{IsWayAt, way_at};
ghost use Rattle.iox_wire_locals.specs.Desks.{counts_loan, on_desk};
ghost use Rattle.iox_wire_seats.specs.Aims.{IsAimed};
ghost use Rattle.iox_wire_seats.specs.Desks.{MayCount, MayDeliverAt, free_at};
ghost use Rattle.iox_wire_seats.specs.Seats.{Agrees};

use crate::at::SeatReply;
use crate::counts::Counts;
use crate::desk::StoredDesk;
use crate::desks::Desks;
use crate::entries::Entries;
use crate::popper::Popper;
use crate::pusher::Pusher;
use crate::seat::StoredSeat;
use iox_model::way::Way;
use iox_steps::{Access, Site};
use iox_wire_locals::{Borrowed, Entry};
use iox_word_places::WordMap;
use std::alloc::{AllocError, Global};

/// What is added first is found.
pub fn added_and_found(alloc: Global, entry: Entry) -> Result<Option<Entry>, AllocError>
    ensures { IfOk result (λ found. found ≡ Some entry) }
{
    let mut entries = Entries::new(alloc, 1)?;
    entries.add(entry);
    Ok(entries.find(entry.number))
}

/// Where no way is counted, there is nothing to change.
pub fn nothing_counted(counts: Vec<Borrowed>, way: Way) -> Counts
    requires { counts.items ≡ [] }
    ensures { result ≡ [] }
{
    let mut counts = Counts::new(counts);
    counts.remove(way);
    counts
}

/// With its last use a slot becomes free, behind all others.
pub fn last_use_frees(desk: &mut StoredDesk, slot: usize)
    requires { slice_index desk.old.uses slot ≡ 1 }
    ensures { desk.new.free ≡ desk.old.free ++ slot ∷ [] }
{
    desk.use_less(slot);
}

/// A slot that is delivered or held elsewhere does not become free.
pub fn other_use_keeps(desk: &mut StoredDesk, slot: usize)
    requires { slice_index desk.old.uses slot ≡ 2 }
    ensures { desk.new.free ≡ desk.old.free }
{
    desk.use_less(slot);
}

/// On a new way nothing is outstanding.
pub fn desk_of_one_way(
    alloc: Global,
    port: u64,
    pool: usize,
    way: Way,
) -> Result<StoredDesk, AllocError>
    ensures { IfOk result (λ desk. desk.recorded ≡ record { way = way; slots = [] } ∷ []) }
{
    let mut desk = StoredDesk::new(alloc, port, pool, 0)?;
    desk.add_way(alloc, way)?;
    Ok(desk)
}

/// A slot whose last use was on a way is free once it is got back.
pub fn last_get_back_frees(desk: &mut StoredDesk, way: Way, slot: u64)
    requires { slice_index desk.old.uses slot ≡ 1 }
    ensures { desk.new.free ≡ desk.old.free ++ slot ∷ [] }
{
    desk.get_back(way, slot);
}

/// A slot that is delivered does not become free.
pub fn delivery_keeps_free_slots(desk: &mut StoredDesk, way: Way, slot: u64)
    requires { MayDeliverAt way slot desk.old }
    ensures { desk.new.free ≡ desk.old.free }
{
    desk.deliver(way, slot);
}

/// A push begins with a look at the write position.
pub fn push_loads_first(site: Site, value: u64) -> Access
    requires { site.base + size site < 2 ^ 64 }
    ensures { result ≡ Load site.base }
{
    let mut pusher = Pusher::new();
    pusher.push(value);
    pusher.access(site)
}

/// A pop begins with a look at the read position.
pub fn pop_loads_first(site: Site) -> Access
    requires { site.base + size site < 2 ^ 64 }
    ensures { result ≡ Load (site.base + 1) }
{
    let mut popper = Popper::new();
    popper.pop();
    popper.access(site)
}

/// What a node asks for is what its place in the call asks for.
pub fn asks_at_its_place(seat: &StoredSeat) -> Access
    ensures { (p : Setting) → IsAimed p seat.now
        → result ≡ program_access p.layout (program_of p seat.now.seat.local) }
{
    seat.asks()
}

/// A release begins, and makes its first step.
pub fn released_by_one_step(
    map: &WordMap,
    seat: &mut StoredSeat,
    entry: Entry,
    client: usize,
    server: usize,
    seen: u64,
) -> Option<SeatReply>
    requires kind { entry.kind ≡ Response }
    requires way { IsWayAt map.now (Responses client server entry.lane) }
    requires ports { way_at map.now (Responses client server entry.lane)
        ≡ response_way entry.port entry.lane entry.sender }
    requires accesses { seat.old.seat.accesses + 1 < 2 ^ 64 }
    ensures { (p : Setting) → Agrees p map.now
        → seat.new.seat ≡ next p (releasing p seat.old.seat entry) seen }
{
    seat.release_response(map, entry, client, server);
    seat.go_on(seen)
}

/// The first free slot is picked, and is free no more.
pub fn picked_first(desk: &mut StoredDesk, serial: u64, lane: u64) -> Option<u64>
    ensures { (slot : ℕ) → (free : List ℕ) → desk.old.free ≡ slot ∷ free
        → IfSome result (λ picked. picked ≡ slot) }
{
    desk.pick(serial, lane)
}

/// Without a free slot no desk changes.
pub fn none_is_picked(desks: &mut Desks, port: u64, serial: u64, lane: u64)
    requires { free_at port desks.old ≡ [] }
    ensures { desks.new ≡ desks.old }
{
    desks.pick(port, serial, lane);
}

/// A loan that succeeds is counted at the desk of its port.
pub fn counted_at_its_port(desks: &mut Desks, port: u64)
    requires { MayCount port desks.old }
    ensures { desks.new ≡ map (on_desk port counts_loan) desks.old }
{
    desks.count_loan(port);
}
