//! Each public function once.
ghost use Rattle.std.specs.Prelude.{◌≡◌, [], IfOk};

use iox_model::kind::Kind;
use iox_model::way::Way;
use iox_steps::{QueueEvent, QueueKind, Site};
use iox_wire_nodes::{
    Borrowed, Counts, Desks, Entries, Entry, Popper, Pusher, StoredDesk, StoredSeat,
};
use std::alloc::Global;
use std::test::Fail;

const SITE: Site = Site {
    kind: QueueKind::Index,
    base: 10,
    capacity: 2,
};

const WAY: Way = Way {
    sender: 0,
    receiver: 1,
    lane: 0,
};

/// A response of that number, in slot 1.
fn response(number: u64) -> Entry {
    Entry {
        number,
        kind: Kind::Response,
        port: 0,
        sender: 1,
        slot: 1,
        client: 0,
        lane: 0,
        request: 0,
        elements: 1,
        connections: 0,
    }
}

/// The number of the entry that is found.
fn found(entries: &Entries, number: u64) -> u64 {
    match entries.find(number) {
        Some(entry) => entry.number,
        None => 99,
    }
}

#[test]
fn an_entry_is_found_by_its_number(rt: HostRuntime) -> Result<(), Fail> {
    let mut entries = Entries::new(rt.alloc(), 0)?;
    entries.reserve(2)?;
    let entry = response(7);
    entries.add(entry);
    assert_eq!(rt; found(&entries, 7), 7);
    entries.change(entry);
    entries.remove(entry);
    assert_eq!(rt; found(&entries, 7), 99);
    Ok(())
}

/// What one access of a push and one of a look find.
fn pushed() -> (QueueEvent, QueueEvent) {
    let mut pusher = Pusher::new();
    pusher.push(5);
    let event = pusher.advance(SITE, 0);
    pusher.look();
    pusher.advance(SITE, 0);
    (event, pusher.advance(SITE, 0))
}

/// What one access of a pop and two of a look find.
fn popped() -> (QueueEvent, QueueEvent) {
    let mut popper = Popper::new();
    popper.pop();
    let event = popper.advance(SITE, 0);
    popper.look();
    popper.advance(SITE, 0);
    (event, popper.advance(SITE, 0))
}

#[test]
fn an_empty_queue_has_room(rt: HostRuntime) -> Result<(), Fail> {
    assert_eq!(rt; pushed().1, QueueEvent::SeesRoom);
    assert_eq!(rt; popped().1, QueueEvent::SeesEmpty);
    Ok(())
}

/// A desk whose slot 0 has two uses, a count, and a node that has both.
fn node(alloc: Global) -> Result<StoredSeat, Fail>
    ensures { IfOk result (λ s. s.seat.accesses ≡ 0) }
{
    let mut desk = StoredDesk::new(alloc, 0, 2, 2)?;
    desk.count_loan();
    let counts = Counts::new(Vec::new(alloc));
    let desks = Desks::new(vec![in alloc; desk]?);
    Ok(StoredSeat::new(alloc, 3, 4, 0, 0, desks, counts)?)
}

#[test]
fn an_idle_node_goes_nowhere(rt: HostRuntime) -> Result<(), Fail> {
    let mut seat = node(rt.alloc())?;
    assert!(rt; seat.go_on(0).is_none());
    Ok(())
}

/// The count of the one way, after one more and one less.
fn counted(alloc: Global) -> Result<Counts, Fail> {
    let mut counts = Counts::new(vec![in alloc; Borrowed { way: WAY, count: 1 }]?);
    counts.add(WAY);
    counts.remove(WAY);
    Ok(counts)
}

#[test]
fn a_way_is_counted(rt: HostRuntime) -> Result<(), Fail> {
    let counts = counted(rt.alloc())?;
    assert!(rt; counts.has_as_many(WAY, 1));
    assert!(rt; !counts.has_as_many(WAY, 2));
    Ok(())
}
