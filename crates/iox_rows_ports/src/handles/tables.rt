//! A table. A test is a list of what is done and of what has to come of it, which one function
//! plays.
ghost use Rattle.std.specs.Prelude.{◌≡◌, ◌≤◌};

use crate::expected::{equal, holds, is_so};
use iox_handles::{Entry, Table};
use iox_model::kind::Kind;
use std::alloc::Global;
use std::process::Abort;

/// What is done with handles or asked of them, and what has to come of it. Numbers come first.
enum Deed {
    /// A handle of this kind is added, and stands in this place.
    Adds(u64, Kind, usize),
    /// At this hint a handle of this kind is found, or none.
    Finds(u64, usize, Option<Kind>),
    /// At this hint a handle of this kind is removed, or none.
    Removes(u64, usize, Option<Kind>),
    /// It gets this kind, and at this hint it had that kind, or there is none.
    Changes(u64, Kind, usize, Option<Kind>),
    /// How many handles of that kind and of ports 2 and 3 there are.
    Counts(Kind, (usize, usize)),
    Room(usize),
    Reserves(usize),
    /// There is no memory for so many more.
    LacksRoom(usize),
}

fn entry(number: u64, kind: Kind) -> Entry
    ensures { result.number ≡ number }
{
    Entry {
        node: 1,
        number,
        kind,
        at: 0,
        port: 2,
        pool: 0,
        slot: 3,
        client: 4,
        connections: 0,
    }
}

/// The handle of that number, if it has a kind.
fn known(number: u64, kind: Option<Kind>) -> Option<Entry> {
    Some(entry(number, kind?))
}

/// Ends the test if something else is seen.
fn sees(rt: &impl Abort, table: &Table, deed: &Deed) {
    match deed {
        Deed::Finds(number, hint, kind) => {
            equal(rt, table.find(*number, *hint), known(*number, *kind));
        }
        Deed::Counts(kind, wanted) => {
            equal(rt, (table.count(2, *kind), table.count(3, *kind)), *wanted);
        }
        Deed::Room(wanted) => equal(rt, table.room(), *wanted),
        _ => holds(rt, false),
    }
}

/// Does it, where no handle has that number or a greater one. It tells what no handle has then.
fn does(rt: &impl Abort, table: &mut Table, next: u64, deed: &Deed) -> u64
    requires { table.old.next ≤ next }
    ensures { table.new.next ≤ result }
{
    match deed {
        Deed::Adds(number, kind, place) => {
            is_so(
                rt,
                table.room() > 0 && *number >= next && *number < u64::MAX,
            );
            equal(rt, table.add(entry(*number, *kind)), *place);
            return *number + 1;
        }
        Deed::Removes(number, hint, kind) => {
            equal(rt, table.remove(*number, *hint), known(*number, *kind));
        }
        Deed::Changes(number, kind, hint, from) => {
            equal(
                rt,
                table.change(entry(*number, *kind), *hint),
                known(*number, *from),
            );
        }
        Deed::Reserves(more) => table.reserve(*more).expect(rt, "room"),
        Deed::LacksRoom(more) => holds(rt, table.reserve(*more).is_err()),
        _ => sees(rt, table, deed),
    }
    next
}

/// Does all of it with a table in which no handle was.
fn goes(rt: &impl Abort, table: &mut Table, list: &[Deed])
    requires { table.old.next ≡ 0 }
{
    let mut next = 0;
    for deed in list {
        next = does(rt, table, next, deed);
    }
}

/// Does all of it with a new table, which has room for so many.
fn plays(rt: &impl Abort, alloc: Global, room: usize, list: &[Deed]) {
    let mut table = Table::new(alloc, room).expect(rt, "a table");
    goes(rt, &mut table, list);
}

#[test]
fn handles_come_and_go_by_number(rt: HostRuntime) {
    plays(
        &rt,
        rt.alloc(),
        2,
        &[
            Deed::Adds(5, Kind::RequestMut, 0),
            Deed::Adds(9, Kind::Response, 1),
            Deed::Counts(Kind::Response, (1, 0)),
            Deed::Room(0),
            Deed::Finds(5, 0, Some(Kind::RequestMut)),
            Deed::Finds(9, 0, Some(Kind::Response)),
            Deed::Finds(6, 1, None),
            Deed::Removes(5, 7, Some(Kind::RequestMut)),
            Deed::Removes(5, 0, None),
            Deed::Counts(Kind::Response, (1, 0)),
            Deed::Room(1),
            // It stands where the first was.
            Deed::Adds(10, Kind::ActiveRequest, 0),
            Deed::Finds(10, 0, Some(Kind::ActiveRequest)),
            Deed::Finds(9, 1, Some(Kind::Response)),
        ],
    );
}

#[test]
fn a_handle_changes_under_its_number(rt: HostRuntime) {
    plays(
        &rt,
        rt.alloc(),
        1,
        &[
            Deed::Adds(0, Kind::RequestMut, 0),
            Deed::Changes(0, Kind::PendingResponse, 0, Some(Kind::RequestMut)),
            Deed::Finds(0, 0, Some(Kind::PendingResponse)),
            Deed::Changes(1, Kind::Response, 0, None),
            Deed::Finds(1, 0, None),
        ],
    );
}

/// Ends the test unless there is no memory for so many handles.
fn lacks_memory(rt: &impl Abort, alloc: Global, room: usize) {
    holds(rt, Table::new(alloc, room).is_err());
}

#[test]
fn room_is_reserved_or_nothing_changes(rt: HostRuntime) {
    plays(
        &rt,
        rt.alloc(),
        0,
        &[
            Deed::Room(0),
            Deed::Reserves(2),
            Deed::Room(2),
            Deed::Adds(3, Kind::Response, 0),
            Deed::LacksRoom(usize::MAX - 1),
            Deed::Room(1),
            Deed::Finds(3, 0, Some(Kind::Response)),
        ],
    );
    lacks_memory(&rt, rt.alloc(), usize::MAX);
}
