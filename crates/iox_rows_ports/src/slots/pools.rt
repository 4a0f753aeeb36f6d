//! Pools of slots. A test is a list of what is done and of what has to come of it, which one
//! function plays.
use crate::expected::{equal, holds};
use iox_lanes::wanted::{Label, Labels};
use iox_slots::{Pools, Slot};
use iox_types::identifiers::UniqueSystemId;
use std::alloc::Global;
use std::process::Abort;

/// The pool's node and port.
const IDS: (UniqueSystemId, UniqueSystemId) = (
    UniqueSystemId {
        process: 1,
        seconds: 2,
        nanoseconds: 3,
        counter: 4,
    },
    UniqueSystemId {
        process: 1,
        seconds: 2,
        nanoseconds: 3,
        counter: 5,
    },
);

/// What is done with a pool or asked of it, and what has to come of it. Places come first.
enum Deed {
    /// A pool of that size is added, and has this place.
    Adds(usize, usize),
    /// There is no memory for a pool of that size.
    LacksMemory(usize),
    Removes(usize),
    /// Two slots are acquired and no third, and the first of them comes and goes again.
    ComesAndGoes(usize),
    /// The slot gets the serial 10, the lane 11, the request 12 and 13 elements.
    Writes(usize, u64, bool),
    /// Serial, lane, request, elements and holders of the slot.
    Slot(usize, u64, Option<[u64; 5]>),
    Label(usize, u64, Label),
    Owner(usize, u64),
    Ids(usize, Option<(UniqueSystemId, UniqueSystemId)>),
    /// How many slots there are, and how many are free.
    Lens(usize, (usize, usize)),
    IsIdle(usize, bool),
}

fn numbers(slot: Slot) -> [u64; 5] {
    [
        slot.serial(),
        slot.lane(),
        slot.request(),
        slot.elements(),
        slot.holders(),
    ]
}

fn slot(pools: &Pools, place: usize, slot: u64) -> Option<[u64; 5]> {
    Some(numbers(pools.slot(place, slot)?))
}

fn acquire(pools: &mut Pools, place: usize) -> Option<u64> {
    pools.acquire(place)
}

fn let_go(pools: &mut Pools, place: usize, slot: u64) -> bool {
    pools.let_go(place, slot)
}

/// Two slots are acquired and no third, and the first of them comes and goes again.
fn comes_and_goes(rt: &impl Abort, pools: &mut Pools, place: usize) {
    let first = acquire(pools, place).expect(rt, "a slot");
    holds(rt, acquire(pools, place).is_some());
    equal(rt, acquire(pools, place), None);
    holds(rt, let_go(pools, place, first));
    holds(rt, !let_go(pools, place, first));
    holds(rt, !let_go(pools, place, 2));
    equal(rt, acquire(pools, place), Some(first));
}

/// Does it.
fn does(rt: &impl Abort, alloc: Global, pools: &mut Pools, deed: &Deed) {
    let (node, port) = IDS;
    match deed {
        Deed::Adds(size, place) => {
            equal(
                rt,
                pools.add(alloc, 7, node, port, *size).expect(rt, "a pool"),
                *place,
            );
        }
        Deed::LacksMemory(size) => holds(rt, pools.add(alloc, 7, node, port, *size).is_err()),
        Deed::Removes(place) => pools.remove(*place),
        Deed::ComesAndGoes(place) => comes_and_goes(rt, pools, *place),
        Deed::Writes(place, slot, wanted) => {
            equal(rt, pools.write(*place, *slot, 10, 11, 12, 13), *wanted);
        }
        Deed::Slot(place, number, wanted) => equal(rt, slot(pools, *place, *number), *wanted),
        Deed::Label(place, slot, wanted) => equal(rt, pools.label(*place, *slot), *wanted),
        Deed::Owner(place, wanted) => equal(rt, pools.owner(*place), *wanted),
        Deed::Ids(place, wanted) => equal(rt, pools.ids(*place), *wanted),
        Deed::Lens(place, wanted) => {
            equal(rt, (pools.len(*place), pools.free_len(*place)), *wanted);
        }
        Deed::IsIdle(place, wanted) => equal(rt, pools.is_idle(*place), *wanted),
    }
}

/// Does all of it.
fn goes(rt: &impl Abort, alloc: Global, pools: &mut Pools, list: &[Deed]) {
    for deed in list {
        does(rt, alloc, pools, deed);
    }
}

/// Does all of it where there is no pool.
fn plays(rt: &impl Abort, alloc: Global, list: &[Deed]) {
    let mut pools = Pools::new(alloc);
    goes(rt, alloc, &mut pools, list);
}

#[test]
fn slots_come_and_go(rt: HostRuntime) {
    plays(&rt, rt.alloc(), &[Deed::Adds(2, 0), Deed::ComesAndGoes(0)]);
}

#[test]
fn what_is_written_is_read(rt: HostRuntime) {
    const WRITTEN: Label = Label {
        lane: 11,
        request: 12,
    };
    plays(
        &rt,
        rt.alloc(),
        &[
            Deed::Adds(2, 0),
            Deed::Writes(0, 1, true),
            Deed::Writes(0, 2, false),
            Deed::Slot(0, 1, Some([10, 11, 12, 13, 0])),
            Deed::Slot(0, 0, Some([0, 0, 0, 0, 0])),
            Deed::Slot(0, 2, None),
            Deed::Label(0, 1, WRITTEN),
        ],
    );
}

#[test]
fn pools_come_and_go(rt: HostRuntime) {
    plays(
        &rt,
        rt.alloc(),
        &[
            Deed::Adds(2, 0),
            Deed::Adds(3, 1),
            Deed::Owner(1, 7),
            Deed::Ids(1, Some(IDS)),
            Deed::Lens(1, (3, 3)),
            Deed::IsIdle(1, true),
            Deed::Removes(0),
            Deed::Lens(0, (0, 0)),
            Deed::Ids(0, None),
            Deed::Adds(1, 0),
            Deed::LacksMemory(usize::MAX),
        ],
    );
}
