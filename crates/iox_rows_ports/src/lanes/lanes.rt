//! A lane, asked one thing after another. A test is a list of what is asked and of what has to be
//! answered, which one function plays: what is known of each answer would else stand in the proof
//! of all that come after.
use crate::expected::equal;
use iox_lanes::lane::Lane;
use std::alloc::Global;
use std::process::Abort;

/// What is asked, and what has to be answered.
enum Asked {
    Pool(usize),
    IsEmpty(bool),
    IsFull(bool),
    IsAtLimit(bool),
    Waiting(usize),
    Taken(usize),
    /// How often this place was given back.
    Returned(u64, usize),
    Deliver(u64, bool),
    Take(Option<u64>),
    Release(u64, bool),
    GetBack(Option<u64>),
    PassOver(Option<u64>),
    Evict(Option<u64>),
}

/// Ends the test if something else is answered.
fn answers(rt: &impl Abort, lane: &mut Lane, asked: &Asked) {
    match asked {
        Asked::Pool(wanted) => equal(rt, lane.pool(), *wanted),
        Asked::IsEmpty(wanted) => equal(rt, lane.is_empty(), *wanted),
        Asked::IsFull(wanted) => equal(rt, lane.is_full(), *wanted),
        Asked::IsAtLimit(wanted) => equal(rt, lane.is_at_limit(), *wanted),
        Asked::Waiting(wanted) => equal(rt, lane.waiting_len(), *wanted),
        Asked::Taken(wanted) => equal(rt, lane.taken_len(), *wanted),
        Asked::Returned(place, wanted) => equal(rt, lane.returned_times(*place), *wanted),
        Asked::Deliver(place, wanted) => equal(rt, lane.deliver(*place), *wanted),
        Asked::Take(wanted) => {
            assert!(rt; !lane.is_at_limit());
            equal(rt, lane.take(), *wanted);
        }
        Asked::Release(place, wanted) => equal(rt, lane.release(*place), *wanted),
        Asked::GetBack(wanted) => equal(rt, lane.get_back(), *wanted),
        Asked::PassOver(wanted) => equal(rt, lane.pass_over(), *wanted),
        Asked::Evict(wanted) => equal(rt, lane.evict(), *wanted),
    }
}

/// The same of one after another.
fn goes(rt: &impl Abort, lane: &mut Lane, list: &[Asked]) {
    for asked in list {
        answers(rt, lane, asked);
    }
}

/// The same of a new lane of that pool, on which so many may wait and so many may be taken.
fn plays(
    rt: &impl Abort,
    alloc: Global,
    (pool, buffer, limit): (usize, usize, usize),
    list: &[Asked],
) {
    assert!(rt; buffer < 1 << 32 && limit < 1 << 32);
    let mut lane = Lane::new(alloc, pool, buffer, limit).expect(rt, "a lane");
    goes(rt, &mut lane, list);
}

#[test]
fn what_is_delivered_goes_around(rt: HostRuntime) {
    plays(
        &rt,
        rt.alloc(),
        (4, 2, 1),
        &[
            Asked::Pool(4),
            Asked::IsEmpty(true),
            Asked::Deliver(7, true),
            Asked::Deliver(8, true),
            Asked::IsFull(true),
            Asked::Deliver(9, false),
            Asked::Take(Some(7)),
            Asked::IsAtLimit(true),
            Asked::Waiting(1),
            Asked::Release(7, true),
            Asked::Release(7, false),
            Asked::Taken(0),
            Asked::Returned(7, 1),
            Asked::Returned(8, 0),
            Asked::GetBack(Some(7)),
            Asked::Returned(7, 0),
            Asked::GetBack(None),
            Asked::PassOver(Some(8)),
            Asked::GetBack(Some(8)),
            Asked::Take(None),
        ],
    );
}

#[test]
fn the_oldest_is_pushed_out(rt: HostRuntime) {
    plays(
        &rt,
        rt.alloc(),
        (0, 2, 2),
        &[
            Asked::Deliver(5, true),
            Asked::Deliver(6, true),
            Asked::Evict(Some(5)),
            Asked::Deliver(7, true),
            Asked::Take(Some(6)),
            Asked::GetBack(None),
            Asked::Release(6, true),
            Asked::Taken(0),
            Asked::GetBack(Some(6)),
        ],
    );
}

#[test]
fn there_is_room_for_each_return(rt: HostRuntime) {
    plays(
        &rt,
        rt.alloc(),
        (0, 1, 1),
        &[
            Asked::Deliver(5, true),
            Asked::Take(Some(5)),
            Asked::Deliver(6, true),
            Asked::Release(5, true),
            Asked::PassOver(Some(6)),
            Asked::Deliver(7, false),
            Asked::GetBack(Some(5)),
            Asked::GetBack(Some(6)),
            Asked::Deliver(7, true),
        ],
    );
}
