//! What is kept of ports that are gone. A test is a list of what is done and of what has to come of
//! it, which one function plays.
use super::visits::ByPlace;
use crate::expected::{equal, holds};
use iox_hub_ports::steps::{Deliver, GetBack, Open, Release};
use iox_lanes::expired::Expired;
use iox_lanes::incoming::Visits;
use iox_lanes::pipe::Pipe;
use iox_lanes::wanted::Wanted;
use iox_model::way::RequestState;
use std::alloc::Global;
use std::process::Abort;

/// What is done on lane 0 or asked of it, and what has to come of it. Ranks come first.
enum Deed {
    /// One more pipe from this sender is kept, and the pipe from that one is given up.
    Keeps(u64, Option<u64>),
    /// The last pipe is taken, which is from that sender.
    Takes(Option<u64>),
    Len(usize),
    /// The rank of the pipe from this sender.
    Rank(u64, Option<usize>),
    /// From whom the pipe comes.
    Sender(usize, Option<u64>),
    HasWaiting(bool),
    Delivers(usize, u64, bool),
    /// A visit of all senders ends so.
    Visits(Visits),
    Releases(usize, u64, bool),
    GetsBack(usize, Option<u64>),
    /// The lane on which something is left to get back.
    LaneToGet(usize, Option<usize>),
    /// Nothing is left to get back.
    GetsNoNext(usize),
    Opens(usize, u64),
    State(usize, Option<RequestState>),
}

/// From whom the pipe came that is given up, as one more from that sender is kept.
fn keep(rt: &impl Abort, alloc: Global, expired: &mut Expired, sender: u64) -> Option<u64> {
    let pipe = Pipe::new(alloc, sender, 2, 1, 1, 1, 1).expect(rt, "a pipe");
    Some(expired.keep(pipe)?.sender())
}

/// From whom the last pipe came.
fn take(expired: &mut Expired) -> Option<u64> {
    Some(expired.take_pipe()?.sender())
}

/// From whom the pipe of that rank comes.
fn sender(expired: &Expired, rank: usize) -> Option<u64> {
    Some(expired.pipe(rank)?.sender())
}

/// The request state of the pipe of that rank.
fn state(expired: &Expired, rank: usize) -> Option<RequestState> {
    Some(expired.pipe(rank)?.state(0))
}

/// Does it.
fn does(rt: &impl Abort, alloc: Global, expired: &mut Expired, deed: &Deed) {
    match deed {
        Deed::Keeps(sender, wanted) => equal(rt, keep(rt, alloc, expired, *sender), *wanted),
        Deed::Takes(wanted) => equal(rt, take(expired), *wanted),
        Deed::Len(wanted) => equal(rt, expired.len(), *wanted),
        Deed::Rank(sender, wanted) => equal(rt, expired.rank(*sender), *wanted),
        Deed::Sender(rank, wanted) => equal(rt, sender(expired, *rank), *wanted),
        Deed::HasWaiting(wanted) => equal(rt, expired.has_waiting_from_any(0), *wanted),
        Deed::Delivers(rank, place, wanted) => {
            equal(
                rt,
                expired.on_lane(*rank, 0, &Deliver { place: *place }),
                *wanted,
            );
        }
        Deed::Visits(wanted) => {
            equal(rt, expired.visit_all(0, Wanted::Any, &ByPlace), *wanted);
        }
        Deed::Releases(rank, place, wanted) => {
            equal(
                rt,
                expired.on_lane(*rank, 0, &Release { place: *place }),
                *wanted,
            );
        }
        Deed::GetsBack(rank, wanted) => {
            equal(rt, expired.on_lane(*rank, 0, &GetBack), *wanted);
        }
        Deed::LaneToGet(rank, wanted) => equal(rt, expired.lane_to_get(*rank), *wanted),
        Deed::GetsNoNext(rank) => holds(rt, expired.get_next(*rank).is_none()),
        Deed::Opens(rank, id) => expired.on_state(*rank, 0, &Open { id: *id }),
        Deed::State(rank, wanted) => equal(rt, state(expired, *rank), *wanted),
    }
}

/// Does all of it.
fn goes(rt: &impl Abort, alloc: Global, expired: &mut Expired, list: &[Deed]) {
    for deed in list {
        does(rt, alloc, expired, deed);
    }
}

/// Does all of it where there is room for so many, first one list and then another.
fn plays(rt: &impl Abort, alloc: Global, room: usize, first: &[Deed], rest: &[Deed]) {
    let mut expired = Expired::new(alloc, room).expect(rt, "room");
    goes(rt, alloc, &mut expired, first);
    goes(rt, alloc, &mut expired, rest);
}

/// With room for two, the pipes from 12 and 13 stand, and one from 11 is given up before.
const TWO_OF_THREE: &[Deed] = &[
    Deed::Keeps(11, None),
    Deed::Keeps(12, None),
    Deed::Keeps(13, Some(11)),
];

#[test]
fn the_oldest_is_given_up_for_one_more(rt: HostRuntime) {
    plays(
        &rt,
        rt.alloc(),
        2,
        TWO_OF_THREE,
        &[
            Deed::Takes(Some(13)),
            Deed::Takes(Some(12)),
            Deed::Takes(None),
        ],
    );
}

#[test]
fn where_there_is_room_for_none_what_comes_is_given_up(rt: HostRuntime) {
    plays(
        &rt,
        rt.alloc(),
        0,
        &[Deed::Keeps(11, Some(11))],
        &[Deed::Len(0), Deed::Takes(None)],
    );
}

#[test]
fn pipes_are_found_where_they_went_round(rt: HostRuntime) {
    plays(
        &rt,
        rt.alloc(),
        2,
        TWO_OF_THREE,
        &[
            Deed::Len(2),
            Deed::Rank(11, None),
            Deed::Rank(12, Some(0)),
            Deed::Rank(13, Some(1)),
            Deed::Sender(0, Some(12)),
            Deed::Sender(1, Some(13)),
            Deed::Sender(2, None),
        ],
    );
}

#[test]
fn the_oldest_are_visited_first(rt: HostRuntime) {
    plays(
        &rt,
        rt.alloc(),
        2,
        TWO_OF_THREE,
        &[
            Deed::HasWaiting(false),
            Deed::Delivers(1, 5, true),
            Deed::Delivers(0, 3, true),
            Deed::Delivers(2, 7, false),
            Deed::HasWaiting(true),
            Deed::Visits(Visits::Got(12, 2, 3)),
            Deed::Visits(Visits::Got(13, 2, 5)),
            Deed::Visits(Visits::Nothing),
            Deed::Delivers(0, 4, true),
            Deed::Visits(Visits::AtLimit),
        ],
    );
}

#[test]
fn what_is_given_back_is_on_its_pipe(rt: HostRuntime) {
    plays(
        &rt,
        rt.alloc(),
        2,
        TWO_OF_THREE,
        &[
            Deed::Delivers(1, 5, true),
            Deed::Visits(Visits::Got(13, 2, 5)),
            Deed::Releases(0, 5, false),
            Deed::Releases(1, 5, true),
            Deed::LaneToGet(1, Some(0)),
            Deed::GetsBack(1, Some(5)),
            Deed::LaneToGet(1, None),
            Deed::GetsNoNext(1),
        ],
    );
}

#[test]
fn requests_open_on_their_pipe(rt: HostRuntime) {
    const OPEN: RequestState = RequestState::Named {
        id: 9,
        hinted: false,
    };
    plays(
        &rt,
        rt.alloc(),
        2,
        TWO_OF_THREE,
        &[
            Deed::Opens(1, 9),
            Deed::Opens(2, 8),
            Deed::State(0, Some(RequestState::Closed)),
            Deed::State(1, Some(OPEN)),
        ],
    );
}
