//! Pipes that are visited. A test is a list of what is done and of what has to come of it, which
//! one function plays.
use crate::expected::{equal, holds};
use iox_hub_ports::steps::{Close, Deliver, GetBack, Hint, Open, Release};
use iox_lanes::incoming::{Incoming, Visits};
use iox_lanes::pipe::Pipe;
use iox_lanes::search::LaneVisit;
use iox_lanes::wanted::{Label, Labels, Wanted};
use iox_model::way::RequestState;
use std::alloc::Global;
use std::process::Abort;

/// The message in a place answers the request of that number, and goes on lane 0.
#[derive(Drop)]
pub(super) struct ByPlace;

impl Labels for ByPlace {
    ghost label_of = { λ l pool place. record { lane = 0; request = place } };

    fn label(&self, _pool: usize, place: u64) -> Label {
        Label {
            lane: 0,
            request: place,
        }
    }
}

/// What is done on lane 0 or asked of it, and what has to come of it. Senders come first.
enum Deed {
    /// A pipe of this pool is connected, on which so many may wait, with so many states.
    Connects(u64, usize, usize, usize, bool),
    Delivers(u64, u64, bool),
    /// Whether as many messages wait from that sender as may.
    IsFull(u64, Option<bool>),
    /// A visit of all senders ends so.
    Visits(Visits),
    /// A visit on the usual way ends so, if it is made.
    VisitsUsually(Wanted, Option<Visits>),
    Releases(u64, u64, bool),
    GetsBack(u64, Option<u64>),
    /// The lane on which something is left to get back.
    LaneToGet(u64, Option<usize>),
    HasWaiting(bool),
    Opens(u64, u64),
    Hints(u64, u64),
    Closes(u64, u64),
    State(u64, Option<RequestState>),
    Len(usize),
    Rank(u64, Option<usize>),
    /// The sender of that rank is disconnected, which is this one.
    Disconnects(usize, Option<u64>),
}

/// Whether as many messages wait from that sender as may.
fn is_full(incoming: &Incoming, sender: u64) -> Option<bool> {
    Some(incoming.pipe(sender)?.is_full(0))
}

/// The request state of the pipe from that sender.
fn state(incoming: &Incoming, sender: u64) -> Option<RequestState> {
    Some(incoming.pipe(sender)?.state(0))
}

/// Who was disconnected.
fn disconnect(incoming: &mut Incoming, rank: usize) -> Option<u64> {
    Some(incoming.disconnect(rank)?.sender())
}

/// Does it.
fn does(rt: &impl Abort, alloc: Global, incoming: &mut Incoming, deed: &Deed) {
    match deed {
        Deed::Connects(sender, pool, buffer, states, wanted) => {
            assert!(rt; *buffer < 1 << 32);
            let pipe = Pipe::new(alloc, *sender, *pool, 1, *buffer, 1, *states);
            equal(rt, incoming.connect(pipe.expect(rt, "a pipe")), *wanted);
        }
        Deed::Delivers(sender, place, wanted) => {
            equal(
                rt,
                incoming.on_lane(*sender, 0, &Deliver { place: *place }),
                *wanted,
            );
        }
        Deed::IsFull(sender, wanted) => equal(rt, is_full(incoming, *sender), *wanted),
        Deed::Visits(wanted) => {
            equal(rt, incoming.visit_all(0, Wanted::Any, &ByPlace), *wanted);
        }
        Deed::VisitsUsually(what, wanted) => {
            equal(rt, incoming.visit_usual(0, *what, &ByPlace), *wanted);
        }
        Deed::Releases(sender, place, wanted) => {
            equal(
                rt,
                incoming.on_lane(*sender, 0, &Release { place: *place }),
                *wanted,
            );
        }
        Deed::GetsBack(sender, wanted) => {
            equal(rt, incoming.on_lane(*sender, 0, &GetBack), *wanted);
        }
        Deed::LaneToGet(sender, wanted) => equal(rt, incoming.lane_to_get(*sender), *wanted),
        Deed::HasWaiting(wanted) => equal(rt, incoming.has_waiting_from_any(0), *wanted),
        Deed::Opens(sender, id) => incoming.on_state(*sender, 0, &Open { id: *id }),
        Deed::Hints(sender, id) => incoming.on_state(*sender, 0, &Hint { id: *id }),
        Deed::Closes(sender, id) => incoming.on_state(*sender, 0, &Close { id: *id }),
        Deed::State(sender, wanted) => equal(rt, state(incoming, *sender), *wanted),
        Deed::Len(wanted) => equal(rt, incoming.len(), *wanted),
        Deed::Rank(sender, wanted) => equal(rt, incoming.rank(*sender), *wanted),
        Deed::Disconnects(rank, wanted) => equal(rt, disconnect(incoming, *rank), *wanted),
    }
}

/// Does all of it.
fn goes(rt: &impl Abort, alloc: Global, incoming: &mut Incoming, list: &[Deed]) {
    for deed in list {
        does(rt, alloc, incoming, deed);
    }
}

/// Pipes from the senders 11 and 12 are connected.
const TWO_PIPES: &[Deed] = &[
    Deed::Connects(11, 0, 2, 1, true),
    Deed::Connects(12, 1, 2, 1, true),
];

/// Does all of it where there is room for two pipes, and those from 11 and 12 are connected.
fn plays(rt: &impl Abort, alloc: Global, list: &[Deed]) {
    let mut incoming = Incoming::new(alloc, 2).expect(rt, "pipes");
    goes(rt, alloc, &mut incoming, TWO_PIPES);
    goes(rt, alloc, &mut incoming, list);
}

#[test]
fn all_senders_are_visited_in_their_order(rt: HostRuntime) {
    plays(
        &rt,
        rt.alloc(),
        &[
            Deed::Visits(Visits::Nothing),
            Deed::Delivers(12, 5, true),
            Deed::Delivers(11, 3, true),
            Deed::Delivers(11, 4, true),
            Deed::Delivers(13, 6, false),
            Deed::IsFull(11, Some(true)),
            Deed::IsFull(13, None),
            Deed::Visits(Visits::Got(11, 0, 3)),
            Deed::Visits(Visits::Got(12, 1, 5)),
            Deed::Visits(Visits::AtLimit),
            Deed::Releases(11, 3, true),
            Deed::Visits(Visits::Got(11, 0, 4)),
            Deed::LaneToGet(11, Some(0)),
            Deed::GetsBack(11, Some(3)),
            Deed::LaneToGet(11, None),
            Deed::HasWaiting(false),
            Deed::Visits(Visits::Nothing),
        ],
    );
}

#[test]
fn a_usual_visit_takes_the_oldest_or_changes_nothing(rt: HostRuntime) {
    plays(
        &rt,
        rt.alloc(),
        &[
            Deed::VisitsUsually(Wanted::Any, Some(Visits::Nothing)),
            Deed::Delivers(12, 5, true),
            Deed::Delivers(12, 6, true),
            // What is not wanted stays.
            Deed::VisitsUsually(Wanted::Of(6), None),
            Deed::VisitsUsually(Wanted::Of(5), Some(Visits::Got(12, 1, 5))),
            // At its limit it takes none.
            Deed::VisitsUsually(Wanted::Any, None),
            Deed::Visits(Visits::AtLimit),
            Deed::Releases(12, 5, true),
            Deed::VisitsUsually(Wanted::Named, None),
            Deed::Opens(12, 6),
            Deed::VisitsUsually(Wanted::Named, Some(Visits::Got(12, 1, 6))),
            Deed::VisitsUsually(Wanted::Any, Some(Visits::Nothing)),
            Deed::GetsBack(12, Some(5)),
        ],
    );
}

/// On a pipe of one lane 3, 4 and 5 come to wait, and the request 4 is opened.
fn three_wait(rt: &impl Abort, pipe: &mut Pipe) {
    holds(rt, !pipe.has_waiting_on_any());
    for place in 3..6 {
        holds(rt, pipe.deliver(0, place));
    }
    holds(rt, pipe.has_waiting_on_any());
    pipe.open_request(0, 4);
}

/// Ends the test if a visit does not end so, and then this is not got back.
fn passes_over(rt: &impl Abort, pipe: &mut Pipe, wanted: Wanted, seen: LaneVisit, place: u64) {
    equal(rt, pipe.visit(0, wanted, &ByPlace), seen);
    equal(rt, pipe.get_back(0), Some(place));
}

/// Ends the test unless as many were taken, and no message waits.
fn is_left(rt: &impl Abort, pipe: &Pipe, taken: usize) {
    equal(rt, pipe.taken_len(0), taken);
    holds(rt, !pipe.has_waiting_on_any());
}

#[test]
fn only_what_is_wanted_is_taken(rt: HostRuntime) {
    let mut pipe = Pipe::new(rt.alloc(), 11, 0, 1, 3, 2, 1).expect(&rt, "a pipe");
    three_wait(&rt, &mut pipe);
    passes_over(&rt, &mut pipe, Wanted::Named, LaneVisit::Got(4), 3);
    passes_over(&rt, &mut pipe, Wanted::Of(6), LaneVisit::Nothing, 5);
    is_left(&rt, &pipe, 1);
}

#[test]
fn request_states_open_and_close(rt: HostRuntime) {
    const OPEN: RequestState = RequestState::Named {
        id: 9,
        hinted: false,
    };
    const HINTED: RequestState = RequestState::Named {
        id: 9,
        hinted: true,
    };
    plays(
        &rt,
        rt.alloc(),
        &[
            Deed::Opens(12, 9),
            Deed::Closes(12, 8),
            Deed::State(12, Some(OPEN)),
            Deed::Hints(12, 9),
            Deed::State(12, Some(HINTED)),
            Deed::State(11, Some(RequestState::Closed)),
            Deed::Closes(12, 9),
            Deed::State(12, Some(RequestState::Closed)),
        ],
    );
}

#[test]
fn ports_come_and_go(rt: HostRuntime) {
    plays(
        &rt,
        rt.alloc(),
        &[
            Deed::Len(2),
            Deed::Connects(13, 2, 1, 0, false),
            Deed::Rank(12, Some(1)),
            Deed::Disconnects(0, Some(11)),
            Deed::Rank(12, Some(0)),
            Deed::Rank(11, None),
            Deed::Disconnects(1, None),
        ],
    );
}
