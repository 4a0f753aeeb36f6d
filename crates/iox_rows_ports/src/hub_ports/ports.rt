//! Ports that come and go, and what goes between them.
use super::{Deed, plays};
use iox_lanes::incoming::Visits;
use iox_model::kind::Role;
use iox_model::way::{RequestState, Way};

/// From the client to the first server.
const TO_2: Way = Way {
    sender: 1,
    receiver: 2,
    lane: 0,
};

/// From the client to the second server.
const TO_3: Way = Way {
    sender: 1,
    receiver: 3,
    lane: 0,
};

/// From the first server to the client.
const FROM_2: Way = Way {
    sender: 2,
    receiver: 1,
    lane: 1,
};

/// From the second server to the client.
const FROM_3: Way = Way {
    sender: 3,
    receiver: 1,
    lane: 1,
};

/// Client 1, and the servers 2 and 3. From the client a pipe leads to each server.
const ONE_CLIENT_TWO_SERVERS: &[Deed] = &[
    Deed::Adds(1, Role::Client, 0, 2),
    Deed::CountsLoan(1),
    Deed::Reserves(2),
    Deed::Adds(2, Role::Server, 0, 1),
    Deed::Adds(3, Role::Server, 0, 1),
    Deed::Connects(2, (1, 0, 1, 2), true),
    Deed::Connects(3, (1, 0, 1, 2), true),
];

#[test]
fn ports_are_found_until_they_go(rt: HostRuntime) {
    plays(
        &rt,
        rt.alloc(),
        ONE_CLIENT_TWO_SERVERS,
        &[
            Deed::Counts((3, 0)),
            Deed::Seen(1, Some((1, true))),
            Deed::NumberAt(2, Some(3)),
            Deed::ReleasesValue(2),
            Deed::Seen(2, Some((0, false))),
            Deed::Connects(2, (4, 1, 1, 0), false),
            Deed::Expires(2, 1, Some(1)),
            Deed::Removes(2, Some(2)),
            Deed::Removes(2, None),
            Deed::NumberAt(1, Some(3)),
        ],
    );
}

#[test]
fn a_message_goes_around(rt: HostRuntime) {
    plays(
        &rt,
        rt.alloc(),
        ONE_CLIENT_TWO_SERVERS,
        &[
            Deed::Delivers(TO_2, 7, true),
            Deed::IsFull(TO_2, true),
            Deed::IsFull(TO_3, false),
            Deed::HasWaiting(2, 0, true),
            // The first server gets what is waiting, and releases it, and the client gets it back.
            Deed::Visits(2, 0, Visits::Got(1, 0, 7)),
            Deed::Releases(TO_2, 7, true),
            Deed::LaneToGet(1, 2, Some(0)),
            Deed::GetsBack(TO_2, Some(7)),
        ],
    );
}

#[test]
fn the_oldest_is_pushed_out(rt: HostRuntime) {
    plays(
        &rt,
        rt.alloc(),
        ONE_CLIENT_TWO_SERVERS,
        &[
            Deed::DeliversAt(1, 7, true),
            Deed::IsFullAt(1, true),
            Deed::PushesAt(1, 8, Some(7)),
            Deed::Pushes(TO_2, 9, Some(8)),
            Deed::Evicts(TO_2, Some(9)),
            Deed::GetsBackAt(1, None),
        ],
    );
}

/// The request 5 is open, and its client lost interest.
const HINTED: RequestState = RequestState::Named {
    id: 5,
    hinted: true,
};

/// The request 6 is open.
const OPEN: RequestState = RequestState::Named {
    id: 6,
    hinted: false,
};

#[test]
fn requests_are_open_with_each_server(rt: HostRuntime) {
    plays(
        &rt,
        rt.alloc(),
        ONE_CLIENT_TWO_SERVERS,
        &[
            Deed::OpensAll(5),
            Deed::Hints(FROM_2, 5),
            Deed::State(FROM_2, HINTED),
            Deed::Closes(FROM_2, 5),
            Deed::State(FROM_2, RequestState::Closed),
            Deed::HintsAll(5),
            Deed::State(FROM_3, HINTED),
            Deed::ClosesAll(5),
            Deed::Opens(FROM_3, 6),
            Deed::State(FROM_3, OPEN),
        ],
    );
}

/// Client 1, with room for what is waiting from so many servers that are gone. Server 2 delivers
/// message 10 to it, and server 3 message 20.
macro_rules! two_answered {
    ($room:expr) => {
        &[
            Deed::Adds(1, Role::Client, $room, 2),
            Deed::Connects(1, (2, 5, 2, 0), true),
            Deed::Connects(1, (3, 6, 2, 0), true),
            Deed::Delivers(FROM_2, 10, true),
            Deed::Delivers(FROM_3, 20, true),
        ]
    };
}

#[test]
fn what_waits_from_two_that_are_gone_is_kept(rt: HostRuntime) {
    plays(
        &rt,
        rt.alloc(),
        two_answered!(2),
        &[
            Deed::Expires(1, 2, None),
            Deed::Expires(1, 3, None),
            Deed::Visits(1, 1, Visits::Got(2, 5, 10)),
            Deed::Visits(1, 1, Visits::Got(3, 6, 20)),
            Deed::Visits(1, 1, Visits::Nothing),
        ],
    );
}

#[test]
fn the_older_is_given_up_for_the_younger(rt: HostRuntime) {
    plays(
        &rt,
        rt.alloc(),
        two_answered!(1),
        &[
            Deed::Expires(1, 2, None),
            Deed::Expires(1, 3, Some(2)),
            Deed::Visits(1, 1, Visits::Got(3, 6, 20)),
            Deed::Visits(1, 1, Visits::Nothing),
        ],
    );
}

#[test]
fn without_room_nothing_is_kept(rt: HostRuntime) {
    plays(
        &rt,
        rt.alloc(),
        two_answered!(0),
        &[
            Deed::Expires(1, 2, Some(2)),
            Deed::Expires(1, 3, Some(3)),
            Deed::Visits(1, 1, Visits::Nothing),
        ],
    );
}

#[test]
fn what_is_empty_is_not_kept(rt: HostRuntime) {
    plays(
        &rt,
        rt.alloc(),
        two_answered!(2),
        &[
            Deed::Visits(1, 1, Visits::Got(2, 5, 10)),
            Deed::Expires(1, 3, None),
            Deed::Expires(1, 2, Some(2)),
            Deed::Visits(1, 1, Visits::Got(3, 6, 20)),
        ],
    );
}

#[test]
fn a_usual_visit_needs_the_right_place_and_that_none_is_kept(rt: HostRuntime) {
    plays(
        &rt,
        rt.alloc(),
        two_answered!(1),
        &[
            Deed::VisitsUsually(1, 1, 1, None),
            Deed::VisitsUsually(1, 0, 0, Some(Visits::Nothing)),
            Deed::VisitsUsually(1, 0, 1, Some(Visits::Got(2, 5, 10))),
            Deed::Expires(1, 3, None),
            Deed::VisitsUsually(1, 0, 1, None),
            Deed::Visits(1, 1, Visits::Got(3, 6, 20)),
        ],
    );
}
