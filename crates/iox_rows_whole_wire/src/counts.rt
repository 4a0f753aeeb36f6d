//! What a port keeps and has outstanding, where full queues give up their oldest message.
use super::on::{OVERFLOWING_ONES, Play, plays_all};
use super::play::{Act, Ask};
use super::told::Told;
use std::test::Fail;

/// One request comes to the server, and one waits; both are given up by the client.
const TWO: &[Act] = &[
    Act::Calls(0, Ask::CopyRequest(0, 11), Told::Handle(2)),
    Act::Calls(1, Ask::Receive(1), Told::Handle(2)),
    Act::Calls(0, Ask::Release(2), Told::Done),
    Act::Keeps(0, 1),
    Act::Lacks(0, 1, 0, 1),
    Act::Calls(0, Ask::CopyRequest(0, 12), Told::Handle(3)),
    Act::Calls(0, Ask::Release(3), Told::Done),
];

const EVICTED_REQUEST_IS_OUTSTANDING_UP_TO_THE_LAST_STEP: Play<'static> = Play {
    name: "evicted_request_is_outstanding_up_to_the_last_step",
    on: OVERFLOWING_ONES,
    before: TWO,
    table: &[
        Act::Keeps(0, 2),
        Act::Lacks(0, 1, 0, 2),
        Act::Begins(0, Ask::CopyRequest(0, 13)),
        Act::Goes(0, 17),
        Act::Keeps(0, 3),
        Act::Lacks(0, 1, 0, 3),
        Act::Goes(0, 1),
        Act::Keeps(0, 3),
        Act::Lacks(0, 1, 0, 3),
        Act::Ends(0, 1, Told::Handle(4)),
        Act::Keeps(0, 2),
        Act::Lacks(0, 1, 0, 2),
        Act::Whole(0, Ask::Loan(0), 9, Told::Handle(5)),
        Act::Keeps(0, 3),
        Act::Lacks(0, 1, 0, 2),
    ],
};

const OTHER_WAYS_HAVE_NOTHING_OUTSTANDING: Play<'static> = Play {
    name: "other_ways_have_nothing_outstanding",
    on: OVERFLOWING_ONES,
    before: TWO,
    table: &[
        Act::Keeps(1, 0),
        Act::Lacks(1, 0, 0, 0),
        Act::Lacks(0, 1, 1, 0),
        Act::Lacks(0, 0, 0, 0),
        Act::Lacks(0, 7, 0, 0),
    ],
};

const NO_PORT_HAS_NOTHING: Play<'static> = Play {
    name: "no_port_has_nothing",
    on: OVERFLOWING_ONES,
    before: TWO,
    table: &[Act::Keeps(7, 0), Act::Lacks(7, 1, 0, 0)],
};

const PORT_OF_A_DEAD_NODE_HAS_WHAT_IT_HAD: Play<'static> = Play {
    name: "port_of_a_dead_node_has_what_it_had",
    on: OVERFLOWING_ONES,
    before: TWO,
    table: &[
        Act::Begins(0, Ask::CopyRequest(0, 13)),
        Act::Goes(0, 17),
        Act::Dies(0),
        Act::Keeps(0, 3),
        Act::Lacks(0, 1, 0, 3),
        Act::Keeps(1, 0),
        Act::Whole(1, Ask::Release(2), 5, Told::Done),
        Act::Whole(1, Ask::Receive(1), 11, Told::Handle(3)),
        Act::Keeps(0, 3),
        Act::Lacks(0, 1, 0, 3),
    ],
};

#[test]
fn ports_keep_and_have_outstanding(rt: HostRuntime) -> Result<(), Fail> {
    const PLAYS: &[Play<'static>] = &[
        EVICTED_REQUEST_IS_OUTSTANDING_UP_TO_THE_LAST_STEP,
        OTHER_WAYS_HAVE_NOTHING_OUTSTANDING,
        NO_PORT_HAS_NOTHING,
        PORT_OF_A_DEAD_NODE_HAS_WHAT_IT_HAD,
    ];
    plays_all(&rt, PLAYS)
}
