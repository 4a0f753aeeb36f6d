//! Calls on a wire of two clients and two servers: what they answer, and how many steps they take.
use super::on::{FOUR, OVERFLOWING_FOUR, Play, plays_all};
use super::play::{Act, Ask};
use super::told::Told;
use std::test::Fail;

const EACH_CALL_VISITS_ALL_OTHERS: Play<'static> = Play {
    name: "each_call_visits_all_others",
    on: FOUR,
    before: &[],
    table: &[
        // both servers receive what a client sends
        Act::Whole(0, Ask::CopyRequest(0, 7), 30, Told::Handle(4)),
        Act::Whole(1, Ask::HasRequests(1), 2, Told::Answer(true)),
        Act::Whole(1, Ask::Receive(1), 11, Told::Handle(4)),
        Act::Whole(2, Ask::Receive(2), 11, Told::Handle(4)),
        Act::Whole(0, Ask::IsConnected(4), 1, Told::Answer(true)),
        // so they do with the other client, as far as they have nothing of it
        Act::Whole(1, Ask::Receive(1), 4, Told::Nothing),
        Act::Whole(2, Ask::CopyRequest(3, 8), 30, Told::Handle(5)),
        Act::Whole(1, Ask::HasRequests(1), 4, Told::Answer(true)),
        Act::Whole(1, Ask::Receive(1), 13, Told::Handle(5)),
        Act::Whole(1, Ask::Read(5), 1, Told::Word(8)),
        Act::Whole(2, Ask::Receive(2), 13, Told::Handle(6)),
        Act::Whole(2, Ask::Read(6), 1, Told::Word(8)),
        Act::Whole(2, Ask::Receive(2), 4, Told::Nothing),
        // both respond to the first client
        Act::Whole(1, Ask::CopyResponse(4, 10), 40, Told::Done),
        Act::Whole(2, Ask::CopyResponse(4, 11), 40, Told::Done),
        Act::Whole(0, Ask::HasResponse(4), 2, Told::Answer(true)),
        Act::Whole(0, Ask::Receive(4), 10, Told::Handle(5)),
        Act::Whole(0, Ask::Read(5), 1, Told::Word(10)),
        Act::Whole(0, Ask::HasResponse(4), 4, Told::Answer(true)),
        Act::Whole(0, Ask::Receive(4), 12, Told::Handle(6)),
        Act::Whole(0, Ask::Read(6), 1, Told::Word(11)),
        Act::Whole(0, Ask::Receive(4), 4, Told::Nothing),
        Act::Whole(1, Ask::CopyResponse(4, 12), 40, Told::Done),
        Act::Whole(0, Ask::Receive(4), 4, Told::ExceedsMaxBorrows),
        // its hints come to both, and to no other request
        Act::Whole(0, Ask::SetHint(4), 4, Told::Done),
        Act::Whole(0, Ask::SetHint(4), 2, Told::Done),
        Act::Whole(1, Ask::HasHint(4), 1, Told::Answer(true)),
        Act::Whole(2, Ask::HasHint(4), 1, Told::Answer(true)),
        Act::Whole(2, Ask::HasHint(6), 1, Told::Answer(false)),
        // the servers end, one after the other
        Act::Whole(1, Ask::Release(4), 6, Told::Done),
        Act::Whole(0, Ask::IsConnected(4), 2, Told::Answer(true)),
        Act::Whole(0, Ask::SetHint(4), 2, Told::Done),
        Act::Whole(2, Ask::Release(4), 6, Told::Done),
        Act::Whole(0, Ask::IsConnected(4), 2, Told::Answer(false)),
        Act::Whole(0, Ask::Release(4), 2, Told::Done),
        Act::Whole(0, Ask::Release(5), 4, Told::Done),
        Act::Whole(0, Ask::Release(6), 4, Told::Done),
        // the next copy gets the request back from both
        Act::Whole(0, Ask::CopyRequest(0, 9), 38, Told::Handle(7)),
        Act::Whole(1, Ask::Receive(1), 11, Told::Handle(6)),
        Act::Whole(1, Ask::Read(6), 1, Told::Word(9)),
    ],
};

const ONE_FULL_SERVER_REFUSES_A_REQUEST: Play<'static> = Play {
    name: "one_full_server_refuses_a_request",
    on: FOUR,
    before: &[],
    table: &[
        Act::Whole(0, Ask::CopyRequest(0, 1), 30, Told::Handle(4)),
        Act::Whole(1, Ask::Receive(1), 11, Told::Handle(4)),
        Act::Whole(0, Ask::Release(4), 2, Told::Done),
        Act::Whole(0, Ask::CopyRequest(0, 2), 20, Told::UnableToDeliver),
        Act::Whole(1, Ask::Receive(1), 4, Told::Nothing),
        Act::Whole(2, Ask::Receive(2), 11, Told::Handle(4)),
        Act::Whole(2, Ask::Read(4), 1, Told::Word(1)),
        Act::Whole(0, Ask::CopyRequest(0, 3), 30, Told::Handle(5)),
        Act::Whole(1, Ask::IsConnected(4), 1, Told::Answer(false)),
        Act::Whole(2, Ask::Receive(2), 4, Told::ExceedsMaxBorrows),
    ],
};

const FULL_SERVERS_GIVE_UP_THEIR_OLDEST_REQUEST: Play<'static> = Play {
    name: "full_servers_give_up_their_oldest_request",
    on: OVERFLOWING_FOUR,
    before: &[],
    table: &[
        Act::Whole(0, Ask::CopyRequest(0, 1), 26, Told::Handle(4)),
        Act::Whole(1, Ask::Receive(1), 11, Told::Handle(4)),
        Act::Whole(0, Ask::Release(4), 2, Told::Done),
        // the second server has it still: it gives it up
        Act::Whole(0, Ask::CopyRequest(0, 2), 28, Told::Handle(5)),
        Act::Whole(2, Ask::Receive(2), 11, Told::Handle(4)),
        Act::Whole(2, Ask::Read(4), 1, Told::Word(2)),
        Act::Whole(1, Ask::Release(4), 5, Told::Done),
        Act::Whole(1, Ask::Receive(1), 11, Told::Handle(5)),
        Act::Whole(1, Ask::Read(5), 1, Told::Word(2)),
        Act::Whole(0, Ask::Release(5), 2, Told::Done),
        // the first one gave back what it had
        Act::Whole(0, Ask::CopyRequest(0, 3), 30, Told::Handle(6)),
    ],
};

#[test]
fn calls_visit_all_others(rt: HostRuntime) -> Result<(), Fail> {
    const PLAYS: &[Play<'static>] = &[
        EACH_CALL_VISITS_ALL_OTHERS,
        ONE_FULL_SERVER_REFUSES_A_REQUEST,
        FULL_SERVERS_GIVE_UP_THEIR_OLDEST_REQUEST,
    ];
    plays_all(&rt, PLAYS)
}
