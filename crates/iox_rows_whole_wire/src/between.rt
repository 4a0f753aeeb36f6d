//! Calls of two nodes whose steps come between each other.
use super::on::{ONES, OVERFLOWING_ONES, Play, plays_all};
use super::play::{Act, Ask};
use super::told::Told;
use iox_wire::WireRefusal;
use std::test::Fail;

const A_RESPONSE_COMES_TOO_LATE: Play<'static> = Play {
    name: "a_response_comes_too_late",
    on: ONES,
    before: &[],
    table: &[
        Act::Whole(0, Ask::CopyRequest(0, 1), 19, Told::Handle(2)),
        Act::Whole(1, Ask::Receive(1), 11, Told::Handle(2)),
        Act::Whole(1, Ask::Loan(2), 14, Told::Handle(3)),
        Act::Whole(1, Ask::WriteResponse(3, 9), 1, Told::Done),
        Act::Begins(1, Ask::Send(3)),
        // the state named the request
        Act::Goes(1, 1),
        Act::Whole(0, Ask::Release(2), 1, Told::Done),
        Act::Whole(0, Ask::CopyRequest(0, 2), 19, Told::Handle(3)),
        Act::Ends(1, 8, Told::Done),
        Act::Whole(0, Ask::Receive(3), 2, Told::Nothing),
        Act::Whole(0, Ask::HasResponse(3), 2, Told::Answer(false)),
        // the server has as many requests as it may
        Act::Whole(1, Ask::Receive(1), 2, Told::ExceedsMaxBorrows),
        Act::Whole(1, Ask::Release(2), 5, Told::Done),
        Act::Whole(1, Ask::Receive(1), 11, Told::Handle(4)),
        Act::Whole(1, Ask::Read(4), 1, Told::Word(2)),
    ],
};

const A_SERVER_DIES_AS_IT_RECEIVES: Play<'static> = Play {
    name: "a_server_dies_as_it_receives",
    on: ONES,
    before: &[],
    table: &[
        Act::Whole(0, Ask::CopyRequest(0, 7), 19, Told::Handle(2)),
        Act::Begins(1, Ask::Receive(1)),
        Act::Goes(1, 4),
        Act::Whole(0, Ask::IsConnected(2), 1, Told::Answer(true)),
        Act::Dies(1),
        Act::RefusedStep(1, WireRefusal::NodeIsDead),
        Act::Whole(0, Ask::IsConnected(2), 1, Told::Answer(true)),
        Act::Whole(0, Ask::Loan(0), 9, Told::Handle(3)),
        Act::Whole(0, Ask::Loan(0), 1, Told::ExceedsMaxLoans),
    ],
};

const A_HINT_COMES_BETWEEN: Play<'static> = Play {
    name: "a_hint_comes_between",
    on: ONES,
    before: &[],
    table: &[
        Act::Whole(0, Ask::CopyRequest(0, 1), 19, Told::Handle(2)),
        Act::Whole(1, Ask::Receive(1), 11, Told::Handle(2)),
        Act::Begins(1, Ask::Release(2)),
        Act::Goes(1, 5),
        Act::Whole(0, Ask::SetHint(2), 2, Told::Done),
        Act::Ends(1, 2, Told::Done),
        Act::Whole(0, Ask::IsConnected(2), 1, Told::Answer(false)),
        Act::Whole(0, Ask::SetHint(2), 1, Told::Done),
    ],
};

const A_CLIENT_CLOSES_BETWEEN: Play<'static> = Play {
    name: "a_client_closes_between",
    on: ONES,
    before: &[],
    table: &[
        Act::Whole(0, Ask::CopyRequest(0, 1), 19, Told::Handle(2)),
        Act::Whole(1, Ask::Receive(1), 11, Told::Handle(2)),
        Act::Begins(1, Ask::Release(2)),
        Act::Goes(1, 5),
        Act::Whole(0, Ask::Release(2), 1, Told::Done),
        Act::Ends(1, 1, Told::Done),
        // the request was given back
        Act::Whole(0, Ask::CopyRequest(0, 2), 23, Told::Handle(3)),
    ],
};

const A_SERVER_CLOSES_BETWEEN: Play<'static> = Play {
    name: "a_server_closes_between",
    on: ONES,
    before: &[],
    table: &[
        Act::Whole(0, Ask::CopyRequest(0, 1), 19, Told::Handle(2)),
        Act::Whole(1, Ask::Receive(1), 11, Told::Handle(2)),
        Act::Begins(0, Ask::SetHint(2)),
        Act::Goes(0, 1),
        Act::Whole(1, Ask::Release(2), 6, Told::Done),
        Act::Ends(0, 1, Told::Done),
        Act::Whole(0, Ask::IsConnected(2), 1, Told::Answer(false)),
    ],
};

const THE_OLDEST_REQUEST_IS_PUSHED_OUT: Play<'static> = Play {
    name: "the_oldest_request_is_pushed_out",
    on: OVERFLOWING_ONES,
    before: &[],
    table: &[
        Act::Whole(0, Ask::CopyRequest(0, 1), 17, Told::Handle(2)),
        Act::Whole(1, Ask::Receive(1), 11, Told::Handle(2)),
        Act::Whole(0, Ask::Release(2), 1, Told::Done),
        Act::Whole(0, Ask::CopyRequest(0, 2), 17, Told::Handle(3)),
        Act::Whole(0, Ask::Release(3), 1, Told::Done),
        Act::Begins(0, Ask::CopyRequest(0, 3)),
        Act::Goes(0, 18),
        Act::Ends(0, 1, Told::Handle(4)),
        Act::Whole(0, Ask::Loan(0), 9, Told::Handle(5)),
        Act::Whole(1, Ask::Receive(1), 2, Told::ExceedsMaxBorrows),
        Act::Whole(1, Ask::Read(2), 1, Told::Word(1)),
        Act::Whole(1, Ask::Release(2), 5, Told::Done),
        Act::Whole(1, Ask::Receive(1), 11, Told::Handle(3)),
        Act::Whole(1, Ask::Read(3), 1, Told::Word(3)),
    ],
};

const A_REQUEST_IS_TAKEN_BEFORE_IT_IS_PUSHED_OUT: Play<'static> = Play {
    name: "a_request_is_taken_before_it_is_pushed_out",
    on: OVERFLOWING_ONES,
    before: &[],
    table: &[
        Act::Whole(0, Ask::CopyRequest(0, 1), 17, Told::Handle(2)),
        Act::Whole(0, Ask::Release(2), 1, Told::Done),
        Act::Begins(0, Ask::CopyRequest(0, 2)),
        Act::Goes(0, 17),
        Act::Whole(1, Ask::Receive(1), 11, Told::Handle(2)),
        Act::Ends(0, 1, Told::Handle(3)),
        Act::Whole(1, Ask::Read(2), 1, Told::Word(1)),
        Act::Whole(1, Ask::Release(2), 5, Told::Done),
        Act::Whole(1, Ask::Receive(1), 11, Told::Handle(3)),
        Act::Whole(1, Ask::Read(3), 1, Told::Word(2)),
        Act::Whole(1, Ask::Release(3), 6, Told::Done),
        Act::Whole(1, Ask::Receive(1), 2, Told::Nothing),
    ],
};

const A_REQUEST_IS_PUSHED_OUT_BEFORE_IT_IS_TAKEN: Play<'static> = Play {
    name: "a_request_is_pushed_out_before_it_is_taken",
    on: OVERFLOWING_ONES,
    before: &[],
    table: &[
        Act::Whole(0, Ask::CopyRequest(0, 1), 17, Told::Handle(2)),
        Act::Whole(0, Ask::Release(2), 1, Told::Done),
        Act::Begins(1, Ask::Receive(1)),
        Act::Goes(1, 3),
        Act::Whole(0, Ask::CopyRequest(0, 2), 19, Told::Handle(3)),
        Act::Ends(1, 10, Told::Handle(2)),
        Act::Whole(1, Ask::Read(2), 1, Told::Word(2)),
        Act::Whole(1, Ask::Release(2), 6, Told::Done),
        Act::Whole(1, Ask::Receive(1), 2, Told::Nothing),
    ],
};

const THE_OLDEST_RESPONSE_IS_PUSHED_OUT: Play<'static> = Play {
    name: "the_oldest_response_is_pushed_out",
    on: OVERFLOWING_ONES,
    before: &[],
    table: &[
        Act::Whole(0, Ask::CopyRequest(0, 1), 17, Told::Handle(2)),
        Act::Whole(1, Ask::Receive(1), 11, Told::Handle(2)),
        Act::Whole(1, Ask::CopyResponse(2, 10), 22, Told::Done),
        Act::Whole(1, Ask::CopyResponse(2, 11), 24, Told::Done),
        Act::Whole(0, Ask::Receive(2), 10, Told::Handle(3)),
        Act::Whole(0, Ask::Read(3), 1, Told::Word(11)),
        Act::Whole(1, Ask::CopyResponse(2, 12), 22, Told::Done),
        Act::Whole(0, Ask::Receive(2), 2, Told::ExceedsMaxBorrows),
        Act::Whole(0, Ask::Release(3), 4, Told::Done),
        Act::Whole(0, Ask::Receive(2), 10, Told::Handle(4)),
        Act::Whole(0, Ask::Read(4), 1, Told::Word(12)),
        Act::Whole(1, Ask::CopyResponse(2, 13), 26, Told::Done),
    ],
};

#[test]
fn calls_come_between_each_other(rt: HostRuntime) -> Result<(), Fail> {
    const PLAYS: &[Play<'static>] = &[
        A_RESPONSE_COMES_TOO_LATE,
        A_SERVER_DIES_AS_IT_RECEIVES,
        A_HINT_COMES_BETWEEN,
        A_CLIENT_CLOSES_BETWEEN,
        A_SERVER_CLOSES_BETWEEN,
        THE_OLDEST_REQUEST_IS_PUSHED_OUT,
        A_REQUEST_IS_TAKEN_BEFORE_IT_IS_PUSHED_OUT,
        A_REQUEST_IS_PUSHED_OUT_BEFORE_IT_IS_TAKEN,
        THE_OLDEST_RESPONSE_IS_PUSHED_OUT,
    ];
    plays_all(&rt, PLAYS)
}
