//! What each call answers on a wire where each limit is 1, and how many steps it takes.
use super::on::{DROPPING_ONES, ONES, Play, plays_all};
use super::play::{Act, Ask};
use super::told::Told;
use iox_wire::WireRefusal;
use std::test::Fail;

const EACH_CALL_TAKES_ITS_STEPS: Play<'static> = Play {
    name: "each_call_takes_its_steps",
    on: ONES,
    before: &[],
    table: &[
        // a request is lent, written and sent
        Act::Whole(0, Ask::Loan(0), 9, Told::Handle(2)),
        Act::Whole(0, Ask::Loan(0), 1, Told::ExceedsMaxLoans),
        Act::Whole(0, Ask::LoanOf(0, 2), 1, Told::ExceedsMaxLoanSize),
        Act::Whole(0, Ask::WriteRequest(2, 7), 1, Told::Done),
        Act::Whole(0, Ask::WriteNoRequest(2), 1, Told::WrongLength),
        Act::Whole(0, Ask::Read(2), 1, Told::Word(7)),
        Act::Whole(0, Ask::Send(2), 9, Told::Sent(1)),
        Act::Whole(0, Ask::IsConnected(2), 1, Told::Answer(true)),
        Act::Whole(0, Ask::HasResponse(2), 2, Told::Answer(false)),
        Act::Whole(0, Ask::Receive(2), 2, Told::Nothing),
        // the server receives it
        Act::Whole(1, Ask::HasRequests(1), 2, Told::Answer(true)),
        Act::Whole(1, Ask::Receive(1), 11, Told::Handle(2)),
        Act::Whole(1, Ask::HasRequests(1), 2, Told::Answer(false)),
        Act::Whole(1, Ask::Receive(1), 2, Told::Nothing),
        Act::Whole(1, Ask::Read(2), 1, Told::Word(7)),
        Act::Whole(1, Ask::IsConnected(2), 1, Told::Answer(true)),
        Act::Whole(1, Ask::HasHint(2), 1, Told::Answer(false)),
        Act::Whole(0, Ask::SetHint(2), 2, Told::Done),
        Act::Whole(0, Ask::SetHint(2), 1, Told::Done),
        Act::Whole(1, Ask::HasHint(2), 1, Told::Answer(true)),
        Act::Whole(1, Ask::IsConnected(2), 1, Told::Answer(true)),
        // a response is lent, written and sent
        Act::Whole(1, Ask::Loan(2), 14, Told::Handle(3)),
        Act::Whole(1, Ask::Loan(2), 1, Told::ExceedsMaxLoans),
        Act::Whole(1, Ask::WriteResponse(3, 9), 1, Told::Done),
        Act::Whole(1, Ask::Read(3), 1, Told::Word(9)),
        Act::Whole(1, Ask::Send(3), 9, Told::Done),
        Act::Whole(0, Ask::HasResponse(2), 2, Told::Answer(true)),
        Act::Whole(0, Ask::Receive(2), 10, Told::Handle(3)),
        Act::Whole(0, Ask::Read(3), 1, Told::Word(9)),
        // one more waits, and a third one finds no room
        Act::Whole(1, Ask::CopyResponse(2, 10), 24, Told::Done),
        Act::Whole(0, Ask::Receive(2), 2, Told::ExceedsMaxBorrows),
        Act::Whole(1, Ask::CopyResponse(2, 11), 20, Told::UnableToDeliver),
        Act::Whole(0, Ask::Release(3), 4, Told::Done),
        Act::Whole(0, Ask::Receive(2), 10, Told::Handle(4)),
        Act::Whole(0, Ask::Read(4), 1, Told::Word(10)),
        // the next loan gets the response back that the client had
        Act::Whole(1, Ask::Loan(2), 18, Told::Handle(4)),
        Act::Whole(1, Ask::Release(4), 1, Told::Done),
        Act::Whole(1, Ask::Release(2), 6, Told::Done),
        Act::Whole(0, Ask::IsConnected(2), 1, Told::Answer(false)),
        Act::Whole(0, Ask::HasResponse(2), 2, Told::Answer(false)),
        Act::Whole(0, Ask::Release(2), 1, Told::Done),
        Act::Whole(0, Ask::Release(4), 4, Told::Done),
        // the next loan gets the request back
        Act::Whole(0, Ask::Loan(0), 13, Told::Handle(5)),
        Act::Whole(0, Ask::Release(5), 1, Told::Done),
        Act::RefusedCall(0, Ask::Release(5), WireRefusal::UnknownNumber),
        Act::Whole(0, Ask::CopyRequest(0, 8), 19, Told::Handle(6)),
    ],
};

const SENDS_PAST_A_LIMIT_END_THEIR_LOANS: Play<'static> = Play {
    name: "sends_past_a_limit_end_their_loans",
    on: ONES,
    before: &[],
    table: &[
        Act::Whole(0, Ask::CopyRequest(0, 1), 19, Told::Handle(2)),
        // one request is active, as many as may be
        Act::Whole(
            0,
            Ask::CopyRequest(0, 2),
            10,
            Told::ExceedsMaxActiveRequests,
        ),
        Act::Whole(0, Ask::Loan(0), 9, Told::Handle(3)),
        Act::Whole(0, Ask::Send(3), 1, Told::ExceedsMaxActiveRequests),
        Act::RefusedCall(0, Ask::Send(3), WireRefusal::UnknownNumber),
        // the server's queue is full
        Act::Whole(0, Ask::Release(2), 1, Told::Done),
        Act::Whole(0, Ask::CopyRequest(0, 3), 14, Told::UnableToDeliver),
        Act::Whole(0, Ask::CopyNoRequest(0), 13, Told::UnableToDeliver),
        Act::Whole(0, Ask::Loan(0), 9, Told::Handle(4)),
        Act::Whole(0, Ask::Send(4), 4, Told::UnableToDeliver),
        Act::RefusedCall(0, Ask::Read(4), WireRefusal::UnknownNumber),
        Act::Whole(0, Ask::Loan(0), 9, Told::Handle(5)),
        Act::Whole(0, Ask::Loan(0), 1, Told::ExceedsMaxLoans),
        // the first request is there
        Act::Whole(1, Ask::Receive(1), 11, Told::Handle(2)),
        Act::Whole(1, Ask::Read(2), 1, Told::Word(1)),
        Act::Whole(1, Ask::IsConnected(2), 1, Told::Answer(false)),
        Act::Whole(1, Ask::Release(2), 5, Told::Done),
        Act::Whole(0, Ask::Send(5), 13, Told::Sent(1)),
        Act::Whole(1, Ask::Receive(1), 11, Told::Handle(3)),
        Act::Whole(1, Ask::IsConnected(3), 1, Told::Answer(true)),
    ],
};

const A_REQUEST_IS_THERE_WITH_THE_LAST_STEP_OF_ITS_COPY: Play<'static> = Play {
    name: "a_request_is_there_with_the_last_step_of_its_copy",
    on: ONES,
    before: &[],
    table: &[
        Act::Begins(0, Ask::CopyRequest(0, 5)),
        Act::Goes(0, 18),
        Act::Whole(1, Ask::Receive(1), 2, Told::Nothing),
        Act::Ends(0, 1, Told::Handle(2)),
        Act::Whole(1, Ask::Receive(1), 11, Told::Handle(2)),
        Act::Whole(1, Ask::Read(2), 1, Told::Word(5)),
    ],
};

const REQUESTS_OF_NO_USE_ARE_SKIPPED: Play<'static> = Play {
    name: "requests_of_no_use_are_skipped",
    on: DROPPING_ONES,
    before: &[],
    table: &[
        Act::Whole(0, Ask::CopyRequest(0, 7), 19, Told::Handle(2)),
        Act::Whole(0, Ask::Release(2), 1, Told::Done),
        Act::Whole(1, Ask::HasRequests(1), 2, Told::Answer(true)),
        Act::Whole(1, Ask::Receive(1), 18, Told::Nothing),
        Act::Whole(1, Ask::HasRequests(1), 2, Told::Answer(false)),
        Act::Whole(0, Ask::CopyRequest(0, 8), 23, Told::Handle(3)),
        Act::Whole(1, Ask::Receive(1), 12, Told::Handle(2)),
        Act::Whole(1, Ask::Read(2), 1, Told::Word(8)),
    ],
};

const REQUESTS_OF_NO_USE_ARE_RECEIVED: Play<'static> = Play {
    name: "requests_of_no_use_are_received",
    on: ONES,
    before: &[],
    table: &[
        Act::Whole(0, Ask::CopyRequest(0, 7), 19, Told::Handle(2)),
        Act::Whole(0, Ask::Release(2), 1, Told::Done),
        Act::Whole(1, Ask::Receive(1), 11, Told::Handle(2)),
        Act::Whole(1, Ask::Read(2), 1, Told::Word(7)),
        Act::Whole(1, Ask::IsConnected(2), 1, Told::Answer(false)),
        Act::Whole(1, Ask::HasHint(2), 1, Told::Answer(false)),
        // nobody waits for a response
        Act::Whole(1, Ask::CopyResponse(2, 5), 16, Told::Done),
        Act::Whole(1, Ask::Release(2), 5, Told::Done),
    ],
};

const BEGIN_IS_REFUSED_IN_THE_MACHINES_ORDER: Play<'static> = Play {
    name: "begin_is_refused_in_the_machines_order",
    on: ONES,
    before: &[],
    table: &[
        Act::RefusedCall(9, Ask::Receive(1), WireRefusal::UnknownNode),
        Act::RefusedCall(0, Ask::Receive(7), WireRefusal::UnknownNumber),
        // ports of another node
        Act::RefusedCall(0, Ask::Receive(1), WireRefusal::ForeignNumber),
        Act::RefusedCall(0, Ask::Loan(1), WireRefusal::ForeignNumber),
        Act::RefusedCall(1, Ask::Receive(0), WireRefusal::ForeignNumber),
        // a client
        Act::RefusedCall(0, Ask::Receive(0), WireRefusal::WrongKind),
        Act::RefusedCall(0, Ask::HasRequests(0), WireRefusal::WrongKind),
        Act::RefusedCall(0, Ask::Send(0), WireRefusal::WrongKind),
        Act::RefusedCall(0, Ask::WriteRequest(0, 1), WireRefusal::WrongKind),
        Act::RefusedCall(0, Ask::Read(0), WireRefusal::WrongKind),
        Act::RefusedCall(0, Ask::Release(0), WireRefusal::WrongKind),
        Act::RefusedCall(0, Ask::IsConnected(0), WireRefusal::WrongKind),
        // a server
        Act::RefusedCall(1, Ask::Loan(1), WireRefusal::WrongKind),
        Act::RefusedCall(1, Ask::Release(1), WireRefusal::WrongKind),
        Act::RefusedCall(1, Ask::HasResponse(1), WireRefusal::WrongKind),
        // a loan
        Act::Whole(0, Ask::Loan(0), 9, Told::Handle(2)),
        Act::RefusedCall(1, Ask::Read(2), WireRefusal::UnknownNumber),
        Act::RefusedCall(0, Ask::Loan(2), WireRefusal::WrongKind),
        Act::RefusedCall(0, Ask::Receive(2), WireRefusal::WrongKind),
        Act::RefusedCall(0, Ask::HasRequests(2), WireRefusal::WrongKind),
        Act::RefusedCall(0, Ask::IsConnected(2), WireRefusal::WrongKind),
        Act::RefusedCall(0, Ask::SetHint(2), WireRefusal::WrongKind),
        Act::RefusedCall(0, Ask::HasHint(2), WireRefusal::WrongKind),
        Act::RefusedCall(0, Ask::HasResponse(2), WireRefusal::WrongKind),
        // a pending response
        Act::Whole(0, Ask::Send(2), 9, Told::Sent(1)),
        Act::RefusedCall(0, Ask::Send(2), WireRefusal::WrongKind),
        Act::RefusedCall(0, Ask::WriteRequest(2, 1), WireRefusal::WrongKind),
        Act::RefusedCall(0, Ask::Loan(2), WireRefusal::WrongKind),
        Act::RefusedCall(0, Ask::HasHint(2), WireRefusal::WrongKind),
        Act::RefusedCall(0, Ask::HasRequests(2), WireRefusal::WrongKind),
        // an active request
        Act::Whole(1, Ask::Receive(1), 11, Told::Handle(2)),
        Act::RefusedCall(1, Ask::Send(2), WireRefusal::WrongKind),
        Act::RefusedCall(1, Ask::WriteResponse(2, 1), WireRefusal::WrongKind),
        Act::RefusedCall(1, Ask::Receive(2), WireRefusal::WrongKind),
        Act::RefusedCall(1, Ask::SetHint(2), WireRefusal::WrongKind),
        Act::RefusedCall(1, Ask::HasResponse(2), WireRefusal::WrongKind),
        // while a call is under way, and once the node is dead
        Act::Begins(1, Ask::Release(2)),
        Act::RefusedCall(1, Ask::Receive(1), WireRefusal::Busy),
        Act::RefusedCall(1, Ask::Receive(0), WireRefusal::Busy),
        Act::RefusedCall(1, Ask::Receive(7), WireRefusal::Busy),
        Act::Dies(1),
        Act::RefusedCall(1, Ask::Receive(1), WireRefusal::NodeIsDead),
        Act::RefusedCall(1, Ask::Receive(7), WireRefusal::NodeIsDead),
        Act::Whole(0, Ask::IsConnected(2), 1, Told::Answer(true)),
    ],
};

const A_STEP_IS_REFUSED_BY_NAME: Play<'static> = Play {
    name: "a_step_is_refused_by_name",
    on: ONES,
    before: &[],
    table: &[
        Act::RefusedStep(9, WireRefusal::UnknownNode),
        Act::RefusedStep(1, WireRefusal::AtRest),
        Act::Whole(1, Ask::Receive(1), 2, Told::Nothing),
        Act::RefusedStep(1, WireRefusal::AtRest),
        Act::Begins(1, Ask::Receive(1)),
        Act::Dies(1),
        Act::RefusedStep(1, WireRefusal::NodeIsDead),
        Act::RefusedDeath(1, WireRefusal::NodeIsDead),
        Act::RefusedDeath(9, WireRefusal::UnknownNode),
        Act::RefusedStep(0, WireRefusal::AtRest),
    ],
};

#[test]
fn calls_answer_and_take_their_steps(rt: HostRuntime) -> Result<(), Fail> {
    const PLAYS: &[Play<'static>] = &[
        EACH_CALL_TAKES_ITS_STEPS,
        SENDS_PAST_A_LIMIT_END_THEIR_LOANS,
        A_REQUEST_IS_THERE_WITH_THE_LAST_STEP_OF_ITS_COPY,
        REQUESTS_OF_NO_USE_ARE_SKIPPED,
        REQUESTS_OF_NO_USE_ARE_RECEIVED,
        BEGIN_IS_REFUSED_IN_THE_MACHINES_ORDER,
        A_STEP_IS_REFUSED_BY_NAME,
    ];
    plays_all(&rt, PLAYS)
}
