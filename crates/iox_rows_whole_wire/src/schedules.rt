//! Schedules on the wire where each limit is 1.
use super::on::{ONES, Play, opened, plays_all};
use super::play::{Act, Ask, plays};
use super::told::Told;
use crate::expected::equal;
use iox_model::kind::Role;
use iox_wire::{HandleCall, NodeCall, NodePayload, Wire, WireEntry, WireRefusal};
use std::alloc::AllocError;
use std::process::Abort;
use std::test::Fail;

const RECEIVE: NodeCall<'static> = NodeCall::Receive { number: 1 };

const LOOK: NodeCall<'static> = NodeCall::HasRequests { number: 1 };

const LOAN: NodeCall<'static> = NodeCall::Loan {
    number: 0,
    elements: 1,
};

/// 789 is written to a loan.
const WRITE: NodeCall<'static> = NodeCall::Write {
    number: 2,
    payload: NodePayload {
        role: Role::Client,
        words: &[789],
    },
};

const SEND: NodeCall<'static> = NodeCall::Send { number: 2 };

const READ: NodeCall<'static> = NodeCall::Handle {
    number: 2,
    call: HandleCall::Read,
};

/// The copy of a request of one word.
const COPY: NodeCall<'static> = NodeCall::SendCopy {
    number: 0,
    payload: NodePayload {
        role: Role::Client,
        words: &[456],
    },
};

/// A schedule, and what a wire plays before it and after it.
struct Run<'a> {
    /// What a failed test tells.
    name: &'a str,
    before: &'a [Act],
    /// A call of a node, and so many steps.
    calls: &'a [(u64, NodeCall<'a>, u64)],
    /// What comes behind them.
    entries: &'a [WireEntry<'a>],
    after: &'a [Act],
}

/// A call of a node, and so many steps.
fn add<'a>(
    schedule: &mut Vec<WireEntry<'a>>,
    node: u64,
    call: NodeCall<'a>,
    steps: u64,
) -> Result<(), AllocError> {
    schedule.push(WireEntry::Begin(node, call))?;
    for _ in 0..steps {
        schedule.push(WireEntry::Step(node))?;
    }
    Ok(())
}

/// The whole schedule.
fn fill<'a>(schedule: &mut Vec<WireEntry<'a>>, run: &Run<'a>) -> Result<(), AllocError> {
    for (node, call, steps) in run.calls {
        add(schedule, *node, *call, *steps)?;
    }
    for entry in run.entries {
        schedule.push(*entry)?;
    }
    Ok(())
}

/// The wire runs the schedule.
fn goes(rt: &impl Abort, wire: &mut Wire, schedule: &[WireEntry<'_>], run: &Run<'_>) {
    plays(rt, wire, run.name, run.before);
    equal(rt, wire.run(schedule).err(), None);
    plays(rt, wire, run.name, run.after);
}

/// A new wire does so.
fn goes_on_a_wire(
    rt: &(impl Abort + AllocGlobal),
    schedule: &[WireEntry<'_>],
    run: &Run<'_>,
) -> Result<(), Fail> {
    let mut wire = opened(rt.alloc(), *ONES)?;
    goes(rt, &mut wire, schedule, run);
    Ok(())
}

/// The same of the schedule of its calls and entries.
fn runs(rt: &(impl Abort + AllocGlobal), run: &Run<'_>) -> Result<(), Fail> {
    let mut schedule = Vec::new(rt.alloc());
    fill(&mut schedule, run)?;
    goes_on_a_wire(rt, &schedule, run)
}

const SCHEDULE_PASSES_OVER_WHAT_IS_REFUSED: Run<'static> = Run {
    name: "schedule_passes_over_what_is_refused",
    before: &[],
    calls: &[],
    entries: &[
        WireEntry::Step(0),
        WireEntry::Die(1),
        WireEntry::Step(1),
        WireEntry::Die(9),
        WireEntry::Begin(1, RECEIVE),
    ],
    after: &[
        Act::Finishes(0),
        Act::RefusedStep(0, WireRefusal::AtRest),
        Act::RefusedStep(1, WireRefusal::NodeIsDead),
    ],
};

const NODE_DIES_IN_ITS_LOOK: Run<'static> = Run {
    name: "node_dies_in_its_look",
    before: &[],
    calls: &[],
    entries: &[
        WireEntry::Begin(1, LOOK),
        WireEntry::Step(1),
        WireEntry::Die(1),
        WireEntry::Step(1),
        WireEntry::Begin(1, LOOK),
    ],
    after: &[Act::Finishes(0)],
};

const EACH_STEP_OF_A_SCHEDULE_IS_MADE: Run<'static> = Run {
    name: "each_step_of_a_schedule_is_made",
    before: &[],
    calls: &[(0, COPY, 18), (1, RECEIVE, 2)],
    entries: &[],
    after: &[
        Act::Finishes(1),
        Act::RefusedStep(1, WireRefusal::AtRest),
        Act::Ends(0, 1, Told::Handle(2)),
        Act::Whole(1, Ask::Receive(1), 11, Told::Handle(2)),
        Act::Whole(1, Ask::Read(2), 1, Told::Word(456)),
    ],
};

/// The client lends a request, writes 789 to it and sends it. The server receives it and reads it.
const SCHEDULE_LENDS_WRITES_AND_SENDS: Run<'static> = Run {
    name: "schedule_lends_writes_and_sends",
    before: &[],
    calls: &[
        (0, LOAN, 9),
        (0, WRITE, 1),
        (0, SEND, 9),
        (1, RECEIVE, 11),
        (1, READ, 1),
    ],
    entries: &[],
    after: &[Act::Finishes(5), Act::HasRead(1, Told::Word(789))],
};

const CALL_THAT_IS_UNDER_WAY_GOES_ON: Run<'static> = Run {
    name: "call_that_is_under_way_goes_on",
    before: &[],
    calls: &[(0, COPY, 19), (1, RECEIVE, 0), (1, RECEIVE, 1)],
    entries: &[],
    after: &[Act::Finishes(1), Act::Ends(1, 10, Told::Handle(2))],
};

/// Room is made for a schedule of 20 entries, which is run, and then for a step more.
const SCHEDULE_IS_PLAYED_IN_THE_ROOM_THAT_WAS_MADE: Run<'static> = Run {
    name: "schedule_is_played_in_the_room_that_was_made",
    before: &[Act::Reserves(20)],
    calls: &[(0, COPY, 19)],
    entries: &[],
    after: &[
        Act::Reserves(1),
        Act::Finishes(1),
        Act::FirstReply(Told::Handle(2)),
    ],
};

const ROOM_FOR_TOO_MANY_STEPS_IS_REFUSED: Play<'static> = Play {
    name: "room_for_too_many_steps_is_refused",
    on: ONES,
    before: &[],
    table: &[
        Act::LacksRoom(1 << 62),
        // the wire continues as before
        Act::RefusedStep(0, WireRefusal::AtRest),
        Act::Whole(0, Ask::CopyRequest(0, 456), 19, Told::Handle(2)),
        Act::Whole(1, Ask::Receive(1), 11, Told::Handle(2)),
        Act::Whole(1, Ask::Read(2), 1, Told::Word(456)),
    ],
};

const NODES_WITH_ALL_THEIR_HANDLES_BEGIN_CALLS: Play<'static> = Play {
    name: "nodes_with_all_their_handles_begin_calls",
    on: ONES,
    before: &[],
    table: &[
        Act::Calls(0, Ask::CopyRequest(0, 456), Told::Handle(2)),
        Act::Calls(1, Ask::Receive(1), Told::Handle(2)),
        Act::Calls(1, Ask::CopyResponse(2, 789), Told::Done),
        Act::Calls(0, Ask::Receive(2), Told::Handle(3)),
        Act::Calls(0, Ask::Loan(0), Told::Handle(4)),
        Act::Calls(1, Ask::CopyResponse(2, 321), Told::Done),
        Act::Calls(1, Ask::Loan(2), Told::Handle(3)),
        // the limits allow no other handle, which each call tells at its end
        Act::Calls(0, Ask::Loan(0), Told::ExceedsMaxLoans),
        Act::Calls(0, Ask::CopyRequest(0, 1), Told::ExceedsMaxLoans),
        Act::Calls(0, Ask::Receive(2), Told::ExceedsMaxBorrows),
        Act::Calls(1, Ask::Loan(2), Told::ExceedsMaxLoans),
        Act::Calls(1, Ask::CopyResponse(2, 1), Told::ExceedsMaxLoans),
        // and the wire continues
        Act::Calls(0, Ask::Release(3), Told::Done),
        Act::Calls(0, Ask::Receive(2), Told::Handle(5)),
        Act::Calls(0, Ask::Read(5), Told::Word(321)),
    ],
};

/// The same of each of these.
fn run_all(rt: &(impl Abort + AllocGlobal), list: &[Run<'_>]) -> Result<(), Fail> {
    for run in list {
        runs(rt, run)?;
    }
    Ok(())
}

#[test]
fn schedules_are_played(rt: HostRuntime) -> Result<(), Fail> {
    const RUNS: &[Run<'static>] = &[
        SCHEDULE_PASSES_OVER_WHAT_IS_REFUSED,
        NODE_DIES_IN_ITS_LOOK,
        EACH_STEP_OF_A_SCHEDULE_IS_MADE,
        SCHEDULE_LENDS_WRITES_AND_SENDS,
        CALL_THAT_IS_UNDER_WAY_GOES_ON,
        SCHEDULE_IS_PLAYED_IN_THE_ROOM_THAT_WAS_MADE,
    ];
    run_all(&rt, RUNS)
}

#[test]
fn wire_continues_behind_what_is_refused(rt: HostRuntime) -> Result<(), Fail> {
    const PLAYS: &[Play<'static>] = &[
        ROOM_FOR_TOO_MANY_STEPS_IS_REFUSED,
        NODES_WITH_ALL_THEIR_HANDLES_BEGIN_CALLS,
    ];
    plays_all(&rt, PLAYS)
}
