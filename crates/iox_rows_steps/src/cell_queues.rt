//! Worked runs of two parties at one queue of values of two words. A test is a list of what is done
//! to a machine, which `plays` does: what is known of each call would else stand in the proof of
//! all that come after.
mod whole;

use crate::expected::{equal, is_so};
use iox_cell_queues::{CellCall, CellEvent, CellMachine, CellReply, CellSite};
use iox_steps::{Entry, MachineError, Progress};
use std::alloc::Global;
use std::process::Abort;

/// A value whose two words differ.
const FIRST: u128 = 7 * (1 << 64) + 8;

/// Another.
const SECOND: u128 = 9 * (1 << 64) + 10;

/// A machine of an empty queue among twelve words, with one word before it, of this capacity and at
/// this position.
fn machine_at(
    rt: &impl Abort,
    alloc: Global,
    (capacity, position): (usize, u64),
) -> CellMachine<u128, 2> {
    let words = [0, position, position, 0, 0, 0, 0, 0, 0, 0, 0, 0];
    let words = Vec::from_array(alloc, words).expect(rt, "twelve words");
    assert!(rt; words.len() == 12 && capacity <= 4 && words[1] == words[2]);
    let site = CellSite {
        base: 1,
        capacity,
        width: 2,
    };
    CellMachine::new(alloc, words, site).expect(rt, "a machine")
}

/// What is done to a machine, and what has to come of it. Parties are told by their numbers.
enum Deed<'a> {
    /// A schedule is played.
    Runs(&'a [Entry<CellCall<u128>>]),
    /// The party begins a call.
    Begins(usize, CellCall<u128>),
    /// The next access of the party's call continues.
    Goes(usize),
    /// The party's call ends at the access of this number, with this reply.
    Ends(usize, usize, CellReply<u128>),
    /// The party begins a call, which ends so.
    Calls(usize, CellCall<u128>, usize, CellReply<u128>),
    /// The call is not begun.
    Refuses(usize, CellCall<u128>, MachineError),
    /// There is no access.
    Stays(usize, MachineError),
    /// The word of this number is this.
    Word(usize, u64),
}

/// What is done to a new machine, and the events that it tells then.
struct Row<'a> {
    name: &'a str,
    at: (usize, u64),
    deeds: &'a [Deed<'a>],
    told: &'a [CellEvent<u128>],
}

/// One access.
fn step(
    machine: &mut CellMachine<u128, 2>,
    party: usize,
) -> Result<Progress<CellReply<u128>>, MachineError> {
    machine.step(party)
}

/// Begins a call.
fn begin(
    machine: &mut CellMachine<u128, 2>,
    party: usize,
    call: CellCall<u128>,
) -> Result<(), MachineError> {
    machine.begin(party, call)
}

/// Whether the party's call ends at the access of this number, with this reply.
fn ends(
    machine: &mut CellMachine<u128, 2>,
    party: usize,
    steps: usize,
    reply: CellReply<u128>,
) -> bool {
    for _ in 1..steps {
        if step(machine, party) != Ok(Progress::Going) {
            return false;
        }
    }
    step(machine, party) == Ok(Progress::Done(reply))
}

/// Does it, and says whether that comes of it.
fn does(machine: &mut CellMachine<u128, 2>, deed: &Deed<'_>) -> bool {
    match deed {
        Deed::Runs(schedule) => machine.run(*schedule).is_ok(),
        Deed::Begins(party, call) => begin(machine, *party, *call).is_ok(),
        Deed::Goes(party) => step(machine, *party) == Ok(Progress::Going),
        Deed::Ends(party, steps, reply) => ends(machine, *party, *steps, *reply),
        Deed::Calls(party, call, steps, reply) => {
            begin(machine, *party, *call).is_ok() && ends(machine, *party, *steps, *reply)
        }
        Deed::Refuses(party, call, error) => begin(machine, *party, *call) == Err(*error),
        Deed::Stays(party, error) => step(machine, *party) == Err(*error),
        Deed::Word(index, value) => machine.words().get(*index).copied() == Some(*value),
    }
}

/// Does all of it, and ends the test if something else comes of it.
fn goes(rt: &impl Abort, machine: &mut CellMachine<u128, 2>, row: &Row<'_>) {
    for (place, deed) in row.deeds.iter().enumerate() {
        is_so(rt, row.name, place, does(machine, deed));
    }
    is_so(rt, row.name, row.deeds.len(), machine.events() == row.told);
    is_so(rt, row.name, row.deeds.len(), machine.words().len() == 12);
}

/// The same of a new machine.
fn plays(rt: &impl Abort, alloc: Global, row: &Row<'_>) {
    let mut machine = machine_at(rt, alloc, row.at);
    goes(rt, &mut machine, row);
}

#[test]
fn two_parties_meet_at_a_queue_of_values(rt: HostRuntime) {
    const ROWS: &[Row<'_>] = &[
        Row {
            name: "a pop meets a push halfway through its cell",
            at: (1, 0),
            deeds: &[
                Deed::Runs(&[
                    Entry::Begin(0, CellCall::Push(FIRST)),
                    Entry::Step(0),
                    Entry::Step(0),
                    Entry::Step(0),
                ]),
                Deed::Word(3, 7),
                Deed::Word(4, 0),
                Deed::Calls(1, CellCall::Pop, 2, CellReply::Popped(None)),
                Deed::Ends(0, 2, CellReply::Pushed(true)),
                Deed::Calls(1, CellCall::Pop, 5, CellReply::Popped(Some(FIRST))),
            ],
            told: &[
                CellEvent::SeesRoom,
                CellEvent::SeesEmpty,
                CellEvent::Publish(FIRST),
                CellEvent::SeesWaiting,
                CellEvent::HandOut(FIRST),
            ],
        },
        Row {
            name: "a push goes on while a pop loads its cell",
            at: (2, 0),
            deeds: &[
                Deed::Calls(0, CellCall::Push(FIRST), 5, CellReply::Pushed(true)),
                Deed::Runs(&[
                    Entry::Begin(1, CellCall::Pop),
                    Entry::Step(1),
                    Entry::Begin(0, CellCall::Push(SECOND)),
                    Entry::Step(0),
                    Entry::Step(1),
                    Entry::Step(0),
                    Entry::Step(1),
                    Entry::Step(0),
                    Entry::Step(0),
                    Entry::Step(1),
                ]),
                Deed::Ends(1, 1, CellReply::Popped(Some(FIRST))),
                Deed::Ends(0, 1, CellReply::Pushed(true)),
                Deed::Calls(1, CellCall::Pop, 5, CellReply::Popped(Some(SECOND))),
            ],
            told: &[
                CellEvent::SeesRoom,
                CellEvent::Publish(FIRST),
                CellEvent::SeesWaiting,
                CellEvent::SeesRoom,
                CellEvent::HandOut(FIRST),
                CellEvent::Publish(SECOND),
                CellEvent::SeesWaiting,
                CellEvent::HandOut(SECOND),
            ],
        },
        Row {
            name: "looks say what they see",
            at: (1, 5),
            deeds: &[
                Deed::Calls(0, CellCall::IsFull, 2, CellReply::Full(false)),
                Deed::Calls(1, CellCall::IsEmpty, 2, CellReply::Empty(true)),
                Deed::Calls(0, CellCall::Push(FIRST), 5, CellReply::Pushed(true)),
                Deed::Calls(0, CellCall::IsFull, 2, CellReply::Full(true)),
                Deed::Calls(1, CellCall::IsEmpty, 2, CellReply::Empty(false)),
            ],
            told: &[
                CellEvent::SeesRoom,
                CellEvent::SeesEmpty,
                CellEvent::SeesRoom,
                CellEvent::Publish(FIRST),
                CellEvent::SeesFull,
                CellEvent::SeesWaiting,
            ],
        },
        Row {
            name: "a look goes by what it loaded first",
            at: (1, 0),
            deeds: &[
                Deed::Runs(&[
                    Entry::Begin(1, CellCall::IsEmpty),
                    Entry::Step(1),
                    Entry::Begin(0, CellCall::Push(FIRST)),
                    Entry::Step(0),
                    Entry::Step(0),
                    Entry::Step(0),
                    Entry::Step(0),
                    Entry::Step(0),
                ]),
                Deed::Ends(1, 1, CellReply::Empty(false)),
                Deed::Begins(0, CellCall::IsFull),
                Deed::Goes(0),
                Deed::Calls(1, CellCall::Pop, 5, CellReply::Popped(Some(FIRST))),
                Deed::Ends(0, 1, CellReply::Full(false)),
            ],
            told: &[
                CellEvent::SeesRoom,
                CellEvent::Publish(FIRST),
                CellEvent::SeesWaiting,
                CellEvent::SeesWaiting,
                CellEvent::HandOut(FIRST),
                CellEvent::SeesRoom,
            ],
        },
        Row {
            name: "a full queue refuses",
            at: (1, 0),
            deeds: &[
                Deed::Calls(0, CellCall::Push(FIRST), 5, CellReply::Pushed(true)),
                Deed::Calls(0, CellCall::IsFull, 2, CellReply::Full(true)),
                Deed::Calls(0, CellCall::Push(SECOND), 2, CellReply::Pushed(false)),
                Deed::Calls(1, CellCall::Pop, 5, CellReply::Popped(Some(FIRST))),
                Deed::Calls(1, CellCall::IsEmpty, 2, CellReply::Empty(true)),
                Deed::Calls(1, CellCall::Pop, 2, CellReply::Popped(None)),
            ],
            told: &[
                CellEvent::SeesRoom,
                CellEvent::Publish(FIRST),
                CellEvent::SeesFull,
                CellEvent::SeesFull,
                CellEvent::SeesWaiting,
                CellEvent::HandOut(FIRST),
                CellEvent::SeesEmpty,
                CellEvent::SeesEmpty,
            ],
        },
        Row {
            name: "the last position is never passed",
            at: (2, u64::MAX - 1),
            deeds: &[
                Deed::Calls(0, CellCall::Push(FIRST), 5, CellReply::Pushed(true)),
                Deed::Calls(0, CellCall::Push(SECOND), 2, CellReply::Pushed(false)),
                Deed::Calls(1, CellCall::Pop, 5, CellReply::Popped(Some(FIRST))),
                Deed::Calls(1, CellCall::Pop, 2, CellReply::Popped(None)),
                Deed::Word(1, u64::MAX),
            ],
            told: &[
                CellEvent::SeesRoom,
                CellEvent::Publish(FIRST),
                CellEvent::SeesEnd,
                CellEvent::SeesWaiting,
                CellEvent::HandOut(FIRST),
                CellEvent::SeesEmpty,
            ],
        },
        Row {
            name: "a queue of no cells is full and empty",
            at: (0, 3),
            deeds: &[
                Deed::Calls(0, CellCall::Push(FIRST), 2, CellReply::Pushed(false)),
                Deed::Calls(0, CellCall::IsFull, 2, CellReply::Full(true)),
                Deed::Calls(1, CellCall::Pop, 2, CellReply::Popped(None)),
            ],
            told: &[
                CellEvent::SeesFull,
                CellEvent::SeesFull,
                CellEvent::SeesEmpty,
            ],
        },
        Row {
            name: "a refused entry changes nothing",
            at: (2, 0),
            deeds: &[
                Deed::Refuses(2, CellCall::Pop, MachineError::UnknownParty),
                Deed::Refuses(1, CellCall::Push(FIRST), MachineError::UnknownParty),
                Deed::Refuses(0, CellCall::IsEmpty, MachineError::UnknownParty),
                Deed::Stays(0, MachineError::AtRest),
                Deed::Stays(2, MachineError::UnknownParty),
                Deed::Begins(0, CellCall::Push(FIRST)),
                Deed::Refuses(0, CellCall::IsFull, MachineError::Busy),
                Deed::Ends(0, 5, CellReply::Pushed(true)),
            ],
            told: &[CellEvent::SeesRoom, CellEvent::Publish(FIRST)],
        },
    ];
    for row in ROWS {
        plays(&rt, rt.alloc(), row);
    }
}

/// Plays a schedule, and makes an access of party 1.
fn answer_after(
    machine: &mut CellMachine<(), 0>,
    schedule: &[Entry<CellCall<()>>],
) -> Result<Progress<CellReply<()>>, MachineError> {
    machine.run(schedule)?;
    machine.step(1)
}

/// A machine of an empty queue of three values of no words.
fn machine_of_counts(rt: &impl Abort, alloc: Global) -> CellMachine<(), 0> {
    let words = Vec::from_array(alloc, [0u64; 2]).expect(rt, "two words");
    assert!(rt; words.len() == 2 && words[0] == words[1]);
    let site = CellSite {
        base: 0,
        capacity: 3,
        width: 0,
    };
    CellMachine::<(), 0>::new(alloc, words, site).expect(rt, "a machine")
}

#[test]
fn values_of_no_words_are_counted(rt: HostRuntime) {
    const SCHEDULE: &[Entry<CellCall<()>>] = &[
        Entry::Begin(0, CellCall::Push(())),
        Entry::Step(0),
        Entry::Step(0),
        Entry::Step(0),
        Entry::Begin(1, CellCall::Pop),
        Entry::Step(1),
        Entry::Step(1),
    ];
    let mut machine = machine_of_counts(&rt, rt.alloc());
    let answer = answer_after(&mut machine, SCHEDULE);
    equal(&rt, answer, Ok(Progress::Done(CellReply::Popped(Some(())))));
    equal(&rt, machine.words(), [1, 1].as_slice());
}
