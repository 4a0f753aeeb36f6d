//! Worked runs of parties at a value of two words. A test is a list of what is done to a machine,
//! which `plays` does: what is known of each call would else stand in the proof of all that come
//! after.
use crate::rows::{Answers, Row, plays};
use iox_set_steps::unrestricted_atomic::{AtomicCall, AtomicEvent, AtomicMachine, AtomicReply};
use iox_steps::{Entry, MachineError, Progress};
use std::alloc::{AllocError, Global};

/// What is done to a machine, and what has to come of it. Parties are told by their numbers.
enum Deed<'a> {
    /// A schedule is played.
    Runs(&'a [Entry<AtomicCall<2>>]),
    /// The party begins a call.
    Begins(usize, AtomicCall<2>),
    /// The next access of the party's call continues.
    Goes(usize),
    /// The party's call ends at the access of this number, with this reply.
    Ends(usize, usize, AtomicReply<2>),
    /// The party begins a call, which ends so.
    Calls(usize, AtomicCall<2>, usize, AtomicReply<2>),
    /// The call is not begun.
    Refuses(usize, AtomicCall<2>, MachineError),
    /// There is no access.
    Stays(usize, MachineError),
    /// The word of this number is this.
    Word(usize, u64),
    /// These events were told, and no other.
    Tells(&'a [AtomicEvent<2>]),
}

/// One access.
fn step(
    machine: &mut AtomicMachine<2>,
    party: usize,
) -> Result<Progress<AtomicReply<2>>, MachineError> {
    machine.step(party)
}

/// Begins a call.
fn begin(
    machine: &mut AtomicMachine<2>,
    party: usize,
    call: AtomicCall<2>,
) -> Result<(), MachineError> {
    machine.begin(party, call)
}

/// Whether the party's call ends at the access of this number, with this reply.
fn ends(machine: &mut AtomicMachine<2>, party: usize, steps: usize, reply: AtomicReply<2>) -> bool {
    for _ in 1..steps {
        if step(machine, party) != Ok(Progress::Going) {
            return false;
        }
    }
    step(machine, party) == Ok(Progress::Done(reply))
}

impl<'a> Answers<u64, Deed<'a>, AllocError> for AtomicMachine<2> {
    /// Of three parties at a value of two words, with one word before it. All are this.
    fn made(alloc: Global, filled: u64) -> Result<Self, AllocError> {
        let words = vec![in alloc; filled; 6]?;
        AtomicMachine::new(alloc, words, 1, 3)
    }

    fn answers(&mut self, deed: &Deed<'a>) -> bool {
        match deed {
            Deed::Runs(schedule) => self.run(*schedule).is_ok(),
            Deed::Begins(party, call) => begin(self, *party, *call).is_ok(),
            Deed::Goes(party) => step(self, *party) == Ok(Progress::Going),
            Deed::Ends(party, steps, reply) => ends(self, *party, *steps, *reply),
            Deed::Calls(party, call, steps, reply) => {
                begin(self, *party, *call).is_ok() && ends(self, *party, *steps, *reply)
            }
            Deed::Refuses(party, call, error) => begin(self, *party, *call) == Err(*error),
            Deed::Stays(party, error) => step(self, *party) == Err(*error),
            Deed::Word(index, value) => self.words().get(*index).copied() == Some(*value),
            Deed::Tells(told) => self.events() == *told,
        }
    }
}

#[test]
fn parties_meet_at_a_value(rt: HostRuntime) {
    const ROWS: &[Row<'_, u64, Deed<'_>, AllocError>] = &[
        (
            "the value stored last is loaded",
            0,
            &[
                Deed::Calls(1, AtomicCall::Load, 4, AtomicReply::Loaded([0, 0])),
                Deed::Calls(0, AtomicCall::Store([1, 2]), 4, AtomicReply::Stored(true)),
                Deed::Calls(2, AtomicCall::Load, 4, AtomicReply::Loaded([1, 2])),
                Deed::Calls(0, AtomicCall::Store([3, 4]), 4, AtomicReply::Stored(true)),
                Deed::Calls(2, AtomicCall::Load, 4, AtomicReply::Loaded([3, 4])),
                Deed::Word(1, 2),
                Deed::Tells(&[
                    AtomicEvent::Loaded([0, 0]),
                    AtomicEvent::Stored([1, 2]),
                    AtomicEvent::Loaded([1, 2]),
                    AtomicEvent::Stored([3, 4]),
                    AtomicEvent::Loaded([3, 4]),
                ]),
            ],
            None,
        ),
        (
            "a store between two accesses makes a load begin anew",
            0,
            &[
                Deed::Runs(&[
                    Entry::Begin(1, AtomicCall::Load),
                    Entry::Step(1),
                    Entry::Step(1),
                ]),
                Deed::Calls(0, AtomicCall::Store([5, 6]), 4, AtomicReply::Stored(true)),
                Deed::Ends(1, 5, AtomicReply::Loaded([5, 6])),
                Deed::Tells(&[AtomicEvent::Stored([5, 6]), AtomicEvent::Loaded([5, 6])]),
            ],
            None,
        ),
        (
            "a load in the middle of a store has the old value",
            0,
            &[
                Deed::Runs(&[
                    Entry::Begin(0, AtomicCall::Store([7, 8])),
                    Entry::Step(0),
                    Entry::Step(0),
                    Entry::Step(0),
                ]),
                Deed::Calls(1, AtomicCall::Load, 4, AtomicReply::Loaded([0, 0])),
                Deed::Ends(0, 1, AtomicReply::Stored(true)),
                Deed::Tells(&[AtomicEvent::Loaded([0, 0]), AtomicEvent::Stored([7, 8])]),
            ],
            None,
        ),
        (
            "after the last version nothing is stored",
            u64::MAX,
            &[
                Deed::Calls(0, AtomicCall::Store([1, 2]), 1, AtomicReply::Stored(false)),
                Deed::Calls(
                    0,
                    AtomicCall::Load,
                    4,
                    AtomicReply::Loaded([u64::MAX, u64::MAX]),
                ),
                Deed::Tells(&[AtomicEvent::Loaded([u64::MAX, u64::MAX])]),
            ],
            None,
        ),
        (
            "party 0 alone stores",
            0,
            &[
                Deed::Refuses(1, AtomicCall::Store([1, 2]), MachineError::UnknownParty),
                Deed::Refuses(3, AtomicCall::Load, MachineError::UnknownParty),
                Deed::Stays(1, MachineError::AtRest),
                Deed::Begins(0, AtomicCall::Load),
                Deed::Refuses(0, AtomicCall::Store([1, 2]), MachineError::Busy),
                Deed::Tells(&[]),
            ],
            None,
        ),
    ];
    plays::<u64, Deed<'_>, AllocError, AtomicMachine<2>>(&rt, rt.alloc(), ROWS);
}
