//! Worked runs of parties at values of types. A test is a list of what is done to a machine, which
//! `plays` does: what is known of each call would else stand in the proof of all that come after.
use crate::expected::equal;
use crate::rows::{Answers, Row, plays};
use iox_set_steps::unrestricted_atomic::{ValueCall, ValueEvent, ValueMachine, ValueReply};
use iox_steps::{Entry, MachineError, Progress};
use std::alloc::{AllocError, Global};
use std::process::Abort;

/// Another value.
const LATER: u128 = (5 << 64) + 6;

/// What is done to a machine, and what has to come of it. Parties are told by their numbers.
enum Deed<'a> {
    /// A schedule is played.
    Runs(&'a [Entry<ValueCall<u128>>]),
    /// The party begins a call.
    Begins(usize, ValueCall<u128>),
    /// The next access of the party's call continues.
    Goes(usize),
    /// The party's call ends at the access of this number, with this reply.
    Ends(usize, usize, ValueReply<u128>),
    /// The party begins a call, which ends so.
    Calls(usize, ValueCall<u128>, usize, ValueReply<u128>),
    /// The call is not begun.
    Refuses(usize, ValueCall<u128>, MachineError),
    /// There is no access.
    Stays(usize, MachineError),
    /// The word of this number is this.
    Word(usize, u64),
    /// These events were told, and no other.
    Tells(&'a [ValueEvent<u128>]),
}

/// One access.
fn step(
    machine: &mut ValueMachine<u128, 2>,
    party: usize,
) -> Result<Progress<ValueReply<u128>>, MachineError> {
    machine.step(party)
}

/// Begins a call.
fn begin(
    machine: &mut ValueMachine<u128, 2>,
    party: usize,
    call: ValueCall<u128>,
) -> Result<(), MachineError> {
    machine.begin(party, call)
}

/// Whether the party's call ends at the access of this number, with this reply.
fn ends(
    machine: &mut ValueMachine<u128, 2>,
    party: usize,
    steps: usize,
    reply: ValueReply<u128>,
) -> bool {
    for _ in 1..steps {
        if step(machine, party) != Ok(Progress::Going) {
            return false;
        }
    }
    step(machine, party) == Ok(Progress::Done(reply))
}

/// Whether these events were told, and no other.
fn tells(machine: &ValueMachine<u128, 2>, told: &[ValueEvent<u128>]) -> bool {
    for (index, event) in told.iter().enumerate() {
        if machine.event(index) != Some(*event) {
            return false;
        }
    }
    machine.event(told.len()) == None
}

impl<'a> Answers<(), Deed<'a>, AllocError> for ValueMachine<u128, 2> {
    /// Of three parties at the number 7 in two words, with one word before it.
    fn made(alloc: Global, _at: ()) -> Result<Self, AllocError> {
        let words = vec![in alloc; 9u64; 6]?;
        ValueMachine::new(alloc, words, 1, 7, 3)
    }

    fn answers(&mut self, deed: &Deed<'a>) -> bool {
        match deed {
            Deed::Runs(schedule) => self.run(*schedule).is_ok(),
            Deed::Begins(party, call) => begin(self, *party, *call).is_ok(),
            Deed::Goes(party) => step(self, *party) == Ok(Progress::Going),
            Deed::Ends(party, steps, reply) => ends(self, *party, *steps, *reply),
            Deed::Calls(party, call, steps, reply) => {
                begin(self, *party, *call).is_ok() && ends(self, *party, *steps, *reply)
            }
            Deed::Refuses(party, call, error) => begin(self, *party, *call) == Err(*error),
            Deed::Stays(party, error) => step(self, *party) == Err(*error),
            Deed::Word(index, value) => self.words().get(*index).copied() == Some(*value),
            Deed::Tells(told) => tells(self, *told) && self.words().len() == 6,
        }
    }
}

#[test]
fn parties_meet_at_a_number(rt: HostRuntime) {
    const ROWS: &[Row<'_, (), Deed<'_>, AllocError>] = &[
        (
            "the value stored last is loaded",
            (),
            &[
                Deed::Word(0, 9),
                Deed::Word(1, 0),
                Deed::Word(2, 0),
                Deed::Word(3, 7),
                Deed::Word(4, 9),
                Deed::Word(5, 9),
                Deed::Calls(1, ValueCall::Load, 4, ValueReply::Loaded(7)),
                Deed::Calls(0, ValueCall::Store(LATER), 4, ValueReply::Stored(true)),
                Deed::Calls(2, ValueCall::Load, 4, ValueReply::Loaded(LATER)),
                Deed::Tells(&[
                    ValueEvent::Loaded(7),
                    ValueEvent::Stored(LATER),
                    ValueEvent::Loaded(LATER),
                ]),
            ],
            None,
        ),
        (
            "a store between two accesses makes a load begin anew",
            (),
            &[
                Deed::Runs(&[
                    Entry::Begin(1, ValueCall::Load),
                    Entry::Step(1),
                    Entry::Step(1),
                    Entry::Begin(0, ValueCall::Store(8)),
                    Entry::Step(0),
                    Entry::Step(0),
                    Entry::Step(0),
                    Entry::Step(0),
                    Entry::Step(7),
                ]),
                Deed::Ends(1, 5, ValueReply::Loaded(8)),
                Deed::Tells(&[ValueEvent::Stored(8), ValueEvent::Loaded(8)]),
            ],
            None,
        ),
        (
            "party 0 alone stores",
            (),
            &[
                Deed::Refuses(1, ValueCall::Store(8), MachineError::UnknownParty),
                Deed::Refuses(3, ValueCall::Load, MachineError::UnknownParty),
                Deed::Stays(1, MachineError::AtRest),
                Deed::Begins(0, ValueCall::Load),
                Deed::Refuses(0, ValueCall::Store(8), MachineError::Busy),
                Deed::Tells(&[]),
            ],
            None,
        ),
    ];
    plays::<(), Deed<'_>, AllocError, ValueMachine<u128, 2>>(&rt, rt.alloc(), ROWS);
}

/// A machine of a party at a value of no words.
fn machine_of_nothing(rt: &impl Abort, alloc: Global) -> ValueMachine<(), 0> {
    let words = vec![in alloc; 0u64; 1].expect(rt, "a word");
    ValueMachine::<(), 0>::new(alloc, words, 0, (), 1).expect(rt, "a machine")
}

#[test]
fn a_value_of_no_words_is_stored_and_loaded(rt: HostRuntime) {
    const SCHEDULE: &[Entry<ValueCall<()>>] = &[
        Entry::Begin(0, ValueCall::Store(())),
        Entry::Step(0),
        Entry::Step(0),
        Entry::Begin(0, ValueCall::Load),
        Entry::Step(0),
        Entry::Step(0),
    ];
    let mut machine = machine_of_nothing(&rt, rt.alloc());
    equal(&rt, machine.run(SCHEDULE), Ok(()));
    equal(&rt, machine.event(0), Some(ValueEvent::Stored(())));
    equal(&rt, machine.event(1), Some(ValueEvent::Loaded(())));
}
