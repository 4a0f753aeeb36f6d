//! Worked runs of parties at counts. A test is a list of what is done to a machine, which `plays`
//! does: what is known of each call would else stand in the proof of all that come after.
use crate::rows::{Answers, Row, plays};
use iox_set_steps::counting_bit_set::{
    CountCall, CountEvent, CountReply, CountSite, CountingBitSetMachine,
};
use iox_steps::{Entry, MachineError, Progress};
use std::alloc::{AllocError, Global};

/// What is done to a machine, and what has to come of it. Parties are told by their numbers.
enum Deed<'a> {
    /// A schedule is played.
    Runs(&'a [Entry<CountCall>]),
    /// The party begins a call.
    Begins(usize, CountCall),
    /// The next access of the party's call continues.
    Goes(usize),
    /// The party's call ends at the access of this number, with this reply.
    Ends(usize, usize, CountReply),
    /// The party begins a call, which ends so.
    Calls(usize, CountCall, usize, CountReply),
    /// The call is not begun.
    Refuses(usize, CountCall, MachineError),
    /// There is no access.
    Stays(usize, MachineError),
    /// The word of this number is this.
    Word(usize, u64),
    /// These events were told, and no other.
    Tells(&'a [CountEvent]),
}

/// One access.
fn step(
    machine: &mut CountingBitSetMachine,
    party: usize,
) -> Result<Progress<CountReply>, MachineError> {
    machine.step(party)
}

/// Begins a call.
fn begin(
    machine: &mut CountingBitSetMachine,
    party: usize,
    call: CountCall,
) -> Result<(), MachineError> {
    machine.begin(party, call)
}

/// Whether the party's call ends at the access of this number, with this reply.
fn ends(
    machine: &mut CountingBitSetMachine,
    party: usize,
    steps: usize,
    reply: CountReply,
) -> bool {
    for _ in 1..steps {
        if step(machine, party) != Ok(Progress::Going) {
            return false;
        }
    }
    step(machine, party) == Ok(Progress::Done(reply))
}

impl<'a> Answers<usize, Deed<'a>, AllocError> for CountingBitSetMachine {
    /// Of two parties at this many counts, with one word before them.
    fn made(alloc: Global, capacity: usize) -> Result<Self, AllocError> {
        if capacity > 8 {
            return Err(AllocError);
        }
        let words = vec![in alloc; 0u64; 9]?;
        CountingBitSetMachine::new(alloc, words, CountSite { base: 1, capacity }, 2)
    }

    fn answers(&mut self, deed: &Deed<'a>) -> bool {
        match deed {
            Deed::Runs(schedule) => self.run(*schedule).is_ok(),
            Deed::Begins(party, call) => begin(self, *party, *call).is_ok(),
            Deed::Goes(party) => step(self, *party) == Ok(Progress::Going),
            Deed::Ends(party, steps, reply) => ends(self, *party, *steps, *reply),
            Deed::Calls(party, call, steps, reply) => {
                begin(self, *party, *call).is_ok() && ends(self, *party, *steps, *reply)
            }
            Deed::Refuses(party, call, error) => begin(self, *party, *call) == Err(*error),
            Deed::Stays(party, error) => step(self, *party) == Err(*error),
            Deed::Word(index, value) => self.words().get(*index).copied() == Some(*value),
            Deed::Tells(told) => self.events() == *told,
        }
    }
}

#[test]
fn parties_meet_at_counts(rt: HostRuntime) {
    const ROWS: &[Row<'_, usize, Deed<'_>, AllocError>] = &[
        (
            "a count is taken out whole",
            8,
            &[
                Deed::Calls(0, CountCall::Set(3), 2, CountReply::Set(true)),
                Deed::Calls(0, CountCall::Set(3), 2, CountReply::Set(true)),
                Deed::Word(4, 2),
                Deed::Calls(1, CountCall::ResetAll, 8, CountReply::ResetAll),
                Deed::Word(4, 0),
                Deed::Tells(&[
                    CountEvent::Added(3),
                    CountEvent::Added(3),
                    CountEvent::Taken(3, 2),
                ]),
            ],
            None,
        ),
        (
            "a missed exchange is tried again",
            2,
            &[
                Deed::Runs(&[
                    Entry::Begin(0, CountCall::Set(1)),
                    Entry::Begin(1, CountCall::Set(1)),
                    Entry::Step(0),
                    Entry::Step(1),
                    Entry::Step(1),
                ]),
                Deed::Ends(0, 2, CountReply::Set(true)),
                Deed::Word(2, 2),
                Deed::Tells(&[CountEvent::Added(1), CountEvent::Added(1)]),
            ],
            None,
        ),
        (
            "counts are taken out between a load and its exchange",
            1,
            &[
                Deed::Calls(0, CountCall::Set(0), 2, CountReply::Set(true)),
                Deed::Runs(&[Entry::Begin(0, CountCall::Set(0)), Entry::Step(0)]),
                Deed::Calls(1, CountCall::ResetAll, 1, CountReply::ResetAll),
                Deed::Ends(0, 2, CountReply::Set(true)),
                Deed::Tells(&[
                    CountEvent::Added(0),
                    CountEvent::Taken(0, 1),
                    CountEvent::Added(0),
                ]),
            ],
            None,
        ),
        (
            "a refused entry changes nothing",
            2,
            &[
                Deed::Refuses(2, CountCall::Set(1), MachineError::UnknownParty),
                Deed::Stays(0, MachineError::AtRest),
                Deed::Stays(2, MachineError::UnknownParty),
                Deed::Calls(0, CountCall::Set(2), 1, CountReply::Set(false)),
                Deed::Begins(0, CountCall::Set(1)),
                Deed::Refuses(0, CountCall::ResetAll, MachineError::Busy),
                Deed::Tells(&[]),
            ],
            None,
        ),
    ];
    plays::<usize, Deed<'_>, AllocError, CountingBitSetMachine>(&rt, rt.alloc(), ROWS);
}
