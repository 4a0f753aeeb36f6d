//! Worked runs of parties at bits. A test is a list of what is done to a machine, which `plays`
//! does: what is known of each call would else stand in the proof of all that come after.
use crate::rows::{Answers, Row, plays};
use iox_set_steps::bit_set::{BitCall, BitEvent, BitReply, BitSetMachine, BitSite};
use iox_steps::{Entry, MachineError, Progress};
use std::alloc::{AllocError, Global};

/// What is done to a machine, and what has to come of it. Parties are told by their numbers.
enum Deed<'a> {
    /// A schedule is played.
    Runs(&'a [Entry<BitCall>]),
    /// The party begins a call.
    Begins(usize, BitCall),
    /// The next access of the party's call continues.
    Goes(usize),
    /// The party's call ends at the access of this number, with this reply.
    Ends(usize, usize, BitReply),
    /// The party begins a call, which ends so.
    Calls(usize, BitCall, usize, BitReply),
    /// The call is not begun.
    Refuses(usize, BitCall, MachineError),
    /// There is no access.
    Stays(usize, MachineError),
    /// The word of this number is this.
    Word(usize, u64),
    /// These events were told, and no other.
    Tells(&'a [BitEvent]),
}

/// One access.
fn step(machine: &mut BitSetMachine, party: usize) -> Result<Progress<BitReply>, MachineError> {
    machine.step(party)
}

/// Begins a call.
fn begin(machine: &mut BitSetMachine, party: usize, call: BitCall) -> Result<(), MachineError> {
    machine.begin(party, call)
}

/// Whether the party's call ends at the access of this number, with this reply.
fn ends(machine: &mut BitSetMachine, party: usize, steps: usize, reply: BitReply) -> bool {
    for _ in 1..steps {
        if step(machine, party) != Ok(Progress::Going) {
            return false;
        }
    }
    step(machine, party) == Ok(Progress::Done(reply))
}

impl<'a> Answers<usize, Deed<'a>, AllocError> for BitSetMachine {
    /// Of two parties at this many bits, with one word before them.
    fn made(alloc: Global, capacity: usize) -> Result<Self, AllocError> {
        if capacity > 128 {
            return Err(AllocError);
        }
        let words = vec![in alloc; 0u64; 3]?;
        BitSetMachine::new(alloc, words, BitSite { base: 1, capacity }, 2)
    }

    fn answers(&mut self, deed: &Deed<'a>) -> bool {
        match deed {
            Deed::Runs(schedule) => self.run(*schedule).is_ok(),
            Deed::Begins(party, call) => begin(self, *party, *call).is_ok(),
            Deed::Goes(party) => step(self, *party) == Ok(Progress::Going),
            Deed::Ends(party, steps, reply) => ends(self, *party, *steps, *reply),
            Deed::Calls(party, call, steps, reply) => {
                begin(self, *party, *call).is_ok() && ends(self, *party, *steps, *reply)
            }
            Deed::Refuses(party, call, error) => begin(self, *party, *call) == Err(*error),
            Deed::Stays(party, error) => step(self, *party) == Err(*error),
            Deed::Word(index, value) => self.words().get(*index).copied() == Some(*value),
            Deed::Tells(told) => self.events() == *told,
        }
    }
}

#[test]
fn parties_meet_at_bits(rt: HostRuntime) {
    const ROWS: &[Row<'_, usize, Deed<'_>, AllocError>] = &[
        (
            "the lowest bit is handed out first",
            8,
            &[
                Deed::Calls(0, BitCall::Set(5), 1, BitReply::Set(true)),
                Deed::Calls(0, BitCall::Set(5), 1, BitReply::Set(false)),
                Deed::Calls(0, BitCall::Set(2), 1, BitReply::Set(true)),
                Deed::Word(1, 0b100100),
                Deed::Calls(1, BitCall::ResetNext, 2, BitReply::ResetNext(Some(2))),
                Deed::Calls(1, BitCall::ResetNext, 2, BitReply::ResetNext(Some(5))),
                Deed::Calls(1, BitCall::ResetNext, 1, BitReply::ResetNext(None)),
                Deed::Word(1, 0),
                Deed::Tells(&[
                    BitEvent::Set(5),
                    BitEvent::Set(2),
                    BitEvent::Cleared(2),
                    BitEvent::Cleared(5),
                ]),
            ],
            None,
        ),
        (
            "one of two changes the bit",
            8,
            &[
                Deed::Runs(&[
                    Entry::Begin(0, BitCall::Set(3)),
                    Entry::Begin(1, BitCall::Set(3)),
                ]),
                Deed::Ends(1, 1, BitReply::Set(true)),
                Deed::Ends(0, 1, BitReply::Set(false)),
                Deed::Tells(&[BitEvent::Set(3)]),
            ],
            None,
        ),
        (
            "a bit that another party clears is not handed out twice",
            70,
            &[
                Deed::Calls(0, BitCall::Set(69), 1, BitReply::Set(true)),
                Deed::Runs(&[
                    Entry::Begin(0, BitCall::ResetNext),
                    Entry::Step(0),
                    Entry::Step(0),
                ]),
                Deed::Calls(1, BitCall::ResetAll, 2, BitReply::ResetAll),
                Deed::Ends(0, 2, BitReply::ResetNext(None)),
                Deed::Tells(&[BitEvent::Set(69), BitEvent::ClearedAll(1, 32)]),
            ],
            None,
        ),
        (
            "without bits nothing is set",
            0,
            &[
                Deed::Calls(0, BitCall::Set(0), 1, BitReply::Set(false)),
                Deed::Calls(0, BitCall::ResetNext, 1, BitReply::ResetNext(None)),
                Deed::Calls(0, BitCall::ResetAll, 1, BitReply::ResetAll),
                Deed::Tells(&[]),
            ],
            None,
        ),
        (
            "a refused entry changes nothing",
            8,
            &[
                Deed::Refuses(2, BitCall::Set(1), MachineError::UnknownParty),
                Deed::Stays(0, MachineError::AtRest),
                Deed::Stays(2, MachineError::UnknownParty),
                Deed::Begins(0, BitCall::Set(1)),
                Deed::Refuses(0, BitCall::ResetAll, MachineError::Busy),
                Deed::Ends(0, 1, BitReply::Set(true)),
                Deed::Tells(&[BitEvent::Set(1)]),
            ],
            None,
        ),
    ];
    plays::<usize, Deed<'_>, AllocError, BitSetMachine>(&rt, rt.alloc(), ROWS);
}
