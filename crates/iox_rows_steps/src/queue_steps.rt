//! Worked runs of two parties at one queue. A test is a list of what is done to a machine, which
//! `plays` does: what is known of each call would else stand in the proof of all that come after.
mod events;
mod stored;

use crate::rows::{Answers, Row, plays};
use iox_queue_steps::{Call, QueueMachine};
use iox_steps::{Entry, MachineError, Progress, QueueEvent, QueueKind, QueueReply, Site};
use std::alloc::{AllocError, Global};

/// What is done to a machine, and what has to come of it. Parties are told by their numbers.
enum Deed<'a> {
    /// A schedule is played.
    Runs(&'a [Entry<Call>]),
    /// The party begins a call.
    Begins(usize, Call),
    /// The next access of the party's call continues.
    Goes(usize),
    /// The party's call ends at the access of this number, with this reply.
    Ends(usize, usize, QueueReply),
    /// The party begins a call, which ends so.
    Calls(usize, Call, usize, QueueReply),
    /// The call is not begun.
    Refuses(usize, Call, MachineError),
    /// There is no access.
    Stays(usize, MachineError),
    /// The word of this number is this.
    Word(usize, u64),
    /// These events were told, and no other.
    Tells(&'a [QueueEvent]),
}

/// One access.
fn step(machine: &mut QueueMachine, party: usize) -> Result<Progress<QueueReply>, MachineError> {
    machine.step(party)
}

/// Begins a call.
fn begin(machine: &mut QueueMachine, party: usize, call: Call) -> Result<(), MachineError> {
    machine.begin(party, call)
}

/// Whether the party's call ends at the access of this number, with this reply.
fn ends(machine: &mut QueueMachine, party: usize, steps: usize, reply: QueueReply) -> bool {
    for _ in 1..steps {
        if step(machine, party) != Ok(Progress::Going) {
            return false;
        }
    }
    step(machine, party) == Ok(Progress::Done(reply))
}

/// Whether these events were told, and no other.
fn tells(machine: &QueueMachine, told: &[QueueEvent]) -> bool {
    machine.holds();
    machine.events() == told && machine.words().len() == 8
}

impl<'a> Answers<(QueueKind, usize, u64), Deed<'a>, AllocError> for QueueMachine {
    /// Of an empty queue among eight words, with one word before it, of this kind and capacity, and
    /// at this position.
    fn made(alloc: Global, at: (QueueKind, usize, u64)) -> Result<Self, AllocError> {
        let (kind, capacity, position) = at;
        let words = Vec::from_array(alloc, [0, position, position, 0, 0, 0, 0, 0])?;
        let site = Site {
            kind,
            base: 1,
            capacity,
        };
        if words.len() != 8 || capacity < 1 || capacity > 4 || words[1] != words[2] {
            return Err(AllocError);
        }
        QueueMachine::new(alloc, words, site)
    }

    fn answers(&mut self, deed: &Deed<'a>) -> bool {
        match deed {
            Deed::Runs(schedule) => self.run(*schedule).is_ok(),
            Deed::Begins(party, call) => begin(self, *party, *call).is_ok(),
            Deed::Goes(party) => step(self, *party) == Ok(Progress::Going),
            Deed::Ends(party, steps, reply) => ends(self, *party, *steps, *reply),
            Deed::Calls(party, call, steps, reply) => {
                begin(self, *party, *call).is_ok() && ends(self, *party, *steps, *reply)
            }
            Deed::Refuses(party, call, error) => begin(self, *party, *call) == Err(*error),
            Deed::Stays(party, error) => step(self, *party) == Err(*error),
            Deed::Word(index, value) => self.words().get(*index).copied() == Some(*value),
            Deed::Tells(told) => tells(self, *told),
        }
    }
}

#[test]
fn two_parties_meet_at_a_queue(rt: HostRuntime) {
    const ROWS: &[Row<'_, (QueueKind, usize, u64), Deed<'_>, AllocError>] = &[
        (
            "a pop meets a push halfway",
            (QueueKind::Index, 1, 0),
            &[
                Deed::Runs(&[
                    Entry::Begin(0, Call::Push(7)),
                    Entry::Begin(1, Call::Pop),
                    Entry::Step(1),
                    Entry::Step(0),
                    Entry::Step(0),
                    Entry::Step(0),
                ]),
                Deed::Ends(1, 1, QueueReply::Popped(None)),
                Deed::Ends(0, 1, QueueReply::Pushed(true)),
                Deed::Calls(1, Call::Pop, 4, QueueReply::Popped(Some(7))),
                Deed::Tells(&[
                    QueueEvent::SeesRoom,
                    QueueEvent::SeesEmpty,
                    QueueEvent::Publish(7),
                    QueueEvent::SeesWaiting,
                    QueueEvent::HandOut(7),
                ]),
            ],
            None,
        ),
        (
            "a full queue refuses",
            (QueueKind::Index, 1, 0),
            &[
                Deed::Calls(0, Call::Push(7), 4, QueueReply::Pushed(true)),
                Deed::Calls(0, Call::IsFull, 2, QueueReply::Full(true)),
                Deed::Calls(0, Call::Push(8), 2, QueueReply::Pushed(false)),
                Deed::Calls(1, Call::Pop, 4, QueueReply::Popped(Some(7))),
                Deed::Calls(1, Call::IsEmpty, 2, QueueReply::Empty(true)),
                Deed::Calls(1, Call::Pop, 2, QueueReply::Popped(None)),
                Deed::Tells(&[
                    QueueEvent::SeesRoom,
                    QueueEvent::Publish(7),
                    QueueEvent::SeesFull,
                    QueueEvent::SeesFull,
                    QueueEvent::SeesWaiting,
                    QueueEvent::HandOut(7),
                    QueueEvent::SeesEmpty,
                    QueueEvent::SeesEmpty,
                ]),
            ],
            None,
        ),
        (
            "an overflowing queue hands back the oldest",
            (QueueKind::Overflowing, 2, 0),
            &[
                Deed::Calls(0, Call::Push(1), 4, QueueReply::HandedBack(None)),
                Deed::Calls(0, Call::Push(2), 4, QueueReply::HandedBack(None)),
                Deed::Calls(0, Call::Push(3), 6, QueueReply::HandedBack(Some(1))),
                Deed::Calls(1, Call::Pop, 4, QueueReply::Popped(Some(2))),
                Deed::Calls(1, Call::Pop, 4, QueueReply::Popped(Some(3))),
                Deed::Calls(1, Call::Pop, 2, QueueReply::Popped(None)),
                Deed::Tells(&[
                    QueueEvent::SeesRoom,
                    QueueEvent::Publish(1),
                    QueueEvent::SeesRoom,
                    QueueEvent::Publish(2),
                    QueueEvent::SeesFull,
                    QueueEvent::Publish(3),
                    QueueEvent::Evict,
                    QueueEvent::Learn(1),
                    QueueEvent::SeesWaiting,
                    QueueEvent::HandOut(2),
                    QueueEvent::SeesWaiting,
                    QueueEvent::HandOut(3),
                    QueueEvent::SeesEmpty,
                ]),
            ],
            None,
        ),
        (
            "the last position is never passed",
            (QueueKind::Overflowing, 2, u64::MAX),
            &[
                Deed::Calls(0, Call::Push(9), 2, QueueReply::HandedBack(Some(9))),
                Deed::Calls(1, Call::IsEmpty, 2, QueueReply::Empty(true)),
                Deed::Tells(&[QueueEvent::SeesEnd, QueueEvent::SeesEmpty]),
            ],
            None,
        ),
        (
            "a queue at its last position refuses",
            (QueueKind::Index, 2, u64::MAX - 1),
            &[
                Deed::Calls(0, Call::Push(5), 4, QueueReply::Pushed(true)),
                Deed::Calls(0, Call::Push(6), 2, QueueReply::Pushed(false)),
                Deed::Calls(1, Call::Pop, 4, QueueReply::Popped(Some(5))),
                Deed::Tells(&[
                    QueueEvent::SeesRoom,
                    QueueEvent::Publish(5),
                    QueueEvent::SeesEnd,
                    QueueEvent::SeesWaiting,
                    QueueEvent::HandOut(5),
                ]),
            ],
            None,
        ),
        (
            "a refused entry changes nothing",
            (QueueKind::Index, 2, 0),
            &[
                Deed::Refuses(2, Call::Pop, MachineError::UnknownParty),
                Deed::Refuses(1, Call::Push(7), MachineError::UnknownParty),
                Deed::Stays(0, MachineError::AtRest),
                Deed::Stays(2, MachineError::UnknownParty),
                Deed::Begins(0, Call::Push(7)),
                Deed::Refuses(0, Call::IsFull, MachineError::Busy),
                Deed::Ends(0, 4, QueueReply::Pushed(true)),
                Deed::Tells(&[QueueEvent::SeesRoom, QueueEvent::Publish(7)]),
            ],
            None,
        ),
    ];
    plays::<(QueueKind, usize, u64), Deed<'_>, AllocError, QueueMachine>(&rt, rt.alloc(), ROWS);
}
