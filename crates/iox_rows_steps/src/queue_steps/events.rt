//! All events of a schedule, in their order.
use super::Deed;
use crate::rows::{Row, plays};
use iox_queue_steps::{Call, QueueMachine};
use iox_steps::{Entry, MachineError, QueueEvent, QueueKind, QueueReply};
use std::alloc::AllocError;

/// After this, 1, 2 and 3 wait in an overflowing queue of two: the push of 3 has still to push the
/// oldest out.
const OVERFULL: [Entry<Call>; 15] = [
    Entry::Begin(0, Call::Push(1)),
    Entry::Step(0),
    Entry::Step(0),
    Entry::Step(0),
    Entry::Step(0),
    Entry::Begin(0, Call::Push(2)),
    Entry::Step(0),
    Entry::Step(0),
    Entry::Step(0),
    Entry::Step(0),
    Entry::Begin(0, Call::Push(3)),
    Entry::Step(0),
    Entry::Step(0),
    Entry::Step(0),
    Entry::Step(0),
];

#[test]
fn all_events_are_told_in_order(rt: HostRuntime) {
    const ROWS: &[Row<'_, (QueueKind, usize, u64), Deed<'_>, AllocError>] = &[
        (
            "three values wait in an overflowing queue of two",
            (QueueKind::Overflowing, 2, 0),
            &[
                Deed::Runs(&OVERFULL),
                Deed::Tells(&[
                    QueueEvent::SeesRoom,
                    QueueEvent::Publish(1),
                    QueueEvent::SeesRoom,
                    QueueEvent::Publish(2),
                    QueueEvent::SeesFull,
                    QueueEvent::Publish(3),
                ]),
            ],
            None,
        ),
        (
            "the oldest is popped before it is pushed out",
            (QueueKind::Overflowing, 2, 0),
            &[
                Deed::Runs(&OVERFULL),
                Deed::Calls(1, Call::Pop, 4, QueueReply::Popped(Some(1))),
                Deed::Ends(0, 1, QueueReply::HandedBack(None)),
                Deed::Word(0, 0),
                Deed::Word(1, 3),
                Deed::Word(2, 1),
                Deed::Word(3, 1),
                Deed::Word(4, 2),
                Deed::Word(5, 3),
                Deed::Word(6, 0),
                Deed::Word(7, 0),
                Deed::Tells(&[
                    QueueEvent::SeesRoom,
                    QueueEvent::Publish(1),
                    QueueEvent::SeesRoom,
                    QueueEvent::Publish(2),
                    QueueEvent::SeesFull,
                    QueueEvent::Publish(3),
                    QueueEvent::SeesWaiting,
                    QueueEvent::HandOut(1),
                ]),
            ],
            None,
        ),
        (
            "what is pushed out is got back",
            (QueueKind::Overflowing, 2, 0),
            &[
                Deed::Runs(&OVERFULL),
                Deed::Begins(1, Call::Pop),
                Deed::Goes(1),
                Deed::Goes(1),
                Deed::Goes(1),
                Deed::Ends(0, 2, QueueReply::HandedBack(Some(1))),
                Deed::Ends(1, 3, QueueReply::Popped(Some(2))),
                Deed::Tells(&[
                    QueueEvent::SeesRoom,
                    QueueEvent::Publish(1),
                    QueueEvent::SeesRoom,
                    QueueEvent::Publish(2),
                    QueueEvent::SeesFull,
                    QueueEvent::Publish(3),
                    QueueEvent::SeesWaiting,
                    QueueEvent::Evict,
                    QueueEvent::Learn(1),
                    QueueEvent::HandOut(2),
                ]),
            ],
            None,
        ),
        (
            "nothing is published at the last position",
            (QueueKind::Overflowing, 2, u64::MAX),
            &[
                Deed::Calls(0, Call::Push(9), 2, QueueReply::HandedBack(Some(9))),
                Deed::Tells(&[QueueEvent::SeesEnd]),
            ],
            None,
        ),
        (
            "nothing is published past the last position",
            (QueueKind::Index, 2, u64::MAX - 1),
            &[
                Deed::Calls(0, Call::Push(5), 4, QueueReply::Pushed(true)),
                Deed::Calls(0, Call::Push(6), 2, QueueReply::Pushed(false)),
                Deed::Tells(&[
                    QueueEvent::SeesRoom,
                    QueueEvent::Publish(5),
                    QueueEvent::SeesEnd,
                ]),
            ],
            None,
        ),
        (
            "looks are told",
            (QueueKind::Index, 1, 0),
            &[
                Deed::Calls(1, Call::IsEmpty, 2, QueueReply::Empty(true)),
                Deed::Calls(0, Call::IsFull, 2, QueueReply::Full(false)),
                Deed::Calls(0, Call::Push(7), 4, QueueReply::Pushed(true)),
                Deed::Calls(1, Call::IsEmpty, 2, QueueReply::Empty(false)),
                Deed::Calls(0, Call::IsFull, 2, QueueReply::Full(true)),
                Deed::Calls(0, Call::Push(8), 2, QueueReply::Pushed(false)),
                Deed::Calls(1, Call::Pop, 4, QueueReply::Popped(Some(7))),
                Deed::Calls(1, Call::Pop, 2, QueueReply::Popped(None)),
                Deed::Tells(&[
                    QueueEvent::SeesEmpty,
                    QueueEvent::SeesRoom,
                    QueueEvent::SeesRoom,
                    QueueEvent::Publish(7),
                    QueueEvent::SeesWaiting,
                    QueueEvent::SeesFull,
                    QueueEvent::SeesFull,
                    QueueEvent::SeesWaiting,
                    QueueEvent::HandOut(7),
                    QueueEvent::SeesEmpty,
                ]),
            ],
            None,
        ),
        (
            "a schedule passes over entries that are refused",
            (QueueKind::Index, 2, 0),
            &[
                Deed::Runs(&[
                    Entry::Step(0),
                    Entry::Step(2),
                    Entry::Begin(2, Call::Pop),
                    Entry::Begin(1, Call::Push(4)),
                    Entry::Begin(0, Call::Push(7)),
                    Entry::Begin(0, Call::Push(8)),
                    Entry::Step(0),
                    Entry::Step(0),
                    Entry::Step(0),
                    Entry::Step(0),
                    Entry::Step(0),
                ]),
                Deed::Stays(0, MachineError::AtRest),
                Deed::Tells(&[QueueEvent::SeesRoom, QueueEvent::Publish(7)]),
            ],
            None,
        ),
    ];
    plays::<(QueueKind, usize, u64), Deed<'_>, AllocError, QueueMachine>(&rt, rt.alloc(), ROWS);
}
