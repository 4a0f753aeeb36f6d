//! Whole calls on the words of a queue. Of what a call promises, the helpers pass on what the next
//! one needs.
ghost use Rattle.iox_queue_calls.specs.Lists.{HoldsQueue};

use crate::expected::equal;
use crate::rows::{self, Answers};
use iox_queue_calls::{holds_when_empty, is_empty, is_full, pop, push, push_and_pop};
use iox_queue_steps::Call;
use iox_queues::spsc::index_queue::IndexQueue;
use iox_steps::{QueueKind, QueueReply, Site};
use std::alloc::{AllocError, Global};
use std::process::Abort;

/// An empty queue of two among eight words, with a word before the positions, which are both this.
fn queue_at(rt: &impl Abort, alloc: Global, at: (QueueKind, u64)) -> (Vec<u64>, Site)
    ensures { HoldsQueue result.1 result.0.items }
{
    let (kind, position) = at;
    let words = [77, position, position, 0, 0, 0, 0, 0];
    let words = Vec::from_array(alloc, words).expect(rt, "eight words");
    let site = Site {
        kind,
        base: 1,
        capacity: 2,
    };
    assert!(rt; words.len() == 8 && words[1] == words[2]);
    holds_when_empty(&words, site);
    (words, site)
}

/// A whole call.
fn call(words: &mut Vec<u64>, site: Site, call: Call) -> QueueReply
    requires { HoldsQueue site words.old.items }
    ensures { HoldsQueue site words.new.items }
{
    match call {
        Call::Push(value) => push(words, site, value),
        Call::Pop => QueueReply::Popped(pop(words, site)),
        Call::IsFull => QueueReply::Full(is_full(words, site)),
        Call::IsEmpty => QueueReply::Empty(is_empty(words, site)),
    }
}

/// Asks one call after another, and ends the test if one has another reply than stands beside it.
fn goes(rt: &impl Abort, name: &str, words: &mut Vec<u64>, site: Site, list: &[(Call, QueueReply)])
    requires { HoldsQueue site words.old.items }
{
    for row in list {
        let reply = call(words, site, row.0);
        equal(rt, (name, reply), (name, row.1));
    }
}

/// Calls on a new queue of this kind and at this position, with their replies.
struct Row<'a> {
    name: &'a str,
    at: (QueueKind, u64),
    list: &'a [(Call, QueueReply)],
}

/// The same of a new queue. The words around it stay.
fn plays(rt: &impl Abort, alloc: Global, row: &Row<'_>) {
    let (mut words, site) = queue_at(rt, alloc, row.at);
    goes(rt, row.name, &mut words, site, row.list);
    let around = (words.len(), words.first().copied(), words.get(6).copied());
    equal(rt, around, (8, Some(77), Some(0)));
}

/// Of two values that wait, one makes room for a third.
const FULL_AND_EMPTY: &[(Call, QueueReply)] = &[
    (Call::Push(1), QueueReply::Pushed(true)),
    (Call::Push(2), QueueReply::Pushed(true)),
    (Call::IsFull, QueueReply::Full(true)),
    (Call::Push(3), QueueReply::Pushed(false)),
    (Call::Pop, QueueReply::Popped(Some(1))),
    (Call::Push(4), QueueReply::Pushed(true)),
    (Call::Pop, QueueReply::Popped(Some(2))),
    (Call::IsEmpty, QueueReply::Empty(false)),
    (Call::Pop, QueueReply::Popped(Some(4))),
    (Call::Pop, QueueReply::Popped(None)),
    (Call::IsEmpty, QueueReply::Empty(true)),
];

#[test]
fn whole_calls_answer(rt: HostRuntime) {
    const ROWS: &[Row<'_>] = &[
        Row {
            name: "as the plain queue",
            at: (QueueKind::Index, 0),
            list: FULL_AND_EMPTY,
        },
        Row {
            name: "an overflowing push hands back the oldest",
            at: (QueueKind::Overflowing, 0),
            list: &[
                (Call::Push(1), QueueReply::HandedBack(None)),
                (Call::Push(2), QueueReply::HandedBack(None)),
                (Call::Push(3), QueueReply::HandedBack(Some(1))),
                (Call::Pop, QueueReply::Popped(Some(2))),
                (Call::Pop, QueueReply::Popped(Some(3))),
                (Call::Pop, QueueReply::Popped(None)),
            ],
        },
        Row {
            name: "nothing is pushed past the last position",
            at: (QueueKind::Index, u64::MAX - 1),
            list: &[
                (Call::Push(5), QueueReply::Pushed(true)),
                (Call::Push(6), QueueReply::Pushed(false)),
                (Call::Pop, QueueReply::Popped(Some(5))),
                (Call::Pop, QueueReply::Popped(None)),
            ],
        },
        Row {
            name: "what is pushed past the last position comes back",
            at: (QueueKind::Overflowing, u64::MAX - 1),
            list: &[
                (Call::Push(5), QueueReply::HandedBack(None)),
                (Call::Push(6), QueueReply::HandedBack(Some(6))),
                (Call::Pop, QueueReply::Popped(Some(5))),
                (Call::Pop, QueueReply::Popped(None)),
            ],
        },
    ];
    for row in ROWS {
        plays(&rt, rt.alloc(), row);
    }
}

/// The same call of the plain queue.
fn plain_call(queue: &mut IndexQueue, call: Call) -> QueueReply {
    match call {
        Call::Push(value) => QueueReply::Pushed(queue.push(value)),
        Call::Pop => QueueReply::Popped(queue.pop()),
        Call::IsFull => QueueReply::Full(queue.is_full()),
        Call::IsEmpty => QueueReply::Empty(queue.is_empty()),
    }
}

/// A call and its reply.
type Asked = (Call, QueueReply);

impl Answers<usize, Asked, AllocError> for IndexQueue {
    fn made(alloc: Global, capacity: usize) -> Result<Self, AllocError> {
        IndexQueue::new(alloc, capacity)
    }

    fn answers(&mut self, asked: &Asked) -> bool {
        plain_call(self, asked.0) == asked.1
    }
}

#[test]
fn the_plain_queue_answers_as_the_whole_calls(rt: HostRuntime) {
    const ROWS: &[rows::Row<'_, usize, Asked, AllocError>] = &[(
        "full and empty",
        2,
        FULL_AND_EMPTY,
        None,
    )];
    rows::plays::<usize, Asked, AllocError, IndexQueue>(&rt, rt.alloc(), ROWS);
}

/// Pushes 7 to the first of two queues of eight words, and pops from the second.
fn at_two_queues(rt: &impl Abort, alloc: Global) -> ((QueueReply, Option<u64>), Vec<u64>) {
    let mut words = vec![in alloc; 0u64; 8].expect(rt, "eight words");
    let first = Site {
        kind: QueueKind::Index,
        base: 4,
        capacity: 2,
    };
    let second = Site {
        kind: QueueKind::Overflowing,
        base: 0,
        capacity: 1,
    };
    assert!(rt; words.len() == 8 && words[0] == words[1] && words[4] == words[5]);
    holds_when_empty(&words, first);
    holds_when_empty(&words, second);
    let told = push_and_pop(&mut words, first, 7, second);
    (told, words)
}

#[test]
fn two_queues_in_one_list_answer_each_for_itself(rt: HostRuntime) {
    let (told, words) = at_two_queues(&rt, rt.alloc());
    equal(&rt, told, (QueueReply::Pushed(true), None));
    equal(&rt, words.as_slice(), [0, 0, 0, 0, 1, 0, 7, 0].as_slice());
}
