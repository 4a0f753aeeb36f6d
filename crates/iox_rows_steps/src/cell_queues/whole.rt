//! Whole calls on the words of a queue of values of two words. Of what a call promises, the helpers
//! pass on what the next one needs.
ghost use Rattle.std.specs.Prelude.{◌≡◌};
ghost use Rattle.iox_cell_queues.specs.Lists.{HoldsQueue};

use crate::expected::equal;
use crate::rows::{self, Answers};
use iceoryx2_bb_lock_free::Words;
use iox_cell_queues::whole::{holds_when_empty, is_empty, is_full, pop, push};
use iox_cell_queues::{CellCall, CellReply, CellSite};
use iox_queues::spsc::queue::Queue;
use std::alloc::{AllocError, Global};
use std::process::Abort;

/// An empty queue of two values among eight words, with a word before the positions, which are both
/// this.
fn queue_at(rt: &impl Abort, alloc: Global, position: u64) -> (Vec<u64>, CellSite)
    ensures holds { HoldsQueue ⟦<u128 as Words>⟧ result.1 result.0.items }
    ensures wide { result.1.width ≡ 2 }
{
    let words = [77, position, position, 0, 0, 0, 0, 0];
    let words = Vec::from_array(alloc, words).expect(rt, "eight words");
    let site = CellSite {
        base: 1,
        capacity: 2,
        width: 2,
    };
    assert!(rt; words.len() == 8 && words[1] == words[2]);
    holds_when_empty::<u128>(&words, site);
    (words, site)
}

/// A whole call.
fn call(words: &mut Vec<u64>, site: CellSite, call: CellCall<u128>) -> CellReply<u128>
    requires holds { HoldsQueue ⟦<u128 as Words>⟧ site words.old.items }
    requires wide { site.width ≡ 2 }
    ensures { HoldsQueue ⟦<u128 as Words>⟧ site words.new.items }
{
    match call {
        CellCall::Push(value) => CellReply::Pushed(push::<u128, 2>(words, site, value)),
        CellCall::Pop => CellReply::Popped(pop::<u128, 2>(words, site)),
        CellCall::IsFull => CellReply::Full(is_full::<u128, 2>(words, site)),
        CellCall::IsEmpty => CellReply::Empty(is_empty::<u128, 2>(words, site)),
    }
}

/// A call and its reply.
type Asked = (CellCall<u128>, CellReply<u128>);

/// Ends the test if the call has another reply.
fn answers(rt: &impl Abort, words: &mut Vec<u64>, site: CellSite, asked: Asked)
    requires holds { HoldsQueue ⟦<u128 as Words>⟧ site words.old.items }
    requires wide { site.width ≡ 2 }
    ensures { HoldsQueue ⟦<u128 as Words>⟧ site words.new.items }
{
    let reply = call(words, site, asked.0);
    equal(rt, reply, asked.1);
}

/// Asks four calls one after another.
fn goes(rt: &impl Abort, words: &mut Vec<u64>, site: CellSite, list: [Asked; 4])
    requires holds { HoldsQueue ⟦<u128 as Words>⟧ site words.old.items }
    requires wide { site.width ≡ 2 }
    ensures { HoldsQueue ⟦<u128 as Words>⟧ site words.new.items }
{
    answers(rt, words, site, list[0]);
    answers(rt, words, site, list[1]);
    answers(rt, words, site, list[2]);
    answers(rt, words, site, list[3]);
}

/// The same call of the plain queue.
fn plain_call(queue: &mut Queue<u128, 2>, call: CellCall<u128>) -> CellReply<u128> {
    match call {
        CellCall::Push(value) => CellReply::Pushed(queue.push(&value)),
        CellCall::Pop => CellReply::Popped(queue.pop()),
        CellCall::IsFull => CellReply::Full(queue.is_full()),
        CellCall::IsEmpty => CellReply::Empty(queue.is_empty()),
    }
}

impl Answers<(), Asked, AllocError> for Queue<u128, 2> {
    fn made(alloc: Global, _at: ()) -> Result<Self, AllocError> {
        Queue::<u128, 2>::new(alloc)
    }

    fn answers(&mut self, asked: &Asked) -> bool {
        plain_call(self, asked.0) == asked.1
    }
}

/// Calls that fill a new queue at this position, what the words are then, calls that empty it, and
/// the first position then.
struct Row<'a> {
    position: u64,
    filling: [Asked; 4],
    filled: &'a [u64],
    emptying: [Asked; 4],
    emptied: [Asked; 4],
    ended: u64,
}

/// The same as `goes` of the row. The words around the queue stay.
fn goes_on(rt: &impl Abort, words: &mut Vec<u64>, site: CellSite, row: &Row<'_>)
    requires holds { HoldsQueue ⟦<u128 as Words>⟧ site words.old.items }
    requires wide { site.width ≡ 2 }
{
    goes(rt, words, site, row.filling);
    equal(rt, words.as_slice(), row.filled);
    goes(rt, words, site, row.emptying);
    goes(rt, words, site, row.emptied);
    equal(rt, (words.len(), words.first().copied()), (8, Some(77)));
    equal(
        rt,
        (words.get(1).copied(), words.last().copied()),
        (Some(row.ended), Some(0)),
    );
}

/// The same of a new queue.
fn plays(rt: &impl Abort, alloc: Global, row: &Row<'_>) {
    let (mut words, site) = queue_at(rt, alloc, row.position);
    goes_on(rt, &mut words, site, row);
}

/// Values whose two words differ.
const ONE: u128 = (1 << 64) + 5;

const TWO: u128 = (2 << 64) + 5;

const THREE: u128 = (3 << 64) + 5;

const FOUR: u128 = (4 << 64) + 5;

/// Two values fill the queue.
const FILLING: [Asked; 4] = [
    (CellCall::Push(ONE), CellReply::Pushed(true)),
    (CellCall::Push(TWO), CellReply::Pushed(true)),
    (CellCall::Push(THREE), CellReply::Pushed(false)),
    (CellCall::IsFull, CellReply::Full(true)),
];

/// Of two that wait, one makes room for another.
const EMPTYING: [Asked; 4] = [
    (CellCall::Pop, CellReply::Popped(Some(ONE))),
    (CellCall::Push(FOUR), CellReply::Pushed(true)),
    (CellCall::Pop, CellReply::Popped(Some(TWO))),
    (CellCall::IsEmpty, CellReply::Empty(false)),
];

/// The last leaves.
const EMPTIED: [Asked; 4] = [
    (CellCall::Pop, CellReply::Popped(Some(FOUR))),
    (CellCall::Pop, CellReply::Popped(None)),
    (CellCall::IsEmpty, CellReply::Empty(true)),
    (CellCall::IsFull, CellReply::Full(false)),
];

#[test]
fn whole_calls_answer(rt: HostRuntime) {
    const ROWS: &[Row<'_>] = &[
        Row {
            position: 0,
            filling: FILLING,
            filled: &[77, 2, 0, 1, 5, 2, 5, 0],
            emptying: EMPTYING,
            emptied: EMPTIED,
            ended: 3,
        },
        // Nothing is pushed past the last position.
        Row {
            position: u64::MAX - 1,
            filling: [
                (CellCall::Push(ONE), CellReply::Pushed(true)),
                (CellCall::IsFull, CellReply::Full(false)),
                (CellCall::Push(TWO), CellReply::Pushed(false)),
                (CellCall::IsEmpty, CellReply::Empty(false)),
            ],
            filled: &[77, u64::MAX, u64::MAX - 1, 1, 5, 0, 0, 0],
            emptying: [
                (CellCall::Pop, CellReply::Popped(Some(ONE))),
                (CellCall::Pop, CellReply::Popped(None)),
                (CellCall::IsEmpty, CellReply::Empty(true)),
                (CellCall::Push(TWO), CellReply::Pushed(false)),
            ],
            emptied: [
                (CellCall::Pop, CellReply::Popped(None)),
                (CellCall::IsFull, CellReply::Full(false)),
                (CellCall::Pop, CellReply::Popped(None)),
                (CellCall::IsEmpty, CellReply::Empty(true)),
            ],
            ended: u64::MAX,
        },
    ];
    for row in ROWS {
        plays(&rt, rt.alloc(), row);
    }
}

#[test]
fn the_plain_queue_answers_as_the_whole_calls(rt: HostRuntime) {
    const ROWS: &[rows::Row<'_, (), Asked, AllocError>] = &[(
        "full and empty",
        (),
        &[
            (CellCall::Push(ONE), CellReply::Pushed(true)),
            (CellCall::Push(TWO), CellReply::Pushed(true)),
            (CellCall::Push(THREE), CellReply::Pushed(false)),
            (CellCall::IsFull, CellReply::Full(true)),
            (CellCall::Pop, CellReply::Popped(Some(ONE))),
            (CellCall::Push(FOUR), CellReply::Pushed(true)),
            (CellCall::Pop, CellReply::Popped(Some(TWO))),
            (CellCall::IsEmpty, CellReply::Empty(false)),
            (CellCall::Pop, CellReply::Popped(Some(FOUR))),
            (CellCall::Pop, CellReply::Popped(None)),
            (CellCall::IsEmpty, CellReply::Empty(true)),
            (CellCall::IsFull, CellReply::Full(false)),
        ],
        None,
    )];
    rows::plays::<(), Asked, AllocError, Queue<u128, 2>>(&rt, rt.alloc(), ROWS);
}
