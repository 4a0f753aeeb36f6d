//! Parties that are kept in memory. A test is a list of what is done to them, or calls them by
//! helpers that promise nothing.
use crate::expected::equal;
use crate::rows::{Answers, Row, plays};
use iox_queue_steps::{Call, QueueMachine, StepAnswer, StoredQueue};
use iox_queues::spsc::safely_overflowing_index_queue::SafelyOverflowingIndexQueue;
use iox_steps::{Entry, Progress, QueueKind, QueueReply, Site};
use std::alloc::{AllocError, Global};
use std::process::Abort;

/// Begins a call, if its party is at rest.
fn begin(queue: &mut StoredQueue, call: Call) -> bool {
    match call {
        Call::Push(value) => queue.begin_push(value),
        Call::Pop => queue.begin_pop(),
        Call::IsFull => queue.begin_is_full(),
        Call::IsEmpty => queue.begin_is_empty(),
    }
}

/// An access of the party whose call this is.
fn step(queue: &mut StoredQueue, call: Call) -> StepAnswer {
    match call {
        Call::Push(_) | Call::IsFull => queue.step_push(),
        Call::Pop | Call::IsEmpty => queue.step_pop(),
    }
}

/// Makes accesses of the call until it is done.
fn end(queue: &mut StoredQueue, call: Call) -> StepAnswer {
    for _ in 0..5u64 {
        let answer = step(queue, call);
        if answer != StepAnswer::Going {
            return answer;
        }
    }
    step(queue, call)
}

/// Whether a call is begun and answers this.
fn calls(queue: &mut StoredQueue, call: Call, answer: StepAnswer) -> bool {
    begin(queue, call) && end(queue, call) == answer
}

/// What is done to a queue, and what has to come of it.
enum Deed {
    /// A call is begun, or not.
    Begins(Call, bool),
    /// An access of the party whose call this is.
    Steps(Call, StepAnswer),
    /// The call ends.
    Ends(Call, StepAnswer),
    /// The call is begun, and ends.
    Calls(Call, StepAnswer),
}

impl Answers<(QueueKind, u64), Deed, AllocError> for StoredQueue {
    /// An empty queue of two values among eight words, of this kind and at this position.
    fn made(alloc: Global, at: (QueueKind, u64)) -> Result<Self, AllocError> {
        let (kind, position) = at;
        let words = Vec::from_array(alloc, [0, position, position, 0, 0, 0, 0, 0])?;
        if words.len() != 8 || words[1] != words[2] {
            return Err(AllocError);
        }
        let site = Site {
            kind,
            base: 1,
            capacity: 2,
        };
        Ok(StoredQueue::new(words, site))
    }

    fn answers(&mut self, deed: &Deed) -> bool {
        match deed {
            Deed::Begins(call, begun) => begin(self, *call) == *begun,
            Deed::Steps(call, answer) => step(self, *call) == *answer,
            Deed::Ends(call, answer) => end(self, *call) == *answer,
            Deed::Calls(call, answer) => calls(self, *call, *answer),
        }
    }
}

#[test]
fn parties_go_on_where_they_were(rt: HostRuntime) {
    const ROWS: &[Row<'_, (QueueKind, u64), Deed, AllocError>] = &[
        (
            "looks answer yes and no",
            (QueueKind::Index, 4),
            &[
                Deed::Begins(Call::IsEmpty, true),
                Deed::Begins(Call::IsEmpty, false),
                Deed::Begins(Call::Pop, false),
                Deed::Steps(Call::IsEmpty, StepAnswer::Going),
                Deed::Steps(Call::IsEmpty, StepAnswer::Yes),
                Deed::Begins(Call::IsFull, true),
                Deed::Begins(Call::IsFull, false),
                Deed::Begins(Call::Push(1), false),
                Deed::Steps(Call::IsFull, StepAnswer::Going),
                Deed::Steps(Call::IsFull, StepAnswer::No),
                Deed::Calls(Call::Push(1), StepAnswer::Done),
                Deed::Calls(Call::Push(2), StepAnswer::Done),
                Deed::Begins(Call::IsFull, true),
                Deed::Begins(Call::IsEmpty, true),
                Deed::Ends(Call::IsFull, StepAnswer::Yes),
                Deed::Ends(Call::IsEmpty, StepAnswer::No),
                Deed::Calls(Call::Push(3), StepAnswer::Refuses(3)),
                Deed::Calls(Call::Pop, StepAnswer::Gives(1)),
            ],
            None,
        ),
        (
            "a pop goes on after an eviction",
            (QueueKind::Overflowing, 7),
            &[
                Deed::Calls(Call::Push(1), StepAnswer::Done),
                Deed::Calls(Call::Push(2), StepAnswer::Done),
                Deed::Begins(Call::Pop, true),
                Deed::Steps(Call::Pop, StepAnswer::Going),
                Deed::Steps(Call::Pop, StepAnswer::Going),
                Deed::Steps(Call::Pop, StepAnswer::Going),
                Deed::Begins(Call::Push(3), true),
                Deed::Begins(Call::Push(4), false),
                Deed::Ends(Call::Push(3), StepAnswer::Gives(1)),
                Deed::Begins(Call::Pop, false),
                Deed::Steps(Call::Pop, StepAnswer::Going),
                Deed::Ends(Call::Pop, StepAnswer::Gives(2)),
            ],
            None,
        ),
    ];
    plays::<(QueueKind, u64), Deed, AllocError, StoredQueue>(&rt, rt.alloc(), ROWS);
}

/// How a call ends that gives this, or nothing.
fn giving(value: Option<u64>) -> StepAnswer {
    match value {
        Some(value) => StepAnswer::Gives(value),
        None => StepAnswer::Done,
    }
}

/// Pushes twenty numbers to both, and pops after each third. Both answer the same.
fn goes_on_as(rt: &impl Abort, stored: &mut StoredQueue, plain: &mut SafelyOverflowingIndexQueue) {
    for value in 0..20u64 {
        let pushed = giving(plain.push(value));
        equal(
            rt,
            (value, calls(stored, Call::Push(value), pushed)),
            (value, true),
        );
        if value.is_multiple_of(3) {
            let popped = giving(plain.pop());
            equal(rt, (value, calls(stored, Call::Pop, popped)), (value, true));
        }
    }
}

/// The same of new ones, the stored one at this position.
fn answers_as_plain(rt: &impl Abort, alloc: Global, position: u64) {
    let mut plain = SafelyOverflowingIndexQueue::new(alloc, 2).expect(rt, "a queue");
    let stored = StoredQueue::made(alloc, (QueueKind::Overflowing, position));
    let mut stored = stored.expect(rt, "a queue");
    goes_on_as(rt, &mut stored, &mut plain);
}

#[test]
fn stored_parties_answer_as_the_plain_queue(rt: HostRuntime) {
    for position in 0..5u64 {
        answers_as_plain(&rt, rt.alloc(), position);
    }
}

/// Pushes the numbers from 1 to the last, of which each after the second pushes one out, and pops
/// the two that are left.
fn last_two_are_left(rt: &impl Abort, queue: &mut StoredQueue, last: u64) {
    for value in 1..last.saturating_add(1) {
        let oldest = match value.checked_sub(2) {
            None | Some(0) => None,
            older => older,
        };
        let pushed = calls(queue, Call::Push(value), giving(oldest));
        equal(rt, (last, value, pushed), (last, value, true));
    }
    let before = calls(queue, Call::Pop, giving(last.checked_sub(1)));
    let newest = calls(queue, Call::Pop, giving(Some(last)));
    let none = calls(queue, Call::Pop, StepAnswer::Done);
    equal(rt, (last, before, newest, none), (last, true, true, true));
}

/// The same of a new queue at this position.
fn evicts(rt: &impl Abort, alloc: Global, position: u64, last: u64) {
    let queue = StoredQueue::made(alloc, (QueueKind::Overflowing, position));
    let mut queue = queue.expect(rt, "a queue");
    last_two_are_left(rt, &mut queue, last);
}

#[test]
fn a_pop_finds_its_cell_after_any_number_of_evictions(rt: HostRuntime) {
    for position in 0..4u64 {
        for last in 3..12u64 {
            evicts(&rt, rt.alloc(), position, last);
        }
    }
}

/// Whether a call is begun, and then a schedule played.
fn begin_and_run(
    machine: &mut QueueMachine,
    party: usize,
    call: Call,
    schedule: &[Entry<Call>],
) -> bool {
    machine.begin(party, call).is_ok() && machine.run(schedule).is_ok()
}

/// Whether the numbers from 1 to the last are pushed, and a pop then gives that before the last.
fn pops_after(machine: &mut QueueMachine, last: u64) -> bool {
    for value in 1..last.saturating_add(1) {
        if !begin_and_run(machine, 0, Call::Push(value), &[Entry::Step(0); 6]) {
            return false;
        }
    }
    let popped = Progress::Done(QueueReply::Popped(last.checked_sub(1)));
    begin_and_run(machine, 1, Call::Pop, &[Entry::Step(1); 3]) && machine.step(1) == Ok(popped)
}

/// The same of a new machine.
fn evicts_by_machine(rt: &impl Abort, alloc: Global, last: u64) {
    let machine = QueueMachine::made(alloc, (QueueKind::Overflowing, 2, 0));
    let mut machine = machine.expect(rt, "a machine");
    equal(rt, (last, pops_after(&mut machine, last)), (last, true));
}

#[test]
fn a_machine_pops_after_any_number_of_evictions(rt: HostRuntime) {
    for last in 3..9u64 {
        evicts_by_machine(&rt, rt.alloc(), last);
    }
}
