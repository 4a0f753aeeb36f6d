//! The paths at which users reach queues, sets and machines, and callers of them.
mod callers;

use self::callers::cells::{cells_played, seven_handed_out};
use self::callers::plain::{
    by_guards, by_guards_of_fixed, evicted_and_kept, evicted_and_kept_by_guards, replaced,
    room_for_one, stored_last,
};
use self::callers::queues::{both_left, played, pushed_and_popped};
use self::callers::readings::{Reading, read_later};
use self::callers::{index_for_a_event, index_of_some_set, lower_bit, oldest_of};
use crate::expected::{equal, holds};
use iceoryx2_bb_lock_free::machine::cells::{CellCall, CellEvent, CellMachine, CellSite};
use iceoryx2_bb_lock_free::machine::{
    Call, Entry, Progress, QueueEvent, QueueKind, QueueMachine, QueueReply, Site,
};
use iceoryx2_bb_lock_free::mpmc::bit_set::FixedSizeBitSet;
use iceoryx2_bb_lock_free::mpmc::counting_bit_set::{CountingBitSet, FixedSizeCountingBitSet};
use iceoryx2_bb_lock_free::mpmc::robust_unique_index_set::{
    OwnerId, RobustUniqueIndexSet, StaticRobustUniqueIndexSet,
};
use iceoryx2_bb_lock_free::mpmc::unique_index_set::{
    FixedSizeUniqueIndexSet, HeadDetails, UniqueIndexSet,
};
use iceoryx2_bb_lock_free::mpmc::unique_index_set_enums::{ReleaseMode, ReleaseState};
use iceoryx2_bb_lock_free::spsc::index_queue::{FixedSizeIndexQueue, IndexQueue};
use iceoryx2_bb_lock_free::spsc::safely_overflowing_index_queue::SafelyOverflowingIndexQueue;
use iceoryx2_bb_lock_free::{Words, ZeroCopySend};
use std::alloc::Global;
use std::process::Abort;

/// A number goes through one queue, and then through the other.
fn through_both(from: &mut FixedSizeIndexQueue<4>, to: &mut IndexQueue) -> Option<u64> {
    if !from.push(9) {
        return None;
    }
    match from.pop() {
        Some(value) if to.push(value) => to.pop(),
        _ => None,
    }
}

#[test]
fn both_queues_are_reached_by_their_paths(rt: HostRuntime) {
    let mut from = FixedSizeIndexQueue::<4>::new(rt.alloc()).expect(&rt, "a queue");
    let mut to = IndexQueue::new(rt.alloc(), 4).expect(&rt, "a queue");
    equal(&rt, through_both(&mut from, &mut to), Some(9));
}

#[test]
fn sets_of_bits_are_reached_by_their_paths(rt: HostRuntime) {
    let mut bits = FixedSizeBitSet::<8>::new(rt.alloc()).expect(&rt, "a set");
    holds(&rt, bits.set(7));
    let mut counts = CountingBitSet::new(rt.alloc(), 8).expect(&rt, "a set");
    holds(&rt, counts.set(7));
    let mut fixed = FixedSizeCountingBitSet::<8>::new(rt.alloc()).expect(&rt, "a set");
    holds(&rt, fixed.set(7));
}

/// Yes, whatever the index.
fn each(_: u32) -> bool {
    true
}

/// An owner takes the first index, and all that it has is recovered.
fn recovered(set: &mut StaticRobustUniqueIndexSet<2>, owner: OwnerId) -> Option<ReleaseState> {
    match set.acquire(owner) {
        Ok(0) => Some(set.recover(owner, each, ReleaseMode::LockIfLastIndex)),
        _ => None,
    }
}

#[test]
fn sets_of_owners_are_reached_by_their_paths(rt: HostRuntime) {
    let owner = OwnerId::new(1).expect(&rt, "an owner");
    let mut robust = RobustUniqueIndexSet::new(rt.alloc(), 2).expect(&rt, "a set");
    equal(&rt, robust.acquire(owner), Ok(0));
    let mut fixed = StaticRobustUniqueIndexSet::<2>::new(rt.alloc()).expect(&rt, "a set");
    equal(
        &rt,
        recovered(&mut fixed, owner),
        Some(ReleaseState::Locked),
    );
    equal(&rt, HeadDetails::from(1).borrowed_indices, 1);
}

#[test]
fn the_callers_answer_as_they_say(rt: HostRuntime) {
    equal(&rt, oldest_of(rt.alloc(), 7, 8).ok(), Some(Some(7)));
    equal(&rt, lower_bit(rt.alloc()).ok(), Some(Some(2)));
    let mut fixed = FixedSizeUniqueIndexSet::<4>::new(rt.alloc()).expect(&rt, "a set");
    equal(&rt, index_for_a_event(&mut fixed), Ok(0));
    let mut set = UniqueIndexSet::new(rt.alloc(), 1).expect(&rt, "a set");
    equal(&rt, index_of_some_set(&mut set), Ok(0));
    equal(&rt, index_of_some_set(&mut set), Ok(0));
}

#[test]
fn callers_of_plain_queues_answer_as_they_say(rt: HostRuntime) {
    let pushed = room_for_one(rt.alloc(), 7, 8);
    equal(&rt, pushed.ok(), Some((true, false)));
    equal(&rt, by_guards(rt.alloc(), 7).ok(), Some(Some(7)));
    equal(&rt, by_guards_of_fixed(rt.alloc(), 7).ok(), Some(Some(7)));
    let both = Some((Some(7), Some(8)));
    equal(&rt, evicted_and_kept(rt.alloc(), 7, 8).ok(), both);
    equal(&rt, evicted_and_kept_by_guards(rt.alloc(), 7, 8).ok(), both);
    equal(&rt, stored_last(7u128, 8), 8);
}

#[test]
fn what_a_guard_does_stays(rt: HostRuntime) {
    let mut queue = SafelyOverflowingIndexQueue::new(rt.alloc(), 1).expect(&rt, "a queue");
    equal(&rt, replaced(&mut queue, 7), None);
    equal(&rt, replaced(&mut queue, 8), Some(7));
}

#[test]
fn a_type_of_ones_own_goes_through_a_queue(rt: HostRuntime) {
    const READING: Reading = Reading {
        sensor: 3,
        level: 40,
    };
    equal(
        &rt,
        read_later(rt.alloc(), READING).ok(),
        Some(Some(READING)),
    );
    equal(&rt, Reading::of_words(&[3, 40]), Some(READING));
    equal(&rt, Reading::of_words(&[3, 1 << 32]), None);
    equal(&rt, Reading::name(), "Reading");
}

/// Plays a schedule at an empty queue of two numbers among four words.
fn machine_after(rt: &impl Abort, alloc: Global, schedule: &[Entry<Call>]) -> QueueMachine {
    let words = Vec::from_array(alloc, [0u64; 4]).expect(rt, "four words");
    assert!(rt; words.len() == 4 && words[0] == words[1]);
    let site = Site {
        kind: QueueKind::Index,
        base: 0,
        capacity: 2,
    };
    played(alloc, words, site, schedule).expect(rt, "a machine")
}

#[test]
fn a_schedule_is_played(rt: HostRuntime) {
    const SCHEDULE: &[Entry<Call>] = &[
        Entry::Begin(0, Call::Push(9)),
        Entry::Step(0),
        Entry::Step(0),
        Entry::Step(0),
        Entry::Step(0),
    ];
    let machine = machine_after(&rt, rt.alloc(), SCHEDULE);
    equal(&rt, machine.words(), [1, 0, 9, 0].as_slice());
    equal(
        &rt,
        machine.events(),
        [QueueEvent::SeesRoom, QueueEvent::Publish(9)].as_slice(),
    );
}

#[test]
fn worked_schedules_end_as_they_say(rt: HostRuntime) {
    const EVENTS: &[QueueEvent] = &[
        QueueEvent::SeesRoom,
        QueueEvent::Publish(7),
        QueueEvent::SeesFull,
        QueueEvent::Publish(8),
        QueueEvent::Evict,
        QueueEvent::Learn(7),
        QueueEvent::SeesWaiting,
        QueueEvent::HandOut(8),
    ];
    let reply = Progress::Done(QueueReply::Popped(Some(7)));
    equal(&rt, pushed_and_popped(rt.alloc(), 7), Ok(reply));
    let machine = both_left(rt.alloc(), 7, 8).expect(&rt, "a machine");
    equal(&rt, machine.events(), EVENTS);
}

/// Plays a schedule at an empty queue of one value of two words among four words.
fn cells_after(
    rt: &impl Abort,
    alloc: Global,
    schedule: &[Entry<CellCall<u128>>],
) -> CellMachine<u128, 2> {
    let words = Vec::from_array(alloc, [0u64; 4]).expect(rt, "four words");
    assert!(rt; words.len() == 4 && words[0] == words[1]);
    let place = CellSite {
        base: 0,
        capacity: 1,
        width: 2,
    };
    cells_played(alloc, words, place, schedule).expect(rt, "a machine")
}

#[test]
fn a_schedule_of_values_is_played(rt: HostRuntime) {
    const SCHEDULE: &[Entry<CellCall<u128>>] = &[
        Entry::Begin(0, CellCall::Push(7)),
        Entry::Step(0),
        Entry::Step(0),
        Entry::Step(0),
        Entry::Step(0),
        Entry::Step(0),
    ];
    let machine = cells_after(&rt, rt.alloc(), SCHEDULE);
    equal(&rt, machine.words(), [1, 0, 0, 7].as_slice());
    equal(
        &rt,
        machine.events(),
        [CellEvent::SeesRoom, CellEvent::Publish(7)].as_slice(),
    );
}

#[test]
fn a_value_is_handed_out(rt: HostRuntime) {
    let machine = seven_handed_out(rt.alloc()).expect(&rt, "a machine");
    equal(&rt, machine.words(), [1, 1, 7].as_slice());
}
