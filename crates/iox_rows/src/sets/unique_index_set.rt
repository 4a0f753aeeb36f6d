//! Sets of indices. A test is a list of what is asked and of what has to be answered, which `plays`
//! asks.
use crate::expected::{equal, holds};
use crate::rows::{Answers, Row, plays};
use iox_sets::mpmc::unique_index_set::{FixedSizeUniqueIndexSet, HeadDetails, UniqueIndexSet};
use iox_sets::mpmc::unique_index_set_enums::{
    ReleaseMode, ReleaseState, UniqueIndexSetAcquireFailure, UniqueIndexSetNewError,
};
use std::alloc::Global;
use std::test::Fail;

/// What is asked, and what has to be answered.
enum Asked {
    Capacity(usize),
    Borrowed(usize),
    IsLocked(bool),
    Acquire(Result<u32, UniqueIndexSetAcquireFailure>),
    /// A guard holds this index, and ends.
    Hold(u32),
    /// An index is taken and given back.
    GiveBack(ReleaseState),
}

/// What a guard holds, which ends.
fn held(set: &mut UniqueIndexSet) -> Option<u32> {
    match set.acquire() {
        Ok(index) => Some(index.value()),
        Err(_) => None,
    }
}

/// What a guard holds, which ends, where the type gives the capacity.
fn held_fixed<const CAPACITY: usize>(set: &mut FixedSizeUniqueIndexSet<CAPACITY>) -> Option<u32> {
    match set.acquire() {
        Ok(index) => Some(index.value()),
        Err(_) => None,
    }
}

/// Takes an index and gives it back.
fn given_back<const CAPACITY: usize>(
    set: &mut FixedSizeUniqueIndexSet<CAPACITY>,
) -> Option<ReleaseState> {
    match set.acquire_raw_index() {
        Ok(index) => Some(set.release_raw_index(index, ReleaseMode::LockIfLastIndex)),
        Err(_) => None,
    }
}

impl Answers<usize, Asked, UniqueIndexSetNewError> for UniqueIndexSet {
    fn made(alloc: Global, capacity: usize) -> Result<Self, UniqueIndexSetNewError> {
        UniqueIndexSet::new(alloc, capacity)
    }

    fn answers(&mut self, asked: &Asked) -> bool {
        match asked {
            Asked::Capacity(wanted) => self.capacity() == *wanted,
            Asked::Borrowed(wanted) => self.borrowed_indices() == *wanted,
            Asked::IsLocked(wanted) => self.is_locked() == *wanted,
            Asked::Acquire(wanted) => self.acquire_raw_index() == *wanted,
            Asked::Hold(wanted) => held(self) == Some(*wanted),
            Asked::GiveBack(_) => false,
        }
    }
}

impl Answers<Option<usize>, Asked, UniqueIndexSetNewError> for FixedSizeUniqueIndexSet<4> {
    fn made(alloc: Global, reduced: Option<usize>) -> Result<Self, UniqueIndexSetNewError> {
        match reduced {
            Some(capacity) => FixedSizeUniqueIndexSet::new_with_reduced_capacity(alloc, capacity),
            None => FixedSizeUniqueIndexSet::new(alloc),
        }
    }

    fn answers(&mut self, asked: &Asked) -> bool {
        match asked {
            Asked::Capacity(wanted) => self.capacity() == *wanted,
            Asked::Borrowed(wanted) => self.borrowed_indices() == *wanted,
            Asked::IsLocked(wanted) => self.is_locked() == *wanted,
            Asked::Acquire(wanted) => self.acquire_raw_index() == *wanted,
            Asked::Hold(wanted) => held_fixed(self) == Some(*wanted),
            Asked::GiveBack(wanted) => given_back(self) == Some(*wanted),
        }
    }
}

#[test]
fn indices_are_taken_and_given_back(rt: HostRuntime) {
    const ROWS: &[Row<'_, usize, Asked, UniqueIndexSetNewError>] = &[
        (
            "no more than all are taken",
            3,
            &[
                Asked::Acquire(Ok(0)),
                Asked::Acquire(Ok(1)),
                Asked::Acquire(Ok(2)),
                Asked::Acquire(Err(UniqueIndexSetAcquireFailure::OutOfIndices)),
                Asked::Borrowed(3),
            ],
            None,
        ),
        (
            "a guard gives its index back",
            2,
            &[
                Asked::Hold(0),
                Asked::Hold(0),
                Asked::Hold(0),
                Asked::Borrowed(0),
            ],
            None,
        ),
        (
            "a capacity of zero is refused",
            0,
            &[],
            Some(UniqueIndexSetNewError::CapacityIsZero),
        ),
        (
            "a capacity past the greatest is refused",
            (1 << 24) - 1,
            &[],
            Some(UniqueIndexSetNewError::CapacityTooLarge),
        ),
    ];
    const FIXED: &[Row<'_, Option<usize>, Asked, UniqueIndexSetNewError>] = &[
        (
            "the last index locks for good",
            None,
            &[
                Asked::Hold(0),
                Asked::Borrowed(0),
                Asked::GiveBack(ReleaseState::Locked),
                Asked::IsLocked(true),
                Asked::Acquire(Err(UniqueIndexSetAcquireFailure::IsLocked)),
            ],
            None,
        ),
        (
            "a reduced capacity is kept",
            Some(2),
            &[
                Asked::Capacity(2),
                Asked::Acquire(Ok(0)),
                Asked::Acquire(Ok(1)),
                Asked::Acquire(Err(UniqueIndexSetAcquireFailure::OutOfIndices)),
            ],
            None,
        ),
        (
            "a capacity past that of the type is refused",
            Some(5),
            &[],
            Some(UniqueIndexSetNewError::ExceedsCapacity),
        ),
    ];
    plays::<usize, Asked, UniqueIndexSetNewError, UniqueIndexSet>(&rt, rt.alloc(), ROWS);
    plays::<Option<usize>, Asked, UniqueIndexSetNewError, FixedSizeUniqueIndexSet<4>>(
        &rt,
        rt.alloc(),
        FIXED,
    );
}

#[test]
fn the_last_that_was_given_back_is_taken_first(rt: HostRuntime) -> Result<(), Fail> {
    let mut set = UniqueIndexSet::new(rt.alloc(), 3)?;
    equal(&rt, set.capacity(), 3);
    let zero = set.acquire_raw_index()?;
    let one = set.acquire_raw_index()?;
    let two = set.acquire_raw_index()?;
    equal(&rt, [zero, one, two], [0, 1, 2]);
    equal(
        &rt,
        set.acquire_raw_index(),
        Err(UniqueIndexSetAcquireFailure::OutOfIndices),
    );
    set.release_raw_index(zero, ReleaseMode::Default);
    set.release_raw_index(two, ReleaseMode::Default);
    equal(&rt, set.borrowed_indices(), 1);
    let again = set.acquire_raw_index()?;
    equal(&rt, again, 2);
    let unlocked = set.release_raw_index(again, ReleaseMode::LockIfLastIndex);
    equal(&rt, unlocked, ReleaseState::Unlocked);
    holds(&rt, !set.is_locked());
    let locked = set.release_raw_index(one, ReleaseMode::LockIfLastIndex);
    equal(&rt, locked, ReleaseState::Locked);
    holds(&rt, set.is_locked());
    equal(
        &rt,
        set.acquire_raw_index(),
        Err(UniqueIndexSetAcquireFailure::IsLocked),
    );
    Ok(())
}

#[test]
fn head_details_come_back(rt: HostRuntime) {
    let details = HeadDetails {
        head: 12345,
        aba: 6789,
        borrowed_indices: 54321,
    };
    equal(&rt, details.value(), 0x0030_391A_8500_D431);
    equal(&rt, HeadDetails::from(0x0030_391A_8500_D431), details);
}
