//! Sets whose indices have owners. A test is a list of what is asked and of what has to be
//! answered, which `plays` asks.
mod fixed_size;

ghost use Rattle.std.specs.Prelude.{IfSome, IsSome};
ghost use Rattle.iox_sets.specs.OwnedIndices.{owner_of};

use crate::rows::{Answers, Row, plays};
use iox_sets::mpmc::robust_unique_index_set::{OwnerId, RobustUniqueIndexSet};
use iox_sets::mpmc::unique_index_set_enums::{
    ReleaseMode, ReleaseState, UniqueIndexSetAcquireFailure, UniqueIndexSetNewError,
};
use std::alloc::Global;

/// What is asked, and what has to be answered. Owners are told by their numbers.
enum Asked {
    Capacity(usize),
    Borrowed(usize),
    IsLocked(bool),
    Acquire(u64, Result<u32, UniqueIndexSetAcquireFailure>),
    /// The first index of an owner, and how often was asked.
    Find(u64, Option<u32>, u8),
    FindAny(Option<u32>),
    /// The first index of an owner is given back.
    GiveBack(u64, ReleaseState),
    /// The indices of an owner from this one on are given back, and so often was asked.
    Recover(u64, u32, ReleaseState, u8),
}

/// The owner of this number, if it is not the greatest.
fn owner(number: u64) -> Option<OwnerId> {
    match OwnerId::new(number) {
        Ok(owner) => Some(owner),
        Err(_) => None,
    }
}

/// The first index of an owner, or of any, and how often was asked.
fn found(set: &RobustUniqueIndexSet, wanted: Option<OwnerId>) -> (Option<u32>, u8)
    ensures { IfSome result.0 (λ index. IsSome (owner_of set.now index)) }
{
    let mut calls = 0u8;
    let found = set.find(|owner| {
        calls = calls.saturating_add(1);
        wanted == None || wanted == Some(owner)
    });
    (found, calls)
}

/// Gives the first index of an owner back.
fn give_back(set: &mut RobustUniqueIndexSet, owner: OwnerId) -> Option<ReleaseState> {
    match found(set, Some(owner)).0 {
        Some(index) => Some(set.release(index, ReleaseMode::LockIfLastIndex)),
        None => None,
    }
}

/// What a recovery of all indices from this one on answers, and how often it asked.
fn recovered(set: &mut RobustUniqueIndexSet, owner: OwnerId, from: u32) -> (ReleaseState, u8) {
    let mut calls = 0u8;
    let state = set.recover(
        owner,
        |index| {
            calls = calls.saturating_add(1);
            index >= from
        },
        ReleaseMode::LockIfLastIndex,
    );
    (state, calls)
}

impl Answers<usize, Asked, UniqueIndexSetNewError> for RobustUniqueIndexSet {
    fn made(alloc: Global, capacity: usize) -> Result<Self, UniqueIndexSetNewError> {
        RobustUniqueIndexSet::new(alloc, capacity)
    }

    fn answers(&mut self, asked: &Asked) -> bool {
        match asked {
            Asked::Capacity(wanted) => self.capacity() == *wanted,
            Asked::Borrowed(wanted) => self.borrowed_indices() == *wanted,
            Asked::IsLocked(wanted) => self.is_locked() == *wanted,
            Asked::Acquire(of, wanted) => match owner(*of) {
                Some(owner) => self.acquire(owner) == *wanted,
                None => false,
            },
            Asked::Find(of, wanted, calls) => match owner(*of) {
                Some(owner) => found(self, Some(owner)) == (*wanted, *calls),
                None => false,
            },
            Asked::FindAny(wanted) => found(self, None).0 == *wanted,
            Asked::GiveBack(of, wanted) => match owner(*of) {
                Some(owner) => give_back(self, owner) == Some(*wanted),
                None => false,
            },
            Asked::Recover(of, from, wanted, calls) => match owner(*of) {
                Some(owner) => recovered(self, owner, *from) == (*wanted, *calls),
                None => false,
            },
        }
    }
}

#[test]
fn indices_are_taken_and_given_back(rt: HostRuntime) {
    const ROWS: &[Row<'_, usize, Asked, UniqueIndexSetNewError>] = &[
        (
            "the lowest free index is taken",
            3,
            &[
                Asked::Capacity(3),
                Asked::Acquire(7, Ok(0)),
                Asked::Acquire(8, Ok(1)),
                Asked::Acquire(7, Ok(2)),
                Asked::Acquire(7, Err(UniqueIndexSetAcquireFailure::OutOfIndices)),
                Asked::Borrowed(3),
                Asked::FindAny(Some(0)),
                Asked::GiveBack(8, ReleaseState::Unlocked),
                Asked::Acquire(7, Ok(1)),
                Asked::IsLocked(false),
                Asked::Recover(7, 0, ReleaseState::Locked, 3),
                Asked::IsLocked(true),
            ],
            None,
        ),
        (
            "each owner is asked about once, and nothing after a yes",
            4,
            &[
                Asked::Acquire(1, Ok(0)),
                Asked::Acquire(2, Ok(1)),
                Asked::Acquire(1, Ok(2)),
                Asked::Find(2, Some(1), 2),
                Asked::Recover(1, 9, ReleaseState::Unlocked, 2),
            ],
            None,
        ),
        (
            "a capacity of zero is refused",
            0,
            &[],
            Some(UniqueIndexSetNewError::CapacityIsZero),
        ),
        (
            "a capacity past the greatest is refused",
            (1 << 24) - 1,
            &[],
            Some(UniqueIndexSetNewError::CapacityTooLarge),
        ),
    ];
    plays::<usize, Asked, UniqueIndexSetNewError, RobustUniqueIndexSet>(&rt, rt.alloc(), ROWS);
}
