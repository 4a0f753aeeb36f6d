//! Those whose type gives the capacity.
ghost use Rattle.std.specs.Prelude.{IfSome, IsSome};
ghost use Rattle.iox_sets.specs.OwnedIndices.{owner_of};

use super::{Asked, owner};
use crate::rows::{Answers, Row, plays};
use iox_sets::mpmc::robust_unique_index_set::{OwnerId, StaticRobustUniqueIndexSet};
use iox_sets::mpmc::unique_index_set_enums::{
    ReleaseMode, ReleaseState, UniqueIndexSetAcquireFailure, UniqueIndexSetNewError,
};
use std::alloc::Global;

/// The first index of an owner, or of any, and how often was asked.
fn found<const CAPACITY: usize>(
    set: &StaticRobustUniqueIndexSet<CAPACITY>,
    wanted: Option<OwnerId>,
) -> (Option<u32>, u8)
    ensures { IfSome result.0 (λ index. IsSome (owner_of set.now index)) }
{
    let mut calls = 0u8;
    let found = set.find(|owner| {
        calls = calls.saturating_add(1);
        wanted == None || wanted == Some(owner)
    });
    (found, calls)
}

/// Gives the first index of an owner back.
fn give_back<const CAPACITY: usize>(
    set: &mut StaticRobustUniqueIndexSet<CAPACITY>,
    owner: OwnerId,
) -> Option<ReleaseState> {
    match found(set, Some(owner)).0 {
        Some(index) => Some(set.release(index, ReleaseMode::LockIfLastIndex)),
        None => None,
    }
}

/// What a recovery of all indices from this one on answers, and how often it asked.
fn recovered<const CAPACITY: usize>(
    set: &mut StaticRobustUniqueIndexSet<CAPACITY>,
    owner: OwnerId,
    from: u32,
) -> (ReleaseState, u8) {
    let mut calls = 0u8;
    let state = set.recover(
        owner,
        |index| {
            calls = calls.saturating_add(1);
            index >= from
        },
        ReleaseMode::LockIfLastIndex,
    );
    (state, calls)
}

impl<const CAPACITY: usize> Answers<Option<usize>, Asked, UniqueIndexSetNewError>
    for StaticRobustUniqueIndexSet<CAPACITY> {
    fn made(alloc: Global, reduced: Option<usize>) -> Result<Self, UniqueIndexSetNewError> {
        match reduced {
            Some(capacity) => {
                StaticRobustUniqueIndexSet::new_with_reduced_capacity(alloc, capacity)
            }
            None => StaticRobustUniqueIndexSet::new(alloc),
        }
    }

    fn answers(&mut self, asked: &Asked) -> bool {
        match asked {
            Asked::Capacity(wanted) => self.capacity() == *wanted,
            Asked::Borrowed(wanted) => self.borrowed_indices() == *wanted,
            Asked::IsLocked(wanted) => self.is_locked() == *wanted,
            Asked::Acquire(of, wanted) => match owner(*of) {
                Some(owner) => self.acquire(owner) == *wanted,
                None => false,
            },
            Asked::Find(of, wanted, calls) => match owner(*of) {
                Some(owner) => found(self, Some(owner)) == (*wanted, *calls),
                None => false,
            },
            Asked::FindAny(wanted) => found(self, None).0 == *wanted,
            Asked::GiveBack(of, wanted) => match owner(*of) {
                Some(owner) => give_back(self, owner) == Some(*wanted),
                None => false,
            },
            Asked::Recover(of, from, wanted, calls) => match owner(*of) {
                Some(owner) => recovered(self, owner, *from) == (*wanted, *calls),
                None => false,
            },
        }
    }
}

#[test]
fn indices_of_a_set_whose_type_gives_the_capacity_are_given_back(rt: HostRuntime) {
    const OF_70: &[Row<'_, Option<usize>, Asked, UniqueIndexSetNewError>] = &[(
        "a recovery frees what its owner holds",
        None,
        &[
            Asked::Acquire(1, Ok(0)),
            Asked::Acquire(2, Ok(1)),
            Asked::Acquire(1, Ok(2)),
            Asked::Find(2, Some(1), 2),
            Asked::Recover(1, 1, ReleaseState::Unlocked, 2),
            Asked::Acquire(2, Ok(2)),
            Asked::Recover(2, 0, ReleaseState::Unlocked, 2),
            Asked::Borrowed(1),
            Asked::Recover(1, 0, ReleaseState::Locked, 1),
            Asked::IsLocked(true),
            Asked::Acquire(1, Err(UniqueIndexSetAcquireFailure::IsLocked)),
            Asked::FindAny(None),
        ],
        None,
    )];
    const OF_4: &[Row<'_, Option<usize>, Asked, UniqueIndexSetNewError>] = &[
        (
            "each owner is asked about once",
            None,
            &[
                Asked::Acquire(1, Ok(0)),
                Asked::Acquire(2, Ok(1)),
                Asked::Acquire(1, Ok(2)),
                Asked::Find(2, Some(1), 2),
                Asked::Find(3, None, 3),
                Asked::Recover(1, 0, ReleaseState::Unlocked, 2),
                Asked::Borrowed(1),
            ],
            None,
        ),
        (
            "a reduced capacity is kept",
            Some(2),
            &[
                Asked::Capacity(2),
                Asked::Acquire(3, Ok(0)),
                Asked::GiveBack(3, ReleaseState::Locked),
            ],
            None,
        ),
        (
            "a capacity of zero is refused",
            Some(0),
            &[],
            Some(UniqueIndexSetNewError::CapacityIsZero),
        ),
        (
            "a capacity past that of the type is refused",
            Some(5),
            &[],
            Some(UniqueIndexSetNewError::ExceedsCapacity),
        ),
    ];
    const OF_0: &[Row<'_, Option<usize>, Asked, UniqueIndexSetNewError>] = &[(
        "a type of no index is refused",
        None,
        &[],
        Some(UniqueIndexSetNewError::CapacityIsZero),
    )];
    plays::<Option<usize>, Asked, UniqueIndexSetNewError, StaticRobustUniqueIndexSet<70>>(
        &rt,
        rt.alloc(),
        OF_70,
    );
    plays::<Option<usize>, Asked, UniqueIndexSetNewError, StaticRobustUniqueIndexSet<4>>(
        &rt,
        rt.alloc(),
        OF_4,
    );
    plays::<Option<usize>, Asked, UniqueIndexSetNewError, StaticRobustUniqueIndexSet<0>>(
        &rt,
        rt.alloc(),
        OF_0,
    );
}
