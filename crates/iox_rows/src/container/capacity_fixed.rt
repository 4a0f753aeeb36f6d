//! Containers whose capacity is known when the program is built.
use super::{Asked, Handles, NOT_OWNED, handle, is_handle, keep, owner};
use crate::rows::{Answers, Row, plays};
use iox_container::mpmc::container::{
    ContainerAddFailure, ContainerHandle, ContainerState, FixedSizeContainer,
};
use iox_sets::mpmc::robust_unique_index_set::OwnerId;
use iox_sets::mpmc::unique_index_set_enums::{ReleaseMode, ReleaseState, UniqueIndexSetNewError};
use std::alloc::Global;

/// The handle of the first entry of this value, or of this handle, and how many were asked about.
fn found<const CAPACITY: usize>(
    container: &FixedSizeContainer<u64, CAPACITY>,
    wanted: Option<u64>,
    at: Option<ContainerHandle>,
) -> (Option<ContainerHandle>, u8) {
    let mut calls = 0u8;
    let found = container.find(|value, handle| {
        calls = calls.saturating_add(1);
        wanted == Some(value) || at == Some(handle)
    });
    (found, calls)
}

/// What a recovery answers that accepts all, and which values it asked about last, and how many.
fn recovered<const CAPACITY: usize>(
    container: &mut FixedSizeContainer<u64, CAPACITY>,
    owner: OwnerId,
    mode: ReleaseMode,
) -> (ReleaseState, [u64; 2], u8) {
    let mut asked = [0; 2];
    let mut calls = 0u8;
    let state = container.recover(
        owner,
        |value| {
            asked = [asked[1], value];
            calls = calls.saturating_add(1);
            true
        },
        mode,
    );
    (state, asked, calls)
}

/// Whether the state is of the container, and was not up to date. It is now.
fn is_brought_up_to_date<const CAPACITY: usize>(
    container: &FixedSizeContainer<u64, CAPACITY>,
    state: &mut ContainerState<u64>,
) -> bool {
    container.is_state_of(state) && container.update_state(state)
}

/// A container, a state of it, and handles.
#[derive(Drop)]
struct Watched<const CAPACITY: usize> {
    alloc: Global,
    container: FixedSizeContainer<u64, CAPACITY>,
    state: ContainerState<u64>,
    handles: Handles,
}

/// Whether these are two handles, and differ.
fn differ(one: Option<ContainerHandle>, other: Option<ContainerHandle>) -> bool {
    one.is_some() && other.is_some() && one != other
}

/// Whether that is answered of a state, or by a search.
fn answers_of_state<const CAPACITY: usize>(it: &mut Watched<CAPACITY>, asked: &Asked) -> bool {
    match asked {
        Asked::GetState => match it.container.get_state(it.alloc) {
            Ok(state) => {
                it.state = state;
                true
            }
            Err(_) => false,
        },
        Asked::Update(wanted) => { is_brought_up_to_date(&it.container, &mut it.state) == *wanted }
        Asked::IsStateOf(wanted) => it.container.is_state_of(&it.state) == *wanted,
        Asked::StateGet(slot, wanted) => it.state.get(*slot) == *wanted,
        Asked::Differ(one, other) => {
            differ(
                handle(&it.handles, Some(*one)),
                handle(&it.handles, Some(*other)),
            )
        }
        Asked::Find(value, number, calls) => {
            let (found, asked) = found(&it.container, Some(*value), None);
            is_handle(&it.handles, *number, found) && asked == *calls
        }
        Asked::FindAt(number, calls) => {
            let (found, asked) = found(&it.container, None, handle(&it.handles, Some(*number)));
            is_handle(&it.handles, Some(*number), found) && asked == *calls
        }
        _ => false,
    }
}

impl<const CAPACITY: usize> Answers<(), Asked, UniqueIndexSetNewError> for Watched<CAPACITY> {
    fn made(alloc: Global, _at: ()) -> Result<Self, UniqueIndexSetNewError> {
        let container = FixedSizeContainer::<u64, CAPACITY>::new(alloc, 1)?;
        Ok(Watched {
            alloc,
            state: container.get_state(alloc)?,
            container,
            handles: [None; 4],
        })
    }

    fn answers(&mut self, asked: &Asked) -> bool {
        match asked {
            Asked::Capacity(wanted) => self.container.capacity() == *wanted,
            Asked::Len(wanted) => self.container.len() == *wanted,
            Asked::IsEmpty(wanted) => self.container.is_empty() == *wanted,
            Asked::IsLocked(wanted) => self.container.is_locked() == *wanted,
            Asked::Add(value, of, number, wanted) => match owner(*of) {
                Some(owner) => {
                    let added = self.container.add(*value, owner);
                    keep(&mut self.handles, *number, added) == *wanted
                }
                None => false,
            },
            Asked::Remove(number, mode, wanted) => match handle(&self.handles, Some(*number)) {
                Some(handle) => self.container.remove(handle, *mode) == *wanted,
                None => false,
            },
            Asked::Recover(of, None, mode, wanted, last, calls) => match owner(*of) {
                Some(owner) => {
                    let recovered = recovered(&mut self.container, owner, *mode);
                    recovered == (*wanted, *last, *calls)
                }
                None => false,
            },
            _ => answers_of_state(self, asked),
        }
    }
}

const LOCK: ReleaseMode = ReleaseMode::LockIfLastIndex;

const OF_TWO: &[Row<'_, (), Asked, UniqueIndexSetNewError>] = &[
    (
        "the same value under a new handle is a change",
        (),
        &[
            Asked::Capacity(2),
            Asked::Add(5, 7, 0, Ok(0)),
            Asked::GetState,
            Asked::Remove(0, ReleaseMode::Default, Ok(ReleaseState::Unlocked)),
            Asked::Add(5, 7, 1, Ok(0)),
            Asked::Differ(0, 1),
            Asked::Update(true),
            Asked::StateGet(0, Some(5)),
            Asked::Remove(0, ReleaseMode::LockIfLastIndex, Err(NOT_OWNED)),
            Asked::Len(1),
            Asked::IsStateOf(true),
            Asked::Update(false),
        ],
        None,
    ),
    (
        "the last entry locks for good",
        (),
        &[
            Asked::Add(5, 7, 0, Ok(0)),
            Asked::Add(6, 7, 1, Ok(1)),
            Asked::Add(7, 7, 2, Err(ContainerAddFailure::OutOfSpace)),
            Asked::Remove(0, LOCK, Ok(ReleaseState::Unlocked)),
            Asked::IsLocked(false),
            Asked::Remove(0, LOCK, Err(NOT_OWNED)),
            Asked::Remove(1, LOCK, Ok(ReleaseState::Locked)),
            Asked::IsLocked(true),
            Asked::IsEmpty(true),
            Asked::Add(8, 7, 2, Err(ContainerAddFailure::IsLocked)),
            Asked::Recover(
                7,
                None,
                ReleaseMode::Default,
                ReleaseState::Locked,
                [0, 0],
                0,
            ),
            Asked::Add(8, 7, 2, Err(ContainerAddFailure::IsLocked)),
        ],
        None,
    ),
];

const OF_FOUR: &[Row<'_, (), Asked, UniqueIndexSetNewError>] = &[
    (
        "the first in slot order is found",
        (),
        &[
            Asked::Add(5, 7, 0, Ok(0)),
            Asked::Add(6, 7, 1, Ok(1)),
            Asked::Add(6, 7, 2, Ok(2)),
            Asked::Find(6, Some(1), 2),
            Asked::FindAt(2, 3),
            Asked::Find(7, None, 3),
            Asked::Remove(0, ReleaseMode::Default, Ok(ReleaseState::Unlocked)),
            Asked::Add(6, 7, 3, Ok(0)),
            Asked::Find(6, Some(3), 1),
        ],
        None,
    ),
    (
        "each entry is asked about once",
        (),
        &[
            Asked::Add(5, 1, 0, Ok(0)),
            Asked::Add(6, 2, 1, Ok(1)),
            Asked::Add(7, 1, 2, Ok(2)),
            Asked::Find(9, None, 3),
            Asked::Recover(
                1,
                None,
                ReleaseMode::Default,
                ReleaseState::Unlocked,
                [5, 7],
                2,
            ),
            Asked::Len(1),
        ],
        None,
    ),
];

const OF_NONE: &[Row<'_, (), Asked, UniqueIndexSetNewError>] = &[(
    "a capacity of zero is refused",
    (),
    &[],
    Some(UniqueIndexSetNewError::CapacityIsZero),
)];

#[test]
fn containers_whose_type_gives_the_capacity_answer(rt: HostRuntime) {
    plays::<(), Asked, UniqueIndexSetNewError, Watched<2>>(&rt, rt.alloc(), OF_TWO);
    plays::<(), Asked, UniqueIndexSetNewError, Watched<4>>(&rt, rt.alloc(), OF_FOUR);
    plays::<(), Asked, UniqueIndexSetNewError, Watched<0>>(&rt, rt.alloc(), OF_NONE);
}
