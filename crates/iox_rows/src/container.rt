//! The containers of one thread. A test is a list of what is asked and of what has to be answered,
//! which `plays` asks: what is known of each answer would else stand in the proof of all that come
//! after.
mod callers;
mod capacity_fixed;
mod last_ticket;

use crate::expected::holds;
use crate::rows::{Answers, Row, plays};
use crate::sets::callers::seventh;
use iox_container::mpmc::container::{
    Container, ContainerAddFailure, ContainerHandle, ContainerRemoveError, ContainerState,
};
use iox_sets::mpmc::robust_unique_index_set::OwnerId;
use iox_sets::mpmc::unique_index_set_enums::{ReleaseMode, ReleaseState, UniqueIndexSetNewError};
use iox_words::CallbackProgression;
use std::alloc::Global;
use std::mem;

/// What is asked, and what has to be answered. Owners and handles are told by their numbers.
enum Asked {
    Capacity(usize),
    Len(usize),
    IsEmpty(bool),
    IsLocked(bool),
    /// A value is added for an owner. Its handle gets this number, and its slot is this.
    Add(u64, u64, usize, Result<usize, ContainerAddFailure>),
    Remove(usize, ReleaseMode, Result<ReleaseState, ContainerRemoveError>),
    /// Two handles differ.
    Differ(usize, usize),
    /// The handle of the first entry of a value, and how many were asked about.
    Find(u64, Option<usize>, u8),
    /// The same of the entry of a handle.
    FindAt(usize, u8),
    /// The entries of an owner are removed, or those of a value: which values were asked about
    /// last, and how many.
    Recover(u64, Option<u64>, ReleaseMode, ReleaseState, [u64; 2], u8),
    /// The other container is asked from here on.
    Turn,
    /// A state is taken.
    GetState,
    /// Whether the state was brought up to date.
    Update(bool),
    IsStateOf(bool),
    StateGet(usize, Option<u64>),
    /// The slots and values of the entries that were told last, up to the value 0, the handle of
    /// the last, and how many. What is lacking to two is `NONE` and 0.
    Tells([usize; 2], [u64; 2], usize, u8),
}

const NOT_OWNED: ContainerRemoveError = ContainerRemoveError::ContainerHandleNotOwnedByContainer;

/// The handles that were answered, by their numbers.
type Handles = [Option<ContainerHandle>; 4];

/// The handle of a number, if there is one.
fn handle(handles: &Handles, number: Option<usize>) -> Option<ContainerHandle> {
    match number {
        Some(number) if number < 4 => handles[number],
        _ => None,
    }
}

/// Keeps a handle under a number, and tells its slot.
fn keep(
    handles: &mut Handles,
    number: usize,
    added: Result<ContainerHandle, ContainerAddFailure>,
) -> Result<usize, ContainerAddFailure> {
    match added {
        Ok(handle) => {
            if number < 4 {
                handles[number] = Some(handle);
            }
            Ok(handle.index())
        }
        Err(failure) => Err(failure),
    }
}

/// Whether the handle of a number was found, or none if no number is given.
fn is_handle(handles: &Handles, number: Option<usize>, found: Option<ContainerHandle>) -> bool {
    found.is_some() == number.is_some() && found == handle(handles, number)
}

/// The owner of this number, if it is not the greatest.
fn owner(number: u64) -> Option<OwnerId> {
    match OwnerId::new(number) {
        Ok(owner) => Some(owner),
        Err(_) => None,
    }
}

/// The handle of the first entry of this value, and how many were asked about.
fn found(container: &Container<u64>, wanted: u64) -> (Option<ContainerHandle>, u8) {
    let mut calls = 0u8;
    let found = container.find(|value, _| {
        calls = calls.saturating_add(1);
        value == wanted
    });
    (found, calls)
}

/// What a recovery answers, and which values it asked about last, and how many. It accepts all, or
/// one.
fn recovered(
    container: &mut Container<u64>,
    owner: OwnerId,
    only: Option<u64>,
    mode: ReleaseMode,
) -> (ReleaseState, [u64; 2], u8) {
    let mut asked = [0; 2];
    let mut calls = 0u8;
    let state = container.recover(
        owner,
        |value| {
            asked = [asked[1], value];
            calls = calls.saturating_add(1);
            only == None || only == Some(value)
        },
        mode,
    );
    (state, asked, calls)
}

/// No slot.
const NONE: usize = usize::MAX;

/// The slots and values that a state tells last, if a listing stops at the value 0, the last one's
/// handle, and how many.
fn told(state: &ContainerState<u64>) -> ([usize; 2], [u64; 2], Option<ContainerHandle>, u8) {
    let mut slots = [NONE; 2];
    let mut values = [0; 2];
    let mut last = None;
    let mut calls = 0u8;
    state.for_each(|handle, value| {
        slots = [slots[1], handle.index()];
        values = [values[1], value];
        last = Some(handle);
        calls = calls.saturating_add(1);
        if value == 0 {
            CallbackProgression::Stop
        } else {
            CallbackProgression::Continue
        }
    });
    (slots, values, last, calls)
}

/// Whether the state is of the container, and was not up to date. It is now.
fn is_brought_up_to_date(container: &Container<u64>, state: &mut ContainerState<u64>) -> bool {
    container.is_state_of(state) && container.update_state(state)
}

/// Two containers of so many slots, a state of one, and handles of both.
#[derive(Drop)]
struct Watched {
    alloc: Global,
    container: Container<u64>,
    other: Container<u64>,
    state: ContainerState<u64>,
    handles: Handles,
}

/// Whether that is answered of a state.
fn answers_of_state(it: &mut Watched, asked: &Asked) -> bool {
    match asked {
        Asked::GetState => match it.container.get_state(it.alloc) {
            Ok(state) => {
                it.state = state;
                true
            }
            Err(_) => false,
        },
        Asked::Update(wanted) => { is_brought_up_to_date(&it.container, &mut it.state) == *wanted }
        Asked::IsStateOf(wanted) => it.container.is_state_of(&it.state) == *wanted,
        Asked::StateGet(slot, wanted) => it.state.get(*slot) == *wanted,
        Asked::Tells(slots, values, last, calls) => {
            let last = handle(&it.handles, Some(*last));
            told(&it.state) == (*slots, *values, last, *calls)
        }
        Asked::Turn => {
            mem::swap(&mut it.container, &mut it.other);
            true
        }
        _ => false,
    }
}

impl Answers<usize, Asked, UniqueIndexSetNewError> for Watched {
    fn made(alloc: Global, capacity: usize) -> Result<Self, UniqueIndexSetNewError> {
        let container = Container::<u64>::new(alloc, capacity, 1)?;
        Ok(Watched {
            alloc,
            other: Container::<u64>::new(alloc, capacity, 2)?,
            state: container.get_state(alloc)?,
            container,
            handles: [None; 4],
        })
    }

    fn answers(&mut self, asked: &Asked) -> bool {
        match asked {
            Asked::Capacity(wanted) => self.container.capacity() == *wanted,
            Asked::Len(wanted) => self.container.len() == *wanted,
            Asked::IsEmpty(wanted) => self.container.is_empty() == *wanted,
            Asked::IsLocked(wanted) => self.container.is_locked() == *wanted,
            Asked::Add(value, of, number, wanted) => match owner(*of) {
                Some(owner) => {
                    let added = self.container.add(*value, owner);
                    keep(&mut self.handles, *number, added) == *wanted
                }
                None => false,
            },
            Asked::Remove(number, mode, wanted) => match handle(&self.handles, Some(*number)) {
                Some(handle) => self.container.remove(handle, *mode) == *wanted,
                None => false,
            },
            Asked::Find(value, number, calls) => {
                let (found, asked) = found(&self.container, *value);
                is_handle(&self.handles, *number, found) && asked == *calls
            }
            Asked::Recover(of, only, mode, wanted, last, calls) => match owner(*of) {
                Some(owner) => {
                    let recovered = recovered(&mut self.container, owner, *only, *mode);
                    recovered == (*wanted, *last, *calls)
                }
                None => false,
            },
            _ => answers_of_state(self, asked),
        }
    }
}

#[test]
fn containers_answer(rt: HostRuntime) {
    const ROWS: &[Row<'_, usize, Asked, UniqueIndexSetNewError>] = &[
        (
            "a state shows an entry until it is brought up to date",
            2,
            &[
                Asked::Capacity(2),
                Asked::IsEmpty(true),
                Asked::Add(5, 7, 0, Ok(0)),
                Asked::Len(1),
                Asked::GetState,
                Asked::StateGet(0, Some(5)),
                Asked::Tells([NONE, 0], [0, 5], 0, 1),
                Asked::Remove(0, ReleaseMode::Default, Ok(ReleaseState::Unlocked)),
                Asked::IsEmpty(true),
                Asked::StateGet(0, Some(5)),
                Asked::Update(true),
                Asked::StateGet(0, None),
                Asked::StateGet(2, None),
                Asked::IsStateOf(true),
                Asked::Update(false),
                Asked::Turn,
                Asked::IsStateOf(false),
            ],
            None,
        ),
        (
            "a handle of another container removes nothing",
            2,
            &[
                Asked::Add(5, 7, 0, Ok(0)),
                Asked::Turn,
                Asked::Add(5, 7, 1, Ok(0)),
                Asked::Turn,
                Asked::Remove(1, ReleaseMode::Default, Err(NOT_OWNED)),
                Asked::Find(5, Some(0), 1),
                Asked::Turn,
                Asked::Find(5, Some(1), 1),
            ],
            None,
        ),
        (
            "a recovery removes what its owner has",
            4,
            &[
                Asked::Add(5, 1, 0, Ok(0)),
                Asked::Add(6, 2, 1, Ok(1)),
                Asked::Add(7, 1, 2, Ok(2)),
                Asked::Recover(
                    1,
                    Some(7),
                    ReleaseMode::LockIfLastIndex,
                    ReleaseState::Unlocked,
                    [5, 7],
                    2,
                ),
                Asked::Len(2),
                Asked::Remove(2, ReleaseMode::Default, Err(NOT_OWNED)),
                Asked::Find(6, Some(1), 2),
                Asked::Recover(
                    2,
                    None,
                    ReleaseMode::LockIfLastIndex,
                    ReleaseState::Unlocked,
                    [0, 6],
                    1,
                ),
                Asked::Find(5, Some(0), 1),
                Asked::Recover(
                    1,
                    None,
                    ReleaseMode::LockIfLastIndex,
                    ReleaseState::Locked,
                    [0, 5],
                    1,
                ),
                Asked::IsLocked(true),
            ],
            None,
        ),
        (
            "a listing stops where it is told",
            3,
            &[
                Asked::Add(1, 7, 0, Ok(0)),
                Asked::Add(0, 7, 1, Ok(1)),
                Asked::Add(1, 7, 2, Ok(2)),
                Asked::GetState,
                Asked::Tells([0, 1], [1, 0], 1, 2),
            ],
            None,
        ),
        (
            "each entry is asked about once, and none after a yes",
            4,
            &[
                Asked::Add(5, 1, 0, Ok(0)),
                Asked::Add(6, 2, 1, Ok(1)),
                Asked::Add(7, 1, 2, Ok(2)),
                Asked::Find(6, Some(1), 2),
                Asked::Recover(
                    1,
                    Some(9),
                    ReleaseMode::Default,
                    ReleaseState::Unlocked,
                    [5, 7],
                    2,
                ),
                Asked::Len(3),
            ],
            None,
        ),
        (
            "a capacity of zero is refused",
            0,
            &[],
            Some(UniqueIndexSetNewError::CapacityIsZero),
        ),
        (
            "a capacity past the greatest is refused",
            16_777_215,
            &[],
            Some(UniqueIndexSetNewError::CapacityTooLarge),
        ),
    ];
    plays::<usize, Asked, UniqueIndexSetNewError, Watched>(&rt, rt.alloc(), ROWS);
}

/// Whether an entry has the value yes.
fn is_yes(value: bool, _: ContainerHandle) -> bool {
    value
}

/// Whether a value that is no number is found again.
fn comes_back(container: &mut Container<bool>, owner: OwnerId) -> bool {
    match container.add(true, owner) {
        Ok(handle) => container.find(is_yes) == Some(handle),
        Err(_) => false,
    }
}

#[test]
fn a_value_that_is_no_number_comes_back(rt: HostRuntime) {
    let mut container = Container::<bool>::new(rt.alloc(), 1, 1).expect(&rt, "a container");
    holds(&rt, comes_back(&mut container, seventh()));
}
