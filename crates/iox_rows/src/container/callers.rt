//! Callers of each type, proved only from its clauses.
ghost use Rattle.std.specs.Prelude.{IfOk, IsSome, OnOk};
ghost use Rattle.iox_container.specs.Containers.{entry_of};

use iox_container::mpmc::container::{
    Container, ContainerAddFailure, ContainerHandle, ContainerRemoveError, ContainerState,
    FixedSizeContainer,
};
use iox_sets::mpmc::robust_unique_index_set::OwnerId;
use iox_sets::mpmc::unique_index_set_enums::{ReleaseMode, ReleaseState};
use std::alloc::{AllocError, Global};

/// What was just added is removed.
pub fn added_and_removed(
    container: &mut Container<u64>,
    value: u64,
    owner: OwnerId,
) -> Result<ReleaseState, ContainerAddFailure> {
    let handle = container.add(value, owner)?;
    Ok(container.remove(handle, ReleaseMode::Default).unwrap())
}

/// What was added first is still there after another was added, and is removed once.
pub fn removed_once(
    container: &mut Container<u64>,
    owner: OwnerId,
) -> Result<Result<ReleaseState, ContainerRemoveError>, ContainerAddFailure>
    ensures { IfOk result (λ again. OnOk again ⊥) }
{
    let first = container.add(1, owner)?;
    container.add(2, owner)?;
    let _state = container.remove(first, ReleaseMode::Default).unwrap();
    Ok(container.remove(first, ReleaseMode::Default))
}

/// What is found is removed.
pub fn found_and_removed(container: &mut Container<u64>, value: u64) -> Option<ReleaseState> {
    let handle = container.find(|other, _| other == value)?;
    Some(
        container
            .remove(handle, ReleaseMode::LockIfLastIndex)
            .unwrap(),
    )
}

/// What an owner added is gone once it is recovered.
pub fn recovered_and_not_removed(
    container: &mut Container<u64>,
    owner: OwnerId,
) -> Result<Result<ReleaseState, ContainerRemoveError>, ContainerAddFailure>
    ensures { IfOk result (λ removed. OnOk removed ⊥) }
{
    let handle = container.add(1, owner)?;
    container.recover(owner, |_| true, ReleaseMode::Default);
    Ok(container.remove(handle, ReleaseMode::Default))
}

/// What is added has its place in a table of as many places as the container has slots.
pub fn marks_its_place(
    container: &mut FixedSizeContainer<u64, 4>,
    owner: OwnerId,
    table: &mut [bool; 4],
) -> Result<ContainerHandle, ContainerAddFailure>
    ensures { IfOk result (λ handle. IsSome (entry_of container.new handle)) }
{
    let handle = container.add(7, owner)?;
    table[handle.index()] = true;
    Ok(handle)
}

/// A container whose capacity is known when the program is built gives back what it took.
pub fn added_and_removed_of_a_fixed_one(
    container: &mut FixedSizeContainer<u64, 4>,
    owner: OwnerId,
) -> Result<ReleaseState, ContainerAddFailure> {
    let handle = container.add(7, owner)?;
    Ok(container.remove(handle, ReleaseMode::Default).unwrap())
}

/// A state that was taken before is brought up to date.
pub fn brought_up_to_date(
    alloc: Global,
    container: &mut Container<u64>,
    owner: OwnerId,
) -> Result<ContainerState<u64>, AllocError> {
    let mut state = container.get_state(alloc)?;
    let _added = container.add(7, owner).is_ok();
    let _changed = container.update_state(&mut state);
    Ok(state)
}
