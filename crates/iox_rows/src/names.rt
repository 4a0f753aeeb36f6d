//! The names that refusals print.
use crate::expected::{equal, prints};
use iox_container::mpmc::container::{ContainerAddFailure, ContainerRemoveError};
use iox_queues::spsc::safely_overflowing_index_queue::SafelyOverflowingIndexQueueNewError;
use iox_sets::mpmc::robust_unique_index_set::{OwnerId, OwnerIdNewError};
use iox_sets::mpmc::unique_index_set_enums::{
    UniqueIndexSetAcquireFailure, UniqueIndexSetNewError,
};

#[test]
fn a_refusal_prints_its_name(rt: HostRuntime) {
    prints(
        &rt,
        rt.alloc(),
        &SafelyOverflowingIndexQueueNewError::CapacityIsZero,
        "SafelyOverflowingIndexQueueNewError::CapacityIsZero",
    );
    prints(
        &rt,
        rt.alloc(),
        &UniqueIndexSetNewError::ExceedsCapacity,
        "UniqueIndexSetNewError::ExceedsCapacity",
    );
    prints(
        &rt,
        rt.alloc(),
        &UniqueIndexSetAcquireFailure::IsLocked,
        "UniqueIndexSetAcquireFailure::IsLocked",
    );
    prints(
        &rt,
        rt.alloc(),
        &OwnerIdNewError::InvalidValue,
        "OwnerIdNewError::InvalidValue",
    );
    prints(
        &rt,
        rt.alloc(),
        &ContainerRemoveError::ContainerHandleNotOwnedByContainer,
        "ContainerRemoveError::ContainerHandleNotOwnedByContainer",
    );
    let full = ContainerAddFailure::from(UniqueIndexSetAcquireFailure::OutOfIndices);
    prints(&rt, rt.alloc(), &full, "ContainerAddFailure::OutOfSpace");
    let locked = ContainerAddFailure::from(UniqueIndexSetAcquireFailure::IsLocked);
    equal(&rt, locked, ContainerAddFailure::IsLocked);
}

#[test]
fn the_greatest_number_is_no_owner(rt: HostRuntime) {
    let refused = OwnerId::new(u64::MAX).err();
    equal(&rt, refused, Some(OwnerIdNewError::InvalidValue));
}
