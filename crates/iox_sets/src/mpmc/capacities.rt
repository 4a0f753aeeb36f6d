//! Which capacities a set of indices may have.
ghost use Rattle.std.specs.Prelude.{◌≡◌, ◌<◌, ◌≤◌, IfErr, None, OnOk, Some};
ghost use Rattle.iox_sets.specs.IndexSets.{capacity_refusal, max_capacity, reduced_refusal};

use crate::mpmc::unique_index_set_enums::UniqueIndexSetNewError;

/// The greatest capacity of a set of indices.
const MAX_CAPACITY: usize = (1 << 24) - 2;

/// Whether a set of this capacity may be made.
pub(crate) fn check_capacity(capacity: usize) -> Result<(), UniqueIndexSetNewError>
    ensures allowed { OnOk result (capacity_refusal capacity ≡ None) }
    ensures above { OnOk result (0 < capacity) }
    ensures below { OnOk result (capacity ≤ max_capacity) }
    ensures refused { IfErr result (λ error. capacity_refusal capacity ≡ Some error) }
{
    if capacity == 0 {
        return Err(UniqueIndexSetNewError::CapacityIsZero);
    }
    if capacity > MAX_CAPACITY {
        return Err(UniqueIndexSetNewError::CapacityTooLarge);
    }
    Ok(())
}

/// Whether a set with room for `capacity` indices may be made that has only `reduced` of them.
pub(crate) fn check_reduced(capacity: usize, reduced: usize) -> Result<(), UniqueIndexSetNewError>
    ensures allowed { OnOk result (reduced_refusal capacity reduced ≡ None) }
    ensures alone { OnOk result (capacity_refusal reduced ≡ None) }
    ensures within { OnOk result (reduced ≤ capacity) }
    ensures refused { IfErr result (λ error. reduced_refusal capacity reduced ≡ Some error) }
{
    check_capacity(capacity)?;
    if reduced == 0 {
        return Err(UniqueIndexSetNewError::CapacityIsZero);
    }
    if reduced > capacity {
        return Err(UniqueIndexSetNewError::ExceedsCapacity);
    }
    Ok(())
}
