//! A set of indices, of which each is held once, the last that was given back being taken first.
ghost use Rattle.std.specs.Prelude.{◌≡◌, ◌≤◌, ◌-◌, IfErr, IfOk, IsTrue, None, OnErr, OnOk, Some, false, length};
ghost use Rattle.std.specs.List.{range_with_len};
ghost use Rattle.iox_sets.specs.declared.mpmc.unique_index_set_enums.UniqueIndexSetNewError.TheVariants.{WantOfMemory};
ghost use Rattle.iox_sets.specs.Refusals.{IsRefusal};
ghost use Rattle.iox_sets.specs.IndexSets.{IsHeld, Takes, acquire_refusal, capacity_refusal, held_count, new_index_set, state_after, with_released};

use crate::mpmc::capacities::check_capacity;
use crate::mpmc::unique_index_set_enums::{
    ReleaseMode, ReleaseState, UniqueIndexSetAcquireFailure, UniqueIndexSetNewError,
};
pub use fixed_size::FixedSizeUniqueIndexSet;
pub use fixed_size_unique_index::FixedSizeUniqueIndex;
pub use head_details::HeadDetails;
use std::alloc::{AllocError, Global};
use std::marker::Model;
pub use unique_index::UniqueIndex;

mod fixed_size;
mod fixed_size_unique_index;
mod head_details;
mod unique_index;

/// A set of the indices below `capacity`. It takes memory when it is made, and never again.
///
/// At first the indices are taken from 0 on, ascending.
#[derive(Debug, Drop)]
pub struct UniqueIndexSet {
    // The free indices stand in the first `free` places, the next one last. Those of a locked set
    // stand in all places.
    places: Vec<u32>,
    // How many may be taken: none once the set is locked.
    free: usize,
    locked: bool,
}

impl Model for UniqueIndexSet {
    ghost use Rattle.iox_sets.specs.IndexSets.{IndexSet};
    ghost use Rattle.iox_sets.specs.FreeLists.{AreIndexPlaces, set_in_places};

    ghost Value = { IndexSet };

    ghost view = { λ set. set_in_places set.places.items set.free set.locked };

    ghost invariant = { λ set. AreIndexPlaces set.places.items set.free set.locked };
}

impl UniqueIndexSet {
    /// Makes an open set of the indices below `capacity`, all of which are free.
    pub fn new(alloc: Global, capacity: usize) -> Result<UniqueIndexSet, UniqueIndexSetNewError>
        ensures made { IfOk result (λ set. set ≡ new_index_set capacity) }
        ensures allowed { OnOk result (capacity_refusal capacity ≡ None) }
        ensures refused { IfErr result (IsRefusal WantOfMemory (capacity_refusal capacity)) }
    {
        check_capacity(capacity)?;
        let mut places = indices(alloc, capacity as u32)?;
        // The next one stands last.
        places.reverse();
        Ok(UniqueIndexSet {
            places,
            free: capacity,
            locked: false,
        })
    }

    /// How many indices there are.
    #[inline]
    pub fn capacity(&self) -> usize
        ensures capacity { result ≡ self.now.capacity }
        ensures allowed { capacity_refusal result ≡ None }
    {
        self.places.len()
    }

    /// How many indices are held.
    #[inline]
    pub fn borrowed_indices(&self) -> usize
        ensures held { result ≡ held_count self.now }
        ensures within { length self.now.free ≤ self.now.capacity }
    {
        if self.locked {
            0
        } else {
            self.places.len() - self.free
        }
    }

    /// Whether the set gives no index any more.
    #[inline]
    pub fn is_locked(&self) -> bool
        ensures locked { result ≡ self.now.locked }
        ensures none_held { IsTrue result → length self.now.free ≡ self.now.capacity }
    {
        self.locked
    }

    /// Takes the index that was given back last.
    #[inline]
    pub fn acquire_raw_index(&mut self) -> Result<u32, UniqueIndexSetAcquireFailure>
        ensures acquired { IfOk result (λ index. Takes self.old index self.new) }
        ensures refused { IfErr result (λ failure. acquire_refusal self.old ≡ Some failure) }
        ensures unchanged { OnErr result (self.new ≡ self.old) }
    {
        if self.free == 0 {
            return Err(self.acquire_failure());
        }
        self.free -= 1;
        Ok(self.places[self.free])
    }

    /// Gives a held index back. It is the next to be taken.
    #[inline]
    pub fn release_raw_index(&mut self, index: u32, mode: ReleaseMode) -> ReleaseState
        requires { IsHeld self.old index }
        ensures released { self.new ≡ with_released self.old index result }
        ensures state { result ≡ state_after mode (held_count self.old - 1) }
        ensures unlocked { self.old.locked ≡ false }
    {
        self.places[self.free] = index;
        self.free += 1;
        let state = mode.state_after(self.places.len() - self.free);
        if state.is_locked() {
            self.free = 0;
            self.locked = true;
        }
        state
    }

    /// Why no index is taken.
    fn acquire_failure(&self) -> UniqueIndexSetAcquireFailure
        requires { self.now.locked ≡ false → length self.now.free ≡ 0 }
        ensures { acquire_refusal self.now ≡ Some result }
    {
        if self.is_locked() {
            UniqueIndexSetAcquireFailure::IsLocked
        } else {
            UniqueIndexSetAcquireFailure::OutOfIndices
        }
    }
}

/// The numbers below `count`, ascending.
fn indices(alloc: Global, count: u32) -> Result<Vec<u32>, AllocError>
    ensures { IfOk result (λ indices. indices.items ≡ range_with_len 0 count) }
{
    let mut indices = Vec::with_capacity(alloc, count as usize)?;
    for index in 0..count {
        indices.push(index)?;
    }
    Ok(indices)
}
