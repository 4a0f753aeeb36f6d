//! The set of indices whose greatest capacity is known when the program is built.
ghost use Rattle.std.specs.Prelude.{◌≡◌, ◌<◌, ◌≤◌, ◌-◌, IfErr, IfOk, IsTrue, None, OnErr, OnOk, Some, false, length};
ghost use Rattle.iox_sets.specs.declared.mpmc.unique_index_set_enums.UniqueIndexSetNewError.TheVariants.{WantOfMemory};
ghost use Rattle.iox_sets.specs.Refusals.{IsRefusal};
ghost use Rattle.iox_sets.specs.IndexSets.{IsHeld, Takes, acquire_refusal, capacity_refusal, held_count, new_index_set};
ghost use Rattle.iox_sets.specs.IndexSets.{reduced_refusal, state_after, with_released};

use super::UniqueIndexSet;
use crate::mpmc::capacities::check_reduced;
use crate::mpmc::unique_index_set_enums::{
    ReleaseMode, ReleaseState, UniqueIndexSetAcquireFailure, UniqueIndexSetNewError,
};
use std::alloc::Global;
use std::marker::Model;

/// A [`UniqueIndexSet`] with room for `CAPACITY` indices.
#[derive(Debug, Drop)]
pub struct FixedSizeUniqueIndexSet<const CAPACITY: usize> {
    set: UniqueIndexSet,
}

impl<const CAPACITY: usize> Model for FixedSizeUniqueIndexSet<CAPACITY> {
    ghost use Rattle.std.specs.Prelude.{◌≤◌};
    ghost use Rattle.iox_sets.specs.IndexSets.{IndexSet};

    ghost Value = { IndexSet };

    ghost view = { λ s. s.set };

    ghost invariant = { λ s. s.set.capacity ≤ CAPACITY };
}

impl<const CAPACITY: usize> FixedSizeUniqueIndexSet<CAPACITY> {
    /// Makes an open set of the indices below `CAPACITY`, all of which are free.
    pub fn new(alloc: Global) -> Result<Self, UniqueIndexSetNewError>
        ensures made { IfOk result (λ set. set ≡ new_index_set CAPACITY) }
        ensures allowed { OnOk result (capacity_refusal CAPACITY ≡ None) }
        ensures refused { IfErr result (IsRefusal WantOfMemory (capacity_refusal CAPACITY)) }
    {
        let set = UniqueIndexSet::new(alloc, CAPACITY)?;
        Ok(FixedSizeUniqueIndexSet { set })
    }

    /// Makes an open set of only the indices below `capacity`, which is from 1 to `CAPACITY`.
    pub fn new_with_reduced_capacity(
        alloc: Global,
        capacity: usize,
    ) -> Result<Self, UniqueIndexSetNewError>
        ensures made { IfOk result (λ set. set ≡ new_index_set capacity) }
        ensures allowed { OnOk result (reduced_refusal CAPACITY capacity ≡ None) }
        ensures refused { IfErr result
            (IsRefusal WantOfMemory (reduced_refusal CAPACITY capacity)) }
    {
        check_reduced(CAPACITY, capacity)?;
        let set = UniqueIndexSet::new(alloc, capacity)?;
        Ok(FixedSizeUniqueIndexSet { set })
    }

    /// How many indices there are, at most `CAPACITY`.
    #[inline]
    pub fn capacity(&self) -> usize
        ensures capacity { result ≡ self.now.capacity }
        ensures fits { result ≤ CAPACITY }
        ensures allowed { capacity_refusal result ≡ None }
    {
        self.set.capacity()
    }

    /// How many indices are held.
    #[inline]
    pub fn borrowed_indices(&self) -> usize
        ensures held { result ≡ held_count self.now }
        ensures within { length self.now.free ≤ self.now.capacity }
    {
        self.set.borrowed_indices()
    }

    /// Whether the set gives no index any more.
    #[inline]
    pub fn is_locked(&self) -> bool
        ensures locked { result ≡ self.now.locked }
        ensures none_held { IsTrue result → length self.now.free ≡ self.now.capacity }
    {
        self.set.is_locked()
    }

    /// Takes the index that was given back last.
    #[inline]
    pub fn acquire_raw_index(&mut self) -> Result<u32, UniqueIndexSetAcquireFailure>
        ensures acquired { IfOk result (λ index. Takes self.old index self.new) }
        ensures within { IfOk result (λ index. index < CAPACITY) }
        ensures refused { IfErr result (λ failure. acquire_refusal self.old ≡ Some failure) }
        ensures unchanged { OnErr result (self.new ≡ self.old) }
    {
        self.set.acquire_raw_index()
    }

    /// Gives a held index back. It is the next to be taken.
    #[inline]
    pub fn release_raw_index(&mut self, index: u32, mode: ReleaseMode) -> ReleaseState
        requires { IsHeld self.old index }
        ensures released { self.new ≡ with_released self.old index result }
        ensures state { result ≡ state_after mode (held_count self.old - 1) }
        ensures unlocked { self.old.locked ≡ false }
    {
        self.set.release_raw_index(index, mode)
    }
}
