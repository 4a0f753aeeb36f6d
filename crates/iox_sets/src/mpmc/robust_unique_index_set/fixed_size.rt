//! The set of owned indices whose greatest capacity is known when the program is built.
ghost use Rattle.std.specs.Prelude.{◌≡◌, ◌<◌, ◌≤◌, IfErr, IfOk, IfSome, IsSome, IsTrue, None, OnErr, OnOk, Some, false, length};
ghost use Rattle.iox_sets.specs.declared.mpmc.unique_index_set_enums.UniqueIndexSetNewError.TheVariants.{WantOfMemory};
ghost use Rattle.iox_sets.specs.Refusals.{IsRefusal};
ghost use Rattle.iox_sets.specs.IndexSets.{capacity_refusal, is_locked, reduced_refusal, state_after};
ghost use Rattle.iox_sets.specs.OwnedIndices.{FindsFrom, IsAccepted, KeepsOthers, KeepsRefused, Recovers, TakesFor};
ghost use Rattle.iox_sets.specs.OwnedIndices.{acquire_refusal, held_count, new_owned_indices};
ghost use Rattle.iox_sets.specs.OwnedIndices.{owner_of, state_after_recovery, with_owner};

use super::{OwnerId, RobustUniqueIndexSet};
use crate::mpmc::capacities::check_reduced;
use crate::mpmc::unique_index_set_enums::{
    ReleaseMode, ReleaseState, UniqueIndexSetAcquireFailure, UniqueIndexSetNewError,
};
use std::alloc::Global;
use std::marker::Model;

/// A [`RobustUniqueIndexSet`] with room for `CAPACITY` indices.
#[derive(Debug, Drop)]
pub struct StaticRobustUniqueIndexSet<const CAPACITY: usize> {
    set: RobustUniqueIndexSet,
}

impl<const CAPACITY: usize> Model for StaticRobustUniqueIndexSet<CAPACITY> {
    ghost use Rattle.std.specs.Prelude.{◌≤◌, length};
    ghost use Rattle.iox_sets.specs.OwnedIndices.{OwnedIndices};

    ghost Value = { OwnedIndices };

    ghost view = { λ s. s.set };

    ghost invariant = { λ s. length s.set.owners ≤ CAPACITY };
}

impl<const CAPACITY: usize> StaticRobustUniqueIndexSet<CAPACITY> {
    /// Makes an open set of the indices below `CAPACITY`, all of which are free.
    pub fn new(alloc: Global) -> Result<Self, UniqueIndexSetNewError>
        ensures made { IfOk result (λ set. set ≡ new_owned_indices CAPACITY) }
        ensures allowed { OnOk result (capacity_refusal CAPACITY ≡ None) }
        ensures refused { IfErr result (IsRefusal WantOfMemory (capacity_refusal CAPACITY)) }
    {
        let set = RobustUniqueIndexSet::new(alloc, CAPACITY)?;
        Ok(StaticRobustUniqueIndexSet { set })
    }

    /// Makes an open set of only the indices below `capacity`, which is from 1 to `CAPACITY`.
    pub fn new_with_reduced_capacity(
        alloc: Global,
        capacity: usize,
    ) -> Result<Self, UniqueIndexSetNewError>
        ensures made { IfOk result (λ set. set ≡ new_owned_indices capacity) }
        ensures allowed { OnOk result (reduced_refusal CAPACITY capacity ≡ None) }
        ensures refused { IfErr result
            (IsRefusal WantOfMemory (reduced_refusal CAPACITY capacity)) }
    {
        check_reduced(CAPACITY, capacity)?;
        let set = RobustUniqueIndexSet::new(alloc, capacity)?;
        Ok(StaticRobustUniqueIndexSet { set })
    }

    /// How many indices there are, at most `CAPACITY`.
    #[inline]
    pub fn capacity(&self) -> usize
        ensures capacity { result ≡ length self.now.owners }
        ensures allowed { capacity_refusal result ≡ None }
        ensures fits { result ≤ CAPACITY }
    {
        self.set.capacity()
    }

    /// How many indices are held.
    #[inline]
    pub fn borrowed_indices(&self) -> usize
        ensures held { result ≡ held_count self.now }
    {
        self.set.borrowed_indices()
    }

    /// Whether the set gives no index any more.
    #[inline]
    pub fn is_locked(&self) -> bool
        ensures locked { result ≡ self.now.locked }
        ensures none_held { IsTrue result → held_count self.now ≡ 0 }
    {
        self.set.is_locked()
    }

    /// Takes the lowest free index for an owner.
    #[inline]
    pub fn acquire(&mut self, owner: OwnerId) -> Result<u32, UniqueIndexSetAcquireFailure>
        ensures acquired { IfOk result (λ index. TakesFor owner self.old index self.new) }
        ensures was_free { IfOk result (λ index. owner_of self.old index ≡ None) }
        ensures within { IfOk result (λ index. index < length self.new.owners) }
        ensures fits { IfOk result (λ index. index < CAPACITY) }
        ensures capacity { length self.new.owners ≡ length self.old.owners }
        ensures refused { IfErr result (λ failure. acquire_refusal self.old ≡ Some failure) }
        ensures unchanged { OnErr result (self.new ≡ self.old) }
    {
        self.set.acquire(owner)
    }

    /// The lowest held index whose owner `f` accepts. It is asked about the owners of lower ones
    /// first.
    pub fn find<F: FnMut(OwnerId) -> bool>(&self, f: F) -> Option<u32>
        requires { F.IsAlwaysCallable f }
        ensures found { FindsFrom F.step f 0 self.now.owners result }
        ensures held { IfSome result (λ index. IsSome (owner_of self.now index)) }
        ensures accepted { IfSome result (λ index. IsAccepted F.step self.now index) }
    {
        self.set.find(f)
    }

    /// Gives a held index back.
    #[inline]
    pub fn release(&mut self, index: u32, mode: ReleaseMode) -> ReleaseState
        requires { IsSome (owner_of self.old index) }
        ensures owners { self.new.owners ≡ (with_owner self.old index None).owners }
        ensures capacity { length self.new.owners ≡ length self.old.owners }
        ensures locked { self.new.locked ≡ is_locked result }
        ensures state { result ≡ state_after mode (held_count self.new) }
        ensures unlocked { self.old.locked ≡ false }
    {
        self.set.release(index, mode)
    }

    /// Gives those indices of an owner back that `f` accepts. It is asked about lower ones first.
    pub fn recover<F: FnMut(u32) -> bool>(
        &mut self,
        owner: OwnerId,
        f: F,
        mode: ReleaseMode,
    ) -> ReleaseState
        requires { F.IsAlwaysCallable f }
        ensures owners { Recovers F.step f owner self.old self.new }
        ensures kept { KeepsRefused F.step owner self.new }
        ensures others { KeepsOthers owner self.old self.new }
        ensures capacity { length self.new.owners ≡ length self.old.owners }
        ensures locked { self.new.locked ≡ is_locked result }
        ensures state { result ≡ state_after_recovery mode self.old (held_count self.new) }
    {
        self.set.recover(owner, f, mode)
    }
}
