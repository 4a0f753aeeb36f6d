//! A set of indices that keeps the owner of each, so that what an owner holds can be recovered.
ghost use Rattle.std.specs.Prelude.{◌≡◌, ◌<◌, ◌+◌, IfErr, IfOk, IfSome, IsSome, IsTrue, None, OnErr, OnOk, Some, false, length, replicate, true};
ghost use Rattle.iox_sets.specs.declared.mpmc.unique_index_set_enums.UniqueIndexSetNewError.TheVariants.{WantOfMemory};
ghost use Rattle.iox_sets.specs.Refusals.{IsRefusal};
ghost use Rattle.iox_sets.specs.IndexSets.{capacity_refusal, is_locked, state_after};
ghost use Rattle.iox_sets.specs.OwnedIndices.{FindsFrom, IsAccepted, KeepsOthers, KeepsRefused, Recovers, TakesFor};
ghost use Rattle.iox_sets.specs.OwnedIndices.{acquire_refusal, held_count, is_owned_by};
ghost use Rattle.iox_sets.specs.OwnedIndices.{new_owned_indices, owner_of, state_after_recovery, with_owner};

use crate::mpmc::bit_set::BitSet;
use crate::mpmc::capacities::check_capacity;
use crate::mpmc::unique_index_set_enums::{
    ReleaseMode, ReleaseState, UniqueIndexSetAcquireFailure, UniqueIndexSetNewError,
};
pub use fixed_size::StaticRobustUniqueIndexSet;
pub use owner_id::{OwnerId, OwnerIdNewError};
use std::alloc::{AllocError, Global};
use std::marker::Model;

mod fixed_size;
mod owner_id;

/// A set of the indices below `capacity`, each free or held by an owner. It takes memory when it is
/// made, and never again.
#[derive(Debug, Drop)]
pub struct RobustUniqueIndexSet {
    owners: Vec<Option<OwnerId>>,
    // A bit for each index, which is set while the index is free.
    free: BitSet,
    held: usize,
    locked: bool,
}

impl Model for RobustUniqueIndexSet {
    ghost use Rattle.iox_sets.specs.FreeBits.{IsIndexed};
    ghost use Rattle.iox_sets.specs.OwnedIndices.{OwnedIndices};

    ghost Value = { OwnedIndices };

    ghost view = { λ set. record { owners = set.owners.items; locked = set.locked } };

    ghost invariant = { λ set. IsIndexed set.owners.items set.free set.held set.locked };
}

impl RobustUniqueIndexSet {
    /// Makes an open set of the indices below `capacity`, all of which are free.
    pub fn new(
        alloc: Global,
        capacity: usize,
    ) -> Result<RobustUniqueIndexSet, UniqueIndexSetNewError>
        ensures made { IfOk result (λ set. set ≡ new_owned_indices capacity) }
        ensures allowed { OnOk result (capacity_refusal capacity ≡ None) }
        ensures refused { IfErr result (IsRefusal WantOfMemory (capacity_refusal capacity)) }
    {
        check_capacity(capacity)?;
        let owners = vec![in alloc; None; capacity]?;
        let free = all_bits(alloc, capacity)?;
        Ok(RobustUniqueIndexSet {
            owners,
            free,
            held: 0,
            locked: false,
        })
    }

    /// How many indices there are.
    #[inline]
    pub fn capacity(&self) -> usize
        ensures capacity { result ≡ length self.now.owners }
        ensures allowed { capacity_refusal result ≡ None }
    {
        self.owners.len()
    }

    /// How many indices are held.
    #[inline]
    pub fn borrowed_indices(&self) -> usize
        ensures held { result ≡ held_count self.now }
    {
        self.held
    }

    /// Whether the set gives no index any more.
    #[inline]
    pub fn is_locked(&self) -> bool
        ensures locked { result ≡ self.now.locked }
        ensures none_held { IsTrue result → held_count self.now ≡ 0 }
    {
        self.locked
    }

    /// Takes the lowest free index for an owner.
    #[inline]
    pub fn acquire(&mut self, owner: OwnerId) -> Result<u32, UniqueIndexSetAcquireFailure>
        ensures acquired { IfOk result (λ index. TakesFor owner self.old index self.new) }
        ensures was_free { IfOk result (λ index. owner_of self.old index ≡ None) }
        ensures within { IfOk result (λ index. index < length self.new.owners) }
        ensures capacity { length self.new.owners ≡ length self.old.owners }
        ensures refused { IfErr result (λ failure. acquire_refusal self.old ≡ Some failure) }
        ensures unchanged { OnErr result (self.new ≡ self.old) }
    {
        if self.locked {
            return Err(UniqueIndexSetAcquireFailure::IsLocked);
        }
        let Some(index) = self.free.reset_next() else {
            return Err(UniqueIndexSetAcquireFailure::OutOfIndices);
        };
        self.owners[index] = Some(owner);
        self.held += 1;
        Ok(index as u32)
    }

    /// The lowest held index whose owner `f` accepts. It is asked about the owners of lower ones
    /// first.
    pub fn find<F: FnMut(OwnerId) -> bool>(&self, mut f: F) -> Option<u32>
        requires { F.IsAlwaysCallable f }
        ensures found { FindsFrom F.step f 0 self.now.owners result }
        ensures held { IfSome result (λ index. IsSome (owner_of self.now index)) }
        ensures accepted { IfSome result (λ index. IsAccepted F.step self.now index) }
    {
        let mut next = 0;
        while next < self.capacity() {
            let index = next;
            next += 1;
            let Some(owner) = self.owner(index) else {
                continue;
            };
            if f(owner) {
                return Some(index as u32);
            }
        }
        None
    }

    /// Gives a held index back.
    #[inline]
    pub fn release(&mut self, index: u32, mode: ReleaseMode) -> ReleaseState
        requires { IsSome (owner_of self.old index) }
        ensures owners { self.new.owners ≡ (with_owner self.old index None).owners }
        ensures capacity { length self.new.owners ≡ length self.old.owners }
        ensures locked { self.new.locked ≡ is_locked result }
        ensures state { result ≡ state_after mode (held_count self.new) }
        ensures unlocked { self.old.locked ≡ false }
    {
        self.free_index(index as usize);
        self.lock_if_asked(mode)
    }

    /// Gives those indices of an owner back that `f` accepts. It is asked about lower ones first.
    pub fn recover<F: FnMut(u32) -> bool>(
        &mut self,
        owner: OwnerId,
        mut f: F,
        mode: ReleaseMode,
    ) -> ReleaseState
        requires { F.IsAlwaysCallable f }
        ensures owners { Recovers F.step f owner self.old self.new }
        ensures kept { KeepsRefused F.step owner self.new }
        ensures others { KeepsOthers owner self.old self.new }
        ensures capacity { length self.new.owners ≡ length self.old.owners }
        ensures locked { self.new.locked ≡ is_locked result }
        ensures state { result ≡ state_after_recovery mode self.old (held_count self.new) }
    {
        let before = self.borrowed_indices();
        let mut next = 0;
        while next < self.capacity() {
            let index = next;
            next += 1;
            if !self.is_owned_by(index, owner) {
                continue;
            }
            if f(index as u32) {
                self.free_index(index);
            }
        }
        if self.borrowed_indices() < before {
            return self.lock_if_asked(mode);
        }
        if self.is_locked() {
            ReleaseState::Locked
        } else {
            ReleaseState::Unlocked
        }
    }

    /// The owner of an index, if it is held.
    #[inline]
    fn owner(&self, index: usize) -> Option<OwnerId>
        requires { index < length self.now.owners }
        ensures { result ≡ owner_of self.now index }
    {
        self.owners[index]
    }

    /// Whether an index is held by this owner.
    #[inline]
    fn is_owned_by(&self, index: usize, owner: OwnerId) -> bool
        requires { index < length self.now.owners }
        ensures { result ≡ is_owned_by owner (owner_of self.now index) }
    {
        match self.owner(index) {
            Some(other) => other == owner,
            None => false,
        }
    }

    /// Makes a held index free.
    #[inline]
    fn free_index(&mut self, index: usize)
        requires { IsSome (owner_of self.old index) }
        ensures freed { self.new ≡ with_owner self.old index None }
        ensures unlocked { self.old.locked ≡ false }
        ensures less { held_count self.new + 1 ≡ held_count self.old }
    {
        self.owners[index] = None;
        self.free.set(index);
        self.held -= 1;
    }

    /// Locks the set if no index is held and the mode says so.
    #[inline]
    fn lock_if_asked(&mut self, mode: ReleaseMode) -> ReleaseState
        ensures state { result ≡ state_after mode (held_count self.old) }
        ensures owners { self.new.owners ≡ self.old.owners }
        ensures locked { self.new.locked ≡ is_locked result }
    {
        let state = mode.state_after(self.held);
        self.locked = state.is_locked();
        state
    }
}

/// As many bits, all of which are set.
fn all_bits(alloc: Global, count: usize) -> Result<BitSet, AllocError>
    ensures { IfOk result (λ bits. bits ≡ replicate count true) }
{
    let mut bits = BitSet::new(alloc, count)?;
    for id in 0..count {
        bits.set(id);
    }
    Ok(bits)
}
