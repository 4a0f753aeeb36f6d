//! A container whose entries are named by handles.
ghost use Rattle.std.specs.Prelude.{◌≡◌, ◌≢◌, ◌+◌, ◌<◌, ◌↔◌, IfErr, IfOk, IfSome, IsSome, IsTrue, None, OnErr, OnOk, Some, false, length};
ghost use Rattle.std.specs.Bool.{OnFalse, OnTrue};
ghost use Rattle.iox_sets.specs.declared.mpmc.unique_index_set_enums.UniqueIndexSetNewError.TheVariants.{WantOfMemory};
ghost use Rattle.iox_sets.specs.Refusals.{IsRefusal};
ghost use Rattle.iox_sets.specs.IndexSets.{capacity_refusal};
ghost use Rattle.iox_container.specs.Containers.{Adds, add_refusal, count, entries, entry_for, entry_in, entry_of, new_contents};
ghost use Rattle.iox_container.specs.Handles.{Inserts, KeepsOrLoses, Removes};
ghost use Rattle.iox_container.specs.Leaving.{Finds, Frees, IsAccepted, KeepsOthers, KeepsRefused, Recovers};
ghost use Rattle.iox_container.specs.States.{IsStateOf, state_of};

pub use container_handle::ContainerHandle;
pub use container_state::ContainerState;
use entries::{Entry, is_same_slot};
pub use failures::{ContainerAddFailure, ContainerRemoveError};
pub use fixed_size::FixedSizeContainer;
use iox_sets::mpmc::robust_unique_index_set::{OwnerId, RobustUniqueIndexSet};
use iox_sets::mpmc::unique_index_set_enums::{ReleaseMode, ReleaseState, UniqueIndexSetNewError};
use iox_words::Words;
use std::alloc::{AllocError, Global};
use std::marker::Model;

mod container_handle;
mod container_state;
mod entries;
mod failures;
mod fixed_size;

/// A container with `capacity` slots, each free or with an entry. It takes memory when it is made,
/// and never again.
#[derive(Debug, Drop)]
pub struct Container<T: Words> {
    id: u64,
    slots: Vec<Option<Entry<T>>>,
    // The slots that have entries, each with its owner.
    indices: RobustUniqueIndexSet,
    next_ticket: u64,
}

impl<T: Words> Model for Container<T> {
    ghost use Rattle.iox_container.specs.Containers.{Contents};
    ghost use Rattle.iox_container.specs.Indexing.{IsIndexed, contents_in};

    ghost Value = { Contents T };

    ghost view = { λ c. contents_in c.id c.slots.items c.indices.locked c.next_ticket };

    ghost invariant = { λ c. IsIndexed c.slots.items c.indices.owners };
}

impl<T: Words> Container<T> {
    /// Makes an open container whose slots are all free. `container_id` stands in its handles.
    pub fn new(
        alloc: Global,
        capacity: usize,
        container_id: u64,
    ) -> Result<Container<T>, UniqueIndexSetNewError>
        ensures made { IfOk result (λ container. container ≡ new_contents container_id capacity) }
        ensures allowed { OnOk result (capacity_refusal capacity ≡ None) }
        ensures refused { IfErr result (IsRefusal WantOfMemory (capacity_refusal capacity)) }
    {
        let indices = RobustUniqueIndexSet::new(alloc, capacity)?;
        let slots = vec![in alloc; None; capacity]?;
        Ok(Container {
            id: container_id,
            slots,
            indices,
            next_ticket: 0,
        })
    }

    /// How many slots there are.
    #[inline]
    pub fn capacity(&self) -> usize
        ensures capacity { result ≡ length self.now.slots }
        ensures allowed { capacity_refusal result ≡ None }
    {
        self.indices.capacity()
    }

    /// How many entries there are.
    #[inline]
    pub fn len(&self) -> usize
        ensures { result ≡ count self.now }
    {
        self.indices.borrowed_indices()
    }

    /// Whether there is no entry.
    #[inline]
    pub fn is_empty(&self) -> bool
        ensures { IsTrue result ↔ count self.now ≡ 0 }
    {
        self.len() == 0
    }

    /// Whether the container takes no entry any more.
    #[inline]
    pub fn is_locked(&self) -> bool
        ensures locked { result ≡ self.now.locked }
        ensures empty { IsTrue result → count self.now ≡ 0 }
    {
        self.indices.is_locked()
    }

    /// Adds a value for an owner, in the lowest free slot.
    pub fn add(&mut self, value: T, owner: OwnerId) -> Result<ContainerHandle, ContainerAddFailure>
        ensures added { IfOk result (λ handle. Adds value owner self.old handle self.new) }
        // A container is a finite map from handles, and this puts an entry into it.
        ensures inserted { IfOk result (λ handle.
            Inserts handle (entry_for value owner handle.ticket) self.old self.new) }
        ensures has { IfOk result (λ handle. IsSome (entry_of self.new handle)) }
        ensures within { IfOk result (λ handle. handle.index < length self.new.slots) }
        ensures capacity { length self.new.slots ≡ length self.old.slots }
        ensures handles { KeepsOrLoses self.old self.new }
        ensures refused { IfErr result (λ failure. add_refusal self.old ≡ Some failure) }
        ensures unchanged { OnErr result (self.new ≡ self.old) }
    {
        if !self.indices.is_locked() && self.next_ticket == u64::MAX {
            return Err(ContainerAddFailure::OutOfSpace);
        }
        let index = self.indices.acquire(owner)? as usize;
        let entry = Entry {
            value,
            owner,
            ticket: self.next_ticket,
        };
        self.slots[index] = Some(entry);
        self.next_ticket += 1;
        Ok(entry.handle(self.id, index))
    }

    /// The handle of the first entry in slot order whose value and handle `f` accepts.
    pub fn find<F: FnMut(T, ContainerHandle) -> bool>(&self, mut f: F) -> Option<ContainerHandle>
        requires { F.IsAlwaysCallable f }
        ensures found { Finds F.step f (entries self.now) result }
        ensures has { IfSome result (λ handle. IsSome (entry_of self.now handle)) }
        ensures accepted { IfSome result (λ handle. IsAccepted F.step self.now handle) }
    {
        for index in 0..self.slots.len() {
            let Some(entry) = self.slots[index] else {
                continue;
            };
            let handle = entry.handle(self.id, index);
            if f(entry.value, handle) {
                return Some(handle);
            }
        }
        None
    }

    /// Removes the entry of a handle.
    pub fn remove(
        &mut self,
        handle: ContainerHandle,
        mode: ReleaseMode,
    ) -> Result<ReleaseState, ContainerRemoveError>
        ensures removed { IfOk result (λ state. Frees handle.index mode self.old state self.new) }
        ensures had { OnOk result (IsSome (entry_of self.old handle)) }
        ensures gone { OnOk result (Removes handle self.old self.new) }
        ensures capacity { length self.new.slots ≡ length self.old.slots }
        ensures handles { KeepsOrLoses self.old self.new }
        ensures refused { OnErr result (entry_of self.old handle ≡ None) }
        ensures unchanged { OnErr result (self.new ≡ self.old) }
    {
        if !self.has(handle) {
            return Err(ContainerRemoveError::ContainerHandleNotOwnedByContainer);
        }
        Ok(self.free_slot(handle.index, mode))
    }

    /// Removes those entries of an owner whose values `f` accepts. It is asked in slot order.
    pub fn recover<F: FnMut(T) -> bool>(
        &mut self,
        owner: OwnerId,
        mut f: F,
        mode: ReleaseMode,
    ) -> ReleaseState
        requires { F.IsAlwaysCallable f }
        ensures recovered { Recovers F.step f owner mode self.old result self.new }
        ensures kept { KeepsRefused F.step owner self.new }
        ensures others { KeepsOthers owner self.old self.new }
        ensures capacity { length self.new.slots ≡ length self.old.slots }
        ensures handles { KeepsOrLoses self.old self.new }
    {
        let mut state = if self.is_locked() {
            ReleaseState::Locked
        } else {
            ReleaseState::Unlocked
        };
        let mut next = 0;
        while next < self.capacity() {
            let index = next;
            next += 1;
            let Some(entry) = self.entry(index) else {
                continue;
            };
            if entry.owner != owner {
                continue;
            }
            if f(entry.value) {
                state = self.free_slot(index, mode);
            }
        }
        state
    }

    /// What the container has now. The state has memory of its own.
    pub fn get_state(&self, alloc: Global) -> Result<ContainerState<T>, AllocError>
        ensures { IfOk result (λ state. state ≡ state_of self.now) }
    {
        let slots = self.slots.iter().copied().collect(alloc)?;
        Ok(ContainerState {
            container_id: self.id,
            slots,
        })
    }

    /// Brings a state up to date, and says whether it was not.
    pub fn update_state(&self, state: &mut ContainerState<T>) -> bool
        requires { IsStateOf self.now state.old }
        ensures changed { OnTrue result (state.old ≢ state_of self.now) }
        ensures unchanged { OnFalse result (state.new ≡ state.old) }
        ensures updated { state.new ≡ state_of self.now }
    {
        let mut changed = false;
        for index in 0..self.slots.len() {
            if !is_same_slot(state.slots[index], self.slots[index]) {
                state.slots[index] = self.slots[index];
                changed = true;
            }
        }
        changed
    }

    /// Whether a state is of a container of this number and capacity.
    #[inline]
    pub fn is_state_of(&self, state: &ContainerState<T>) -> bool
        ensures { IsTrue result ↔ IsStateOf self.now state.now }
    {
        state.container_id == self.id && state.slots.len() == self.slots.len()
    }

    /// The entry in a slot, if it has one.
    #[inline]
    fn entry(&self, index: usize) -> Option<Entry<T>>
        requires { index < length self.now.slots }
        ensures { result ≡ entry_in self.now index }
    {
        self.slots[index]
    }

    /// Whether a handle has an entry here.
    fn has(&self, handle: ContainerHandle) -> bool
        ensures { IsTrue result ↔ IsSome (entry_of self.now handle) }
    {
        if handle.container_id != self.id || handle.index >= self.slots.len() {
            return false;
        }
        match self.slots[handle.index] {
            Some(entry) => entry.ticket == handle.ticket,
            None => false,
        }
    }

    /// Makes a slot free that has an entry.
    fn free_slot(&mut self, index: usize, mode: ReleaseMode) -> ReleaseState
        requires { IsSome (entry_in self.old index) }
        ensures freed { Frees index mode self.old result self.new }
        ensures less { count self.new + 1 ≡ count self.old }
        ensures unlocked { self.old.locked ≡ false }
    {
        self.slots[index] = None;
        self.indices.release(index as u32, mode)
    }
}
