//! The container whose capacity is known when the program is built.
ghost use Rattle.std.specs.Prelude.{◌≡◌, ◌≢◌, ◌<◌, ◌↔◌, IfErr, IfOk, IfSome, IsSome, IsTrue, None, OnErr, OnOk, Some, length};
ghost use Rattle.std.specs.Bool.{OnFalse, OnTrue};
ghost use Rattle.iox_sets.specs.declared.mpmc.unique_index_set_enums.UniqueIndexSetNewError.TheVariants.{WantOfMemory};
ghost use Rattle.iox_sets.specs.Refusals.{IsRefusal};
ghost use Rattle.iox_sets.specs.IndexSets.{capacity_refusal};
ghost use Rattle.iox_container.specs.Containers.{Adds, add_refusal, count, entries, entry_for, entry_of, new_contents};
ghost use Rattle.iox_container.specs.Handles.{Inserts, KeepsOrLoses, Removes};
ghost use Rattle.iox_container.specs.Leaving.{Finds, Frees, IsAccepted, KeepsOthers, KeepsRefused, Recovers};
ghost use Rattle.iox_container.specs.States.{IsStateOf, state_of};

use super::{
    Container, ContainerAddFailure, ContainerHandle, ContainerRemoveError, ContainerState,
};
use iox_sets::mpmc::robust_unique_index_set::OwnerId;
use iox_sets::mpmc::unique_index_set_enums::{ReleaseMode, ReleaseState, UniqueIndexSetNewError};
use iox_words::Words;
use std::alloc::{AllocError, Global};
use std::marker::Model;

/// A [`Container`] with `CAPACITY` slots.
#[derive(Debug, Drop)]
pub struct FixedSizeContainer<T: Words, const CAPACITY: usize> {
    container: Container<T>,
}

impl<T: Words, const CAPACITY: usize> Model for FixedSizeContainer<T, CAPACITY> {
    ghost use Rattle.std.specs.Prelude.{◌≡◌, length};
    ghost use Rattle.iox_container.specs.Containers.{Contents};

    ghost Value = { Contents T };

    ghost view = { λ c. c.container };

    ghost invariant = { λ c. length c.container.slots ≡ CAPACITY };
}

impl<T: Words, const CAPACITY: usize> FixedSizeContainer<T, CAPACITY> {
    /// Makes an open container whose slots are all free. `container_id` stands in its handles.
    pub fn new(alloc: Global, container_id: u64) -> Result<Self, UniqueIndexSetNewError>
        ensures made { IfOk result (λ container. container ≡ new_contents container_id CAPACITY) }
        ensures allowed { OnOk result (capacity_refusal CAPACITY ≡ None) }
        ensures refused { IfErr result (IsRefusal WantOfMemory (capacity_refusal CAPACITY)) }
    {
        let container = Container::new(alloc, CAPACITY, container_id)?;
        Ok(FixedSizeContainer { container })
    }

    /// How many slots there are, which is `CAPACITY`.
    #[inline]
    pub fn capacity(&self) -> usize
        ensures capacity { result ≡ length self.now.slots }
        ensures allowed { capacity_refusal result ≡ None }
        ensures fixed { result ≡ CAPACITY }
    {
        self.container.capacity()
    }

    /// How many entries there are.
    #[inline]
    pub fn len(&self) -> usize
        ensures { result ≡ count self.now }
    {
        self.container.len()
    }

    /// Whether there is no entry.
    #[inline]
    pub fn is_empty(&self) -> bool
        ensures { IsTrue result ↔ count self.now ≡ 0 }
    {
        self.container.is_empty()
    }

    /// Whether the container takes no entry any more.
    #[inline]
    pub fn is_locked(&self) -> bool
        ensures locked { result ≡ self.now.locked }
        ensures empty { IsTrue result → count self.now ≡ 0 }
    {
        self.container.is_locked()
    }

    /// Adds a value for an owner, in the lowest free slot.
    pub fn add(&mut self, value: T, owner: OwnerId) -> Result<ContainerHandle, ContainerAddFailure>
        ensures added { IfOk result (λ handle. Adds value owner self.old handle self.new) }
        // A container is a finite map from handles, and this puts an entry into it.
        ensures inserted { IfOk result (λ handle.
            Inserts handle (entry_for value owner handle.ticket) self.old self.new) }
        ensures has { IfOk result (λ handle. IsSome (entry_of self.new handle)) }
        ensures within { IfOk result (λ handle. handle.index < length self.new.slots) }
        ensures fits { IfOk result (λ handle. handle.index < CAPACITY) }
        ensures capacity { length self.new.slots ≡ length self.old.slots }
        ensures handles { KeepsOrLoses self.old self.new }
        ensures refused { IfErr result (λ failure. add_refusal self.old ≡ Some failure) }
        ensures unchanged { OnErr result (self.new ≡ self.old) }
    {
        self.container.add(value, owner)
    }

    /// The handle of the first entry in slot order whose value and handle `f` accepts.
    pub fn find<F: FnMut(T, ContainerHandle) -> bool>(&self, f: F) -> Option<ContainerHandle>
        requires { F.IsAlwaysCallable f }
        ensures found { Finds F.step f (entries self.now) result }
        ensures has { IfSome result (λ handle. IsSome (entry_of self.now handle)) }
        ensures accepted { IfSome result (λ handle. IsAccepted F.step self.now handle) }
    {
        self.container.find(f)
    }

    /// Removes the entry of a handle.
    pub fn remove(
        &mut self,
        handle: ContainerHandle,
        mode: ReleaseMode,
    ) -> Result<ReleaseState, ContainerRemoveError>
        ensures removed { IfOk result (λ state. Frees handle.index mode self.old state self.new) }
        ensures had { OnOk result (IsSome (entry_of self.old handle)) }
        ensures gone { OnOk result (Removes handle self.old self.new) }
        ensures capacity { length self.new.slots ≡ length self.old.slots }
        ensures handles { KeepsOrLoses self.old self.new }
        ensures refused { OnErr result (entry_of self.old handle ≡ None) }
        ensures unchanged { OnErr result (self.new ≡ self.old) }
    {
        self.container.remove(handle, mode)
    }

    /// Removes those entries of an owner whose values `f` accepts. It is asked in slot order.
    pub fn recover<F: FnMut(T) -> bool>(
        &mut self,
        owner: OwnerId,
        f: F,
        mode: ReleaseMode,
    ) -> ReleaseState
        requires { F.IsAlwaysCallable f }
        ensures recovered { Recovers F.step f owner mode self.old result self.new }
        ensures kept { KeepsRefused F.step owner self.new }
        ensures others { KeepsOthers owner self.old self.new }
        ensures capacity { length self.new.slots ≡ length self.old.slots }
        ensures handles { KeepsOrLoses self.old self.new }
    {
        self.container.recover(owner, f, mode)
    }

    /// What the container has now. The state has memory of its own.
    pub fn get_state(&self, alloc: Global) -> Result<ContainerState<T>, AllocError>
        ensures { IfOk result (λ state. state ≡ state_of self.now) }
    {
        self.container.get_state(alloc)
    }

    /// Brings a state up to date, and says whether it was not.
    pub fn update_state(&self, state: &mut ContainerState<T>) -> bool
        requires { IsStateOf self.now state.old }
        ensures changed { OnTrue result (state.old ≢ state_of self.now) }
        ensures unchanged { OnFalse result (state.new ≡ state.old) }
        ensures updated { state.new ≡ state_of self.now }
    {
        self.container.update_state(state)
    }

    /// Whether a state is of a container of this number and capacity.
    #[inline]
    pub fn is_state_of(&self, state: &ContainerState<T>) -> bool
        ensures { IsTrue result ↔ IsStateOf self.now state.now }
    {
        self.container.is_state_of(state)
    }
}
