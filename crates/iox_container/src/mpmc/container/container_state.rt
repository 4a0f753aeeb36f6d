//! What a container had at one moment.
ghost use Rattle.std.specs.Prelude.{◌≡◌};
ghost use Rattle.iox_container.specs.States.{IsCalledUntilStop, shown, value_in};

use super::ContainerHandle;
use super::entries::Entry;
use iox_words::{CallbackProgression, Words};
use std::marker::Model;

/// The entries that a container had as the state was taken, or was brought up to date last.
#[derive(Debug, Drop)]
pub struct ContainerState<T: Words> {
    pub(super) container_id: u64,
    pub(super) slots: Vec<Option<Entry<T>>>,
}

impl<T: Words> Model for ContainerState<T> {
    ghost use Rattle.iox_container.specs.States.{Snapshot};

    ghost Value = { Snapshot T };

    ghost view = { λ s. record { id = s.container_id; slots = s.slots.items } };
}

impl<T: Words> ContainerState<T> {
    /// Calls `f` with each entry's handle and value in slot order, until it says stop.
    pub fn for_each<F: FnMut(ContainerHandle, T) -> CallbackProgression>(&self, mut f: F)
        requires { F.IsAlwaysCallable f }
        ensures { IsCalledUntilStop F.step f (shown self.now) }
    {
        for index in 0..self.slots.len() {
            let Some(entry) = self.slots[index] else {
                continue;
            };
            match f(entry.handle(self.container_id, index), entry.value) {
                CallbackProgression::Continue => {}
                CallbackProgression::Stop => return,
            }
        }
    }

    /// The value in a slot; `None` in a free slot, and past the last one.
    #[inline]
    pub fn get(&self, index: usize) -> Option<T>
        ensures { result ≡ value_in self.now index }
    {
        if index >= self.slots.len() {
            return None;
        }
        match self.slots[index] {
            Some(entry) => Some(entry.value),
            None => None,
        }
    }
}
