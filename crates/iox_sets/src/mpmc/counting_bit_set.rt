//! A set of bits that counts how often each of them was set.
ghost use Rattle.std.specs.Prelude.{◌≡◌, ◌<◌, ◌↔◌, IfNone, IfOk, IfSome, IsTrue, ℕ, length, slice_get, slice_set};
ghost use Rattle.std.specs.Bool.{OnFalse, OnTrue};
ghost use Rattle.iox_sets.specs.Calls.{IsCalledWithEach};
ghost use Rattle.iox_sets.specs.CountingBitSets.{bit_states, count_of, max_count, no_counts, with_one_more};

use crate::words::first_used_word;
pub use bit_state::BitState;
pub use fixed_size::FixedSizeCountingBitSet;
use std::alloc::{AllocError, Global};
use std::marker::Model;

mod bit_state;
mod fixed_size;

/// A set of `capacity` counted bits. It takes memory when it is made, and never again.
#[derive(Debug, Drop)]
pub struct CountingBitSet {
    counts: Vec<u64>,
}

impl Model for CountingBitSet {
    ghost use Rattle.std.specs.Prelude.{ℕ, List};

    ghost Value = { List ℕ };

    ghost view = { λ set. set.counts.items };
}

impl CountingBitSet {
    /// Makes a set of `capacity` bits, none of which was set.
    pub fn new(alloc: Global, capacity: usize) -> Result<CountingBitSet, AllocError>
        ensures { IfOk result (λ set. set ≡ no_counts capacity) }
    {
        let counts = vec![in alloc; 0u64; capacity]?;
        Ok(CountingBitSet { counts })
    }

    /// How many bits the set has.
    #[inline]
    pub fn capacity(&self) -> usize
        ensures { result ≡ length self.now }
    {
        self.counts.len()
    }

    /// The greatest count of a bit, at which it is not set again.
    #[inline]
    pub fn max_count(&self) -> u64
        ensures { result ≡ max_count }
    {
        u64::MAX
    }

    /// Sets a bit once more, and says whether its count could grow.
    #[inline]
    pub fn set(&mut self, id: usize) -> bool
        requires { id < length self.old }
        ensures room { IsTrue result ↔ (count_of self.old id < max_count) }
        ensures counted { OnTrue result (self.new ≡ with_one_more self.old id) }
        ensures unchanged { OnFalse result (self.new ≡ self.old) }
    {
        let count = self.counts[id];
        if count == u64::MAX {
            return false;
        }
        self.counts[id] = count + 1;
        true
    }

    /// Takes all counts out, and calls `callback` with each bit that was set, ascending.
    pub fn reset_all<F: FnMut(BitState)>(&mut self, mut callback: F)
        requires { F.IsAlwaysCallable callback }
        ensures called { IsCalledWithEach F.step callback (bit_states self.old) }
        ensures cleared { self.new ≡ no_counts (length self.old) }
    {
        let mut from = 0;
        while let Some(state) = self.take_next_from(from) {
            callback(state);
            from = state.bit;
        }
    }

    /// Takes out the count of the lowest bit that was set, where none before `from` was.
    #[inline]
    fn take_next_from(&mut self, from: usize) -> Option<BitState>
        requires { (id : ℕ) → id < from → count_of self.old id ≡ 0 }
        ensures lowest { result ≡ slice_get (bit_states self.old) 0 }
        ensures taken { IfSome result (λ state. self.new ≡ slice_set self.old state.bit 0) }
        ensures unchanged { IfNone result (self.new ≡ self.old) }
    {
        let bit = first_used_word(&self.counts, from)?;
        let count = self.counts[bit];
        self.counts[bit] = 0;
        Some(BitState { bit, count })
    }
}
