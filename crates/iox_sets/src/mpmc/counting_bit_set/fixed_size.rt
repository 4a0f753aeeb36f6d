//! The set of counted bits whose capacity is known when the program is built.
ghost use Rattle.std.specs.Prelude.{◌≡◌, ◌<◌, ◌↔◌, IfOk, IsTrue, length};
ghost use Rattle.std.specs.Bool.{OnFalse, OnTrue};
ghost use Rattle.iox_sets.specs.Calls.{IsCalledWithEach};
ghost use Rattle.iox_sets.specs.CountingBitSets.{bit_states, count_of, max_count, no_counts, with_one_more};

use super::{BitState, CountingBitSet};
use std::alloc::{AllocError, Global};
use std::marker::Model;

/// A [`CountingBitSet`] of `CAPACITY` bits.
#[derive(Debug, Drop)]
pub struct FixedSizeCountingBitSet<const CAPACITY: usize> {
    set: CountingBitSet,
}

impl<const CAPACITY: usize> Model for FixedSizeCountingBitSet<CAPACITY> {
    ghost use Rattle.std.specs.Prelude.{◌≡◌, ℕ, List, length};

    ghost Value = { List ℕ };

    ghost view = { λ s. s.set };

    ghost invariant = { λ s. length s.set ≡ CAPACITY };
}

impl<const CAPACITY: usize> FixedSizeCountingBitSet<CAPACITY> {
    /// Makes a set of `CAPACITY` bits, none of which was set.
    pub fn new(alloc: Global) -> Result<Self, AllocError>
        ensures { IfOk result (λ set. set ≡ no_counts CAPACITY) }
    {
        let set = CountingBitSet::new(alloc, CAPACITY)?;
        Ok(FixedSizeCountingBitSet { set })
    }

    /// How many bits the set has, which is `CAPACITY`.
    #[inline]
    pub fn capacity(&self) -> usize
        ensures capacity { result ≡ length self.now }
        ensures fixed { result ≡ CAPACITY }
    {
        self.set.capacity()
    }

    /// The greatest count of a bit, at which it is not set again.
    #[inline]
    pub fn max_count(&self) -> u64
        ensures { result ≡ max_count }
    {
        self.set.max_count()
    }

    /// Sets a bit once more, and says whether its count could grow.
    #[inline]
    pub fn set(&mut self, id: usize) -> bool
        requires { id < length self.old }
        ensures room { IsTrue result ↔ (count_of self.old id < max_count) }
        ensures counted { OnTrue result (self.new ≡ with_one_more self.old id) }
        ensures unchanged { OnFalse result (self.new ≡ self.old) }
    {
        self.set.set(id)
    }

    /// Takes all counts out, and calls `callback` with each bit that was set, ascending.
    pub fn reset_all<F: FnMut(BitState)>(&mut self, callback: F)
        requires { F.IsAlwaysCallable callback }
        ensures called { IsCalledWithEach F.step callback (bit_states self.old) }
        ensures cleared { self.new ≡ no_counts (length self.old) }
    {
        self.set.reset_all(callback);
    }
}
