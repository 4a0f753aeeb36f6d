//! The set of bits whose capacity is known when the program is built.
ghost use Rattle.std.specs.Prelude.{◌≡◌, ◌<◌, IfNone, IfOk, IfSome, length, not};
ghost use Rattle.iox_sets.specs.Calls.{IsCalledWithEach};
ghost use Rattle.iox_sets.specs.BitSets.{bit, lowest, no_bits, set_bits, with_bit, without_bit};

use super::BitSet;
use std::alloc::{AllocError, Global};
use std::marker::Model;

/// A [`BitSet`] of `CAPACITY` bits.
#[derive(Debug, Drop)]
pub struct FixedSizeBitSet<const CAPACITY: usize> {
    set: BitSet,
}

impl<const CAPACITY: usize> Model for FixedSizeBitSet<CAPACITY> {
    ghost use Rattle.std.specs.Prelude.{◌≡◌, Bool, List, length};

    ghost Value = { List Bool };

    ghost view = { λ s. s.set };

    ghost invariant = { λ s. length s.set ≡ CAPACITY };
}

impl<const CAPACITY: usize> FixedSizeBitSet<CAPACITY> {
    /// Makes a set of `CAPACITY` bits, none of which is set.
    pub fn new(alloc: Global) -> Result<Self, AllocError>
        ensures { IfOk result (λ set. set ≡ no_bits CAPACITY) }
    {
        let set = BitSet::new(alloc, CAPACITY)?;
        Ok(FixedSizeBitSet { set })
    }

    /// How many bits the set has, which is `CAPACITY`.
    #[inline]
    pub fn capacity(&self) -> usize
        ensures capacity { result ≡ length self.now }
        ensures fixed { result ≡ CAPACITY }
    {
        self.set.capacity()
    }

    /// Sets a bit, and says whether that changed it.
    #[inline]
    pub fn set(&mut self, id: usize) -> bool
        requires { id < length self.old }
        ensures changed { result ≡ not (bit self.old id) }
        ensures set { self.new ≡ with_bit self.old id }
    {
        self.set.set(id)
    }

    /// Clears the lowest bit that is set, and answers its number; `None` when none is set.
    #[inline]
    pub fn reset_next(&mut self) -> Option<usize>
        ensures lowest { result ≡ lowest self.old }
        ensures cleared { IfSome result (λ id. self.new ≡ without_bit self.old id) }
        ensures unchanged { IfNone result (self.new ≡ self.old) }
        ensures within { IfSome result (λ id. id < length self.new) }
    {
        self.set.reset_next()
    }

    /// Clears all bits, and calls `callback` with the number of each that was set, ascending.
    pub fn reset_all<F: FnMut(usize)>(&mut self, callback: F)
        requires { F.IsAlwaysCallable callback }
        ensures called { IsCalledWithEach F.step callback (set_bits self.old) }
        ensures cleared { self.new ≡ no_bits (length self.old) }
    {
        self.set.reset_all(callback);
    }
}
