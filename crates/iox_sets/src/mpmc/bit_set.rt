//! A set of bits that are set one by one, and cleared lowest first.
ghost use Rattle.std.specs.Prelude.{◌≡◌, ◌<◌, IfNone, IfOk, IfSome, length, not};
ghost use Rattle.iox_sets.specs.Calls.{IsCalledWithEach};
ghost use Rattle.iox_sets.specs.BitSets.{bit, lowest, no_bits, set_bits, with_bit, without_bit};

use crate::words::{WORD_BITS, first_used_word, take_bits};
pub use fixed_size::FixedSizeBitSet;
use std::alloc::{AllocError, Global};
use std::marker::Model;

mod fixed_size;

/// A set of `capacity` bits. It takes memory when it is made, and never again.
#[derive(Debug, Drop)]
pub struct BitSet {
    words: Vec<u64>,
    capacity: usize,
}

impl Model for BitSet {
    ghost use Rattle.std.specs.Prelude.{Bool, List};
    ghost use Rattle.iox_sets.specs.BitWords.{IsWholeSet, bits_in};

    ghost Value = { List Bool };

    ghost view = { λ set. bits_in set.words.items set.capacity };

    ghost invariant = { λ set. IsWholeSet set.words.items set.capacity };
}

impl BitSet {
    /// Makes a set of `capacity` bits, none of which is set.
    pub fn new(alloc: Global, capacity: usize) -> Result<BitSet, AllocError>
        ensures { IfOk result (λ set. set ≡ no_bits capacity) }
    {
        let words = vec![in alloc; 0u64; capacity.div_ceil(WORD_BITS)]?;
        Ok(BitSet { words, capacity })
    }

    /// How many bits the set has.
    #[inline]
    pub fn capacity(&self) -> usize
        ensures { result ≡ length self.now }
    {
        self.capacity
    }

    /// Sets a bit, and says whether that changed it.
    #[inline]
    pub fn set(&mut self, id: usize) -> bool
        requires { id < length self.old }
        ensures changed { result ≡ not (bit self.old id) }
        ensures set { self.new ≡ with_bit self.old id }
    {
        let place = id / WORD_BITS;
        let shift = id % WORD_BITS;
        let word = self.words[place];
        self.words[place] = word | 1 << shift;
        (word >> shift) & 1 == 0
    }

    /// Clears the lowest bit that is set, and answers its number; `None` when none is set.
    #[inline]
    pub fn reset_next(&mut self) -> Option<usize>
        ensures lowest { result ≡ lowest self.old }
        ensures cleared { IfSome result (λ id. self.new ≡ without_bit self.old id) }
        ensures unchanged { IfNone result (self.new ≡ self.old) }
        ensures within { IfSome result (λ id. id < length self.new) }
    {
        let place = first_used_word(&self.words, 0)?;
        let word = self.words[place];
        let shift = word.trailing_zeros() as usize;
        self.words[place] = word & !(1 << shift);
        Some(place * WORD_BITS + shift)
    }

    /// Clears all bits, and calls `callback` with the number of each that was set, ascending.
    pub fn reset_all<F: FnMut(usize)>(&mut self, callback: F)
        requires { F.IsAlwaysCallable callback }
        ensures called { IsCalledWithEach F.step callback (set_bits self.old) }
        ensures cleared { self.new ≡ no_bits (length self.old) }
    {
        take_bits(&mut self.words, callback);
    }
}
