//! Searches in words, a whole word at a time.
ghost use Rattle.std.specs.Prelude.{◌≡◌, ◌+◌, ◌*◌, ◌^◌, ◌<◌, ◌∷◌, [], IfNone, IfSome, ℕ, length, replicate, true};
ghost use Rattle.iox_sets.specs.BitWords.{bit_in, numbers_from, numbers_in};
ghost use Rattle.iox_sets.specs.Calls.{IsCalledWithEach, IsLeftByCalls};
ghost use Rattle.iox_sets.specs.Words.{IsFirstUsed, IsUnusedFrom};

/// How many bits a word has.
pub(crate) const WORD_BITS: usize = 64;

/// The place of the first word that is not 0, from `from` on.
#[inline]
pub(crate) fn first_used_word(words: &[u64], from: usize) -> Option<usize>
    ensures found { IfSome result (IsFirstUsed words.now from) }
    ensures none { IfNone result (IsUnusedFrom words.now from) }
{
    for place in from..words.len() {
        if words[place] != 0 {
            return Some(place);
        }
    }
    None
}

/// Clears all words, and calls `callback` with the number of each bit that was set, ascending.
#[inline]
pub(crate) fn take_bits<F: FnMut(usize)>(words: &mut [u64], mut callback: F)
    requires callable { F.IsAlwaysCallable callback }
    requires numbered { (id : ℕ) → bit_in words.old id ≡ true → id < 2 ^ 64 }
    ensures called { IsCalledWithEach F.step callback (numbers_from 0 words.old) }
    ensures cleared { words.new ≡ replicate (length words.old) 0 }
{
    for place in 0..words.len() {
        let word = words[place];
        words[place] = 0;
        callback = tell_bits(callback, place, word);
    }
}

/// Calls `callback` with the number of each bit that is set in the word at a place, ascending.
#[inline]
fn tell_bits<F: FnMut(usize)>(mut callback: F, place: usize, word: u64) -> F
    requires callable { F.IsAlwaysCallable callback }
    requires numbered { (id : ℕ) → id < 64 → bit_in (word ∷ []) id ≡ true
        → place * 64 + id < 2 ^ 64 }
    ensures called { IsLeftByCalls F.step callback (numbers_in place word) result }
    ensures callable { F.IsAlwaysCallable result }
{
    let mut left = word;
    while left != 0 {
        let shift = left.trailing_zeros() as usize;
        left &= left - 1;
        callback(place * WORD_BITS + shift);
    }
    callback
}
