//! The words of numbers of 128 bits: two, the more significant first.
ghost use Rattle.std.specs.Prelude.{◌<◌, ◌^◌, codes, refl, FitsSigned};
ghost use Rattle.std.specs.Int.{w128};
ghost use Rattle.iox_words.specs.Numbers.{IsTwoWords, of_signed_words, of_two_words, signed_words, two_words};
ghost use Rattle.iox_words.specs.NumberLaws.{two_words_are_a_number};
ghost use Rattle.iox_words.specs.SignedLaws.{two_words_are_a_signed_number};

use crate::word_list::Words;
use crate::zero_copy_send::ZeroCopySend;

impl Words for u128 {
    ghost WORDS = { 2 };

    const WORDS: usize = 2;

    ghost is_value = { λ n. n < 2 ^ 128 };

    ghost words = { two_words };

    ghost is_words = { IsTwoWords };

    ghost of_words = { of_two_words };

    fn known(self) {}

    fn word(&self, index: usize) -> u64 {
        if index == 0 {
            (*self / (1 << 64)) as u64
        } else {
            (*self % (1 << 64)) as u64
        }
    }

    fn of_words(list: &[u64]) -> Option<u128> {
        match list {
            [high, low] => Some(u128::from(*high) * (1 << 64) + u128::from(*low)),
            _ => None,
        }
    }

    ghost laws = { two_words_are_a_number };
}

impl ZeroCopySend for u128 {
    ghost SIZE = { 16 };

    const SIZE: usize = 16;

    ghost ALIGNMENT = { 8 };

    const ALIGNMENT: usize = 8;

    ghost name = { codes "u128" };

    fn name() -> &'static str {
        "u128"
    }

    ghost sized = { refl };

    ghost aligned = { (3, refl) };

    ghost named = { refl };
}

impl Words for i128 {
    ghost WORDS = { 2 };

    const WORDS: usize = 2;

    ghost is_value = { FitsSigned w128 };

    ghost words = { signed_words };

    ghost is_words = { IsTwoWords };

    ghost of_words = { of_signed_words };

    fn known(self) {}

    fn word(&self, index: usize) -> u64 {
        self.cast_unsigned().word(index)
    }

    fn of_words(list: &[u64]) -> Option<i128> {
        Some(u128::of_words(list)?.cast_signed())
    }

    ghost laws = { two_words_are_a_signed_number };
}

impl ZeroCopySend for i128 {
    ghost SIZE = { 16 };

    const SIZE: usize = 16;

    ghost ALIGNMENT = { 8 };

    const ALIGNMENT: usize = 8;

    ghost name = { codes "i128" };

    fn name() -> &'static str {
        "i128"
    }

    ghost sized = { refl };

    ghost aligned = { (3, refl) };

    ghost named = { refl };
}
