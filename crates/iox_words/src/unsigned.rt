//! The words of unsigned numbers: one word, below the type's limit.
ghost use Rattle.std.specs.Prelude.{◌<◌, ◌^◌, codes, refl};
ghost use Rattle.std.proofs.Common.{lit≤};
ghost use Rattle.iox_words.specs.Numbers.{one_word, IsOneWord, of_one_word};
ghost use Rattle.iox_words.specs.NumberLaws.{one_word_is_a_number};

use crate::word_list::Words;
use crate::zero_copy_send::ZeroCopySend;

impl Words for u8 {
    ghost WORDS = { 1 };

    const WORDS: usize = 1;

    ghost is_value = { λ n. n < 2 ^ 8 };

    ghost words = { one_word };

    ghost is_words = { IsOneWord (2 ^ 8) };

    ghost of_words = { of_one_word (2 ^ 8) };

    fn known(self) {}

    fn word(&self, _index: usize) -> u64 {
        u64::from(*self)
    }

    fn of_words(list: &[u64]) -> Option<u8> {
        match list {
            [word] => u8::try_from(*word).ok(),
            _ => None,
        }
    }

    ghost laws = { one_word_is_a_number (2 ^ 8) (lit≤ tt) };
}

impl ZeroCopySend for u8 {
    ghost SIZE = { 8 };

    const SIZE: usize = 8;

    ghost ALIGNMENT = { 8 };

    const ALIGNMENT: usize = 8;

    ghost name = { codes "u8" };

    fn name() -> &'static str {
        "u8"
    }

    ghost sized = { refl };

    ghost aligned = { (3, refl) };

    ghost named = { refl };
}

impl Words for u16 {
    ghost WORDS = { 1 };

    const WORDS: usize = 1;

    ghost is_value = { λ n. n < 2 ^ 16 };

    ghost words = { one_word };

    ghost is_words = { IsOneWord (2 ^ 16) };

    ghost of_words = { of_one_word (2 ^ 16) };

    fn known(self) {}

    fn word(&self, _index: usize) -> u64 {
        u64::from(*self)
    }

    fn of_words(list: &[u64]) -> Option<u16> {
        match list {
            [word] => u16::try_from(*word).ok(),
            _ => None,
        }
    }

    ghost laws = { one_word_is_a_number (2 ^ 16) (lit≤ tt) };
}

impl ZeroCopySend for u16 {
    ghost SIZE = { 8 };

    const SIZE: usize = 8;

    ghost ALIGNMENT = { 8 };

    const ALIGNMENT: usize = 8;

    ghost name = { codes "u16" };

    fn name() -> &'static str {
        "u16"
    }

    ghost sized = { refl };

    ghost aligned = { (3, refl) };

    ghost named = { refl };
}

impl Words for u32 {
    ghost WORDS = { 1 };

    const WORDS: usize = 1;

    ghost is_value = { λ n. n < 2 ^ 32 };

    ghost words = { one_word };

    ghost is_words = { IsOneWord (2 ^ 32) };

    ghost of_words = { of_one_word (2 ^ 32) };

    fn known(self) {}

    fn word(&self, _index: usize) -> u64 {
        u64::from(*self)
    }

    fn of_words(list: &[u64]) -> Option<u32> {
        match list {
            [word] => u32::try_from(*word).ok(),
            _ => None,
        }
    }

    ghost laws = { one_word_is_a_number (2 ^ 32) (lit≤ tt) };
}

impl ZeroCopySend for u32 {
    ghost SIZE = { 8 };

    const SIZE: usize = 8;

    ghost ALIGNMENT = { 8 };

    const ALIGNMENT: usize = 8;

    ghost name = { codes "u32" };

    fn name() -> &'static str {
        "u32"
    }

    ghost sized = { refl };

    ghost aligned = { (3, refl) };

    ghost named = { refl };
}

impl Words for u64 {
    ghost WORDS = { 1 };

    const WORDS: usize = 1;

    ghost is_value = { λ n. n < 2 ^ 64 };

    ghost words = { one_word };

    ghost is_words = { IsOneWord (2 ^ 64) };

    ghost of_words = { of_one_word (2 ^ 64) };

    fn known(self) {}

    fn word(&self, _index: usize) -> u64 {
        *self
    }

    fn of_words(list: &[u64]) -> Option<u64> {
        match list {
            [word] => Some(*word),
            _ => None,
        }
    }

    ghost laws = { one_word_is_a_number (2 ^ 64) (lit≤ tt) };
}

impl ZeroCopySend for u64 {
    ghost SIZE = { 8 };

    const SIZE: usize = 8;

    ghost ALIGNMENT = { 8 };

    const ALIGNMENT: usize = 8;

    ghost name = { codes "u64" };

    fn name() -> &'static str {
        "u64"
    }

    ghost sized = { refl };

    ghost aligned = { (3, refl) };

    ghost named = { refl };
}

impl Words for usize {
    ghost WORDS = { 1 };

    const WORDS: usize = 1;

    ghost is_value = { λ n. n < 2 ^ 64 };

    ghost words = { one_word };

    ghost is_words = { IsOneWord (2 ^ 64) };

    ghost of_words = { of_one_word (2 ^ 64) };

    fn known(self) {}

    fn word(&self, _index: usize) -> u64 {
        *self as u64
    }

    fn of_words(list: &[u64]) -> Option<usize> {
        match list {
            [word] => Some(*word as usize),
            _ => None,
        }
    }

    ghost laws = { one_word_is_a_number (2 ^ 64) (lit≤ tt) };
}

impl ZeroCopySend for usize {
    ghost SIZE = { 8 };

    const SIZE: usize = 8;

    ghost ALIGNMENT = { 8 };

    const ALIGNMENT: usize = 8;

    ghost name = { codes "usize" };

    fn name() -> &'static str {
        "usize"
    }

    ghost sized = { refl };

    ghost aligned = { (3, refl) };

    ghost named = { refl };
}
