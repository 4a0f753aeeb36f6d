//! The words of signed numbers: one word, the bits of the number in the type's width.
ghost use Rattle.std.specs.Prelude.{◌^◌, codes, refl, FitsSigned};
ghost use Rattle.std.specs.Int.{w8, w16, w32, w64};
ghost use Rattle.std.proofs.Common.{lit≤};
ghost use Rattle.iox_words.specs.Numbers.{IsOneWord, of_signed_word, signed_word};
ghost use Rattle.iox_words.specs.SignedLaws.{one_word_is_a_signed_number};

use crate::word_list::Words;
use crate::zero_copy_send::ZeroCopySend;

impl Words for i8 {
    ghost WORDS = { 1 };

    const WORDS: usize = 1;

    ghost is_value = { FitsSigned w8 };

    ghost words = { signed_word w8 };

    ghost is_words = { IsOneWord (2 ^ 8) };

    ghost of_words = { of_signed_word w8 };

    fn known(self) {}

    fn word(&self, _index: usize) -> u64 {
        u64::from(self.cast_unsigned())
    }

    fn of_words(list: &[u64]) -> Option<i8> {
        match list {
            [word] => match u8::try_from(*word) {
                Ok(bits) => Some(bits.cast_signed()),
                Err(_) => None,
            },
            _ => None,
        }
    }

    ghost laws = { one_word_is_a_signed_number w8 (lit≤ tt) };
}

impl ZeroCopySend for i8 {
    ghost SIZE = { 8 };

    const SIZE: usize = 8;

    ghost ALIGNMENT = { 8 };

    const ALIGNMENT: usize = 8;

    ghost name = { codes "i8" };

    fn name() -> &'static str {
        "i8"
    }

    ghost sized = { refl };

    ghost aligned = { (3, refl) };

    ghost named = { refl };
}

impl Words for i16 {
    ghost WORDS = { 1 };

    const WORDS: usize = 1;

    ghost is_value = { FitsSigned w16 };

    ghost words = { signed_word w16 };

    ghost is_words = { IsOneWord (2 ^ 16) };

    ghost of_words = { of_signed_word w16 };

    fn known(self) {}

    fn word(&self, _index: usize) -> u64 {
        u64::from(self.cast_unsigned())
    }

    fn of_words(list: &[u64]) -> Option<i16> {
        match list {
            [word] => match u16::try_from(*word) {
                Ok(bits) => Some(bits.cast_signed()),
                Err(_) => None,
            },
            _ => None,
        }
    }

    ghost laws = { one_word_is_a_signed_number w16 (lit≤ tt) };
}

impl ZeroCopySend for i16 {
    ghost SIZE = { 8 };

    const SIZE: usize = 8;

    ghost ALIGNMENT = { 8 };

    const ALIGNMENT: usize = 8;

    ghost name = { codes "i16" };

    fn name() -> &'static str {
        "i16"
    }

    ghost sized = { refl };

    ghost aligned = { (3, refl) };

    ghost named = { refl };
}

impl Words for i32 {
    ghost WORDS = { 1 };

    const WORDS: usize = 1;

    ghost is_value = { FitsSigned w32 };

    ghost words = { signed_word w32 };

    ghost is_words = { IsOneWord (2 ^ 32) };

    ghost of_words = { of_signed_word w32 };

    fn known(self) {}

    fn word(&self, _index: usize) -> u64 {
        u64::from(self.cast_unsigned())
    }

    fn of_words(list: &[u64]) -> Option<i32> {
        match list {
            [word] => match u32::try_from(*word) {
                Ok(bits) => Some(bits.cast_signed()),
                Err(_) => None,
            },
            _ => None,
        }
    }

    ghost laws = { one_word_is_a_signed_number w32 (lit≤ tt) };
}

impl ZeroCopySend for i32 {
    ghost SIZE = { 8 };

    const SIZE: usize = 8;

    ghost ALIGNMENT = { 8 };

    const ALIGNMENT: usize = 8;

    ghost name = { codes "i32" };

    fn name() -> &'static str {
        "i32"
    }

    ghost sized = { refl };

    ghost aligned = { (3, refl) };

    ghost named = { refl };
}

impl Words for i64 {
    ghost WORDS = { 1 };

    const WORDS: usize = 1;

    ghost is_value = { FitsSigned w64 };

    ghost words = { signed_word w64 };

    ghost is_words = { IsOneWord (2 ^ 64) };

    ghost of_words = { of_signed_word w64 };

    fn known(self) {}

    fn word(&self, _index: usize) -> u64 {
        self.cast_unsigned()
    }

    fn of_words(list: &[u64]) -> Option<i64> {
        match list {
            [word] => Some(word.cast_signed()),
            _ => None,
        }
    }

    ghost laws = { one_word_is_a_signed_number w64 (lit≤ tt) };
}

impl ZeroCopySend for i64 {
    ghost SIZE = { 8 };

    const SIZE: usize = 8;

    ghost ALIGNMENT = { 8 };

    const ALIGNMENT: usize = 8;

    ghost name = { codes "i64" };

    fn name() -> &'static str {
        "i64"
    }

    ghost sized = { refl };

    ghost aligned = { (3, refl) };

    ghost named = { refl };
}

impl Words for isize {
    ghost WORDS = { 1 };

    const WORDS: usize = 1;

    ghost is_value = { FitsSigned w64 };

    ghost words = { signed_word w64 };

    ghost is_words = { IsOneWord (2 ^ 64) };

    ghost of_words = { of_signed_word w64 };

    fn known(self) {}

    fn word(&self, _index: usize) -> u64 {
        self.cast_unsigned() as u64
    }

    fn of_words(list: &[u64]) -> Option<isize> {
        match list {
            [word] => Some((*word as usize).cast_signed()),
            _ => None,
        }
    }

    ghost laws = { one_word_is_a_signed_number w64 (lit≤ tt) };
}

impl ZeroCopySend for isize {
    ghost SIZE = { 8 };

    const SIZE: usize = 8;

    ghost ALIGNMENT = { 8 };

    const ALIGNMENT: usize = 8;

    ghost name = { codes "isize" };

    fn name() -> &'static str {
        "isize"
    }

    ghost sized = { refl };

    ghost aligned = { (3, refl) };

    ghost named = { refl };
}
