//! The words of the unit and of `bool`.
ghost use Rattle.std.specs.Prelude.{◌≡◌, ◌^◌, [], ⊤, codes, refl, slice_index};
ghost use Rattle.iox_words.specs.Numbers.{IsNoWord, IsOneWord, no_word, of_bool_word, of_no_word, bool_word};
ghost use Rattle.iox_words.specs.PlainLaws.{no_word_is_the_unit, one_word_is_a_bool};

use crate::word_list::Words;
use crate::zero_copy_send::ZeroCopySend;

impl Words for () {
    ghost WORDS = { 0 };

    const WORDS: usize = 0;

    ghost is_value = { λ _. ⊤ };

    ghost words = { no_word };

    ghost is_words = { IsNoWord };

    ghost of_words = { of_no_word };

    fn known(self) {}

    // There is no word to ask for, so this one asks for nothing, as no call could.
    fn word(&self, _index: usize) -> u64
        ensures { result ≡ slice_index (no_word self.now) _index }
    {
        0
    }

    fn of_words(list: &[u64]) -> Option<()> {
        match list {
            [] => Some(()),
            _ => None,
        }
    }

    ghost laws = { no_word_is_the_unit };
}

impl ZeroCopySend for () {
    ghost SIZE = { 0 };

    const SIZE: usize = 0;

    ghost ALIGNMENT = { 8 };

    const ALIGNMENT: usize = 8;

    ghost name = { codes "()" };

    fn name() -> &'static str {
        "()"
    }

    ghost sized = { refl };

    ghost aligned = { (3, refl) };

    ghost named = { refl };
}

impl Words for bool {
    ghost WORDS = { 1 };

    const WORDS: usize = 1;

    ghost is_value = { λ _. ⊤ };

    ghost words = { bool_word };

    ghost is_words = { IsOneWord 2 };

    ghost of_words = { of_bool_word };

    fn known(self) {}

    fn word(&self, _index: usize) -> u64 {
        u64::from(*self)
    }

    fn of_words(list: &[u64]) -> Option<bool> {
        match list {
            [0] => Some(false),
            [1] => Some(true),
            _ => None,
        }
    }

    ghost laws = { one_word_is_a_bool };
}

impl ZeroCopySend for bool {
    ghost SIZE = { 8 };

    const SIZE: usize = 8;

    ghost ALIGNMENT = { 8 };

    const ALIGNMENT: usize = 8;

    ghost name = { codes "bool" };

    fn name() -> &'static str {
        "bool"
    }

    ghost sized = { refl };

    ghost aligned = { (3, refl) };

    ghost named = { refl };
}
