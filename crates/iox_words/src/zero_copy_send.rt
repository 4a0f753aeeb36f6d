//! Types whose values may be sent as they stand in memory.
ghost use Rattle.std.specs.Prelude.{◌≡◌, ◌*◌, ℕ, List, IsTrue};
ghost use Rattle.std.specs.Int.{IsPowerOfTwo};
ghost use Rattle.iox_words.specs.WordLists.{is_name};

use crate::word_list::Words;

/// A type with words and a name, whose values stand in memory as their words do.
pub trait ZeroCopySend: Words {
    ghost SIZE: { ℕ };

    /// How many bytes a value takes.
    const SIZE: usize;

    ghost ALIGNMENT: { ℕ };

    /// What a value's place is a multiple of.
    const ALIGNMENT: usize;

    /// The bytes of the type's name.
    ghost name: { List ℕ };

    /// The type's name, which both sides of a connection compare.
    fn name() -> &'static str
        ensures { result.now ≡ name };

    ghost sized: { SIZE ≡ 8 * Self.WORDS };

    ghost aligned: { IsPowerOfTwo ALIGNMENT };

    ghost named: { IsTrue (is_name name) };
}
