//! Types whose values are lists of words.
ghost use Rattle.std.specs.Prelude.{◌≡◌, ◌<◌, ℕ, List, Option, slice_index};
ghost use Rattle.iox_words.specs.WordLists.{AreWords};

/// A type whose values are lists of words of 64 bits: each value is read back from its list.
pub trait Words: Copy {
    ghost WORDS: { ℕ };

    /// How many words a value has.
    const WORDS: usize;

    /// Holds of the values of the type.
    ghost is_value: { Self → Type 0 };

    /// The words of a value.
    ghost words: { Self → List ℕ };

    /// Holds of the lists that are words of the type.
    ghost is_words: { List ℕ → Type 0 };

    /// The value whose words a list is, if it is words of the type.
    ghost of_words: { List ℕ → Option Self };

    /// What a program has is a value of its type.
    fn known(self)
        ensures { is_value self };

    /// Word number `index` of the value.
    fn word(&self, index: usize) -> u64
        requires { index < WORDS }
        ensures { result ≡ slice_index (words self.now) index };

    /// The value whose words the list is; `None` if the list is not words of the type.
    fn of_words(list: &[u64]) -> Option<Self>
        ensures { result ≡ of_words list.now };

    ghost laws: { AreWords WORDS is_value words is_words of_words };
}
