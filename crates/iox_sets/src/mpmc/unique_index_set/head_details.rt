//! The head of a set of indices, packed into one word.
ghost use Rattle.std.specs.Prelude.{◌≡◌, ◌^◌, ◌<◌};
ghost use Rattle.iox_sets.specs.Heads.{details_of, word_of};

/// The first free index, how often it changed, and how many indices are held.
#[derive(Clone, Copy, Debug, PartialEq, Eq)]
pub struct HeadDetails {
    /// The first free index, below 2^24.
    pub head: u32,
    /// How often the head changed, modulo 2^16.
    pub aba: u16,
    /// How many indices are held, below 2^24.
    pub borrowed_indices: u32,
}

impl HeadDetails {
    /// The word that has all three.
    #[inline]
    pub fn value(self) -> u64
        requires head_fits { self.head < 2 ^ 24 }
        requires borrowed_indices_fit { self.borrowed_indices < 2 ^ 24 }
        ensures word { result ≡ word_of self }
        // From the word come the same three.
        ensures back { details_of result ≡ self }
    {
        u64::from(self.head) * (1 << 40)
            + u64::from(self.aba) * (1 << 24)
            + u64::from(self.borrowed_indices)
    }
}

impl From<u64> for HeadDetails {
    ghost from_gives = { λ word details. details ≡ details_of word };

    fn from(word: u64) -> HeadDetails {
        HeadDetails {
            head: (word / (1 << 40)) as u32,
            aba: (word / (1 << 24) % (1 << 16)) as u16,
            borrowed_indices: (word % (1 << 24)) as u32,
        }
    }
}
