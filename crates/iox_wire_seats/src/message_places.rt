//! Where the words of a message stand.
ghost use Rattle.std.specs.Prelude.{◌≡◌, ◌<◌};
ghost use Rattle.iox_wire_seats.specs.Aims.{AreInMemory, word_at};

/// Where the words of a message stand behind its header: so many of its user header, and then those
/// of its payload.
#[derive(Clone, Copy, Debug)]
pub struct MessagePlaces {
    /// The place of the first word of the user header.
    pub user: usize,
    /// How many words the user header has.
    pub user_count: usize,
    /// The place of the first word of the payload.
    pub payload: usize,
}

impl MessagePlaces {
    ghost use Rattle.std.specs.Prelude.{ℕ, ◌≡◌, ◌<◌};

    /// The place of a word, of so many behind the header.
    #[inline(always)]
    pub fn word(self, k: usize, count: usize) -> usize
        requires memory { AreInMemory self count }
        requires within { k < count }
        ensures { result ≡ word_at self k }
    {
        if k < self.user_count {
            self.user + k
        } else {
            self.payload + (k - self.user_count)
        }
    }
}
