//! Bits that parties set and clear, 64 in a word.

pub use machine::BitSetMachine;
pub use party::BitParty;

mod machine;
mod party;

/// How many bits a word has.
const WORD_BITS: usize = 64;

/// The bits that stand in words from `base` on.
#[derive(Clone, Copy)]
pub struct BitSite {
    /// the place of the first word of bits
    pub base: usize,
    /// how many bits there are
    pub capacity: usize,
}

/// What a party can be asked to do.
#[derive(Clone, Copy)]
pub enum BitCall {
    /// sets the bit, if there is one of this number
    Set(usize),
    /// clears the first bit that it sees set
    ResetNext,
    /// clears all bits
    ResetAll,
}

/// What a call answers.
#[derive(Clone, Copy, Debug, PartialEq, Eq)]
pub enum BitReply {
    /// did it change the bit?
    Set(bool),
    /// the bit that was cleared, if one was seen
    ResetNext(Option<usize>),
    /// all bits were cleared, one word after another
    ResetAll,
}

/// What happens to the bits.
#[derive(Clone, Copy, Debug, PartialEq, Eq)]
pub enum BitEvent {
    /// the bit was not set, and is now
    Set(usize),
    /// the bit was set, is not now, and is handed out
    Cleared(usize),
    /// all bits of this word are cleared, and those that were set are handed out: the word as it
    /// was before
    ClearedAll(usize, u64),
}

/// Where a party is in its call.
#[derive(Clone, Copy)]
pub enum BitProgram {
    /// no call is under way
    AtRest,
    /// it needs no word to reply
    Replies(BitReply),
    /// it sets the bit next
    Sets(usize),
    /// it looks for a bit in this word next
    Looks(usize),
    /// it clears the bit next, which it saw set
    Clears(usize),
    /// it clears all bits of this word next
    ClearsAll(usize),
}

impl BitSite {
    ghost use Rattle.std.specs.Prelude.{◌≡◌};
    ghost use Rattle.iox_set_steps.specs.Bits.{bit_words, place_of_word};

    /// How many words the bits take.
    #[inline]
    pub fn words(self) -> usize
        ensures { result ≡ bit_words self.capacity }
    {
        self.capacity.div_ceil(WORD_BITS)
    }

    /// The place of a word of the bits.
    #[inline]
    pub fn place(self, word: usize) -> usize
        ensures { result ≡ place_of_word self word }
    {
        self.base.saturating_add(word)
    }
}
