//! Counts that parties raise and take out, one word a bit.
pub use machine::CountingBitSetMachine;
pub use party::CountParty;

mod machine;
mod party;

/// The counts that stand in words from `base` on, one a bit.
#[derive(Clone, Copy)]
pub struct CountSite {
    /// the place of the first count
    pub base: usize,
    /// how many bits there are
    pub capacity: usize,
}

/// What a party can be asked to do.
#[derive(Clone, Copy)]
pub enum CountCall {
    /// adds one to the count of the bit, if there is one of this number
    Set(usize),
    /// takes all counts out
    ResetAll,
}

/// What a call answers.
#[derive(Clone, Copy, Debug, PartialEq, Eq)]
pub enum CountReply {
    /// was one added?
    Set(bool),
    /// all counts were taken out, one after another
    ResetAll,
}

/// What happens to the counts.
#[derive(Clone, Copy, Debug, PartialEq, Eq)]
pub enum CountEvent {
    /// the bit's count is one more
    Added(usize),
    /// the bit's count was this, is 0 now, and is handed out
    Taken(usize, u64),
}

/// Where a party is in its call.
#[derive(Clone, Copy)]
pub enum CountProgram {
    /// no call is under way
    AtRest,
    /// it needs no word to reply
    Replies(CountReply),
    /// it loads the count of this bit next
    Loads(usize),
    /// it puts one more in place of this count of the bit next
    Exchanges(usize, u64),
    /// it takes the count of this bit out next
    Takes(usize),
}

impl CountSite {
    ghost use Rattle.std.specs.Prelude.{◌≡◌};
    ghost use Rattle.iox_set_steps.specs.Counts.{place_of_count};

    /// The place of the count of a bit.
    #[inline]
    pub fn place(self, id: usize) -> usize
        ensures { result ≡ place_of_count self id }
    {
        self.base.saturating_add(id)
    }
}
