//! A party at bits: one access after another.
ghost use Rattle.std.specs.Prelude.{◌≡◌};
ghost use Rattle.iox_set_steps.specs.BitPlays.{bits_ask, bits_happen, bits_rest, BitsLead, BitsBegin, BitsHold};
ghost use Rattle.iox_set_steps.specs.BitLaws.{bits_stay_in, bits_keep, bits_start};
ghost use Rattle.iox_set_steps.specs.BitPrograms.{is_set as is_bit_set, lowest_in as lowest_bit_in, mask as mask_of};

use super::{BitCall, BitEvent, BitProgram, BitReply, BitSite, WORD_BITS};
use iox_steps::{Access, MachineError, MachineParty, Next, Party, Progress};

/// A party at the bits of a site.
#[derive(Clone, Copy)]
pub struct BitParty {
    /// where the bits stand
    pub site: BitSite,
    /// where it is in its call
    pub program: BitProgram,
}

/// The word in which only this bit is set.
#[inline]
fn mask(id: usize) -> u64
    ensures { result ≡ mask_of id }
{
    1 << (id % WORD_BITS)
}

/// Is the bit set in its word?
#[inline]
fn is_set(word: u64, id: usize) -> bool
    ensures { result ≡ is_bit_set word id }
{
    (word >> (id % WORD_BITS)) & 1 == 1
}

/// The number of the lowest bit that is set in this word.
#[inline]
fn lowest_in(word: usize, bits: u64) -> usize
    ensures { result ≡ lowest_bit_in word bits }
{
    let shift = bits.trailing_zeros() as usize;
    word.saturating_mul(WORD_BITS).saturating_add(shift)
}

impl BitSite {
    ghost use Rattle.std.specs.Prelude.{◌≡◌};
    ghost use Rattle.iox_set_steps.specs.BitPrograms.{bit_access, bit_event, bit_next, bit_start, word_behind};

    /// On to the word behind, if it has bits.
    #[inline]
    fn word_behind(self, word: usize) -> Option<usize>
        ensures { result ≡ word_behind self word }
    {
        let behind = word.saturating_add(1);
        if behind < self.words() {
            Some(behind)
        } else {
            None
        }
    }
}

impl BitProgram {
    ghost use Rattle.std.specs.Prelude.{◌≡◌};
    ghost use Rattle.iox_set_steps.specs.BitPrograms.{bit_access, bit_event, bit_next, bit_start, word_behind};

    /// The access that comes next.
    #[inline]
    pub fn access(self, site: BitSite) -> Access
        ensures { result ≡ bit_access site self }
    {
        match self {
            BitProgram::AtRest => Access::Local,
            BitProgram::Replies(_) => Access::Local,
            BitProgram::Sets(id) => Access::FetchOr(site.place(id / WORD_BITS), mask(id)),
            BitProgram::Looks(word) => Access::Load(site.place(word)),
            BitProgram::Clears(id) => Access::FetchAnd(site.place(id / WORD_BITS), !mask(id)),
            BitProgram::ClearsAll(word) => Access::FetchAnd(site.place(word), 0),
        }
    }

    /// Where the program goes after an access that found `seen`.
    #[inline]
    pub fn next(self, site: BitSite, seen: u64) -> Next<BitProgram, BitReply>
        ensures { result ≡ bit_next site self seen }
    {
        match self {
            BitProgram::AtRest => Next::Goes(BitProgram::AtRest),
            BitProgram::Replies(reply) => Next::Ends(reply),
            BitProgram::Sets(id) => Next::Ends(BitReply::Set(!is_set(seen, id))),
            BitProgram::Looks(word) if seen != 0 => {
                Next::Goes(BitProgram::Clears(lowest_in(word, seen)))
            }
            BitProgram::Looks(word) => match site.word_behind(word) {
                Some(behind) => Next::Goes(BitProgram::Looks(behind)),
                None => Next::Ends(BitReply::ResetNext(None)),
            },
            BitProgram::Clears(id) if is_set(seen, id) => {
                Next::Ends(BitReply::ResetNext(Some(id)))
            }
            BitProgram::Clears(id) => Next::Goes(BitProgram::Looks(id / WORD_BITS)),
            BitProgram::ClearsAll(word) => match site.word_behind(word) {
                Some(behind) => Next::Goes(BitProgram::ClearsAll(behind)),
                None => Next::Ends(BitReply::ResetAll),
            },
        }
    }

    /// What an access that found `seen` does to the bits.
    #[inline]
    pub fn event(self, seen: u64) -> Option<BitEvent>
        ensures { result ≡ bit_event self seen }
    {
        match self {
            BitProgram::AtRest => None,
            BitProgram::Replies(_) => None,
            BitProgram::Sets(id) if is_set(seen, id) => None,
            BitProgram::Sets(id) => Some(BitEvent::Set(id)),
            BitProgram::Looks(_) => None,
            BitProgram::Clears(id) if is_set(seen, id) => Some(BitEvent::Cleared(id)),
            BitProgram::Clears(_) => None,
            BitProgram::ClearsAll(_) if seen == 0 => None,
            BitProgram::ClearsAll(word) => Some(BitEvent::ClearedAll(word, seen)),
        }
    }

    /// The program of the call, before its first access.
    #[inline]
    pub fn start(site: BitSite, call: BitCall) -> BitProgram
        ensures { result ≡ bit_start site call }
    {
        match call {
            BitCall::Set(id) if id < site.capacity => BitProgram::Sets(id),
            BitCall::Set(_) => BitProgram::Replies(BitReply::Set(false)),
            BitCall::ResetNext if site.capacity == 0 => {
                BitProgram::Replies(BitReply::ResetNext(None))
            }
            BitCall::ResetNext => BitProgram::Looks(0),
            BitCall::ResetAll if site.capacity == 0 => BitProgram::Replies(BitReply::ResetAll),
            BitCall::ResetAll => BitProgram::ClearsAll(0),
        }
    }
}

impl Party for BitParty {
    type Reply = BitReply;

    ghost asks = { bits_ask };

    ghost leads = { BitsLead };

    #[inline]
    fn access(&self) -> Access {
        self.program.access(self.site)
    }

    #[inline]
    fn advance(&mut self, seen: u64) -> Progress<BitReply> {
        match self.program.next(self.site, seen) {
            Next::Goes(program) => {
                self.program = program;
                Progress::Going
            }
            Next::Ends(reply) => {
                self.program = BitProgram::AtRest;
                Progress::Done(reply)
            }
        }
    }
}

impl MachineParty for BitParty {
    type Call = BitCall;

    type Event = BitEvent;

    ghost Invariant = { BitsHold };

    ghost at_rest = { bits_rest };

    ghost happens = { bits_happen };

    ghost begins = { BitsBegin };

    fn is_at_rest(&self) -> bool {
        matches!(self.program, BitProgram::AtRest)
    }

    fn event(&self, seen: u64) -> Option<BitEvent> {
        self.program.event(seen)
    }

    fn begin(&mut self, call: BitCall) -> Result<(), MachineError> {
        match self.program {
            BitProgram::AtRest => {
                self.program = BitProgram::start(self.site, call);
                Ok(())
            }
            _ => Err(MachineError::Busy),
        }
    }

    ghost stays_in = { bits_stay_in };

    ghost keeps = { bits_keep };

    ghost starts = { bits_start };
}
