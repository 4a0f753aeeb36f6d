//! A party at a value: one access after another.
ghost use Rattle.std.specs.Prelude.{◌≡◌, IfOk, slice_set};
ghost use Rattle.iox_set_steps.specs.AtomicMachines.{AreNewParties, new_parties};
ghost use Rattle.iox_set_steps.specs.AtomicPlays.{atomics_ask, atomics_happen, atomics_rest, AtomicsLead, AtomicsBegin, AtomicsHold};
ghost use Rattle.iox_set_steps.specs.AtomicLaws.{atomics_stay_in, atomics_keep};
ghost use Rattle.iox_set_steps.specs.AtomicBegins.{atomics_start};
ghost use Rattle.iox_set_steps.specs.AtomicPrograms.{word_in, word_place};

use super::{AtomicCall, AtomicEvent, AtomicProgram, AtomicReply};
use iox_steps::{Access, MachineError, MachineParty, Next, Party, Progress};
use std::alloc::{AllocError, Global};

/// A party at the value whose version stands at `base`, and behind it the two cells of its words.
#[derive(Clone, Copy)]
pub struct AtomicParty<const N: usize> {
    /// the place of the version, with the two cells behind it
    pub base: usize,
    /// may it store?
    pub stores: bool,
    /// where it is in its call
    pub program: AtomicProgram<N>,
}

/// A word of a value.
#[inline]
fn word<const N: usize>(value: [u64; N], index: usize) -> u64
    ensures { result ≡ word_in value.entry index }
{
    if index < N { value[index] } else { 0 }
}

/// The place of a word of the value of a version.
#[inline]
fn place<const N: usize>(base: usize, version: u64, index: usize) -> usize
    ensures { result ≡ word_place N base version index }
{
    let cell = if version % 2 == 0 { 0 } else { N };
    base.saturating_add(1)
        .saturating_add(cell)
        .saturating_add(index)
}

impl<const N: usize> AtomicProgram<N> {
    ghost use Rattle.std.specs.Prelude.{◌≡◌};
    ghost use Rattle.iox_set_steps.specs.AtomicPrograms.{atomic_access, atomic_event, atomic_next, loads_from, stores_from};

    /// On to this word of the value, or to the version if there is none.
    #[inline]
    fn stores_from(value: [u64; N], version: u64, index: usize) -> AtomicProgram<N>
        ensures { result ≡ stores_from N value.entry version index }
    {
        if index < N {
            AtomicProgram::StoresWord(value, version, index)
        } else {
            AtomicProgram::Raises(value, version)
        }
    }

    /// On to this word of the value, or to the version if there is none.
    #[inline]
    fn loads_from(version: u64, words: [u64; N], index: usize) -> AtomicProgram<N>
        ensures { result ≡ loads_from N version words.entry index }
    {
        if index < N {
            AtomicProgram::LoadsWord(version, words, index)
        } else {
            AtomicProgram::LoadsAgain(version, words)
        }
    }

    /// The access that comes next.
    #[inline]
    pub fn access(self, base: usize) -> Access
        ensures { result ≡ atomic_access N base self.entry }
    {
        match self {
            AtomicProgram::AtRest => Access::Local,
            AtomicProgram::LoadsToStore(_) => Access::Load(base),
            AtomicProgram::StoresWord(value, version, index) => Access::Store(
                place::<N>(base, version.saturating_add(1), index),
                word(value, index),
            ),
            AtomicProgram::Raises(_, version) => Access::Store(base, version.saturating_add(1)),
            AtomicProgram::LoadsToLoad => Access::Load(base),
            AtomicProgram::LoadsWord(version, _, index) => {
                Access::Load(place::<N>(base, version, index))
            }
            AtomicProgram::LoadsAgain(_, _) => Access::Load(base),
        }
    }

    /// Where the program goes after an access that found `seen`.
    #[inline]
    pub fn next(self, seen: u64) -> Next<AtomicProgram<N>, AtomicReply<N>>
        ensures { result ≡ atomic_next N self.entry seen }
    {
        match self {
            AtomicProgram::AtRest => Next::Goes(AtomicProgram::AtRest),
            AtomicProgram::LoadsToStore(_) if seen == u64::MAX => {
                Next::Ends(AtomicReply::Stored(false))
            }
            AtomicProgram::LoadsToStore(value) => {
                Next::Goes(AtomicProgram::stores_from(value, seen, 0))
            }
            AtomicProgram::StoresWord(value, version, index) => Next::Goes(
                AtomicProgram::stores_from(value, version, index.saturating_add(1)),
            ),
            AtomicProgram::Raises(_, _) => Next::Ends(AtomicReply::Stored(true)),
            AtomicProgram::LoadsToLoad => Next::Goes(AtomicProgram::loads_from(seen, [0; N], 0)),
            AtomicProgram::LoadsWord(version, words, index) => {
                let words = with_word(words, index, seen);
                Next::Goes(AtomicProgram::loads_from(version, words, index.saturating_add(1)))
            }
            AtomicProgram::LoadsAgain(version, words) if seen == version => {
                Next::Ends(AtomicReply::Loaded(words))
            }
            AtomicProgram::LoadsAgain(_, words) => {
                Next::Goes(AtomicProgram::loads_from(seen, words, 0))
            }
        }
    }

    /// What an access that found `seen` does to the value, or sees.
    #[inline]
    pub fn event(self, seen: u64) -> Option<AtomicEvent<N>>
        ensures { result ≡ atomic_event self.entry seen }
    {
        match self {
            AtomicProgram::Raises(value, _) => Some(AtomicEvent::Stored(value)),
            AtomicProgram::LoadsAgain(version, words) if seen == version => {
                Some(AtomicEvent::Loaded(words))
            }
            AtomicProgram::LoadsAgain(_, _) => None,
            AtomicProgram::AtRest => None,
            AtomicProgram::LoadsToStore(_) => None,
            AtomicProgram::StoresWord(_, _, _) => None,
            AtomicProgram::LoadsToLoad => None,
            AtomicProgram::LoadsWord(_, _, _) => None,
        }
    }
}

/// The words, but that this one is another.
#[inline]
fn with_word<const N: usize>(words: [u64; N], index: usize, word: u64) -> [u64; N]
    ensures { result ≡ slice_set words.entry index word }
{
    let mut words = words;
    if index < N {
        words[index] = word;
    }
    words
}

impl<const N: usize> Party for AtomicParty<N> {
    type Reply = AtomicReply<N>;

    ghost asks = { atomics_ask N };

    ghost leads = { AtomicsLead N };

    #[inline]
    fn access(&self) -> Access {
        self.program.access(self.base)
    }

    #[inline]
    fn advance(&mut self, seen: u64) -> Progress<AtomicReply<N>> {
        match self.program.next(seen) {
            Next::Goes(program) => {
                self.program = program;
                Progress::Going
            }
            Next::Ends(reply) => {
                self.program = AtomicProgram::AtRest;
                Progress::Done(reply)
            }
        }
    }
}

impl<const N: usize> MachineParty for AtomicParty<N> {
    type Call = AtomicCall<N>;

    type Event = AtomicEvent<N>;

    ghost Invariant = { AtomicsHold N };

    ghost at_rest = { atomics_rest };

    ghost happens = { atomics_happen };

    ghost begins = { AtomicsBegin };

    fn is_at_rest(&self) -> bool {
        matches!(self.program, AtomicProgram::AtRest)
    }

    fn event(&self, seen: u64) -> Option<AtomicEvent<N>> {
        self.program.event(seen)
    }

    fn begin(&mut self, call: AtomicCall<N>) -> Result<(), MachineError> {
        let program = match call {
            AtomicCall::Store(_) if !self.stores => return Err(MachineError::UnknownParty),
            AtomicCall::Store(value) => AtomicProgram::LoadsToStore(value),
            AtomicCall::Load => AtomicProgram::LoadsToLoad,
        };
        match self.program {
            AtomicProgram::AtRest => {
                self.program = program;
                Ok(())
            }
            _ => Err(MachineError::Busy),
        }
    }

    ghost stays_in = { atomics_stay_in N };

    ghost keeps = { atomics_keep N };

    ghost starts = { atomics_start N };
}

/// Parties at a value, all at rest, of which only the first stores.
pub(crate) fn parties_at<const N: usize>(
    alloc: Global,
    base: usize,
    count: usize,
) -> Result<Vec<AtomicParty<N>>, AllocError>
    ensures new { IfOk result (λ parties. AreNewParties base count parties.items) }
    ensures are { IfOk result (λ parties. parties.items ≡ new_parties base count) }
{
    let loads = AtomicParty {
        base,
        stores: false,
        program: AtomicProgram::AtRest,
    };
    let mut parties = vec![in alloc; loads; count]?;
    if count > 0 {
        parties[0] = AtomicParty {
            base,
            stores: true,
            program: AtomicProgram::AtRest,
        };
    }
    Ok(parties)
}
