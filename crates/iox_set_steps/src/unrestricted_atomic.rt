//! A value of `N` words that one party stores and all load, whole.
pub use machine::AtomicMachine;
pub use party::AtomicParty;
pub use value::{ValueCall, ValueEvent, ValueReply};
pub use value_machine::ValueMachine;

mod machine;
mod party;
mod typed_words;
mod value;
mod value_machine;

/// What a party can be asked to do.
#[derive(Clone, Copy)]
pub enum AtomicCall<const N: usize> {
    /// stores the words of a value; only party 0 does
    Store([u64; N]),
    /// loads the value that is current
    Load,
}

/// What a call answers.
#[derive(Clone, Copy, Debug, PartialEq, Eq)]
pub enum AtomicReply<const N: usize> {
    /// was it stored? After `2 ^ 64 - 1` stores there is none
    Stored(bool),
    /// the words of the value that is current at the call's last access
    Loaded([u64; N]),
}

/// What happens to the value.
#[derive(Clone, Copy, Debug, PartialEq, Eq)]
pub enum AtomicEvent<const N: usize> {
    /// from now on it is this one
    Stored([u64; N]),
    /// it is this one, and is handed out
    Loaded([u64; N]),
}

/// Where a party is in its call. The words of a value are first stored in the cell that is not read
/// at the version that stands, and then that version is raised.
#[derive(Clone, Copy)]
pub enum AtomicProgram<const N: usize> {
    /// no call is under way
    AtRest,
    /// it loads the version, to store the value
    LoadsToStore([u64; N]),
    /// it stores this word of the value, of the version behind this one
    StoresWord([u64; N], u64, usize),
    /// it raises the version
    Raises([u64; N], u64),
    /// it loads the version, to load the value
    LoadsToLoad,
    /// it loads this word of the value of the version; those before it are there
    LoadsWord(u64, [u64; N], usize),
    /// it loads the version again, to see that it still stands
    LoadsAgain(u64, [u64; N]),
}
