//! What parties do with a value of a type, and what happens to it.

/// What a party can be asked to do.
#[derive(Clone, Copy)]
pub enum ValueCall<T> {
    /// stores a value; only party 0 does
    Store(T),
    /// loads the value that is current
    Load,
}

/// What a call answers.
#[derive(Clone, Copy, Debug, PartialEq, Eq)]
pub enum ValueReply<T> {
    /// was it stored? After `2 ^ 64 - 1` stores there is none
    Stored(bool),
    /// the value that is current at the call's last access
    Loaded(T),
}

/// What happens to the value.
#[derive(Clone, Copy, Debug, PartialEq, Eq)]
pub enum ValueEvent<T> {
    /// from now on it is this one
    Stored(T),
    /// it is this one, and is handed out
    Loaded(T),
}
