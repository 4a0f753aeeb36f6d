//! A call of a node without the words that it brings.
ghost use Rattle.std.specs.Prelude.{◌≡◌, ℕ, take};
ghost use Rattle.iox_wire_weaves.specs.Replies.{call_within};
ghost use Rattle.iox_wire.specs.Replies.{call_with, told_call, words_brought};

use crate::told::ToldCall;
use iox_wire_weaves::HandleCall;

/// A call of a node without the words that it brings.
#[derive(Clone, Copy, Debug)]
pub(crate) enum StoredCall {
    Loan { number: u64, elements: u64 },
    Write { number: u64 },
    Send { number: u64 },
    SendCopy { number: u64 },
    Receive { number: u64 },
    HasRequests { number: u64 },
    Handle { number: u64, call: HandleCall },
}

/// The words that a call brings.
pub(crate) fn words_of<'a>(call: ToldCall<'a>) -> &'a [u64]
    ensures { result.now ≡ words_brought call.entry }
{
    match call {
        ToldCall::Write { words, .. } => words,
        ToldCall::SendCopy { words, .. } => words,
        ToldCall::Loan { .. } => &[],
        ToldCall::Send { .. } => &[],
        ToldCall::Receive { .. } => &[],
        ToldCall::HasRequests { .. } => &[],
        ToldCall::Handle { .. } => &[],
    }
}

impl StoredCall {
    /// The call, without its words.
    pub(crate) fn of(call: ToldCall<'_>) -> StoredCall
        ensures whole { call_with (words_brought call.entry) result ≡ told_call call.entry }
        ensures within { (most : ℕ) → call_with (take most (words_brought call.entry)) result
            ≡ call_within most (told_call call.entry) }
    {
        match call {
            ToldCall::Loan { number, elements } => StoredCall::Loan { number, elements },
            ToldCall::Write { number, .. } => StoredCall::Write { number },
            ToldCall::Send { number } => StoredCall::Send { number },
            ToldCall::SendCopy { number, .. } => StoredCall::SendCopy { number },
            ToldCall::Receive { number } => StoredCall::Receive { number },
            ToldCall::HasRequests { number } => StoredCall::HasRequests { number },
            ToldCall::Handle { number, call } => StoredCall::Handle { number, call },
        }
    }

    /// The same call with these words.
    pub(crate) fn with_words<'a>(self, words: &'a [u64]) -> ToldCall<'a>
        ensures { told_call result ≡ call_with words.now self }
    {
        match self {
            StoredCall::Loan { number, elements } => ToldCall::Loan { number, elements },
            StoredCall::Write { number } => ToldCall::Write { number, words },
            StoredCall::Send { number } => ToldCall::Send { number },
            StoredCall::SendCopy { number } => ToldCall::SendCopy { number, words },
            StoredCall::Receive { number } => ToldCall::Receive { number },
            StoredCall::HasRequests { number } => ToldCall::HasRequests { number },
            StoredCall::Handle { number, call } => ToldCall::Handle { number, call },
        }
    }
}
