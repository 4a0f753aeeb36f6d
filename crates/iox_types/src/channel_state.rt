//! Which request a channel serves.
ghost use Rattle.std.specs.Prelude.{◌≡◌, ◌<◌, ◌^◌, ◌↔◌, IfSome, IsSome};

use iox_names::Words;
use std::marker::Model;

/// The number of a request, below 2^62, so that a word that keeps it has room for two marks.
#[derive(Clone, Copy, Debug, PartialEq, Eq)]
pub struct ChannelState {
    value: u64,
}

/// The number of a request is kept in a channel as its state.
pub type RequestId = ChannelState;

impl Model for ChannelState {
    ghost use Rattle.std.specs.Prelude.{◌<◌, ◌^◌, ℕ};

    ghost Value = { ℕ };

    ghost view = { λ it. it.value };

    ghost invariant = { λ it. it.value < 2 ^ 62 };

    ghost inverse = { λ n. record { value = n } };
}

impl ChannelState {
    const LIMIT: u64 = 1 << 62;

    /// The request of that number, if the number is small enough.
    pub fn new(value: u64) -> Option<ChannelState>
        ensures small { IsSome result ↔ (value < 2 ^ 62) }
        ensures made { IfSome result (λ id. id ≡ value) }
    {
        if value < ChannelState::LIMIT {
            Some(ChannelState { value })
        } else {
            None
        }
    }

    /// The request's number.
    pub fn value(&self) -> u64
        ensures value { result ≡ self.now }
        ensures below { result < 2 ^ 62 }
    {
        self.value
    }

    /// What every request's number is below.
    pub fn max_value() -> u64
        ensures { result ≡ 2 ^ 62 }
    {
        ChannelState::LIMIT
    }
}

impl Words for ChannelState {
    ghost use Rattle.std.specs.Prelude.{◌<◌, ◌^◌};
    ghost use Rattle.std.proofs.Common.{lit≤};
    ghost use Rattle.iox_names.specs.Numbers.{IsOneWord, of_one_word, one_word};
    ghost use Rattle.iox_names.specs.NumberLaws.{one_word_is_a_number};

    ghost WORDS = { 1 };

    const WORDS: usize = 1;

    ghost is_value = { λ n. n < 2 ^ 62 };

    ghost words = { one_word };

    ghost is_words = { IsOneWord (2 ^ 62) };

    ghost of_words = { of_one_word (2 ^ 62) };

    fn known(self) {}

    fn word(&self, _index: usize) -> u64 {
        self.value
    }

    fn of_words(list: &[u64]) -> Option<ChannelState> {
        match list {
            [word] => ChannelState::new(*word),
            _ => None,
        }
    }

    ghost laws = { one_word_is_a_number (2 ^ 62) (lit≤ tt) };
}
