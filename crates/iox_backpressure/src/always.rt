//! A handler with one answer.
ghost use Rattle.std.specs.Prelude.{⊤};
ghost use Rattle.iox_words.specs.Numbers.{IsOneWord, one_word};
ghost use Rattle.iox_backpressure.specs.Answers as answers;
ghost use Rattle.iox_backpressure.specs.AlwaysLaws.{always_of, one_word_is_an_answer};

use crate::backpressure::{Backpressure, BackpressureInfo};
use iox_model::backpressure::BackpressureAction;
use iox_words::Words;

/// A handler that answers the same for each full receiver. Its word is 0 for
/// `FollowBackpressureStrategy`, 1 for `DiscardData`, and 2 for `DiscardDataAndFail`.
#[derive(Clone, Copy, Debug, PartialEq, Eq)]
pub struct Always {
    /// What it answers, whoever sends and whoever is full.
    pub action: BackpressureAction,
}

impl Words for Always {
    ghost WORDS = { 1 };

    const WORDS: usize = 1;

    ghost is_value = { λ _. ⊤ };

    ghost words = { λ handler. one_word (answers.number_of handler.action) };

    ghost is_words = { IsOneWord 3 };

    ghost of_words = { always_of };

    fn known(self) {}

    fn word(&self, _index: usize) -> u64 {
        match self.action {
            BackpressureAction::FollowBackpressureStrategy => 0,
            BackpressureAction::DiscardData => 1,
            BackpressureAction::DiscardDataAndFail => 2,
        }
    }

    fn of_words(list: &[u64]) -> Option<Always> {
        let action = match list {
            [0] => BackpressureAction::FollowBackpressureStrategy,
            [1] => BackpressureAction::DiscardData,
            [2] => BackpressureAction::DiscardDataAndFail,
            _ => return None,
        };
        Some(Always { action })
    }

    ghost laws = { one_word_is_an_answer };
}

impl Backpressure for Always {
    ghost action = { λ handler sender receiver. handler.action };

    fn act(&self, _info: &BackpressureInfo) -> BackpressureAction {
        self.action
    }
}
