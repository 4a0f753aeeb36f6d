//! A handler of the tests' own.
use iox_port_commands::{Backpressure, BackpressureAction, BackpressureInfo};
use iox_words::Words;

/// It answers at one receiver, and follows the strategy at each other.
#[derive(Clone, Copy)]
pub(super) struct AnswersAt {
    pub(super) receiver: u64,
    /// `FOLLOWS`, `DISCARDS`, or any other to fail.
    pub(super) answer: u64,
}

/// It follows the strategy.
pub(super) const FOLLOWS: u64 = 0;

/// It discards.
pub(super) const DISCARDS: u64 = 1;

/// It fails.
pub(super) const FAILS: u64 = 2;

impl Words for AnswersAt {
    ghost use Rattle.std.specs.Prelude.{◌<◌, ◌^◌, ◌++◌, option_map, refl};
    ghost use Rattle.std.proofs.Common.{lit≤};
    ghost use Rattle.iox_words.specs.Numbers.{IsOneWord, of_one_word, one_word};
    ghost use Rattle.iox_words.specs.NumberLaws.{one_word_is_a_number};
    ghost use Rattle.iox_words.specs.WordParts.{IsWordsInParts, of_parts};
    ghost use Rattle.iox_words.specs.WordLaws.{AreWords-option_map, AreWords-pair};

    ghost WORDS = { 2 };

    const WORDS: usize = 2;

    ghost is_value = { λ it. (it.receiver < 2 ^ 64) × (it.answer < 2 ^ 64) };

    ghost words = { λ it. one_word it.receiver ++ one_word it.answer };

    ghost is_words = { IsWordsInParts 1 (IsOneWord (2 ^ 64)) (IsOneWord (2 ^ 64)) };

    ghost of_words = { λ list.
        option_map (λ parts. record { receiver = parts.0; answer = parts.1 })
        (of_parts 1 (of_one_word (2 ^ 64)) (of_one_word (2 ^ 64)) list) };

    fn known(self) {}

    fn word(&self, index: usize) -> u64 {
        match index {
            0 => self.receiver,
            _ => self.answer,
        }
    }

    fn of_words(list: &[u64]) -> Option<AnswersAt> {
        match list {
            [receiver, answer] => Some(AnswersAt {
                receiver: *receiver,
                answer: *answer,
            }),
            _ => None,
        }
    }

    ghost laws = { AreWords-option_map 2 _ _ _ _ _ (λ it. (it.receiver, it.answer))
        (λ parts. record { receiver = parts.0; answer = parts.1 })
        (AreWords-pair 1 1 _ _ _ _ _ _ _ _ (one_word_is_a_number (2 ^ 64) (lit≤ tt))
        (one_word_is_a_number (2 ^ 64) (lit≤ tt)))
        (λ it h. (h, refl)) (λ parts h. (h, refl)) };
}

impl Backpressure for AnswersAt {
    ghost use Rattle.std.specs.Prelude.{◌==◌, if◌then◌else◌};
    ghost use Rattle.iox_port_commands.specs.HandlerWords.{action_of};
    ghost use Rattle.iox_model.specs.declared.backpressure.BackpressureAction.TheVariants.{FollowBackpressureStrategy};

    ghost action = { λ it sender receiver.
        if receiver == it.receiver then action_of it.answer else FollowBackpressureStrategy };

    fn act(&self, info: &BackpressureInfo) -> BackpressureAction {
        if info.receiver != self.receiver {
            return BackpressureAction::FollowBackpressureStrategy;
        }
        match self.answer {
            FOLLOWS => BackpressureAction::FollowBackpressureStrategy,
            DISCARDS => BackpressureAction::DiscardData,
            _ => BackpressureAction::DiscardDataAndFail,
        }
    }
}
