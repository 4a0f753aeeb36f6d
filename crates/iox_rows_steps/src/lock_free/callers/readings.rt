//! A type of a user's own as the values of a queue, proved only from the clauses.
ghost use Rattle.std.specs.Prelude.{◌≡◌, IfOk, Some};

use iceoryx2_bb_lock_free::spsc::queue::Queue;
use iceoryx2_bb_lock_free::{Words, ZeroCopySend};
use std::alloc::{AllocError, Global};

/// What a sensor measured.
#[derive(Clone, Copy, Debug, PartialEq)]
pub struct Reading {
    pub sensor: u64,
    pub level: u32,
}

impl Words for Reading {
    ghost use Rattle.std.specs.Prelude.{◌<◌, ◌^◌, ◌++◌, option_map, refl};
    ghost use Rattle.std.proofs.Common.{lit≤};
    ghost use Rattle.iceoryx2_bb_lock_free.specs.Numbers.{IsOneWord, of_one_word, one_word};
    ghost use Rattle.iceoryx2_bb_lock_free.specs.NumberLaws.{one_word_is_a_number};
    ghost use Rattle.iceoryx2_bb_lock_free.specs.WordParts.{IsWordsInParts, of_parts};
    ghost use Rattle.iceoryx2_bb_lock_free.specs.WordLaws.{AreWords-option_map, AreWords-pair};

    ghost WORDS = { 2 };

    const WORDS: usize = 2;

    ghost is_value = { λ it. (it.sensor < 2 ^ 64) × (it.level < 2 ^ 32) };

    ghost words = { λ it. one_word it.sensor ++ one_word it.level };

    ghost is_words = { IsWordsInParts 1 (IsOneWord (2 ^ 64)) (IsOneWord (2 ^ 32)) };

    ghost of_words = { λ list.
        option_map (λ parts. record { sensor = parts.0; level = parts.1 })
        (of_parts 1 (of_one_word (2 ^ 64)) (of_one_word (2 ^ 32)) list) };

    fn known(self) {}

    fn word(&self, index: usize) -> u64 {
        match index {
            0 => self.sensor,
            _ => u64::from(self.level),
        }
    }

    fn of_words(list: &[u64]) -> Option<Reading> {
        match list {
            [sensor, level] => Some(Reading {
                sensor: *sensor,
                level: u32::try_from(*level).ok()?,
            }),
            _ => None,
        }
    }

    // A reading is a pair of numbers, and the words of a pair are those of its parts.
    ghost laws = { AreWords-option_map 2 _ _ _ _ _ (λ it. (it.sensor, it.level))
        (λ parts. record { sensor = parts.0; level = parts.1 })
        (AreWords-pair 1 1 _ _ _ _ _ _ _ _ (one_word_is_a_number (2 ^ 64) (lit≤ tt))
        (one_word_is_a_number (2 ^ 32) (lit≤ tt)))
        (λ it h. (h, refl)) (λ parts h. (h, refl)) };
}

impl ZeroCopySend for Reading {
    ghost use Rattle.std.specs.Prelude.{codes, refl};

    ghost SIZE = { 16 };

    const SIZE: usize = 16;

    ghost ALIGNMENT = { 8 };

    const ALIGNMENT: usize = 8;

    ghost name = { codes "Reading" };

    fn name() -> &'static str {
        "Reading"
    }

    ghost sized = { refl };

    ghost aligned = { (3, refl) };

    ghost named = { refl };
}

/// A reading goes through a queue, and comes out unchanged.
pub fn read_later(alloc: Global, reading: Reading) -> Result<Option<Reading>, AllocError>
    ensures { IfOk result (λ later. later ≡ Some reading) }
{
    let mut queue = Queue::<Reading, 4>::new(alloc)?;
    let _ = queue.push(&reading);
    Ok(queue.pop())
}
