//! The number of 128 bits that every identifier is.
ghost use Rattle.std.specs.Prelude.{◌≡◌, Some};

use iox_names::Words;
use std::{fmt, str};

/// The time at which an item was made.
#[derive(Clone, Copy, Debug, PartialEq, Eq, PartialOrd, Ord, Hash)]
pub struct Time {
    /// Whole seconds, any number of 32 bits.
    pub seconds: u32,
    /// The nanoseconds past them; nothing keeps them below a second.
    pub nanoseconds: u32,
}

/// Who made an item, and when: the process number, the time, and how many it made before.
///
/// Identifiers are ordered by these four numbers, the process number first.
#[derive(Clone, Copy, Debug, PartialEq, Eq, PartialOrd, Ord, Hash)]
pub struct UniqueSystemId {
    /// The number of the process that made it.
    pub process: u32,
    /// The time at which it was made, in whole seconds.
    pub seconds: u32,
    /// The nanoseconds past them; nothing keeps them below a second.
    pub nanoseconds: u32,
    /// How many items the process made before it.
    pub counter: u32,
}

impl UniqueSystemId {
    ghost use Rattle.iox_types.specs.Identifiers.{id_value};

    /// The four numbers as one of 128 bits, the process number the most significant.
    pub fn value(&self) -> u128
        ensures { result ≡ id_value self.now }
    {
        (u128::from(self.process) << 96)
            + (u128::from(self.seconds) << 64)
            + (u128::from(self.nanoseconds) << 32)
            + u128::from(self.counter)
    }

    /// The number of the process that made it.
    pub fn pid(&self) -> u32
        ensures { result ≡ self.now.process }
    {
        self.process
    }

    /// When it was made.
    pub fn creation_time(&self) -> Time
        ensures seconds { result.seconds ≡ self.now.seconds }
        ensures nanoseconds { result.nanoseconds ≡ self.now.nanoseconds }
    {
        Time {
            seconds: self.seconds,
            nanoseconds: self.nanoseconds,
        }
    }
}

impl Words for UniqueSystemId {
    ghost use Rattle.iox_types.specs.Identifiers.{IsId, id_words, id_of_words};
    ghost use Rattle.iox_types.specs.IdentifierLaws.{two_words_are_an_id};
    ghost use Rattle.iox_names.specs.Numbers.{IsTwoWords};

    ghost WORDS = { 2 };

    const WORDS: usize = 2;

    ghost is_value = { IsId };

    ghost words = { id_words };

    ghost is_words = { IsTwoWords };

    ghost of_words = { id_of_words };

    fn known(self) {}

    fn word(&self, index: usize) -> u64 {
        self.value().word(index)
    }

    fn of_words(list: &[u64]) -> Option<UniqueSystemId> {
        let value = u128::of_words(list)?;
        Some(UniqueSystemId {
            process: (value >> 96) as u32,
            seconds: (value >> 64 & 0xffff_ffff) as u32,
            nanoseconds: (value >> 32 & 0xffff_ffff) as u32,
            counter: (value & 0xffff_ffff) as u32,
        })
    }

    ghost laws = { two_words_are_an_id };
}

impl fmt::Display for UniqueSystemId {
    ghost use Rattle.std.specs.Prelude.{Some};
    ghost use Rattle.iox_types.specs.Identifiers.{id_text};

    ghost output = { λ id. Some (id_text id) };

    fn fmt<W: fmt::Write>(&self, f: &mut fmt::Formatter<W>) -> fmt::Result {
        let mut digits = [0u8; 32];
        let Ok(()) = hex::encode_to_slice(&self.value().to_be_bytes()[..], &mut digits) else {
            unreachable!();
        };
        let Ok(text) = str::from_utf8(&digits) else {
            unreachable!();
        };
        f.write_str(text)
    }
}
