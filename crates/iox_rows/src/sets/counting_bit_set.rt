//! Sets that count. A test is a list of what is asked and of what has to be answered, which `plays`
//! asks.
ghost use Rattle.std.specs.Prelude.{◌≡◌, ◌-◌, ◌^◌, ◌∷◌, []};

use crate::rows::{Answers, Row, plays};
use iox_sets::mpmc::counting_bit_set::{CountingBitSet, FixedSizeCountingBitSet};
use std::alloc::{AllocError, Global};

/// What is asked, and what has to be answered.
enum Asked {
    Capacity(usize),
    MaxCount(u64),
    /// A bit is counted once more.
    Set(usize),
    /// The bits with a count, and their counts, both behind as many times 0 as are lacking to
    /// three, and how many.
    ResetAll([usize; 3], [u64; 3], u8),
}

/// The bits with a count, and their counts, and how many, if they are three at most. All counts are
/// 0 then.
fn told(counts: &mut CountingBitSet) -> ([usize; 3], [u64; 3], u8) {
    let mut bits = [0; 3];
    let mut told = [0; 3];
    let mut calls = 0u8;
    counts.reset_all(|state| {
        calls = calls.saturating_add(1);
        bits = [bits[1], bits[2], state.bit()];
        told = [told[1], told[2], state.count()];
    });
    (bits, told, calls)
}

/// The same as `told`, where the type gives the capacity.
fn told_fixed<const CAPACITY: usize>(
    counts: &mut FixedSizeCountingBitSet<CAPACITY>,
) -> ([usize; 3], [u64; 3], u8) {
    let mut bits = [0; 3];
    let mut told = [0; 3];
    let mut calls = 0u8;
    counts.reset_all(|state| {
        calls = calls.saturating_add(1);
        bits = [bits[1], bits[2], state.bit()];
        told = [told[1], told[2], state.count()];
    });
    (bits, told, calls)
}

impl Answers<usize, Asked, AllocError> for CountingBitSet {
    fn made(alloc: Global, capacity: usize) -> Result<Self, AllocError> {
        CountingBitSet::new(alloc, capacity)
    }

    fn answers(&mut self, asked: &Asked) -> bool {
        match asked {
            Asked::Capacity(wanted) => self.capacity() == *wanted,
            Asked::MaxCount(wanted) => self.max_count() == *wanted,
            Asked::Set(id) => *id < self.capacity() && self.set(*id),
            Asked::ResetAll(bits, counts, calls) => told(self) == (*bits, *counts, *calls),
        }
    }
}

impl<const CAPACITY: usize> Answers<(), Asked, AllocError> for FixedSizeCountingBitSet<CAPACITY> {
    fn made(alloc: Global, _at: ()) -> Result<Self, AllocError> {
        FixedSizeCountingBitSet::<CAPACITY>::new(alloc)
    }

    fn answers(&mut self, asked: &Asked) -> bool {
        match asked {
            Asked::Capacity(wanted) => self.capacity() == *wanted,
            Asked::MaxCount(wanted) => self.max_count() == *wanted,
            Asked::Set(id) => *id < self.capacity() && self.set(*id),
            Asked::ResetAll(bits, counts, calls) => told_fixed(self) == (*bits, *counts, *calls),
        }
    }
}

#[test]
fn counts_are_taken_out_in_order(rt: HostRuntime) {
    const ROWS: &[Row<'_, usize, Asked, AllocError>] = &[
        (
            "counts are taken out",
            8,
            &[
                Asked::Capacity(8),
                Asked::Set(3),
                Asked::Set(3),
                Asked::ResetAll([0, 0, 3], [0, 0, 2], 1),
                Asked::ResetAll([0; 3], [0; 3], 0),
            ],
            None,
        ),
        (
            "each count is told once",
            6,
            &[
                Asked::Set(5),
                Asked::Set(2),
                Asked::Set(5),
                Asked::Set(5),
                Asked::ResetAll([0, 2, 5], [0, 1, 3], 2),
            ],
            None,
        ),
        (
            "more counts than memory has are refused",
            usize::MAX,
            &[],
            Some(AllocError),
        ),
    ];
    const OF_5: &[Row<'_, (), Asked, AllocError>] = &[(
        "all are told in order",
        (),
        &[
            Asked::Capacity(5),
            Asked::MaxCount(u64::MAX),
            Asked::Set(4),
            Asked::Set(0),
            Asked::Set(4),
            Asked::ResetAll([0, 0, 4], [0, 1, 2], 2),
        ],
        None,
    )];
    const OF_6: &[Row<'_, (), Asked, AllocError>] = &[(
        "each is told once",
        (),
        &[
            Asked::Set(1),
            Asked::Set(0),
            Asked::Set(5),
            Asked::ResetAll([0, 1, 5], [1, 1, 1], 3),
        ],
        None,
    )];
    plays::<usize, Asked, AllocError, CountingBitSet>(&rt, rt.alloc(), ROWS);
    plays::<(), Asked, AllocError, FixedSizeCountingBitSet<5>>(&rt, rt.alloc(), OF_5);
    plays::<(), Asked, AllocError, FixedSizeCountingBitSet<6>>(&rt, rt.alloc(), OF_6);
}

/// A count does not wrap, and the others stay. No test counts so far, so this is proved.
pub fn a_count_does_not_wrap(set: &mut CountingBitSet)
    requires { set.old ≡ (2 ^ 64 - 2) ∷ (2 ^ 64 - 2) ∷ [] }
    ensures { set.new ≡ (2 ^ 64 - 2) ∷ (2 ^ 64 - 1) ∷ [] }
{
    let counted = set.set(1);
    prove!(counted);
    let refused = !set.set(1);
    prove!(refused);
    let greatest = set.max_count();
    prove!(greatest == u64::MAX);
}
