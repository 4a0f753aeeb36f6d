//! Sets of bits. A test is a list of what is asked and of what has to be answered, which `plays`
//! asks.
use crate::rows::{Answers, Row, plays};
use iox_sets::mpmc::bit_set::{BitSet, FixedSizeBitSet};
use std::alloc::{AllocError, Global};

/// What is asked, and what has to be answered.
enum Asked {
    Capacity(usize),
    Set(usize, bool),
    ResetNext(Option<usize>),
    /// The bits that were set, behind as many times `NONE` as are lacking to five, and how many.
    ResetAll([usize; 5], u8),
}

/// No bit.
const NONE: usize = usize::MAX;

/// The bits that were set, and how many, if they are five at most. None is set then.
fn told(bits: &mut BitSet) -> ([usize; 5], u8) {
    let mut told = [NONE; 5];
    let mut calls = 0u8;
    bits.reset_all(|id| {
        calls = calls.saturating_add(1);
        told = [told[1], told[2], told[3], told[4], id];
    });
    (told, calls)
}

/// The same as `told`, where the type gives the capacity.
fn told_fixed<const CAPACITY: usize>(bits: &mut FixedSizeBitSet<CAPACITY>) -> ([usize; 5], u8) {
    let mut told = [NONE; 5];
    let mut calls = 0u8;
    bits.reset_all(|id| {
        calls = calls.saturating_add(1);
        told = [told[1], told[2], told[3], told[4], id];
    });
    (told, calls)
}

impl Answers<usize, Asked, AllocError> for BitSet {
    fn made(alloc: Global, capacity: usize) -> Result<Self, AllocError> {
        BitSet::new(alloc, capacity)
    }

    fn answers(&mut self, asked: &Asked) -> bool {
        match asked {
            Asked::Capacity(wanted) => self.capacity() == *wanted,
            Asked::Set(id, wanted) => *id < self.capacity() && self.set(*id) == *wanted,
            Asked::ResetNext(wanted) => self.reset_next() == *wanted,
            Asked::ResetAll(wanted, count) => told(self) == (*wanted, *count),
        }
    }
}

impl<const CAPACITY: usize> Answers<(), Asked, AllocError> for FixedSizeBitSet<CAPACITY> {
    fn made(alloc: Global, _at: ()) -> Result<Self, AllocError> {
        FixedSizeBitSet::<CAPACITY>::new(alloc)
    }

    fn answers(&mut self, asked: &Asked) -> bool {
        match asked {
            Asked::Capacity(wanted) => self.capacity() == *wanted,
            Asked::Set(id, wanted) => *id < self.capacity() && self.set(*id) == *wanted,
            Asked::ResetNext(wanted) => self.reset_next() == *wanted,
            Asked::ResetAll(wanted, count) => told_fixed(self) == (*wanted, *count),
        }
    }
}

#[test]
fn bits_are_cleared_in_order(rt: HostRuntime) {
    const ROWS: &[Row<'_, usize, Asked, AllocError>] = &[
        (
            "the lowest bit is cleared first",
            8,
            &[
                Asked::Capacity(8),
                Asked::Set(5, true),
                Asked::Set(5, false),
                Asked::Set(2, true),
                Asked::ResetNext(Some(2)),
                Asked::ResetNext(Some(5)),
                Asked::ResetNext(None),
            ],
            None,
        ),
        (
            "each bit is told once",
            70,
            &[
                Asked::Set(3, true),
                Asked::Set(64, true),
                Asked::Set(69, true),
                Asked::ResetAll([NONE, NONE, 3, 64, 69], 3),
                Asked::ResetAll([NONE; 5], 0),
            ],
            None,
        ),
        (
            "more bits than memory has are refused",
            usize::MAX,
            &[],
            Some(AllocError),
        ),
    ];
    const OF_130: &[Row<'_, (), Asked, AllocError>] = &[(
        "all are told in order",
        (),
        &[
            Asked::Capacity(130),
            Asked::Set(129, true),
            Asked::Set(0, true),
            Asked::Set(64, true),
            Asked::Set(63, true),
            Asked::ResetAll([NONE, 0, 63, 64, 129], 4),
            Asked::ResetNext(None),
        ],
        None,
    )];
    const OF_70: &[Row<'_, (), Asked, AllocError>] = &[(
        "each is told once",
        (),
        &[
            Asked::Set(69, true),
            Asked::Set(0, true),
            Asked::ResetAll([NONE, NONE, NONE, 0, 69], 2),
        ],
        None,
    )];
    const OF_ALL: &[Row<'_, (), Asked, AllocError>] = &[(
        "more bits than memory has are refused",
        (),
        &[],
        Some(AllocError),
    )];
    plays::<usize, Asked, AllocError, BitSet>(&rt, rt.alloc(), ROWS);
    plays::<(), Asked, AllocError, FixedSizeBitSet<130>>(&rt, rt.alloc(), OF_130);
    plays::<(), Asked, AllocError, FixedSizeBitSet<70>>(&rt, rt.alloc(), OF_70);
    plays::<(), Asked, AllocError, FixedSizeBitSet<{ usize::MAX }>>(&rt, rt.alloc(), OF_ALL);
}
