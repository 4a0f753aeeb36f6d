//! On which lanes of a pipe something is left to get back.
ghost use Rattle.std.specs.Prelude.{◌≡◌, ◌≢◌, ◌<◌, ◌≤◌, ℕ, IfOk, IfSome, None, false, true};
ghost use Rattle.iox_lanes.specs.Marks.{HasNone, has_mark, room_of};

mod far;
mod words;

use crate::marks::far::FarMarks;
use crate::marks::words::{with_mark, without_mark};
use std::alloc::{AllocError, Global};
use std::marker::Model;

/// So many lanes have a mark each in one word. The last mark of that word says that lanes past them
/// may have marks.
const MOST: usize = 63;

/// The marks where something is left to get back on the first lane alone.
const FIRST: u64 = 1;

/// A mark for each lane.
///
/// It takes memory when it is made, and never again. However many lanes there are, the lowest mark
/// is found with no walk over them.
#[derive(Drop)]
pub(crate) struct Marks {
    near: u64,
    far: FarMarks,
}

impl Model for Marks {
    ghost use Rattle.iox_lanes.specs.Marks.{MarksState, NoneIsFar};

    ghost Value = { MarksState };

    ghost view = { λ m. record { near = m.near; far = m.far } };

    ghost invariant = { λ m. NoneIsFar m.near m.far };
}

impl Marks {
    /// Makes a mark for each of so many lanes, and sets none. It fails only for want of memory.
    pub(crate) fn new(alloc: Global, lanes: usize) -> Result<Marks, AllocError>
        ensures none { IfOk result (λ m. HasNone m) }
        ensures room { IfOk result (λ m. lanes ≤ room_of m) }
    {
        Ok(Marks {
            near: 0,
            far: FarMarks::new(alloc, lanes.saturating_sub(MOST))?,
        })
    }

    /// Whether no mark is set. It may be that none is where it says no.
    #[inline]
    pub(crate) fn has_none(&self) -> bool
        ensures { result ≡ true → HasNone self.now }
    {
        self.near == 0
    }

    /// Whether the mark of the first lane is set, and no other.
    #[inline]
    pub(crate) fn has_first_alone(&self) -> bool
        ensures first { result ≡ true → has_mark self.now 0 ≡ true }
        ensures alone { result ≡ true → (k : ℕ) → 0 < k → has_mark self.now k ≡ false }
    {
        self.near == FIRST
    }

    /// Sets the mark of that lane.
    #[inline(always)]
    pub(crate) fn insert(&mut self, lane: usize)
        requires room { lane < room_of self.old }
        ensures here { has_mark self.new lane ≡ true }
        ensures others { (k : ℕ) → k ≢ lane → has_mark self.new k ≡ has_mark self.old k }
        ensures room { room_of self.new ≡ room_of self.old }
    {
        if lane < MOST {
            self.near = with_mark(self.near, lane);
            return;
        }
        self.insert_far(lane);
    }

    /// The same of a lane past those that have a mark in the first word.
    #[cold]
    #[inline(never)]
    fn insert_far(&mut self, lane: usize)
        requires far { 63 ≤ lane }
        requires room { lane < room_of self.old }
        ensures here { has_mark self.new lane ≡ true }
        ensures others { (k : ℕ) → k ≢ lane → has_mark self.new k ≡ has_mark self.old k }
        ensures room { room_of self.new ≡ room_of self.old }
    {
        self.near = with_mark(self.near, MOST);
        self.far.insert(lane - MOST);
    }

    /// Clears the mark of that lane.
    #[inline(always)]
    pub(crate) fn remove(&mut self, lane: usize)
        ensures here { has_mark self.new lane ≡ false }
        ensures others { (k : ℕ) → k ≢ lane → has_mark self.new k ≡ has_mark self.old k }
        ensures room { room_of self.new ≡ room_of self.old }
    {
        if lane < MOST {
            self.near = without_mark(self.near, lane);
            return;
        }
        self.far.remove(lane - MOST);
    }

    /// The lowest lane of which the mark is set, if there is one.
    #[inline]
    pub(crate) fn first(&mut self) -> Option<usize>
        ensures here { IfSome result (λ lane. has_mark self.old lane ≡ true) }
        ensures below { IfSome result (λ lane. (k : ℕ) → k < lane → has_mark self.old k ≡ false) }
        ensures none { result ≡ None → HasNone self.old }
        ensures unchanged { (k : ℕ) → has_mark self.new k ≡ has_mark self.old k }
        ensures room { room_of self.new ≡ room_of self.old }
    {
        if self.near == 0 {
            return None;
        }
        let mark = self.near.trailing_zeros() as usize;
        if mark < MOST {
            return Some(mark);
        }
        let Some(lane) = self.far.first() else {
            self.near = 0;
            return None;
        };
        Some(lane + MOST)
    }
}
