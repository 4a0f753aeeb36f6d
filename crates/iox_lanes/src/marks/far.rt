//! A mark for each of many lanes, with words above them that say where marks are.
ghost use Rattle.std.specs.Prelude.{◌≡◌, ◌≢◌, ◌<◌, ◌≤◌, ◌^◌, ◌*◌, ◌+◌, ℕ, IfOk, IfSome, None, false, true};
ghost use Rattle.iox_lanes.specs.Marks.{HasNoneFar, has_far, far_room, first_of};

use crate::marks::words::{clear_mark, clear_up, first_mark, lowest_word, set_mark, set_up};
use std::alloc::{AllocError, Global};
use std::marker::Model;

/// So many lanes and more have no memory.
const TOO_MANY: usize = 1 << 56;

/// A mark for each lane. The words at the bottom have them, 64 each. Each mark in a word above
/// says whether a word has any: the first word has the marks of the next 64, and so on.
///
/// It takes memory when it is made, and never again.
#[derive(Drop)]
pub(crate) struct FarMarks {
    words: Vec<u64>,
    // the place of the first word at the bottom, and how many levels are above it
    bottom: usize,
    levels: usize,
}

impl Model for FarMarks {
    ghost use Rattle.iox_lanes.specs.Marks.{AreSummed, FarState};

    ghost Value = { FarState };

    ghost view = { λ m. record { words = m.words.items; bottom = m.bottom } };

    ghost invariant = { λ m. AreSummed m.words.items m.bottom m.levels };
}

/// The place of the first word at the bottom, where so many are there, and how many levels are
/// above it.
fn levels_over(wide: usize) -> (usize, usize)
    requires { wide ≤ 2 ^ 50 }
    ensures at { result.0 ≡ first_of result.1 }
    ensures wide { wide ≤ 63 * result.0 + 1 }
    ensures within { result.0 ≤ 2 ^ 52 }
{
    let mut bottom = 0;
    let mut levels = 0;
    while 63 * bottom + 1 < wide {
        bottom = 64 * bottom + 1;
        levels += 1;
    }
    (bottom, levels)
}

impl FarMarks {
    /// Makes a mark for each of so many lanes, and sets none. It fails only for want of memory.
    pub(crate) fn new(alloc: Global, lanes: usize) -> Result<FarMarks, AllocError>
        ensures none { IfOk result (λ m. HasNoneFar m) }
        ensures room { IfOk result (λ m. lanes ≤ far_room m) }
    {
        if TOO_MANY <= lanes {
            return Err(AllocError);
        }
        let wide = lanes.div_ceil(64);
        let (bottom, levels) = levels_over(wide);
        Ok(FarMarks {
            words: vec![in alloc; 0u64; bottom + wide]?,
            bottom,
            levels,
        })
    }

    /// Sets the mark of that lane.
    pub(crate) fn insert(&mut self, lane: usize)
        requires room { lane < far_room self.old }
        ensures here { has_far self.new lane ≡ true }
        ensures others { (k : ℕ) → k ≢ lane → has_far self.new k ≡ has_far self.old k }
        ensures room { far_room self.new ≡ far_room self.old }
    {
        set_mark(&mut self.words, 64 * self.bottom + lane);
        set_up(&mut self.words, self.bottom + lane / 64);
    }

    /// Clears the mark of that lane.
    #[cold]
    #[inline(never)]
    pub(crate) fn remove(&mut self, lane: usize)
        ensures here { has_far self.new lane ≡ false }
        ensures others { (k : ℕ) → k ≢ lane → has_far self.new k ≡ has_far self.old k }
        ensures room { far_room self.new ≡ far_room self.old }
    {
        let word = lane / 64;
        if self.words.len() - self.bottom <= word {
            return;
        }
        clear_mark(&mut self.words, 64 * self.bottom + lane);
        clear_up(&mut self.words, self.bottom + word);
    }

    /// The lowest lane of which the mark is set, if there is one.
    #[cold]
    #[inline(never)]
    pub(crate) fn first(&self) -> Option<usize>
        ensures here { IfSome result (λ lane. has_far self.now lane ≡ true) }
        ensures below { IfSome result (λ lane. (k : ℕ) → k < lane → has_far self.now k ≡ false) }
        ensures none { result ≡ None → HasNoneFar self.now }
        ensures within { IfSome result (λ lane. lane < 2 ^ 63) }
    {
        if self.words.is_empty() {
            return None;
        }
        if self.words[0] == 0 {
            return None;
        }
        let word = lowest_word(&self.words, self.levels);
        Some(first_mark(&self.words, word) - 64 * self.bottom)
    }
}
