//! Marks in words, 64 in each, and words of marks that say which words have any.
ghost use Rattle.std.specs.Prelude.{◌≡◌, ◌≢◌, ◌<◌, ◌≤◌, ◌-◌, ◌*◌, ◌+◌, ◌/◌, ◌^◌, ℕ, false, length, true};
ghost use Rattle.std.specs.Int.{bit_at};
ghost use Rattle.iox_lanes.specs.Marks.{TellBelow, TellBut, TellsOfWord, first_of, is_marked, is_set, word_at};

/// The word, with that mark.
#[inline]
#[tactic(auto, using(crate::proofs::Bits::set))]
pub(crate) fn with_mark(word: u64, mark: usize) -> u64
    requires { mark < 64 }
    ensures here { bit_at result mark ≡ 1 }
    ensures others { (k : ℕ) → k ≢ mark → bit_at result k ≡ bit_at word k }
{
    word | 1 << mark
}

/// The word, without that mark.
#[inline]
#[tactic(auto, using(crate::proofs::Bits::clear))]
pub(crate) fn without_mark(word: u64, mark: usize) -> u64
    requires { mark < 64 }
    ensures here { bit_at result mark ≡ 0 }
    ensures others { (k : ℕ) → k < 64 → k ≢ mark → bit_at result k ≡ bit_at word k }
{
    word & !(1 << mark)
}

/// Sets the mark of that number.
#[inline]
pub(crate) fn set_mark(words: &mut [u64], mark: usize)
    requires { mark / 64 < length words.old }
    ensures here { is_marked words.new mark ≡ true }
    ensures others { (k : ℕ) → k ≢ mark → is_marked words.new k ≡ is_marked words.old k }
    ensures words { (n : ℕ) → n ≢ mark / 64 → word_at words.new n ≡ word_at words.old n }
{
    words[mark / 64] = with_mark(words[mark / 64], mark % 64);
}

/// Clears the mark of that number.
#[inline]
pub(crate) fn clear_mark(words: &mut [u64], mark: usize)
    requires { mark / 64 < length words.old }
    ensures here { is_marked words.new mark ≡ false }
    ensures others { (k : ℕ) → k ≢ mark → is_marked words.new k ≡ is_marked words.old k }
    ensures words { (n : ℕ) → n ≢ mark / 64 → word_at words.new n ≡ word_at words.old n }
    ensures less { (n : ℕ) → is_set (word_at words.new n) ≡ true
        → is_set (word_at words.old n) ≡ true }
{
    words[mark / 64] = without_mark(words[mark / 64], mark % 64);
}

/// The number of the lowest mark in the word in that place. It has one.
#[inline]
pub(crate) fn first_mark(words: &[u64], at: usize) -> usize
    requires some { is_set (word_at words.now at) ≡ true }
    requires fits { length words.now < 2 ^ 57 }
    ensures here { is_marked words.now result ≡ true }
    ensures below { (k : ℕ) → 64 * at ≤ k → k < result → is_marked words.now k ≡ false }
    ensures from { 64 * at ≤ result }
    ensures within { result < 64 * at + 64 }
{
    64 * at + words[at].trailing_zeros() as usize
}

/// Says in the words above it that the word in that place has a mark.
#[inline]
pub(crate) fn set_up(words: &mut [u64], from: usize)
    requires some { is_set (word_at words.old from) ≡ true }
    ensures tells { (marks : ℕ) → from ≤ marks → TellBut words.old marks from
        → TellBelow words.new marks }
    ensures others { (k : ℕ) → from ≤ k → is_marked words.new k ≡ is_marked words.old k }
{
    let mut at = from;
    while 0 < at {
        set_mark(words, at - 1);
        at = (at - 1) / 64;
    }
}

/// Says in the words above it that the word in that place has no mark, if it has none.
#[inline]
pub(crate) fn clear_up(words: &mut [u64], from: usize)
    requires { from < length words.old }
    ensures tells { (marks : ℕ) → from ≤ marks → TellBut words.old marks from
        → TellsOfWord words.old from → TellBelow words.new marks }
    ensures others { (k : ℕ) → from ≤ k → is_marked words.new k ≡ is_marked words.old k }
{
    let mut at = from;
    while 0 < at {
        if words[at] != 0 {
            return;
        }
        clear_mark(words, at - 1);
        at = (at - 1) / 64;
    }
}

/// The place of the lowest word at the bottom that has a mark. There is one.
#[inline]
pub(crate) fn lowest_word(words: &[u64], levels: usize) -> usize
    requires some { is_set (word_at words.now 0) ≡ true }
    requires fits { length words.now < 2 ^ 57 }
    requires tells { TellBelow words.now (64 * first_of levels) }
    ensures at { first_of levels ≤ result }
    ensures some { is_set (word_at words.now result) ≡ true }
    ensures below { (n : ℕ) → first_of levels ≤ n → n < result
        → is_set (word_at words.now n) ≡ false }
{
    let mut at = 0;
    for _ in 0..levels {
        at = first_mark(words, at) + 1;
    }
    at
}
