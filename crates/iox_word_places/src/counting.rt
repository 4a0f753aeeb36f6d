//! Sums and products of numbers of words, of which some may be too large for a `usize`.
ghost use Rattle.std.specs.Prelude.{ℕ, ◌≡◌, ◌+◌, ◌*◌, ◌<◌, ◌^◌, ◌↔◌, IsTrue, Some};
ghost use Rattle.iox_types.specs.Layouts.{as_usize};

/// The sum, if it can be told.
pub(crate) fn sum(a: Option<usize>, b: Option<usize>) -> Option<usize>
    ensures { (m : ℕ) → (n : ℕ) → a ≡ as_usize m → b ≡ as_usize n → result ≡ as_usize (m + n) }
{
    a?.checked_add(b?)
}

/// The product, if it can be told. Nothing times a number that is too large is nothing.
pub(crate) fn product(a: usize, b: Option<usize>) -> Option<usize>
    ensures { (n : ℕ) → b ≡ as_usize n → result ≡ as_usize (a * n) }
{
    if a == 0 {
        return Some(0);
    }
    a.checked_mul(b?)
}

/// A number that can be told.
pub(crate) fn told(number: Option<usize>) -> usize
    ensures { (n : ℕ) → n < 2 ^ 64 → number ≡ as_usize n → result ≡ n }
{
    number.unwrap_or(0)
}
