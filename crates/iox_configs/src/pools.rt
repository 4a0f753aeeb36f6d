//! Sums and products of numbers of which some may be too large for a `usize`.
ghost use Rattle.std.specs.Prelude.{ℕ, ◌≡◌, ◌+◌, ◌*◌, ◌↔◌, IsTrue, Some};
ghost use Rattle.iox_types.specs.Layouts.{as_usize};

/// A number that fits.
pub(crate) fn number(n: usize) -> Option<usize>
    ensures { result ≡ as_usize n }
{
    Some(n)
}

/// The sum, if it fits `usize`.
pub(crate) fn sum(a: Option<usize>, b: Option<usize>) -> Option<usize>
    ensures { (m : ℕ) → (n : ℕ) → a ≡ as_usize m → b ≡ as_usize n → result ≡ as_usize (m + n) }
{
    a?.checked_add(b?)
}

/// The product, if it fits `usize`. Zero times a number that is too large is zero.
pub(crate) fn product(a: Option<usize>, b: Option<usize>) -> Option<usize>
    ensures { (m : ℕ) → (n : ℕ) → a ≡ as_usize m → b ≡ as_usize n → result ≡ as_usize (m * n) }
{
    if is_zero(a) || is_zero(b) {
        return Some(0);
    }
    match (a, b) {
        (Some(a), Some(b)) => a.checked_mul(b),
        _ => None,
    }
}

/// Whether the number is 0.
fn is_zero(number: Option<usize>) -> bool
    ensures { IsTrue result ↔ (number ≡ Some 0) }
{
    number == Some(0)
}
