//! Sums and products that may be too large for a `usize`, and the bytes of messages.
ghost use Rattle.std.specs.Prelude.{ℕ, ◌≡◌, ◌+◌, ◌*◌, ◌↔◌, IsTrue, Some};
ghost use Rattle.iox_types.specs.Layouts.{as_usize};
ghost use Rattle.iox_types.specs.Parts.{size_of_parts};
ghost use Rattle.iox_types.specs.Places.{aligned_place};
ghost use Rattle.iox_hub.specs.Shapes.{part_of};

use crate::shape::Part;

/// A number that fits.
pub(crate) fn number(n: usize) -> Option<usize>
    ensures { result ≡ as_usize n }
{
    Some(n)
}

/// The sum, if it fits `usize`.
pub(crate) fn sum(a: Option<usize>, b: Option<usize>) -> Option<usize>
    ensures { (m : ℕ) → (n : ℕ) → a ≡ as_usize m → b ≡ as_usize n → result ≡ as_usize (m + n) }
{
    a?.checked_add(b?)
}

/// The product, if it fits `usize`. Zero times a number that is too large is zero.
pub(crate) fn product(a: Option<usize>, b: Option<usize>) -> Option<usize>
    ensures { (m : ℕ) → (n : ℕ) → a ≡ as_usize m → b ≡ as_usize n → result ≡ as_usize (m * n) }
{
    if is_zero(a) || is_zero(b) {
        return Some(0);
    }
    match (a, b) {
        (Some(a), Some(b)) => a.checked_mul(b),
        _ => None,
    }
}

/// Whether the number is 0.
fn is_zero(number: Option<usize>) -> bool
    ensures { IsTrue result ↔ (number ≡ Some 0) }
{
    number == Some(0)
}

/// The least multiple of the alignment that is not below the place, if it fits `usize`.
fn aligned(place: Option<usize>, alignment: usize) -> Option<usize>
    ensures { (m : ℕ) → place ≡ as_usize m → result ≡ as_usize (aligned_place m alignment) }
{
    if alignment == 0 {
        return Some(0);
    }
    let step = alignment as u128;
    let rounded = (place? as u128 + (step - 1)) / step * step;
    if rounded < 1 << 64 {
        return Some(rounded as usize);
    }
    None
}

/// The bytes of a message with so many elements, wherever its parts have to stand, if they fit
/// `usize`.
pub(crate) fn message_size(
    header: Part,
    user: Part,
    element: Part,
    elements: usize,
) -> Option<usize>
    ensures { result
        ≡ as_usize (size_of_parts (part_of header) (part_of user) (part_of element) elements) }
{
    let parts = sum(number(header.size), number(user.size));
    let before_elements = sum(parts, number(user.alignment.saturating_sub(1)));
    let filled = sum(
        before_elements,
        product(number(elements), number(element.size)),
    );
    let bytes = sum(filled, number(element.alignment.saturating_sub(1)));
    aligned(bytes, header.alignment)
}
