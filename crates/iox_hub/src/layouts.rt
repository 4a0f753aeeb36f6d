//! Whether a message can be addressed.
ghost use Rattle.std.specs.Prelude.{ℕ, ◌≡◌, ◌+◌, ◌-◌, ◌<◌, ◌^◌, IsTrue, nat_lt, true};
ghost use Rattle.iox_types.specs.Parts.{size_of_parts};
ghost use Rattle.iox_hub.specs.Shapes.{part_of};

use crate::shape::Part;

/// The bytes of a message at most, if its elements have so many in all.
fn bytes_with(header: Part, user: Part, element: Part, payload: u128) -> u128
    requires { payload < 2 ^ 63 }
    ensures value { result
        ≡ header.size + user.size + (user.alignment - 1) + payload + (element.alignment - 1) }
    ensures within { result < 2 ^ 68 }
{
    let before_user = (user.alignment as u128).saturating_sub(1);
    let before_payload = (element.alignment as u128).saturating_sub(1);
    header.size as u128 + user.size as u128 + before_user + payload + before_payload
}

/// Whether the part is so small that a message of such parts can be addressed.
#[inline]
fn is_small(part: Part) -> bool
    ensures { IsTrue result → (part.size < 2 ^ 60) × (part.alignment < 2 ^ 60) }
{
    part.size < 1 << 60 && part.alignment < 1 << 60
}

/// Whether a message of so many elements has fewer than 2^63 bytes, wherever its parts have to
/// stand, by all its bytes.
#[tactic(auto, using(crate::proofs::LayoutLemmas::small_fits))]
#[inline(never)]
#[cold]
fn can_be_addressed(header: Part, user: Part, element: Part, elements: u64) -> bool
    ensures { result
        ≡ nat_lt (size_of_parts (part_of header) (part_of user) (part_of element) elements)
        (2 ^ 63) }
{
    let payload = element.size as u128 * elements as u128;
    let alignment = header.alignment as u128;
    if alignment == 0 {
        return true;
    }
    if payload >= 1 << 63 {
        return false;
    }
    let bytes = bytes_with(header, user, element, payload) + (alignment - 1);
    // Rounded down it is no more, so that most need no division.
    bytes < 1 << 63 || bytes / alignment * alignment < 1 << 63
}

/// The same. Most parts are so small that this is known at once.
#[tactic(auto, using(crate::proofs::LayoutLemmas::small_fits))]
#[inline(always)]
pub(crate) fn has_layout(header: Part, user: Part, element: Part, elements: u64) -> bool
    ensures { result
        ≡ nat_lt (size_of_parts (part_of header) (part_of user) (part_of element) elements)
        (2 ^ 63) }
{
    let payload = elements as u128 * element.size as u128;
    if payload < 1 << 60 && is_small(header) && is_small(user) && is_small(element) {
        return true;
    }
    can_be_addressed(header, user, element, elements)
}

/// Messages of such parts that have fewer elements than so many can be addressed. This is 0 where
/// the parts are large.
pub(crate) fn few_of(header: Part, user: Part, element: Part) -> u64
    ensures { (k : ℕ) → k < result
        → nat_lt (size_of_parts (part_of header) (part_of user) (part_of element) k) (2 ^ 63)
        ≡ true }
{
    if is_small(header) && is_small(user) && is_small(element) {
        return (1 << 60) / (element.size as u64 + 1);
    }
    0
}
