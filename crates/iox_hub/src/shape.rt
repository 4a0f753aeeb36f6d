//! What the messages of one role are made of.
ghost use Rattle.std.specs.Prelude.{◌≡◌, ◌↔◌, Bool, IfErr, IfOk, IsOk, IsTrue};
ghost use Rattle.iox_types.specs.declared.type_detail.TypeDetailError.TheVariants as refusals;
ghost use Rattle.iox_model.specs.Settings.{IsPart, IsShape};
ghost use Rattle.iox_hub.specs.Shapes.{HaveParts, message_of, part_of, shape_of, words_part};

use iox_types::{RequestHeader, ResponseHeader, TypeDetailError};
use iox_words::{Words, ZeroCopySend};

/// A part of a message in memory: its bytes, and what its place is a multiple of.
#[derive(Clone, Copy, Debug, PartialEq, Eq)]
pub struct Part {
    /// How many bytes it has.
    pub size: usize,
    /// What its place is a multiple of, in bytes; a power of two, where a shape was checked.
    pub alignment: usize,
}

impl Part {
    /// The part that a value of this type is.
    pub fn of<T: ZeroCopySend>() -> Part
        ensures value { result ≡ record { size = T.SIZE; alignment = T.ALIGNMENT } }
        ensures part { IsPart (part_of result) }
    {
        Part {
            size: T::SIZE,
            alignment: T::ALIGNMENT,
        }
    }
}

/// What the messages of one role are made of.
#[derive(Clone, Copy, Drop)]
pub struct MessageShape<E: Copy, H: Copy> {
    /// The default of an element, if it has one.
    pub default: Option<E>,
    /// The default of the user header.
    pub user_header: H,
    /// The header in memory.
    pub header_part: Part,
    /// The user header in memory.
    pub user_part: Part,
    /// One element in memory.
    pub element_part: Part,
}

impl<E: ZeroCopySend, H: ZeroCopySend> MessageShape<E, H> {
    /// Requests of such elements, with such user headers. Without a default, none can be loaned
    /// that is filled with it.
    pub fn of_requests(default: Option<E>, user_header: H) -> Self
        ensures value { result ≡ message_of default user_header (words_part 7)
            (record { size = H.SIZE; alignment = H.ALIGNMENT })
            (record { size = E.SIZE; alignment = E.ALIGNMENT }) }
        ensures parts { HaveParts result }
    {
        behind(Part::of::<RequestHeader>(), default, user_header)
    }

    /// Responses of such elements, with such user headers. Without a default, none can be loaned
    /// that is filled with it.
    pub fn of_responses(default: Option<E>, user_header: H) -> Self
        ensures value { result ≡ message_of default user_header (words_part 6)
            (record { size = H.SIZE; alignment = H.ALIGNMENT })
            (record { size = E.SIZE; alignment = E.ALIGNMENT }) }
        ensures parts { HaveParts result }
    {
        behind(Part::of::<ResponseHeader>(), default, user_header)
    }
}

/// Messages with such a header, of values of these types.
fn behind<E: ZeroCopySend, H: ZeroCopySend>(
    header_part: Part,
    default: Option<E>,
    user_header: H,
) -> MessageShape<E, H>
    requires { IsPart (part_of header_part) }
    ensures value { result ≡ message_of default user_header header_part
        (record { size = H.SIZE; alignment = H.ALIGNMENT })
        (record { size = E.SIZE; alignment = E.ALIGNMENT }) }
    ensures parts { HaveParts result }
{
    MessageShape {
        default,
        user_header,
        header_part,
        user_part: Part::of::<H>(),
        element_part: Part::of::<E>(),
    }
}

impl<E: Words, H: Words> MessageShape<E, H> {
    /// The same, if each of its parts may stand somewhere: if their alignments are powers of two.
    pub fn checked(self) -> Result<Self, TypeDetailError>
        ensures same { IfOk result (λ m. m ≡ self) }
        ensures parts { IfOk result HaveParts }
        ensures succeeds { IsOk result ↔ HaveParts self }
        ensures refused { IfErr result (λ e. e ≡ refusals.AlignmentNotPowerOfTwo) }
    {
        if is_part(self.header_part) && is_part(self.user_part) && is_part(self.element_part) {
            return Ok(self);
        }
        Err(TypeDetailError::AlignmentNotPowerOfTwo)
    }
}

/// Whether the part may stand somewhere.
fn is_part(part: Part) -> bool
    ensures { IsTrue result ↔ IsPart (part_of part) }
{
    part.alignment.is_power_of_two()
}

/// The same: what a program has are values of their types.
pub(crate) fn known<E: Words, H: Words>(shape: MessageShape<E, H>) -> MessageShape<E, H>
    requires { HaveParts shape }
    ensures same { result ≡ shape }
    ensures makes_sense { (many : Bool) → IsShape (shape_of many E.WORDS E.words H.words result) }
{
    if let Some(value) = shape.default {
        value.known();
    }
    shape
}
