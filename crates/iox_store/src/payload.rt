//! What the payload of a message is made of: one element, or as many as are asked for.
ghost use Rattle.std.specs.Prelude.{◌≡◌, Bool, true, false};
ghost use Rattle.iox_store.specs.Lengths.{is_count};

use iox_words::Words;
use std::marker::PhantomData;

/// What the payload of a message is made of.
pub trait Payload {
    ghost MANY: { Bool };

    /// Whether it has as many elements as are asked for; else it has one.
    const MANY: bool;

    /// The type of one element.
    type Element: Words;
}

/// A payload of one element.
#[derive(Drop)]
pub struct One<T> {
    of: PhantomData<T>,
}

/// A payload of any number of elements.
#[derive(Drop)]
pub struct Many<T> {
    of: PhantomData<T>,
}

impl<T: Words> Payload for One<T> {
    ghost MANY = { false };

    const MANY: bool = false;

    type Element = T;
}

impl<T: Words> Payload for Many<T> {
    ghost MANY = { true };

    const MANY: bool = true;

    type Element = T;
}

/// Whether such a payload may have so many elements.
#[inline]
pub fn is_length<Q: Payload>(elements: usize) -> bool
    ensures { result ≡ is_count Q.MANY elements }
{
    Q::MANY || elements == 1
}
