//! Room for the elements of a message, before a message has it.
ghost use Rattle.std.specs.Prelude.{◌≡◌, ◌≤◌, IfOk};

use iox_words::Words;
use std::alloc::{AllocError, Global};
use std::marker::Model;

/// Room for the elements of one message. A message that is lent for more elements than it has room
/// for is given it.
#[derive(Drop)]
pub struct Spare<E: Words> {
    pub(crate) payload: Vec<E>,
}

impl<E: Words> Model for Spare<E> {
    ghost use Rattle.std.specs.Prelude.{◌≡◌, ℕ, [], vec_capacity};

    ghost Value = { ℕ };

    ghost view = { λ s. vec_capacity s.payload };

    ghost invariant = { λ s. s.payload.items ≡ [] };
}

impl<E: Words> Spare<E> {
    /// Room for so many elements, or more.
    pub(crate) fn new(alloc: Global, elements: usize) -> Result<Self, AllocError>
        ensures { IfOk result (λ spare. elements ≤ spare) }
    {
        Ok(Spare {
            payload: Vec::with_capacity(alloc, elements)?,
        })
    }

    /// For how many elements it is.
    #[inline]
    pub(crate) fn room(&self) -> usize
        ensures { result ≡ self.now }
    {
        self.payload.capacity()
    }
}
