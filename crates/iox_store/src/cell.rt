//! What one message carries.
ghost use Rattle.std.specs.Prelude.{◌≡◌, ◌<◌, ◌≤◌, ◌*◌, IfOk, flat_map, length};
ghost use Rattle.iox_store.specs.Stored.{unlent, lent_uninit, emptied, room_with, written_next, with_user};

use crate::spare::Spare;
use iox_words::Words;
use std::alloc::{AllocError, Global};
use std::marker::Model;
use std::mem;

mod fill;

/// What one message carries: a user header, and the elements that are filled so far.
#[derive(Drop)]
pub struct Cell<E: Words, H: Words> {
    elements: usize,
    // How many elements there was room for from the start.
    room: usize,
    user: H,
    payload: Vec<E>,
}

impl<E: Words, H: Words> Model for Cell<E, H> {
    ghost use Rattle.std.specs.Prelude.{vec_capacity};
    ghost use Rattle.iox_store.specs.Stored.{StoredMessage};
    ghost use Rattle.iox_store.specs.Cells.{IsCell, stored_as};

    ghost Value = { StoredMessage };

    ghost view = { λ c. stored_as E.words (H.words c.user) c.elements c.room c.payload.items };

    ghost invariant = { λ c. IsCell E.WORDS E.words H.WORDS (H.words c.user) c.elements c.room
        (vec_capacity c.payload) c.payload.items };
}

impl<E: Words, H: Words> Cell<E, H> {
    /// A cell with room for so many elements, lent for none.
    pub fn new(alloc: Global, room: usize, user: H) -> Result<Self, AllocError>
        ensures { IfOk result (λ cell. cell ≡ unlent room (H.words user)) }
    {
        user.known();
        let payload = Vec::with_capacity(alloc, room)?;
        Ok(Cell {
            elements: 0,
            room,
            user,
            payload,
        })
    }

    /// For how many elements it may be lent, with no room given for it.
    #[inline]
    pub fn room(&self) -> usize
        ensures { result ≡ self.now.room }
    {
        self.room
    }

    /// How many elements it was lent for.
    #[inline]
    pub fn elements(&self) -> usize
        ensures { result ≡ self.now.elements }
    {
        self.elements
    }

    /// How many elements are filled.
    #[inline]
    pub fn filled(&self) -> usize
        ensures filled { result ≡ self.now.filled }
        ensures within { result ≤ self.now.elements }
    {
        self.payload.len()
    }

    /// The elements that are filled.
    #[inline]
    pub fn payload(&self) -> &[E]
        ensures words { flat_map E.words result.now ≡ self.now.payload }
        ensures filled { length result.now ≡ self.now.filled }
        ensures width { length self.now.payload ≡ self.now.filled * E.WORDS }
    {
        self.payload.as_slice()
    }

    /// The user header.
    #[inline]
    pub fn user_header(&self) -> &H
        ensures words { H.words result.now ≡ self.now.user }
        ensures width { length self.now.user ≡ H.WORDS }
    {
        &self.user
    }

    /// Gives it another user header.
    #[inline]
    pub fn set_user_header(&mut self, user: H)
        ensures { self.new ≡ with_user self.old (H.words user) }
    {
        user.known();
        self.user = user;
    }

    /// Lends it for so many elements, none of which is filled. Where its own room is too small, it
    /// takes the room that is given. It hands back the room that it does not use.
    #[inline(always)]
    pub fn lend_uninit(
        &mut self,
        elements: usize,
        user: H,
        spare: Option<Spare<E>>,
    ) -> Option<Spare<E>>
        requires { elements ≤ room_with self.old.room spare }
        ensures { self.new ≡ lent_uninit self.old elements (H.words user) }
    {
        user.known();
        self.elements = elements;
        self.user = user;
        self.payload.clear();
        if elements <= self.payload.capacity() {
            return spare;
        }
        match spare {
            Some(spare) => Some(Spare {
                payload: mem::replace(&mut self.payload, spare.payload),
            }),
            None => unreachable!(),
        }
    }

    /// Lends it for so many elements, for which it has room of its own. None of them is filled.
    #[inline(always)]
    pub fn lend_own(&mut self, elements: usize, user: H)
        requires { elements ≤ self.old.room }
        ensures { self.new ≡ lent_uninit self.old elements (H.words user) }
    {
        user.known();
        self.elements = elements;
        self.user = user;
        self.payload.clear();
    }

    /// No element is filled any more.
    #[inline]
    pub fn empty(&mut self)
        ensures { self.new ≡ emptied self.old }
    {
        self.payload.clear();
    }

    /// Fills the next element.
    #[inline]
    pub fn write_next(&mut self, value: E)
        requires { self.old.filled < self.old.elements }
        ensures { self.new ≡ written_next self.old (E.words value) }
    {
        value.known();
        self.payload.push_reserved(value);
    }
}
