//! What the messages of one sender carry.
ghost use Rattle.std.specs.Prelude.{◌≡◌, ◌<◌, ◌≤◌, ◌*◌, ◌↔◌, [], IfOk, IsTrue, flat_map, length};
ghost use Rattle.iox_store.specs.Stored.{element_at, new_contents, stored_at};

use crate::cell::Cell;
use crate::spare::Spare;
use iox_words::Words;
use std::alloc::{AllocError, Global};
use std::marker::Model;

mod lend;

/// What the messages of one sender carry, by their places. It takes memory when it is made, and
/// where room is asked for a message that grows, and never else.
#[derive(Drop)]
pub struct Store<E: Words, H: Words> {
    cells: Vec<Cell<E, H>>,
    longest: usize,
    // Room that a message had no use for, for the next that grows.
    spare: Option<Spare<E>>,
    alloc: Global,
}

impl<E: Words, H: Words> Model for Store<E, H> {
    ghost use Rattle.std.specs.Prelude.{◌≤◌, All};
    ghost use Rattle.iox_store.specs.Stored.{Contents};

    ghost Value = { Contents };

    ghost view = { λ s. record { longest = s.longest; messages = s.cells.items } };

    ghost invariant = { λ s. All (λ x. s.longest ≤ x.room) s.cells.items };
}

impl<E: Words, H: Words> Store<E, H> {
    /// Makes room for so many messages, each of so many elements. They have this user header until
    /// they are lent.
    pub fn new(alloc: Global, count: usize, longest: usize, user: H) -> Result<Self, AllocError>
        ensures { IfOk result (λ store. store ≡ new_contents count longest (H.words user)) }
    {
        let mut cells = Vec::with_capacity(alloc, count)?;
        for _ in 0..count {
            cells.push_reserved(Cell::new(alloc, longest, user)?);
        }
        Ok(Store {
            cells,
            longest,
            spare: None,
            alloc,
        })
    }

    /// No messages, and no memory for any.
    pub fn none(alloc: Global) -> Self
        ensures { result ≡ record { longest = 0; messages = [] } }
    {
        Store {
            cells: Vec::new(alloc),
            longest: 0,
            spare: None,
            alloc,
        }
    }

    /// How many messages there are.
    #[inline]
    pub fn len(&self) -> usize
        ensures { result ≡ length self.now.messages }
    {
        self.cells.len()
    }

    /// For how many elements each message may be lent, with no room given for it.
    #[inline]
    pub fn longest(&self) -> usize
        ensures { result ≡ self.now.longest }
    {
        self.longest
    }

    /// For how many elements the message may be lent, with no room given for it.
    #[inline]
    pub fn room(&self, place: usize) -> usize
        requires { place < length self.now.messages }
        ensures room { result ≡ (stored_at self.now place).room }
        ensures enough { self.now.longest ≤ result }
    {
        let cell = &self.cells[place];
        cell.room()
    }

    /// For how many elements the message was lent.
    #[inline]
    pub fn elements(&self, place: usize) -> usize
        requires { place < length self.now.messages }
        ensures { result ≡ (stored_at self.now place).elements }
    {
        let cell = &self.cells[place];
        cell.elements()
    }

    /// How many elements of the message are filled.
    #[inline]
    pub fn filled(&self, place: usize) -> usize
        requires { place < length self.now.messages }
        ensures filled { result ≡ (stored_at self.now place).filled }
        ensures within { result ≤ (stored_at self.now place).elements }
    {
        let cell = &self.cells[place];
        cell.filled()
    }

    /// Whether all elements of the message are filled.
    #[inline]
    pub fn is_filled(&self, place: usize) -> bool
        requires { place < length self.now.messages }
        ensures { IsTrue result ↔ (stored_at self.now place).filled
            ≡ (stored_at self.now place).elements }
    {
        self.filled(place) == self.elements(place)
    }

    /// The filled elements of the message.
    #[inline]
    pub fn payload(&self, place: usize) -> &[E]
        requires { place < length self.now.messages }
        ensures words { flat_map E.words result.now ≡ (stored_at self.now place).payload }
        ensures filled { length result.now ≡ (stored_at self.now place).filled }
        ensures width { length (stored_at self.now place).payload
            ≡ (stored_at self.now place).filled * E.WORDS }
    {
        let cell = &self.cells[place];
        cell.payload()
    }

    /// The filled element of that index.
    #[inline]
    pub fn element(&self, place: usize, index: usize) -> E
        requires there { place < length self.now.messages }
        requires filled { index < (stored_at self.now place).filled }
        ensures { E.words result ≡ element_at E.WORDS (stored_at self.now place) index }
    {
        let cell = &self.cells[place];
        cell.element(index)
    }

    /// The user header of the message.
    #[inline]
    pub fn user_header(&self, place: usize) -> &H
        requires { place < length self.now.messages }
        ensures words { H.words result.now ≡ (stored_at self.now place).user }
        ensures width { length (stored_at self.now place).user ≡ H.WORDS }
    {
        let cell = &self.cells[place];
        cell.user_header()
    }

    /// Room for a message of so many elements, or more, which any message may be lent with. The
    /// messages stay as they are.
    pub fn spare(&mut self, elements: usize) -> Result<Spare<E>, AllocError>
        ensures room { IfOk result (λ spare. elements ≤ spare) }
        ensures unchanged { self.new ≡ self.old }
    {
        if let Some(spare) = self.spare.take() {
            if elements <= spare.room() {
                return Ok(spare);
            }
        }
        Spare::new(self.alloc, elements)
    }
}
