//! How messages are lent and filled.
ghost use Rattle.std.specs.Prelude.{◌≡◌, ◌<◌, ◌≤◌, flat_map, length};
ghost use Rattle.iox_store.specs.Answering.{FillsByAnswers};
ghost use Rattle.iox_store.specs.Stored.{ChangesOnly, filled_with, lent_filled, lent_uninit, room_with, stored_at, with_element, with_stored, with_user, written_next};

use super::Store;
use crate::spare::Spare;
use iox_words::Words;

impl<E: Words, H: Words> Store<E, H> {
    /// Keeps room that a message had no use for.
    fn keep(&mut self, left: Option<Spare<E>>)
        ensures { self.new ≡ self.old }
    {
        if left.is_some() {
            self.spare = left;
        }
    }

    /// Lends the message for so many elements, none of which is filled. Where it has no room for
    /// them, it takes the room that is given.
    #[inline]
    pub fn lend_uninit(&mut self, place: usize, elements: usize, user: H, spare: Option<Spare<E>>)
        requires there { place < length self.old.messages }
        requires room { elements ≤ room_with (stored_at self.old place).room spare }
        ensures { self.new ≡ with_stored self.old place
            (lent_uninit (stored_at self.old place) elements (H.words user)) }
    {
        let cell = &mut self.cells[place];
        let left = cell.lend_uninit(elements, user, spare);
        self.keep(left);
    }

    /// The same, where the message has room of its own for so many elements.
    #[inline(always)]
    pub fn lend_own(&mut self, place: usize, elements: usize, user: H)
        requires there { place < length self.old.messages }
        requires room { elements ≤ self.old.longest }
        ensures { self.new ≡ with_stored self.old place
            (lent_uninit (stored_at self.old place) elements (H.words user)) }
    {
        let cell = &mut self.cells[place];
        cell.lend_own(elements, user);
    }

    /// Lends the message for so many elements, each filled with the same value. Where it has no
    /// room for them, it takes the room that is given.
    #[inline]
    pub fn lend(
        &mut self,
        place: usize,
        elements: usize,
        user: H,
        value: E,
        spare: Option<Spare<E>>,
    )
        requires there { place < length self.old.messages }
        requires room { elements ≤ room_with (stored_at self.old place).room spare }
        ensures { self.new ≡ with_stored self.old place
            (lent_filled (stored_at self.old place) elements (H.words user) (E.words value)) }
    {
        let cell = &mut self.cells[place];
        let unused = cell.lend_uninit(elements, user, spare);
        cell.fill(value);
        self.keep(unused);
    }

    /// Fills the message's next element.
    #[inline]
    pub fn write_next(&mut self, place: usize, value: E)
        requires there { place < length self.old.messages }
        requires room { (stored_at self.old place).filled < (stored_at self.old place).elements }
        ensures { self.new ≡ with_stored self.old place
            (written_next (stored_at self.old place) (E.words value)) }
    {
        let cell = &mut self.cells[place];
        cell.write_next(value);
    }

    /// Fills the message's one element, whatever was filled.
    #[inline]
    pub fn write_payload(&mut self, place: usize, value: E)
        requires there { place < length self.old.messages }
        requires one { (stored_at self.old place).elements ≡ 1 }
        ensures { self.new ≡ with_stored self.old place
            (filled_with (stored_at self.old place) (E.words value)) }
    {
        let cell = &mut self.cells[place];
        cell.write_payload(value);
    }

    /// Fills all elements with copies of those of a slice, whatever was filled.
    #[inline]
    pub fn write_from_slice(&mut self, place: usize, values: &[E])
        requires there { place < length self.old.messages }
        requires equal { length values.now ≡ (stored_at self.old place).elements }
        ensures { self.new ≡ with_stored self.old place
            (filled_with (stored_at self.old place) (flat_map E.words values.now)) }
    {
        let cell = &mut self.cells[place];
        cell.write_from_slice(values);
    }

    /// Fills all elements, each with what the closure answers for its index.
    #[inline]
    pub fn write_from_fn<F: FnMut(usize) -> E>(&mut self, place: usize, f: F)
        requires there { place < length self.old.messages }
        requires callable { F.IsAlwaysCallable f }
        ensures filled { FillsByAnswers E.words F.step f (stored_at self.old place)
            (stored_at self.new place) }
        ensures only { ChangesOnly place self.old self.new }
    {
        let cell = &mut self.cells[place];
        cell.write_from_fn(f);
    }

    /// Gives the filled element of that index another value.
    #[inline]
    pub fn set_element(&mut self, place: usize, index: usize, value: E)
        requires there { place < length self.old.messages }
        requires filled { index < (stored_at self.old place).filled }
        ensures { self.new ≡ with_stored self.old place
            (with_element E.WORDS (stored_at self.old place) index (E.words value)) }
    {
        let cell = &mut self.cells[place];
        cell.set_element(index, value);
    }

    /// Gives the message another user header.
    #[inline]
    pub fn set_user_header(&mut self, place: usize, user: H)
        requires { place < length self.old.messages }
        ensures { self.new ≡ with_stored self.old place
            (with_user (stored_at self.old place) (H.words user)) }
    {
        let cell = &mut self.cells[place];
        cell.set_user_header(user);
    }
}
