//! How all elements of a message are filled at once.
ghost use Rattle.std.specs.Prelude.{◌≡◌, ◌<◌, flat_map, length};
ghost use Rattle.iox_store.specs.Stored.{copies, element_at, filled_with, with_element};
ghost use Rattle.iox_store.specs.Answering.{FillsByAnswers};

use super::Cell;
use iox_words::Words;

impl<E: Words, H: Words> Cell<E, H> {
    /// Fills all elements, each with the same value.
    pub fn fill(&mut self, value: E)
        ensures { self.new ≡ filled_with self.old (copies (E.words value) self.old.elements) }
    {
        self.empty();
        for _ in 0..self.elements() {
            self.write_next(value);
        }
    }

    /// Fills its one element.
    #[inline]
    pub fn write_payload(&mut self, value: E)
        requires { self.old.elements ≡ 1 }
        ensures { self.new ≡ filled_with self.old (E.words value) }
    {
        self.empty();
        self.write_next(value);
    }

    /// Fills all elements with copies of those of a slice.
    pub fn write_from_slice(&mut self, values: &[E])
        requires { length values.now ≡ self.old.elements }
        ensures { self.new ≡ filled_with self.old (flat_map E.words values.now) }
    {
        self.empty();
        for value in values {
            self.write_next(*value);
        }
    }

    /// Fills all elements, each with what the closure answers for its index.
    pub fn write_from_fn<F: FnMut(usize) -> E>(&mut self, mut f: F)
        requires { F.IsAlwaysCallable f }
        ensures { FillsByAnswers E.words F.step f self.old self.new }
    {
        self.empty();
        for index in 0..self.elements() {
            let value = f(index);
            self.write_next(value);
        }
    }

    /// The filled element of that index.
    #[inline]
    pub fn element(&self, index: usize) -> E
        requires { index < self.now.filled }
        ensures { E.words result ≡ element_at E.WORDS self.now index }
    {
        self.payload[index]
    }

    /// Gives the filled element of that index another value.
    #[inline]
    pub fn set_element(&mut self, index: usize, value: E)
        requires { index < self.old.filled }
        ensures { self.new ≡ with_element E.WORDS self.old index (E.words value) }
    {
        value.known();
        self.payload[index] = value;
    }
}
