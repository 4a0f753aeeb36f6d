//! What the messages of one role are made of, as a hub keeps it.
ghost use Rattle.std.specs.Prelude.{Bool, ◌≡◌, ◌^◌, nat_lt};
ghost use Rattle.iox_types.specs.Parts.{size_of_parts};
ghost use Rattle.iox_model.specs.Settings.{IsShape};
ghost use Rattle.iox_hub.specs.Shapes.{HaveParts, part_of, shape_of};

use crate::layouts::{few_of, has_layout};
use crate::pools::Form;
use crate::shape::{MessageShape, known};
use iox_words::Words;
use std::marker::Model;

/// What the messages of one role are made of, and what is known of their layouts.
#[derive(Drop)]
pub struct KnownShape<E: Words, H: Words> {
    shape: MessageShape<E, H>,
    // A message that has fewer elements than so many can be addressed.
    below: u64,
}

impl<E: Words, H: Words> Model for KnownShape<E, H> {
    ghost use Rattle.iox_hub.specs.declared.shape.MessageShape.{MessageShape};
    ghost use Rattle.iox_hub.specs.Shapes.{CanHaveFewer};

    ghost Value = { MessageShape E H };

    ghost view = { λ s. s.shape };

    ghost invariant = { λ s. CanHaveFewer s.shape s.below };
}

impl<E: Words, H: Words> KnownShape<E, H> {
    /// Messages of this shape.
    pub(crate) fn new(shape: MessageShape<E, H>) -> Self
        requires { HaveParts shape }
        ensures same { result ≡ shape }
        ensures makes_sense { (many : Bool)
            → IsShape (shape_of many E.WORDS E.words H.words result) }
    {
        let below = few_of(shape.header_part, shape.user_part, shape.element_part);
        KnownShape {
            shape: known(shape),
            below,
        }
    }

    /// The default of an element, if it has one.
    #[inline(always)]
    pub(crate) fn default(&self) -> Option<E>
        ensures { result ≡ self.now.default }
    {
        self.shape.default
    }

    /// The default of the user header.
    #[inline(always)]
    pub(crate) fn user_header(&self) -> H
        ensures { result ≡ self.now.user_header }
    {
        self.shape.user_header
    }

    /// What the size of a port depends on, whose messages these are.
    pub(crate) fn form(&self, many: bool) -> Form
        ensures { result ≡ record {
          many = many;
          header = self.now.header_part;
          user = self.now.user_part;
          element = self.now.element_part;
        } }
    {
        Form {
            many,
            header: self.shape.header_part,
            user: self.shape.user_part,
            element: self.shape.element_part,
        }
    }

    /// Whether so many elements are few: then one look tells that their message can be addressed. It
    /// only chooses the faster way.
    #[inline(always)]
    pub(crate) fn is_few(&self, elements: u64) -> bool {
        elements < self.below
    }

    /// Whether a message of so many elements has fewer than 2^63 bytes, wherever its parts have to
    /// stand. Where it has few, one look tells it.
    #[inline(always)]
    pub(crate) fn has_layout(&self, elements: u64) -> bool
        ensures { result ≡ nat_lt (size_of_parts (part_of self.now.header_part)
            (part_of self.now.user_part) (part_of self.now.element_part) elements) (2 ^ 63) }
    {
        if elements < self.below {
            return true;
        }
        has_layout(
            self.shape.header_part,
            self.shape.user_part,
            self.shape.element_part,
            elements,
        )
    }
}
