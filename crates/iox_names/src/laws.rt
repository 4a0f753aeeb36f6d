//! Laws of texts, names, attributes and hashes.
ghost use Rattle.std.specs.Prelude.{◌≡◌, ◌↔◌, ◌++◌, ◌∷◌, ◌<◌, IsTrue, List, ℕ};
ghost use Rattle.std.specs.declared.cmp.Ordering.TheVariants.{Equal, Less};
ghost use Rattle.std.specs.Hash as fed;
ghost use Rattle.iox_names.specs.Pairs.{pair_cmp, pair_eq};
ghost use Rattle.iox_names.specs.ServiceHashes.{service_text};
ghost use Rattle.iox_names.specs.declared.attribute.Attribute.{Attribute as Pair};
ghost use Rattle.iox_names.specs.declared.messaging_pattern.MessagingPattern.{MessagingPattern as Pattern};
ghost use Rattle.iox_names.specs.Texts.{text_cmp, text_eq};

use crate::attribute::{Attribute, AttributeKey, AttributeValue};
use crate::service_name::ServiceName;
use std::hash::Hash;

/// Comparison and hash agree: they tell two texts apart if and only if their bytes differ.
pub fn comparisons_of_texts_agree()
    ensures equal { (a b : List ℕ) → IsTrue (text_eq a b) ↔ (a ≡ b) }
    ensures ordered { (a b : List ℕ) → (text_cmp a b ≡ Equal) ↔ (a ≡ b) }
    ensures hashed { (a b : List ℕ) → (fed.str a ≡ fed.str b) ↔ (a ≡ b) }
{}

/// The first byte that differs decides, and a text stands before what it is the front of, whatever
/// the lengths.
pub fn texts_are_ordered_by_their_bytes()
    ensures front { (a : List ℕ) (byte : ℕ) (rest : List ℕ) → text_cmp a (a ++ byte ∷ rest) ≡ Less }
    ensures first { (front : List ℕ) (less more : ℕ) (a b : List ℕ) → less < more →
        text_cmp (front ++ less ∷ a) (front ++ more ∷ b) ≡ Less }
{}

/// Services' names are compared, ordered and hashed by their bytes.
pub fn service_names_are_their_bytes()
    ensures equal { (a b : List ℕ) → ⟦<ServiceName as PartialEq>⟧.eq a b ≡ text_eq a b }
    ensures ordered { (a b : List ℕ) → ⟦<ServiceName as Ord>⟧.cmp a b ≡ text_cmp a b }
    ensures hashed { (a : List ℕ) → ⟦<ServiceName as Hash>⟧.hash_input a ≡ fed.str a }
{}

/// Keys and values are compared, ordered and hashed by their bytes.
pub fn keys_and_values_are_their_bytes()
    ensures equal_keys { (a b : List ℕ) → ⟦<AttributeKey as PartialEq>⟧.eq a b ≡ text_eq a b }
    ensures ordered_keys { (a b : List ℕ) → ⟦<AttributeKey as Ord>⟧.cmp a b ≡ text_cmp a b }
    ensures hashed_keys { (a : List ℕ) → ⟦<AttributeKey as Hash>⟧.hash_input a ≡ fed.str a }
    ensures equal_values { (a b : List ℕ) → ⟦<AttributeValue as PartialEq>⟧.eq a b ≡ text_eq a b }
    ensures ordered_values { (a b : List ℕ) → ⟦<AttributeValue as Ord>⟧.cmp a b ≡ text_cmp a b }
    ensures hashed_values { (a : List ℕ) → ⟦<AttributeValue as Hash>⟧.hash_input a ≡ fed.str a }
{}

/// Attributes are compared by key and value, and ordered by the key first.
pub fn attributes_are_their_keys_and_values()
    ensures equal { (a b : Pair) → ⟦<Attribute as PartialEq>⟧.eq a b ≡ pair_eq a b }
    ensures ordered { (a b : Pair) → ⟦<Attribute as Ord>⟧.cmp a b ≡ pair_cmp a b }
{}

/// The texts that are hashed differ for two services that differ in pattern or name.
pub fn hashed_texts_tell_services_apart()
    ensures pattern { (p q : Pattern) (a b : List ℕ) → service_text p a ≡ service_text q b → p ≡ q }
    ensures name { (p q : Pattern) (a b : List ℕ) → service_text p a ≡ service_text q b → a ≡ b }
{}
