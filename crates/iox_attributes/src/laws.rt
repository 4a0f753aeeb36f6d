//! Laws of sets of attributes.
ghost use Rattle.std.specs.Prelude.{◌≡◌, ◌<◌, ◌↔◌, IsSome, IsTrue, List, ℕ, length};
ghost use Rattle.std.specs.List.{slice_get};
ghost use Rattle.iox_names.specs.declared.attribute.Attribute.{Attribute as Pair};
ghost use Rattle.iox_attributes.specs.Sets.{count, is_sorted, set_of};

use crate::AttributeSet;

/// Two sets are equal exactly if the same pairs were added equally often, in whatever order.
pub fn sets_are_told_by_how_often_pairs_were_added()
    ensures equal { (a b : List Pair)
        → (set_of a ≡ set_of b) ↔ ((pair : Pair) → count pair a ≡ count pair b) }
    ensures compared { (a b : List Pair) → IsTrue (⟦<AttributeSet as PartialEq>⟧.eq a b) ↔ (a ≡ b) }
    ensures sorted { (a : List Pair) → IsTrue (is_sorted (set_of a)) }
    ensures counted { (a : List Pair) (pair : Pair) → count pair (set_of a) ≡ count pair a }
{}

/// There is a value of each number below how many there are, and none from there on.
pub fn values_are_there_below_their_number()
    ensures { (values : List (List ℕ)) (index : ℕ)
        → IsSome (slice_get values index) ↔ (index < length values) }
{}
