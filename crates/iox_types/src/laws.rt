//! Laws of the definitions that the contracts of this crate cite.
ghost use Rattle.std.specs.Prelude.{◌≡◌, ◌↔◌, ◌+◌, ◌^◌, ◌<◌, ◌≤◌, IsTrue, ℕ};
ghost use Rattle.std.specs.declared.cmp.Ordering.TheVariants.{Equal};
ghost use Rattle.iox_types.specs.declared.identifiers.port_id.UniquePortId.{UniquePortId as PortId};
ghost use Rattle.iox_types.specs.Compatibility.{AreCompatible};
ghost use Rattle.iox_types.specs.Identifiers.{IsId, id_value};
ghost use Rattle.iox_types.specs.Layouts.{EndsWithinUsize, message_size};
ghost use Rattle.iox_types.specs.PortIds.{IsPortId};
ghost use Rattle.iox_types.specs.Places.{IsAlignedTo, aligned_place};
ghost use Rattle.iox_types.specs.declared.identifiers.system_id.UniqueSystemId.{UniqueSystemId as Id};
ghost use Rattle.iox_types.specs.declared.message_type_details.MessageTypeDetails.{MessageTypeDetails};

use crate::identifiers::{UniqueId, UniqueNodeId, UniquePortId, UniqueSystemId};
use std::hash::Hash;

/// Compatibility of details is an order.
pub fn compatibility_is_an_order()
    ensures reflexive { (a : MessageTypeDetails) → AreCompatible a a }
    ensures transitive { (a b c : MessageTypeDetails) → AreCompatible a b → AreCompatible b c
        → AreCompatible a c }
    ensures antisymmetric { (a b : MessageTypeDetails) → AreCompatible a b → AreCompatible b a
        → a ≡ b }
{}

/// An aligned place is the least multiple of the alignment that is not below the place.
pub fn aligned_places_are_least()
    ensures aligned { (place alignment : ℕ)
        → IsAlignedTo alignment (aligned_place place alignment) }
    ensures not_below { (place alignment : ℕ) → 0 < alignment
        → place ≤ aligned_place place alignment }
    ensures least { (place alignment other : ℕ) → 0 < alignment → IsAlignedTo alignment other
        → place ≤ other → aligned_place place alignment ≤ other }
{}

/// Where a whole message fits, its places fit `usize`.
pub fn a_message_that_fits_has_room()
    ensures { (details : MessageTypeDetails) (n place : ℕ) → 0 < details.header.alignment →
        place + message_size details n < 2 ^ 64 → EndsWithinUsize details place }
{}

/// Equality, order and hash of identifiers agree: they tell two apart if and only if they differ.
pub fn comparisons_of_ids_agree()
    ensures equal { (a b : Id) → IsTrue (⟦<UniqueSystemId as PartialEq>⟧.eq a b) ↔ (a ≡ b) }
    ensures ordered { (a b : Id) → (⟦<UniqueSystemId as Ord>⟧.cmp a b ≡ Equal) ↔ (a ≡ b) }
    ensures hashed { (a b : Id) → IsId a → IsId b →
        (⟦<UniqueSystemId as Hash>⟧.hash_input a ≡ ⟦<UniqueSystemId as Hash>⟧.hash_input b)
        ↔ (a ≡ b) }
{}

/// The identifiers of nodes are compared and hashed as their numbers are.
pub fn node_ids_are_compared_as_ids()
    ensures equal { (a b : Id)
        → ⟦<UniqueNodeId as PartialEq>⟧.eq a b ≡ ⟦<UniqueSystemId as PartialEq>⟧.eq a b }
    ensures ordered { (a b : Id)
        → ⟦<UniqueNodeId as Ord>⟧.cmp a b ≡ ⟦<UniqueSystemId as Ord>⟧.cmp a b }
    ensures hashed { (a : Id)
        → ⟦<UniqueNodeId as Hash>⟧.hash_input a ≡ ⟦<UniqueSystemId as Hash>⟧.hash_input a }
{}

/// So are those of a kind, whatever the kind.
pub fn ids_of_a_kind_are_compared_as_ids<Kind>()
    ensures equal { (a b : Id)
        → ⟦<UniqueId<Kind> as PartialEq>⟧.eq a b ≡ ⟦<UniqueSystemId as PartialEq>⟧.eq a b }
    ensures ordered { (a b : Id)
        → ⟦<UniqueId<Kind> as Ord>⟧.cmp a b ≡ ⟦<UniqueSystemId as Ord>⟧.cmp a b }
    ensures hashed { (a : Id)
        → ⟦<UniqueId<Kind> as Hash>⟧.hash_input a ≡ ⟦<UniqueSystemId as Hash>⟧.hash_input a }
{}

/// An identifier of a port is equal to another if and only if both are of one kind and one number,
/// and order agrees.
pub fn comparisons_of_port_ids_agree()
    ensures equal { (a b : PortId) → IsTrue (⟦<UniquePortId as PartialEq>⟧.eq a b) ↔ (a ≡ b) }
    ensures ordered { (a b : PortId) →
        (⟦<UniquePortId as Ord>⟧.cmp a b ≡ Equal) ↔ IsTrue (⟦<UniquePortId as PartialEq>⟧.eq a b) }
    ensures hashed { (a b : PortId) → IsPortId a → IsPortId b →
        (⟦<UniquePortId as Hash>⟧.hash_input a ≡ ⟦<UniquePortId as Hash>⟧.hash_input b) ↔ (a ≡ b) }
{}

/// Two identifiers of one number are the same.
pub fn identifiers_are_told_by_their_numbers()
    ensures { (a b : Id) → IsId a → IsId b → id_value a ≡ id_value b → a ≡ b }
{}
