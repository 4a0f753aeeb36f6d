//! Laws of registers, over whatever calls come one after another.
ghost use Rattle.std.specs.Prelude.{◌≡◌, ◌≢◌, ◌+◌, ◌↔◌, List, ℕ, [], None, Some, IsTrue, length};
ghost use Rattle.iox_types.specs.declared.identifiers.system_id.UniqueSystemId.{UniqueSystemId as Id};
ghost use Rattle.iox_registry.specs.declared.roles.Role.{Role as Part};
ghost use Rattle.iox_registry.specs.declared.roles.Role.TheVariants.{Node};
ghost use Rattle.iox_registry.specs.declared.refusals.ReleaseError.TheVariants.{Spent};
ghost use Rattle.iox_registry.specs.Changes.{Changes, LeadsTo};
ghost use Rattle.iox_registry.specs.Registers.{Adds, HandleView, Registrations, Removes, WasGiven, details_of, listed, new_register, recovered, release_refusal};

use crate::has_node::HasNode;

/// A handle whose entry was released or recovered tells nothing any more, and is refused for good.
pub fn handles_that_went_are_refused_for_good<D: HasNode>()
    ensures gone { (old : Registrations D) (later : List (Registrations D))
        (last : Registrations D) (handle : HandleView) →
        LeadsTo D.node old later last → WasGiven old handle → details_of old handle ≡ None →
        details_of last handle ≡ None }
    ensures refused { (old : Registrations D) (later : List (Registrations D))
        (last : Registrations D) (handle : HandleView) →
        LeadsTo D.node old later last → WasGiven old handle → details_of old handle ≡ None →
        release_refusal last handle ≡ Some Spent }
{}

/// A recovery frees the entries of that node, and no other.
pub fn recovery_frees_that_node_alone<D: HasNode>()
    ensures frees { (old : Registrations D) (id : Id) (handle : HandleView) (details : D) →
        details_of old handle ≡ Some details →
        D.node details ≡ id → details_of (recovered D.node id old) handle ≡ None }
    ensures keeps { (old : Registrations D) (id : Id) (handle : HandleView) (details : D) →
        details_of old handle ≡ Some details →
        D.node details ≢ id → details_of (recovered D.node id old) handle ≡ Some details }
{}

/// A locked register is one of nodes, is empty, and no call changes it any more.
pub fn a_locked_register_is_empty_and_stays_so<D: HasNode>()
    ensures empty { (service : ℕ) (role : Part) (limit : ℕ) (later : List (Registrations D))
        (last : Registrations D) →
        LeadsTo D.node (new_register service role limit) later last → IsTrue last.locked →
        listed last ≡ [] }
    ensures nodes { (service : ℕ) (role : Part) (limit : ℕ) (later : List (Registrations D))
        (last : Registrations D) →
        LeadsTo D.node (new_register service role limit) later last → IsTrue last.locked →
        last.role ≡ Node }
    ensures stays { (old next : Registrations D) → IsTrue old.locked → listed old ≡ [] →
        Changes D.node old next →
        next ≡ old }
{}

/// A call adds one or takes one away, and nodes lock their register exactly as the last goes.
pub fn numbers_follow_calls<D: HasNode>()
    ensures added { (details : D) (old : Registrations D) (handle : HandleView)
        (new : Registrations D) →
        Adds details old handle new → length (listed new) ≡ length (listed old) + 1 }
    ensures removed { (handle : HandleView) (old new : Registrations D) → Removes handle old new →
        length (listed new) + 1 ≡ length (listed old) }
    ensures ended { (handle : HandleView) (old new : Registrations D) → Removes handle old new →
        old.role ≡ Node →
        IsTrue new.locked ↔ (length (listed new) ≡ 0) }
{}
