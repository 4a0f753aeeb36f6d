//! A container at its last ticket.
ghost use Rattle.std.specs.Prelude.{◌≡◌, ◌-◌, ◌∷◌, [], None, false};
ghost use Rattle.iox_container.specs.Containers.{max_ticket};

use iox_container::mpmc::container::{Container, ContainerAddFailure};
use iox_sets::mpmc::robust_unique_index_set::OwnerId;
use iox_sets::mpmc::unique_index_set_enums::{ReleaseMode, ReleaseState};

/// Without tickets a container is full for good, though its slots are free. No test adds so often,
/// so this is proved.
pub fn without_tickets_a_container_is_full_for_good(container: &mut Container<u64>, owner: OwnerId)
    requires open { container.old.locked ≡ false }
    requires free { container.old.slots ≡ None ∷ None ∷ [] }
    requires last { container.old.next_ticket ≡ max_ticket - 1 }
{
    let last = container.add(5, owner).unwrap();
    let full = container.add(6, owner);
    prove!(full == Err(ContainerAddFailure::OutOfSpace));
    let state = container.remove(last, ReleaseMode::Default).unwrap();
    prove!(state == ReleaseState::Unlocked);
    let full = container.add(6, owner);
    prove!(full == Err(ContainerAddFailure::OutOfSpace));
    let gone = container.remove(last, ReleaseMode::Default).is_err();
    prove!(gone);
}
