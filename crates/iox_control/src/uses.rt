//! Callers of a hub's tables, proved only from the clauses.
ghost use Rattle.std.specs.Prelude.{◌≡◌, IfOk, None, true};
ghost use Rattle.iox_hub_ports.specs.HubStates.Wirings.{IsPending, IsServer};
ghost use Rattle.iox_control.specs.Controls.{IsControl};

use crate::{Control, Settings};
use iox_handles::Entry;
use std::alloc::{AllocError, Global};

/// A new hub has no handle.
pub fn has_no_handle(
    alloc: Global,
    settings: Settings,
    node: u64,
    number: u64,
) -> Result<Option<Entry>, AllocError>
    ensures { IfOk result (λ found. found ≡ None) }
{
    let control = Control::new(alloc, settings)?;
    Ok(control.entry(node, number, 0))
}

/// A question changes nothing, so it is answered the same again.
pub fn answers_the_same_again(control: &Control, node: u64, server: u64) -> bool
    requires server { IsServer control.now.tables node server }
    requires order { IsControl control.now }
    ensures { result ≡ true }
{
    control.has_requests(node, server) == control.has_requests(node, server)
}

/// The tables are in order after a hint, so whether a response waits may be asked.
pub fn hints(control: &mut Control, node: u64, number: u64)
    requires pending { IsPending control.old.tables node number }
    requires order { IsControl control.old }
    ensures { IsControl control.new }
{
    control.set_hint(node, number, 0);
}
