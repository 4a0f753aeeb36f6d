//! What goes where a handle ended: its port, of which nothing is left, and pools.
ghost use Rattle.std.specs.Prelude.{◌≡◌, IfSome, None, Some, false};
ghost use Rattle.std.specs.Option.{option_map_or};
ghost use Rattle.iox_tables.specs.HubStates.States.{Given, state_shown};
ghost use Rattle.iox_tables.specs.HubStates.Tables.{PortState, port_in};
ghost use Rattle.iox_tables.specs.HubMaking.Disconnections.{is_unused, with_released};
ghost use Rattle.iox_control.specs.Controls.{IsControl};
ghost use Rattle.iox_control_releasing.specs.Goings.{KeptPools, NoLeftPool, StaysTidy};

use crate::disconnect::{disconnect_if_unused, drop_pool};
use iox_control::Control;
use iox_hub_ports::ports::Ports;

/// The place of the port's pool, or the other place if there is no such port.
fn pool_of(ports: &Ports, port: u64, other: usize) -> usize
    ensures { result ≡ option_map_or (λ p. p.pool) (port_in ports.now.ports port) other }
{
    match ports.find(port) {
        Some(info) => info.pool,
        None => other,
    }
}

/// The port goes if nothing of it is left, and then the pool in that place, if its port is gone and
/// nobody has a message of it. It tells the place of the port's pool. It is rare that something
/// goes, so it is a call of its own.
#[cold]
#[inline(never)]
fn let_both_go(control: &mut Control, port: u64, place: usize) -> usize
    requires order { IsControl control.old }
    ensures port { result
        ≡ option_map_or (λ p. p.pool) (port_in control.old.tables.ports port) place }
    ensures left { control.new.tables
        ≡ record (with_released control.old.tables port) { pools = control.new.tables.pools } }
    ensures shown { (x : Given) → state_shown x (with_released control.old.tables port)
        ≡ state_shown x control.new.tables }
    ensures order { IsControl control.new }
    ensures pools { KeptPools control.old.tables.pools control.new.tables.pools }
    ensures gone { NoLeftPool control.new.tables place }
    ensures tidy { StaysTidy control.old.tables control.new.tables }
{
    let pool = pool_of(control.ports(), port, place);
    disconnect_if_unused(control, port, 0);
    drop_pool(control, place);
    pool
}

/// The port goes if nothing of it is left, and then the pool in that place, if its port is gone and
/// nobody has a message of it. Where it is said that something may go, it tells the place of the
/// port's pool.
#[inline(always)]
pub fn leave(control: &mut Control, port: u64, place: usize, goes: bool) -> Option<usize>
    requires order { IsControl control.old }
    requires stays { goes ≡ false → NoLeftPool control.old.tables place }
    requires used { goes ≡ false → is_unused control.old.tables port ≡ false }
    ensures port { (p : PortState) → port_in control.old.tables.ports port ≡ Some p
        → IfSome result (λ pool. pool ≡ p.pool) }
    ensures unchanged { result ≡ None → control.new ≡ control.old }
    ensures left { control.new.tables
        ≡ record (with_released control.old.tables port) { pools = control.new.tables.pools } }
    ensures shown { (x : Given) → state_shown x (with_released control.old.tables port)
        ≡ state_shown x control.new.tables }
    ensures order { IsControl control.new }
    ensures pools { KeptPools control.old.tables.pools control.new.tables.pools }
    ensures gone { NoLeftPool control.new.tables place }
    ensures tidy { StaysTidy control.old.tables control.new.tables }
{
    if goes {
        return Some(let_both_go(control, port, place));
    }
    None
}
