//! A port goes of which nothing is left.
ghost use Rattle.std.specs.Prelude.{◌≡◌, None, Some, option_map, true};
ghost use Rattle.iox_tables.specs.HubStates.States.{Given, state_shown};
ghost use Rattle.iox_tables.specs.HubStates.Tables.{PortState, port_in};
ghost use Rattle.iox_tables.specs.HubBooks.Counts.{in_port, lane_count};
ghost use Rattle.iox_tables.specs.HubKeeping.Keeps.{lost_uses};
ghost use Rattle.iox_tables.specs.HubLending.Emptying.{HasFewerHolders};
ghost use Rattle.iox_tables.specs.HubMaking.Disconnections.{is_unused, with_disconnected, with_released};
ghost use Rattle.iox_hub_ports.specs.Ports.{without_port};
ghost use Rattle.std.specs.Option.{option_map_or};
ghost use Rattle.iox_control.specs.Controls.{IsControl, with_pools};
ghost use Rattle.iox_control_releasing.specs.LettingGo.{LetsGo};
ghost use Rattle.iox_control_releasing.specs.Goings.{IsTidy, KeptPools, NoLeftPool, StaysTidy, with_left_pool_gone};

use crate::cutting::cut_all;
use crate::letting_go::let_port_go;
use crate::unused::is_unused;
use iox_control::Control;

/// Takes the port of that number out, if there is one, and lets go of all messages that come to it.
/// It tells the place of the port's pool.
fn take_out(control: &mut Control, port: u64) -> Option<usize>
    ensures pool { result ≡ option_map (λ p. p.pool) (port_in control.old.tables.ports port) }
    ensures left { control.new.tables ≡ record (control.old.tables) {
      ports = without_port control.old.tables.ports port;
      pools = control.new.tables.pools;
    } }
    ensures room { control.new.room ≡ control.old.room }
    ensures fewer { LetsGo control.old.tables.pools control.new.tables.pools
        (λ pool k. option_map_or (in_port (lane_count pool k))
        (port_in control.old.tables.ports port) 0) }
    ensures unchanged { result ≡ None → control.new ≡ control.old }
{
    match control.remove_port(port) {
        None => None,
        Some(removed) => {
            let pool = removed.info().pool;
            let_port_go(control, removed);
            Some(pool)
        }
    }
}

/// The pool in that place goes, if its port is gone and nobody has a message of it.
#[inline(always)]
pub fn drop_pool(control: &mut Control, place: usize)
    requires order { IsControl control.old }
    ensures left { control.new ≡ with_pools control.old
        (with_left_pool_gone control.old.tables place) }
    ensures order { IsControl control.new }
    ensures shown { (x : Given) → state_shown x control.old.tables
        ≡ state_shown x control.new.tables }
    ensures pools { KeptPools control.old.tables.pools control.new.tables.pools }
    ensures gone { NoLeftPool control.new.tables place }
    ensures tidy { StaysTidy control.old.tables control.new.tables }
{
    let pools = control.pools();
    if pools.is_idle(place) {
        match control.ports().find(pools.owner(place)) {
            Some(_) => {}
            None => control.remove_pool(place),
        }
    }
}

/// Each pool goes whose port is gone and of which nobody has a message. It is rare that ports go,
/// so it is a call of its own.
#[cold]
#[inline(never)]
fn drop_left_pools(control: &mut Control)
    requires order { IsControl control.old }
    ensures left { control.new ≡ with_pools control.old control.new.tables.pools }
    ensures order { IsControl control.new }
    ensures shown { (x : Given) → state_shown x control.old.tables
        ≡ state_shown x control.new.tables }
    ensures pools { KeptPools control.old.tables.pools control.new.tables.pools }
    ensures tidy { IsTidy control.new.tables }
{
    for place in 0..control.pools().places() {
        drop_pool(control, place);
    }
}

/// The port goes, of which nothing is left: with it go its pipes, and the messages on them. What
/// waits from it is kept by those that keep it. All pools stay. It is rare, so it is a call of its
/// own.
#[cold]
#[inline(never)]
fn take_port(control: &mut Control, port: u64)
    requires order { IsControl control.old }
    requires unused { is_unused control.old.tables port ≡ true }
    ensures left { control.new.tables ≡ record (with_disconnected control.old.tables port) {
      pools = control.new.tables.pools;
    } }
    ensures shown { (x : Given) → state_shown x (with_disconnected control.old.tables port)
        ≡ state_shown x control.new.tables }
    ensures order { IsControl control.new }
    ensures fewer { HasFewerHolders control.old.tables.pools control.new.tables.pools
        (lost_uses control.old.tables port) }
{
    match take_out(control, port) {
        None => {}
        Some(_) => cut_all(control, port),
    }
}

/// The port, which is looked for at the hint first, goes if nothing of it is left: neither its own
/// value nor a handle. With it go the pools of ports that are gone of which nobody has a message
/// any more: its own, and those of which messages were given up.
#[inline(always)]
pub fn disconnect_if_unused(control: &mut Control, port: u64, at: usize)
    requires order { IsControl control.old }
    ensures left { control.new.tables
        ≡ record (with_released control.old.tables port) { pools = control.new.tables.pools } }
    ensures shown { (x : Given) → state_shown x (with_released control.old.tables port)
        ≡ state_shown x control.new.tables }
    ensures order { IsControl control.new }
    ensures pools { KeptPools control.old.tables.pools control.new.tables.pools }
    ensures gone { (p : PortState) → port_in control.old.tables.ports port ≡ Some p
        → NoLeftPool control.new.tables p.pool }
    ensures tidy { StaysTidy control.old.tables control.new.tables }
{
    if is_unused(control, port, at) {
        take_port(control, port);
        drop_left_pools(control);
    }
}
