//! The release of a handle.
ghost use Rattle.std.specs.Prelude.{◌≡◌, ◌<◌, IfSome, None, Some, false, is_some, option_map, true};
ghost use Rattle.std.specs.Option.{option_and_then, option_map_or};
ghost use Rattle.iox_tables.specs.HubStates.Tables.{port_in, slot_at};
ghost use Rattle.iox_tables.specs.HubStates.Wirings.{handle_in};
ghost use Rattle.iox_slots.specs.Pools.{is_idle, with_slot};
ghost use Rattle.iox_slots.specs.Slots.{let_go};
ghost use Rattle.iox_hub_ports.specs.InPlace.{AllApart};
ghost use Rattle.iox_hub_ports.specs.Ports.{place_in};
ghost use Rattle.iox_control.specs.Controls.{IsControl, with_pools, with_tables};
ghost use Rattle.iox_control.specs.Entries.{handle_state};
ghost use Rattle.iox_control.specs.Removals.{if_still};
ghost use Rattle.iox_control_releasing.specs.Endings.{given_up_as, given_up_with};
ghost use Rattle.iox_control_releasing.specs.Ends.{HasEnded};
ghost use Rattle.iox_control_releasing.specs.Releases.{Releases};
ghost use Rattle.iox_control_releasing.specs.Goings.{StaysTidy};

use crate::ending::{Ended, Ending};
use crate::leaving::leave;
use crate::unused::may_go;
use crate::usual::{end_usual, hint_of};
use iox_control::Control;
use iox_handles::Entry;
use iox_model::kind::Kind;
use iox_model::way::Way;
use iox_slots::Left;

/// Gives a received message back of which this is known, and closes a request whose pending
/// response or active request it was. The handle's port is in that place.
#[inline(always)]
fn give_up(control: &mut Control, entry: Entry, at: usize, left: Left)
    requires there { place_in control.old.tables.ports entry.port ≡ Some at }
    requires apart { AllApart control.old.tables.ports }
    ensures { control.new ≡ with_tables control.old
        (given_up_with entry.kind control.old.tables (handle_state entry) left.label left.owner) }
{
    match entry.kind {
        Kind::PendingResponse => {
            let hint = control.ports().rank(at);
            control.close_all_in(entry.port, hint, left.label);
        }
        Kind::ActiveRequest => {
            let (client, server) = (entry.client, entry.port);
            let hint = hint_of(control.ports(), left.at);
            control.give_back_and_close_in(at, hint, client, server, entry.slot, left.label);
        }
        Kind::Response => {
            let way = Way {
                sender: left.owner,
                receiver: entry.port,
                lane: left.label.lane,
            };
            control.give_back_in(at, 0, way, entry.slot);
        }
        Kind::Client => {}
        Kind::Server => {}
        Kind::RequestMutUninit => {}
        Kind::RequestMut => {}
        Kind::ResponseMutUninit => {}
        Kind::ResponseMut => {}
    }
}

/// Ends a handle that was removed: nobody has its message by it, and its port stays, which is
/// looked for once. It says whether something may go: the port's own value is not there, or nobody
/// has a message of the pool.
#[inline(always)]
fn end_removed(control: &mut Control, entry: Entry) -> bool
    requires taken { 0 < (slot_at control.old.tables.pools entry.pool entry.slot).holders }
    requires port { is_some (port_in control.old.tables.ports entry.port) ≡ true }
    requires apart { AllApart control.old.tables.ports }
    ensures left { control.new ≡ with_pools (with_tables control.old
        (given_up_as entry.kind control.old.tables (handle_state entry)))
        (with_slot let_go control.old.tables.pools entry.pool entry.slot) }
    ensures busy { result ≡ false → is_idle control.new.tables.pools entry.pool ≡ false }
    ensures held { result ≡ false → option_map_or (λ p. p.held)
        (port_in control.old.tables.ports entry.port) false ≡ true }
{
    let left = control.leave_slot(entry.pool, entry.slot);
    let ports = control.ports();
    let at = ports.known_place(entry.port, entry.at as usize);
    let goes = may_go(ports, at, left.idle);
    give_up(control, entry, at, left);
    goes
}

/// Ends the node's handle of that number, if it is of that kind, or a loan that was filled
/// meanwhile. It is looked for once, at the hint first. Its port stays.
fn end(control: &mut Control, node: u64, number: u64, kind: Kind, hint: usize) -> Option<Ended>
    requires order { IsControl control.old }
    ensures told { option_map (λ r. handle_state r.entry) result
        ≡ option_and_then (if_still kind) (handle_in control.old.tables.handles node number) }
    ensures ended { IfSome result (λ r. HasEnded control.old node number kind r.goes control.new
        (handle_state r.entry)) }
    ensures unchanged { result ≡ None → control.new ≡ control.old }
{
    let entry = control.remove_still(node, number, kind, hint)?;
    let goes = end_removed(control, entry);
    Some(Ended { entry, goes })
}

/// Releases the node's handle of that number, if it is of that kind, or a loan that was filled
/// meanwhile. It is looked for once, at the hint first. Its port goes if nothing of it is left, and
/// its message's pool if its port is gone and nobody has a message of it.
pub fn release(
    control: &mut Control,
    node: u64,
    number: u64,
    kind: Kind,
    hint: usize,
) -> Option<Ending>
    requires order { IsControl control.old }
    ensures told { option_map (λ r. handle_state r.entry) result
        ≡ option_and_then (if_still kind) (handle_in control.old.tables.handles node number) }
    ensures released { IfSome result (λ r. Releases control.old node number kind r control.new) }
    ensures order { IsControl control.new }
    ensures tidy { StaysTidy control.old.tables control.new.tables }
    ensures unchanged { result ≡ None → control.new ≡ control.old }
{
    let Ended { entry, goes } = end(control, node, number, kind, hint)?;
    let place = leave(control, entry.port, entry.pool, goes);
    Some(Ending { entry, place })
}

/// The same, if that is usual: the handle, its port and its pipe stand where they are looked for
/// first, and neither its port nor its pool goes. `None` says that nothing changed.
#[inline(always)]
pub fn release_usual(
    control: &mut Control,
    node: u64,
    number: u64,
    kind: Kind,
    hint: usize,
) -> Option<Ending>
    requires order { IsControl control.old }
    ensures released { IfSome result (λ r. Releases control.old node number kind r control.new) }
    ensures order { IsControl control.new }
    ensures tidy { StaysTidy control.old.tables control.new.tables }
    ensures unchanged { result ≡ None → control.new ≡ control.old }
{
    let entry = end_usual(control, node, number, kind, hint)?;
    let place = leave(control, entry.port, entry.pool, false);
    Some(Ending { entry, place })
}
