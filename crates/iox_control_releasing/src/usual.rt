//! The end of a handle where that is usual: all is found where it is looked for first, and nothing
//! goes. All is tested before anything is changed.
ghost use Rattle.std.specs.Prelude.{◌≡◌, ◌<◌, IfSome, IsTrue, None, Some, false, true};
ghost use Rattle.std.specs.Bool.{OnFalse};
ghost use Rattle.iox_model.specs.Values.{is_still};
ghost use Rattle.iox_model.specs.declared.kind.Kind.TheVariants.{ActiveRequest, PendingResponse, Response};
ghost use Rattle.iox_tables.specs.HubStates.Tables.{slot_at};
ghost use Rattle.iox_tables.specs.HubBooks.Handles.{is_loan};
ghost use Rattle.iox_slots.specs.Pools.{with_slot};
ghost use Rattle.iox_slots.specs.Slots.{let_go};
ghost use Rattle.iox_hub_ports.specs.InPlace.{in_place};
ghost use Rattle.iox_hub_ports.specs.Ports.{place_in};
ghost use Rattle.iox_control.specs.Controls.{IsControl, with_handle_dropped, with_pools};
ghost use Rattle.iox_control.specs.Entries.{handle_state};
ghost use Rattle.iox_control_releasing.specs.Ends.{HasEnded, IsNear};

use iox_control::{Control, is_still};
use iox_handles::Entry;
use iox_hub_ports::ports::Ports;
use iox_model::kind::Kind;
use iox_model::way::Way;

/// Where the pipes from the port that is likely in that place likely stand among those that lead to
/// others.
#[inline(always)]
pub fn hint_of(ports: &Ports, place: usize) -> usize {
    if place < ports.len() {
        return ports.rank(place);
    }
    0
}

/// Whether the port is in that place, and its own value is there.
#[inline(always)]
fn is_held_at(control: &Control, port: u64, at: usize) -> bool
    ensures there { IsTrue result → place_in control.now.tables.ports port ≡ Some at }
    ensures held { IsTrue result
        → in_place (λ p. p.held) false control.now.tables.ports at ≡ true }
{
    let ports = control.ports();
    if !ports.is_near(port, at) {
        return false;
    }
    ports.known_at(at).held
}

/// The node's handle of that number, if it is at the hint, its port is where it likely is, and the
/// port's own value is there.
#[inline(always)]
fn near(control: &Control, node: u64, number: u64, hint: usize) -> Option<Entry>
    ensures { IfSome result (IsNear control.now.tables node number) }
{
    let entry = control.near(node, number, hint)?;
    if is_held_at(control, entry.port, entry.at as usize) {
        return Some(entry);
    }
    None
}

/// Removes the node's handle of that number, which is this one, if it is of that kind, and lets its
/// message go. It says whether it did.
#[inline(always)]
fn remove(
    control: &mut Control,
    node: u64,
    number: u64,
    kind: Kind,
    hint: usize,
    entry: Entry,
) -> bool
    requires near { IsNear control.old.tables node number entry }
    requires taken { 0 < (slot_at control.old.tables.pools entry.pool entry.slot).holders }
    ensures kind { IsTrue result → is_still kind entry.kind ≡ true }
    ensures left { IsTrue result
        → control.new ≡ with_pools (with_handle_dropped control.old node number)
        (with_slot let_go control.old.tables.pools entry.pool entry.slot) }
    ensures unchanged { OnFalse result (control.new ≡ control.old) }
{
    if !is_still(kind, entry.kind) {
        return false;
    }
    control.remove_known(node, number, hint, entry.kind);
    control.let_go_of(entry.pool, entry.slot);
    true
}

/// Ends the node's active request of that number, if that is usual.
#[inline(always)]
fn end_active(control: &mut Control, node: u64, number: u64, hint: usize) -> Option<Entry>
    requires order { IsControl control.old }
    ensures ended { IfSome result (λ e.
        HasEnded control.old node number ActiveRequest false control.new (handle_state e)) }
    ensures unchanged { result ≡ None → control.new ≡ control.old }
{
    let entry = near(control, node, number, hint)?;
    let (at, client, server) = (entry.at as usize, entry.client, entry.port);
    let (ports, pools) = (control.ports(), control.pools());
    let rank = hint_of(ports, pools.at(entry.pool));
    if !ports.is_from(at, rank, client) {
        return None;
    }
    if !pools.is_shared(entry.pool, entry.slot) {
        return None;
    }
    let label = pools.label_of(entry.pool, entry.slot);
    if !remove(control, node, number, Kind::ActiveRequest, hint, entry) {
        return None;
    }
    control.give_back_and_close_on(at, rank, client, server, entry.slot, label);
    Some(entry)
}

/// Ends the node's response of that number, if that is usual: its server's pipe is the first.
#[inline(always)]
fn end_response(control: &mut Control, node: u64, number: u64, hint: usize) -> Option<Entry>
    requires order { IsControl control.old }
    ensures ended { IfSome result (λ e. HasEnded control.old node number Response false control.new
        (handle_state e)) }
    ensures unchanged { result ≡ None → control.new ≡ control.old }
{
    let entry = near(control, node, number, hint)?;
    let at = entry.at as usize;
    let (ports, pools) = (control.ports(), control.pools());
    let sender = pools.owner_of(entry.pool);
    if !ports.is_from(at, 0, sender) {
        return None;
    }
    if !pools.is_shared(entry.pool, entry.slot) {
        return None;
    }
    let label = pools.label_of(entry.pool, entry.slot);
    if !remove(control, node, number, Kind::Response, hint, entry) {
        return None;
    }
    let way = Way {
        sender,
        receiver: entry.port,
        lane: label.lane,
    };
    control.give_back_on(at, 0, way, entry.slot);
    Some(entry)
}

/// Ends the node's pending response of that number, if that is usual: there is only one server.
#[inline(always)]
fn end_pending(control: &mut Control, node: u64, number: u64, hint: usize) -> Option<Entry>
    requires order { IsControl control.old }
    ensures ended { IfSome result (λ e.
        HasEnded control.old node number PendingResponse false control.new (handle_state e)) }
    ensures unchanged { result ≡ None → control.new ≡ control.old }
{
    let entry = near(control, node, number, hint)?;
    let (ports, pools) = (control.ports(), control.pools());
    let server = ports.only_server()?;
    let rank = hint_of(ports, entry.at as usize);
    if !ports.is_from(server, rank, entry.port) {
        return None;
    }
    if !pools.is_shared(entry.pool, entry.slot) {
        return None;
    }
    let label = pools.label_of(entry.pool, entry.slot);
    if !remove(control, node, number, Kind::PendingResponse, hint, entry) {
        return None;
    }
    control.close_on(server, rank, entry.port, label);
    Some(entry)
}

/// Ends the node's loan of that number, which is of that kind or filled meanwhile, if that is
/// usual. Its message is of its port's pool, so that stays with its port. A call of its own, so
/// that the other ways stay short enough to be inlined.
#[inline(never)]
fn end_loan(control: &mut Control, node: u64, number: u64, kind: Kind, hint: usize) -> Option<Entry>
    requires order { IsControl control.old }
    requires loan { is_loan kind ≡ true }
    ensures ended { IfSome result (λ e. HasEnded control.old node number kind false control.new
        (handle_state e)) }
    ensures unchanged { result ≡ None → control.new ≡ control.old }
{
    let entry = near(control, node, number, hint)?;
    if !remove(control, node, number, kind, hint, entry) {
        return None;
    }
    Some(entry)
}

/// Ends the node's handle of that number and kind, if that is usual. Else nothing changes.
#[inline(always)]
pub fn end_usual(
    control: &mut Control,
    node: u64,
    number: u64,
    kind: Kind,
    hint: usize,
) -> Option<Entry>
    requires order { IsControl control.old }
    ensures ended { IfSome result (λ e. HasEnded control.old node number kind false control.new
        (handle_state e)) }
    ensures unchanged { result ≡ None → control.new ≡ control.old }
{
    match kind {
        Kind::ActiveRequest => end_active(control, node, number, hint),
        Kind::Response => end_response(control, node, number, hint),
        Kind::PendingResponse => end_pending(control, node, number, hint),
        Kind::Client => None,
        Kind::Server => None,
        Kind::RequestMutUninit => end_loan(control, node, number, kind, hint),
        Kind::RequestMut => end_loan(control, node, number, kind, hint),
        Kind::ResponseMutUninit => end_loan(control, node, number, kind, hint),
        Kind::ResponseMut => end_loan(control, node, number, kind, hint),
    }
}
