//! A request that is lent is sent at once.
ghost use Rattle.std.specs.Prelude.{◌≡◌, ◌<◌, ◌^◌, Some, false};
ghost use Rattle.std.specs.Bool.{OnFalse, OnTrue};
ghost use Rattle.iox_tables.specs.HubLoans.Lenders.{IsClient};
ghost use Rattle.iox_tables.specs.HubStates.Tables.{PortState, port_in};
ghost use Rattle.iox_control.specs.Controls.{IsControl};
ghost use Rattle.iox_control.specs.Entries.{handle_state};
ghost use Rattle.iox_control_request_copies.specs.Copies.{Sends, WaitsThen};
ghost use Rattle.iox_control_request_copies.specs.SentLoans.{IsSent, MayBeSent, lent_handle};

use crate::copied::Copied;
use iox_control::Control;
use iox_control_copies::{Asked, Lent, Loaned, Place, lend_request_of};
use iox_control_requests::{send_over_oldest, send_to_all};
use iox_handles::{Entry, kept_place};
use iox_model::kind::Kind;

/// The handle of that loan of a client, which is filled. The client is likely in that place.
#[inline(always)]
fn lent_entry(node: u64, client: u64, at: usize, loaned: Loaned) -> Entry
    ensures { handle_state result ≡ lent_handle node client loaned }
{
    Entry {
        node,
        number: loaned.number,
        kind: Kind::RequestMut,
        at: kept_place(at),
        port: client,
        pool: loaned.pool,
        slot: loaned.slot,
        client,
        connections: 0,
    }
}

/// Sends that loaned request to the only server on the usual way, and says whether it did: else
/// nothing has changed. It is usual that requests overflow, and the pipe of that rank is from the
/// client. The handle is looked for at the hint first.
#[inline(always)]
fn send_usual(control: &mut Control, entry: Entry, rank: usize, overflow: bool, hint: usize) -> bool
    requires { MayBeSent control.old (handle_state entry) }
    ensures sent { OnTrue result (IsSent control.old (handle_state entry) overflow 1 control.new) }
    ensures unchanged { OnFalse result (control.new ≡ control.old) }
{
    if !overflow {
        return false;
    }
    let Some(place) = control.ports().only_server() else {
        return false;
    };
    if !control.ports().is_from(place, rank, entry.port) {
        return false;
    }
    send_over_oldest(control, place, entry, rank, hint);
    true
}

/// Sends that loaned request to all servers, and says to how many. Its handle is looked for at the
/// hint first. A call of its own, so that the other is short.
#[cold]
#[inline(never)]
fn send_others(control: &mut Control, entry: Entry, overflow: bool, hint: usize) -> u64
    requires { MayBeSent control.old (handle_state entry) }
    ensures { IsSent control.old (handle_state entry) overflow result control.new }
{
    let label = control.label_of(entry.pool, entry.slot);
    send_to_all(control, entry, label, overflow, hint)
}

/// Sends the loan of that client, which came last, to all servers, and says to how many. The client
/// is likely in that place, and the pipes from it are likely of that rank. The handle is put
/// together for each way, so that it is in memory only where it is sent on another than the usual.
#[inline(always)]
fn send_lent(
    control: &mut Control,
    node: u64,
    client: u64,
    at: usize,
    rank: usize,
    loaned: Loaned,
    overflow: bool,
) -> u64
    requires { MayBeSent control.old (lent_handle node client loaned) }
    ensures { IsSent control.old (lent_handle node client loaned) overflow result control.new }
{
    let hint = control.last_place();
    let entry = lent_entry(node, client, at, loaned);
    if send_usual(control, entry, rank, overflow, hint) {
        return 1;
    }
    let other = lent_entry(node, client, at, loaned);
    send_others(control, other, overflow, hint)
}

/// Lends a request of the client, and sends it to all servers at once.
#[inline(always)]
pub fn lend_and_send(
    control: &mut Control,
    node: u64,
    client: u64,
    asked: Asked,
    overflow: bool,
) -> Copied
    requires client { IsClient control.old.tables node client }
    requires order { IsControl control.old }
    requires filled { asked.uninit ≡ false }
    requires calls { control.old.tables.calls < 2 ^ 56 }
    ensures left { (p : PortState) → port_in control.old.tables.ports client ≡ Some p
        → Sends control.old p asked overflow result control.new }
    ensures waits { WaitsThen control.old.tables client result }
    ensures order { IsControl control.new }
{
    let at = control.ports().known_place(client, 0);
    let rank = control.ports().rank(at);
    let port = control.ports().known_at(at);
    let loaned = match lend_request_of(control, node, client, at, port, asked) {
        Lent::Handle(loaned) => loaned,
        Lent::Refused(refusal) => return Copied::Refused(refusal),
        Lent::OutOfMemory => return Copied::OutOfMemory,
    };
    let servers = send_lent(control, node, client, at, rank, loaned, overflow);
    Copied::To {
        number: loaned.number,
        servers,
        place: Place {
            pool: loaned.pool,
            slot: loaned.slot,
        },
    }
}
