//! The loans of clients and of active requests.
ghost use Rattle.std.specs.Prelude.{◌≡◌, Some};
ghost use Rattle.iox_model.specs.WholeCalls.{IsWholeCall};
ghost use Rattle.iox_tables.specs.HubStates.Tables.{HandleState, PortState, port_in};
ghost use Rattle.iox_tables.specs.HubStates.States.{Given, state_shown};
ghost use Rattle.iox_tables.specs.HubStates.Wirings.{handle_in};
ghost use Rattle.iox_tables.specs.HubLoans.Lenders.{IsActive, IsClient, lender_of_request, lender_of_response};
ghost use Rattle.iox_tables.specs.HubLoans.Loans.{loan_call};
ghost use Rattle.iox_hub_ports.specs.Ports.{info_in, place_in};
ghost use Rattle.iox_control.specs.Controls.{IsControl};
ghost use Rattle.iox_control.specs.Entries.{handle_state};
ghost use Rattle.iox_control_lending.specs.Lends.{HasNextId, IsAskedOf, IsPortOf, Lends, given_after, lender_of, reply_of_loan};

use crate::asked::{Asked, Lending, Lent};
use crate::lend::{hand_taken, lend_free};
use crate::refusals::loan_refusal;
use crate::retaking::retake;
use iox_control::Control;
use iox_handles::Entry;
use iox_hub_ports::info::PortInfo;
use iox_model::kind::Role;

/// The same of a port: it has that role. Where the role is said here, all that is inlined knows it.
#[inline(always)]
fn known_as(port: PortInfo, role: Role) -> PortInfo
    requires { port.role ≡ role }
    ensures { result ≡ port }
{
    PortInfo { role, ..port }
}

/// The same lender, whose port is in that place. It is read anew, so that it need not be kept while
/// messages are got back.
#[inline(always)]
fn again(control: &Control, lender: &Lending, at: usize) -> Lending
    requires port { IsPortOf control.now.tables lender.now }
    requires there { place_in control.now.tables.ports lender.now.port.number ≡ Some at }
    requires request { HasNextId lender.now }
    ensures { result ≡ lender.now }
{
    let read = PortInfo {
        number: lender.port.number,
        role: lender.port.role,
        ..control.ports().known_at(at)
    };
    match lender.port.role {
        Role::Client => Lending {
            port: read,
            request: read.loans % (1 << 62),
            ..*lender
        },
        Role::Server => Lending {
            port: read,
            ..*lender
        },
    }
}

/// Lends for that lender, which is looked for at the hint first.
#[inline(always)]
fn lend(control: &mut Control, lender: &Lending, hint: usize, asked: Asked) -> Lent
    requires port { IsPortOf control.old.tables lender.now }
    requires request { HasNextId lender.now }
    requires order { IsControl control.old }
    ensures left { (p : PortState)
        → port_in control.old.tables.ports lender.now.port.number ≡ Some p
        → Lends control.old (lender_of p lender.now) asked result control.new }
    ensures order { IsControl control.new }
{
    if let Some(refusal) = loan_refusal(control, *lender, asked) {
        return Lent::Refused(refusal);
    }
    let at = control.ports().known_place(lender.port.number, hint);
    if let Some(slot) = retake(control, lender, at, asked.elements) {
        return Lent::Handle(hand_taken(control, lender, at, asked, slot));
    }
    let known = again(control, lender, at);
    match lend_free(control, &known, at, asked) {
        Some(loaned) => Lent::Handle(loaned),
        None => Lent::OutOfMemory,
    }
}

/// Lends a request of that client, of which this is said, and which is looked for at the hint
/// first, on its lowest lane that is free. All that servers gave back to the client is got back
/// first.
///
/// The new loan holds no elements or the default of each.
#[inline(always)]
pub fn lend_request_of(
    control: &mut Control,
    node: u64,
    client: u64,
    at: usize,
    port: PortInfo,
    asked: Asked,
) -> Lent
    requires client { IsClient control.old.tables node client }
    requires said { Some port ≡ info_in control.old.tables.ports client }
    requires order { IsControl control.old }
    ensures left { (p : PortState) → port_in control.old.tables.ports client ≡ Some p
        → Lends control.old (lender_of_request p 0) asked result control.new }
    ensures order { IsControl control.new }
    ensures whole { (x : Given) → IsAskedOf x.request asked
        → IsWholeCall (state_shown x control.old.tables) node
        (loan_call asked.uninit client asked.elements) (reply_of_loan result)
        (state_shown (given_after x x.request asked result) control.new.tables) }
{
    let port = known_as(port, Role::Client);
    let lender = Lending {
        port,
        client: port.number,
        lane: 0,
        request: port.loans % (1 << 62),
    };
    lend(control, &lender, at, asked)
}

/// Lends a request of that client.
#[inline(always)]
pub fn lend_request(control: &mut Control, node: u64, client: u64, asked: Asked) -> Lent
    requires client { IsClient control.old.tables node client }
    requires order { IsControl control.old }
    ensures left { (p : PortState) → port_in control.old.tables.ports client ≡ Some p
        → Lends control.old (lender_of_request p 0) asked result control.new }
    ensures order { IsControl control.new }
    ensures whole { (x : Given) → IsAskedOf x.request asked
        → IsWholeCall (state_shown x control.old.tables) node
        (loan_call asked.uninit client asked.elements) (reply_of_loan result)
        (state_shown (given_after x x.request asked result) control.new.tables) }
{
    let Some(port) = control.ports().find(client) else {
        unreachable!();
    };
    lend_request_of(control, node, client, 0, port, asked)
}

/// Lends a response to that active request, of whose handle and of whose port this is said. The
/// port is looked for at the hint first. All that clients gave back to the server is got back
/// first.
#[inline(always)]
pub fn lend_response_of(
    control: &mut Control,
    node: u64,
    number: u64,
    entry: Entry,
    at: usize,
    port: PortInfo,
    asked: Asked,
) -> Lent
    requires active { IsActive control.old.tables node number }
    requires entry { Some (handle_state entry) ≡ handle_in control.old.tables.handles node number }
    requires said { Some port ≡ info_in control.old.tables.ports entry.port }
    requires order { IsControl control.old }
    ensures left { (h : HandleState) (p : PortState)
        → handle_in control.old.tables.handles node number ≡ Some h
        → port_in control.old.tables.ports h.port ≡ Some p
        → Lends control.old (lender_of_response control.old.tables h p) asked result control.new }
    ensures order { IsControl control.new }
    ensures whole { (x : Given) → IsAskedOf x.response asked
        → IsWholeCall (state_shown x control.old.tables) node
        (loan_call asked.uninit number asked.elements) (reply_of_loan result)
        (state_shown (given_after x x.response asked result) control.new.tables) }
{
    let port = known_as(port, Role::Server);
    let label = control.label_of(entry.pool, entry.slot);
    let lender = Lending {
        port,
        client: entry.client,
        lane: label.lane,
        request: label.request,
    };
    lend(control, &lender, at, asked)
}
