//! How many handles of a port there are.
ghost use Rattle.std.specs.Prelude.{◌≡◌, ◌==◌, ◌&&◌};
ghost use Rattle.iox_model.specs.Handles.{is_request_loan, is_response_loan, same_kind};
ghost use Rattle.iox_model.specs.declared.kind.Kind.TheVariants.{PendingResponse};
ghost use Rattle.iox_tables.specs.HubStates.Tables.{labels_of};
ghost use Rattle.iox_tables.specs.HubLoans.Counts.{pendings_of, requests_on_loan, responses_on_loan, responses_to};
ghost use Rattle.iox_control_lending.specs.Tests.{is_responding};

use iox_control::Control;
use iox_handles::{Entry, EntryTest};
use iox_lanes::wanted::Labels;
use iox_model::kind::Kind;
use iox_slots::Pools;

/// Whether the kind is a loaned request.
#[inline]
pub fn is_request_loan(kind: Kind) -> bool
    ensures { result ≡ is_request_loan kind }
{
    match kind {
        Kind::RequestMut => true,
        Kind::RequestMutUninit => true,
        _ => false,
    }
}

/// Whether the kind is a loaned response.
#[inline]
pub fn is_response_loan(kind: Kind) -> bool
    ensures { result ≡ is_response_loan kind }
{
    match kind {
        Kind::ResponseMut => true,
        Kind::ResponseMutUninit => true,
        _ => false,
    }
}

/// Whether it is the kind of pending responses.
#[inline]
pub fn is_pending(kind: Kind) -> bool
    ensures { result ≡ same_kind kind PendingResponse }
{
    match kind {
        Kind::PendingResponse => true,
        _ => false,
    }
}

/// A handle is a request that the port has on loan.
#[derive(Clone, Copy)]
struct RequestLoan {
    port: u64,
}

impl EntryTest for RequestLoan {
    ghost passes = { λ t e. (e.port == t.port) && is_request_loan e.kind };

    fn passes(&self, entry: Entry) -> bool {
        entry.port == self.port && is_request_loan(entry.kind)
    }
}

/// A handle is a response that the port has on loan.
#[derive(Clone, Copy)]
struct ResponseLoan {
    port: u64,
}

impl EntryTest for ResponseLoan {
    ghost passes = { λ t e. (e.port == t.port) && is_response_loan e.kind };

    fn passes(&self, entry: Entry) -> bool {
        entry.port == self.port && is_response_loan(entry.kind)
    }
}

/// A handle is a pending response of the port.
#[derive(Clone, Copy)]
struct Pending {
    port: u64,
}

impl EntryTest for Pending {
    ghost passes = { λ t e. (e.port == t.port) && same_kind e.kind PendingResponse };

    fn passes(&self, entry: Entry) -> bool {
        entry.port == self.port && is_pending(entry.kind)
    }
}

/// A handle is a response that the port has on loan, to that request of that client.
#[derive(Clone, Copy)]
struct Responding<'a> {
    port: u64,
    client: u64,
    request: u64,
    pools: &'a Pools,
}

impl<'a> EntryTest for Responding<'a> {
    ghost passes = { λ t e. is_responding (labels_of t.pools.now) t.port t.client t.request e };

    fn passes(&self, entry: Entry) -> bool {
        entry.port == self.port
            && (is_response_loan(entry.kind)
                && (entry.client == self.client
                    && self.pools.label(entry.pool, entry.slot).request == self.request))
    }
}

/// How many requests the client has on loan.
pub fn requests_on_loan(control: &Control, client: u64) -> usize
    ensures { result ≡ requests_on_loan control.now.tables client }
{
    if control.handles().at_most(client, Kind::RequestMut) == 0 {
        return 0;
    }
    control.handles().count_if(&RequestLoan { port: client })
}

/// How many responses the server has on loan.
pub fn responses_on_loan(control: &Control, server: u64) -> usize
    ensures { result ≡ responses_on_loan control.now.tables server }
{
    if control.handles().at_most(server, Kind::ResponseMut) == 0 {
        return 0;
    }
    control.handles().count_if(&ResponseLoan { port: server })
}

/// How many pending responses the client has.
pub fn pendings_of(control: &Control, client: u64) -> usize
    ensures { result ≡ pendings_of control.now.tables client }
{
    control.handles().count_if(&Pending { port: client })
}

/// How many responses to that request of that client the server has on loan.
pub fn responses_to(control: &Control, server: u64, client: u64, request: u64) -> usize
    ensures { result ≡ responses_to control.now.tables server client request }
{
    control.handles().count_if(&Responding {
        port: server,
        client,
        request,
        pools: control.pools(),
    })
}
