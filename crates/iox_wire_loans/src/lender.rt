//! What the wire tells of a port that lends.
ghost use Rattle.std.specs.Prelude.{◌≡◌, ◌==◌, ◌&&◌, length, filter};
ghost use Rattle.iox_model.specs.Handles.{is_request_loan, is_response_loan};

use crate::slot_places::SlotPlaces;
use iox_model::kind::{Kind, Role};
use iox_wire_locals::{CallRefusal, Entry};
use iox_wire_seats::StoredSeat;

/// What the wire tells of a port that lends. It borrows the words of its headers.
#[derive(Clone, Copy)]
pub struct Lender<'a> {
    /// The number of the port.
    pub port: u64,
    /// Whether it is a client or a server.
    pub role: Role,
    /// Whether its messages may have any number of elements; else they have one.
    pub many: bool,
    /// How many elements its messages may have at most.
    pub longest: u64,
    /// How many loans it may have.
    pub limit: u64,
    /// Of a server: how many loans it may have for one request.
    pub each: u64,
    /// Of a client: how many lanes it has.
    pub pool: u64,
    /// How many messages may return on each way.
    pub room: usize,
    /// The words of its node's identifier, and behind them those of its own.
    pub ids: &'a [u64],
    /// The words of the user header of its messages.
    pub user: &'a [u64],
    /// Where its messages stand.
    pub places: SlotPlaces,
}

impl<'a> Lender<'a> {
    ghost use Rattle.std.specs.Prelude.{◌≡◌};
    ghost use Rattle.iox_wire_locals.specs.Tables.{Setting};
    ghost use Rattle.iox_wire_loans.specs.Lenders.{HasClientLimits, LenderIsTold, HasServerLimits};
    ghost use Rattle.iox_wire_loans.specs.Loans.{length_refused, request_refused, response_refused};

    /// Why the length of a message is refused.
    fn length_refusal(&self, elements: u64) -> Option<CallRefusal>
        ensures { result ≡ length_refused self.now.many self.now.longest elements }
    {
        if !self.many && elements != 1 {
            return Some(CallRefusal::WrongLength);
        }
        if elements > self.longest {
            return Some(CallRefusal::ExceedsMaxLoanSize);
        }
        None
    }

    /// Why the client does not lend a request of so many elements: its length, then the loans that
    /// it has.
    pub fn request_refusal(&self, seat: &StoredSeat, elements: u64) -> Option<CallRefusal>
        ensures { (p : Setting) → LenderIsTold p self.now → HasClientLimits p self.now → result
            ≡ request_refused p seat.now.seat (p.port self.now.port) elements }
    {
        if let Some(refusal) = self.length_refusal(elements) {
            return Some(refusal);
        }
        if self.limit <= request_loans(seat.entries(), self.port) {
            return Some(CallRefusal::ExceedsMaxLoans);
        }
        None
    }

    /// Why the server does not lend a response to a received request: its length, then the loans of
    /// that request, and those of the port.
    pub fn response_refusal(
        &self,
        seat: &StoredSeat,
        request: Entry,
        elements: u64,
    ) -> Option<CallRefusal>
        ensures { (p : Setting) → LenderIsTold p self.now → HasServerLimits p self.now
            → request.port ≡ self.now.port → result
            ≡ response_refused p seat.now.seat request elements }
    {
        if let Some(refusal) = self.length_refusal(elements) {
            return Some(refusal);
        }
        if self.each <= loans_for(seat.entries(), request) {
            return Some(CallRefusal::ExceedsMaxLoans);
        }
        if self.limit <= response_loans(seat.entries(), self.port) {
            return Some(CallRefusal::ExceedsMaxLoans);
        }
        None
    }
}

/// How many requests a port has on loan.
fn request_loans(entries: &[Entry], port: u64) -> u64
    ensures { result
        ≡ length (filter (λ e. (e.port == port) && is_request_loan e.kind) entries.now) }
{
    let loans = entries
        .iter()
        .filter(|entry| entry.port == port && is_request(entry.kind));
    loans.count() as u64
}

/// How many responses a port has on loan.
fn response_loans(entries: &[Entry], port: u64) -> u64
    ensures { result
        ≡ length (filter (λ e. (e.port == port) && is_response_loan e.kind) entries.now) }
{
    let loans = entries
        .iter()
        .filter(|entry| entry.port == port && is_response(entry.kind));
    loans.count() as u64
}

/// How many responses to a received request its port has on loan.
fn loans_for(entries: &[Entry], request: Entry) -> u64
    ensures { result
        ≡ length (filter (λ e. (e.port == request.port)
        && (is_response_loan e.kind
        && ((e.client == request.client) && (e.request == request.request)))) entries.now) }
{
    let loans = entries.iter().filter(|entry| entry.port == request.port && is_for(entry, request));
    loans.count() as u64
}

/// Whether a handle is a loaned response to that request.
fn is_for(entry: &Entry, request: Entry) -> bool
    ensures { result
        ≡ (is_response_loan entry.now.kind
        && ((entry.now.client == request.client) && (entry.now.request == request.request))) }
{
    is_response(entry.kind) && entry.client == request.client && entry.request == request.request
}

/// Whether a handle of that kind is a loaned request.
fn is_request(kind: Kind) -> bool
    ensures { result ≡ is_request_loan kind }
{
    matches!(kind, Kind::RequestMut | Kind::RequestMutUninit)
}

/// Whether a handle of that kind is a loaned response.
fn is_response(kind: Kind) -> bool
    ensures { result ≡ is_response_loan kind }
{
    matches!(kind, Kind::ResponseMut | Kind::ResponseMutUninit)
}
