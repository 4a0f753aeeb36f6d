//! Why a loan is not made, but for the pool.
ghost use Rattle.std.specs.Prelude.{◌≡◌, ◌*◌, ◌<◌, ◌^◌, None, nat_le};
ghost use Rattle.std.specs.Option.{option_map};
ghost use Rattle.iox_model.specs.declared.reply.Refusal.TheVariants.{ExceedsMaxLoans};
ghost use Rattle.iox_model.specs.Maps.{refused_if};
ghost use Rattle.iox_model.specs.Settings.{Shape};
ghost use Rattle.iox_tables.specs.HubStates.Tables.{PortState};
ghost use Rattle.iox_hub_ports.specs.Ports.{info_of};
ghost use Rattle.iox_tables.specs.HubLoans.Counts.{requests_on_loan, responses_on_loan, responses_to};
ghost use Rattle.iox_tables.specs.HubLoans.Lenders.{count_refusal_by, size_refusal};
ghost use Rattle.iox_control_lending.specs.Lends.{IsAskedOf, IsLoanRefusal, lender_of, refusal_of};
ghost use Rattle.iox_control_lending.specs.Tests.{has_all_responses};

use crate::asked::{Asked, Lending, LoanRefusal};
use crate::counts::{requests_on_loan, responses_on_loan, responses_to};
use iox_control::Control;
use iox_hub_ports::info::PortInfo;
use iox_model::kind::{Kind, Role};

/// Whether so many are as many as the product, or more. Where they are fewer than its first factor,
/// nothing is multiplied.
#[tactic(auto, using(crate::proofs::CountLemmas::fewer_than_all))]
#[inline(always)]
fn reaches(many: u64, a: u64, b: u64, c: u64) -> bool
    ensures { result ≡ nat_le (a * b * c) many }
{
    if many < a && b > 0 && c > 0 {
        return false;
    }
    if c == 0 {
        return true;
    }
    match a.checked_mul(b) {
        None => false,
        Some(ab) => match ab.checked_mul(c) {
            None => false,
            Some(all) => all <= many,
        },
    }
}

/// Why the port lends nothing of that length.
#[inline(always)]
fn size_refusal(port: &PortInfo, asked: Asked) -> Option<LoanRefusal>
    ensures { (p : PortState) (shape : Shape) → port.now ≡ info_of p → IsAskedOf shape asked
        → option_map refusal_of result ≡ size_refusal p shape asked.elements }
{
    if !asked.is_count {
        return Some(LoanRefusal::WrongLength);
    }
    if (port.grows || asked.elements <= port.longest) && asked.has_layout {
        return None;
    }
    Some(LoanRefusal::ExceedsMaxLoanSize)
}

/// Whether the client has as many loans as it may, by a count. A call of its own, so that the other
/// is short.
#[cold]
#[inline(never)]
fn counts_all_requests(control: &Control, client: u64) -> bool
    ensures { result ≡ nat_le control.now.tables.settings.loaned_requests
        (requests_on_loan control.now.tables client) }
{
    control.settings().loaned_requests <= requests_on_loan(control, client)
}

/// Whether the client has as many loans as it may.
#[inline(always)]
fn has_all_requests(control: &Control, client: u64) -> bool
    ensures { result ≡ nat_le control.now.tables.settings.loaned_requests
        (requests_on_loan control.now.tables client) }
{
    let most = control.settings().loaned_requests;
    if control.handles().at_most(client, Kind::RequestMut) < most {
        return false;
    }
    counts_all_requests(control, client)
}

/// Whether the server, with so many loans in all, has as many as it may to that request.
#[tactic(auto, using(crate::proofs::CountLemmas::few_to_one))]
fn has_all_to_one(
    control: &Control,
    server: u64,
    most: u64,
    client: u64,
    request: u64,
    in_all: u64,
) -> bool
    requires { in_all ≡ responses_on_loan control.now.tables server }
    ensures { result ≡ nat_le most (responses_to control.now.tables server client request) }
{
    if in_all < most {
        return false;
    }
    let to_one = responses_to(control, server, client, request) as u64;
    most <= to_one
}

/// Whether the server, which may have so many loans to one request, has as many as it may to that
/// request or in all, by a count. A call of its own, so that the other is short.
#[cold]
#[inline(never)]
fn counts_all_responses(
    control: &Control,
    server: u64,
    most: u64,
    client: u64,
    request: u64,
) -> bool
    ensures { result ≡ has_all_responses control.now.tables server most client request }
{
    let in_all = responses_on_loan(control, server) as u64;
    let settings = control.settings();
    let (active, clients) = (settings.active_requests as u64, settings.clients);
    has_all_to_one(control, server, most, client, request, in_all)
        || reaches(in_all, most, active, clients)
}

/// Whether the server has as many loans as it may, to that request or in all.
#[inline(always)]
fn has_all_responses(control: &Control, lender: &Lending) -> bool
    ensures { result ≡ has_all_responses control.now.tables lender.now.port.number
        lender.now.port.loaned_responses lender.now.client lender.now.request }
{
    let port = &lender.port;
    let most = port.loaned_responses;
    let settings = control.settings();
    let in_all = control.handles().at_most(port.number, Kind::ResponseMut) as u64;
    if in_all < most && settings.active_requests > 0 && settings.clients > 0 {
        return false;
    }
    counts_all_responses(control, port.number, most, lender.client, lender.request)
}

/// Whether the lender has as many loans as it may.
#[inline(always)]
fn has_all_loans(control: &Control, lender: &Lending) -> bool
    ensures { (p : PortState) → lender.now.port ≡ info_of p
        → refused_if result ExceedsMaxLoans
        ≡ count_refusal_by p.role control.now.tables (lender_of p lender.now) }
{
    match lender.port.role {
        Role::Client => has_all_requests(control, lender.port.number),
        Role::Server => has_all_responses(control, lender),
    }
}

/// Why no such loan is made, but for the pool.
#[inline(always)]
pub fn loan_refusal(control: &Control, lender: Lending, asked: Asked) -> Option<LoanRefusal>
    ensures few { result ≡ None → control.now.tables.calls < 2 ^ 56 }
    ensures told { (p : PortState) → lender.port ≡ info_of p
        → IsLoanRefusal control.now.tables (lender_of p lender)
        asked (option_map refusal_of result) }
{
    if control.calls() >= 1 << 56 {
        return Some(LoanRefusal::CallsSpent);
    }
    match size_refusal(&lender.port, asked) {
        Some(refusal) => Some(refusal),
        None => {
            if has_all_loans(control, &lender) {
                return Some(LoanRefusal::ExceedsMaxLoans);
            }
            None
        }
    }
}
