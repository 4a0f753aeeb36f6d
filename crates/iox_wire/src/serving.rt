//! Whether a service has the ports and the limits of a plan and its terms.
ghost use Rattle.std.specs.Prelude.{◌≡◌, not, ◌||◌, ◌==◌};
ghost use Rattle.iox_wire_weaves.specs.Terms.{messages_of};
ghost use Rattle.iox_wire.specs.NewRefusals.{has_large_pool, has_limit_of_zero, lends_none};
ghost use Rattle.iox_wire.specs.NewRefusals.{has_too_many_clients, has_unsuitable_length};
ghost use Rattle.iox_wire.specs.NewRefusals.{is_out_of_order, service_refusal};

use crate::handle_room::clients;
use crate::new_error::WireNewError;
use iox_wire_weaves::{PlanPort, WirePlan, WireTerms};

/// The most messages of a pool.
const MOST_SLOTS: usize = (1 << 24) - 2;

/// Whether a port of the plan may have no response on loan.
fn lends_none(plan: &WirePlan, terms: &WireTerms) -> bool
    ensures { result ≡ lends_none plan.now terms.now }
{
    let mut told = terms.ports.iter().take(plan.ports.len());
    told.any(|port| port.loaned_responses == 0)
}

/// Whether a limit is 0.
fn has_limit_of_zero(plan: &WirePlan, terms: &WireTerms) -> bool
    ensures { result ≡ has_limit_of_zero plan.now terms.now }
{
    let limits = &plan.limits;
    limits.active_requests == 0
        || limits.response_buffer == 0
        || limits.borrowed_responses == 0
        || terms.clients == 0
        || terms.loaned_requests == 0
        || lends_none(plan, terms)
}

/// Whether a port comes behind one of its own number, or of a later one.
fn is_out_of_order(plan: &WirePlan) -> bool
    ensures { result ≡ is_out_of_order plan.now }
{
    !plan
        .ports
        .is_sorted_by(|port, next| port.number < next.number)
}

/// Whether there are more clients than there may be.
fn has_too_many_clients(plan: &WirePlan, terms: &WireTerms) -> bool
    ensures { result ≡ has_too_many_clients plan.now terms.now }
{
    clients(plan) as u64 > terms.clients
}

/// Whether a pool has more messages than a pool may have.
fn has_large_pool(plan: &WirePlan) -> bool
    ensures { result ≡ has_large_pool plan.now }
{
    plan.ports.iter().any(|port| port.pool > MOST_SLOTS)
}

/// Whether the port has messages of another length than 1, though a message has one element.
fn is_length_unsuitable(terms: &WireTerms, port: &PlanPort) -> bool
    ensures { result
        ≡ not ((messages_of terms.now port.now.role).many || (port.now.longest == 1)) }
{
    !terms.messages(port.role).many && port.longest != 1
}

/// Whether that is so of a port.
fn has_unsuitable_length(plan: &WirePlan, terms: &WireTerms) -> bool
    ensures { result ≡ has_unsuitable_length plan.now terms.now }
{
    plan.ports
        .iter()
        .any(|port| is_length_unsuitable(terms, port))
}

/// Why no service has such ports and limits.
pub(crate) fn service_refusal(plan: &WirePlan, terms: &WireTerms) -> Option<WireNewError>
    ensures { result ≡ service_refusal plan.now terms.now }
{
    if has_limit_of_zero(plan, terms) {
        return Some(WireNewError::LimitOfZero);
    }
    if is_out_of_order(plan) {
        return Some(WireNewError::PortsOutOfOrder);
    }
    if has_too_many_clients(plan, terms) {
        return Some(WireNewError::TooManyClients);
    }
    if has_large_pool(plan) {
        return Some(WireNewError::PoolTooLarge);
    }
    if has_unsuitable_length(plan, terms) {
        return Some(WireNewError::UnsuitableLength);
    }
    None
}
