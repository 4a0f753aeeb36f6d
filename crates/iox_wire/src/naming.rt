//! Whether the nodes and the ports of a wire are named well.
ghost use Rattle.std.specs.Prelude.{◌≡◌};
ghost use Rattle.iox_model.specs.Maps.{has_number};
ghost use Rattle.iox_wire.specs.NewRefusals.{has_late_port, has_lost_port, has_twice};
ghost use Rattle.iox_wire.specs.NewRefusals.{naming_refusal};

use crate::new_error::WireNewError;
use iox_wire_weaves::{WirePlan, WireTerms};

/// Whether the number is in the list.
fn is_listed(numbers: &[u64], number: u64) -> bool
    ensures { result ≡ has_number number numbers.now }
{
    numbers.contains(&number)
}

/// Whether a number is in the list twice.
fn has_twice(numbers: &[u64]) -> bool
    ensures { result ≡ has_twice numbers.now }
{
    let mut rest = numbers;
    while let Some((first, later)) = rest.split_first() {
        if is_listed(later, *first) {
            return true;
        }
        rest = later;
    }
    false
}

/// Whether a port is of none of the nodes.
fn has_lost_port(plan: &WirePlan, nodes: &[u64]) -> bool
    ensures { result ≡ has_lost_port plan.now nodes.now }
{
    plan.ports.iter().any(|port| !is_listed(nodes, port.node))
}

/// Whether a port has that number, or a later one.
fn has_late_port(plan: &WirePlan, first: u64) -> bool
    ensures { result ≡ has_late_port plan.now first }
{
    plan.ports.iter().any(|port| port.number >= first)
}

/// Why nodes and ports are not named well: a node is listed twice, a port is of none of the nodes,
/// or a port has the number of a handle. The first that applies is told.
pub(crate) fn naming_refusal(
    plan: &WirePlan,
    terms: &WireTerms,
    nodes: &[u64],
) -> Option<WireNewError>
    ensures { result ≡ naming_refusal plan.now terms.now nodes.now }
{
    if has_twice(nodes) {
        return Some(WireNewError::DuplicateNode);
    }
    if has_lost_port(plan, nodes) {
        return Some(WireNewError::UnknownNode);
    }
    if has_late_port(plan, terms.first_number) {
        return Some(WireNewError::NumberTaken);
    }
    None
}
