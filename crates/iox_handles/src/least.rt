//! The least number of a node's handles.
ghost use Rattle.std.specs.Prelude.{◌≡◌};
ghost use Rattle.iox_handles.specs.Least.{lesser};
ghost use Rattle.iox_handles.specs.Places.{handles_there, least_in, number_for};

use crate::entry::Entry;
use crate::vacant::handle_in;

/// The lesser of two numbers, or the one that there is.
#[inline]
pub fn lesser(first: Option<u64>, second: Option<u64>) -> Option<u64>
    ensures { result ≡ lesser first second }
{
    match (first, second) {
        (Some(a), Some(b)) => Some(a.min(b)),
        (Some(a), None) => Some(a),
        (None, other) => other,
    }
}

/// The number of the handle that is there, if it is of that node.
#[inline]
pub fn number_for(place: Option<Entry>, node: u64) -> Option<u64>
    ensures { result ≡ number_for node place }
{
    match place {
        Some(entry) if entry.node == node => Some(entry.number),
        _ => None,
    }
}

/// The least number of the node's handles.
pub fn least_in(places: &[Entry], node: u64) -> Option<u64>
    ensures { result ≡ least_in node (handles_there places.now) }
{
    let mut least = None;
    for place in places {
        least = lesser(least, number_for(handle_in(*place), node));
    }
    least
}
