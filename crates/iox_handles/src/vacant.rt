//! What stands in a vacant place: the number of no handle.
ghost use Rattle.std.specs.Prelude.{◌≡◌};
ghost use Rattle.iox_handles.specs.Places.{handle_in};

use crate::entry::Entry;

/// The number of no handle: a place where it stands is vacant.
pub const NOBODY: u64 = u64::MAX;

/// The handle that stands in a place, if the place is not vacant.
#[inline(always)]
pub fn handle_in(place: Entry) -> Option<Entry>
    ensures { result ≡ handle_in place }
{
    if place.number == NOBODY {
        return None;
    }
    Some(place)
}

/// Writes a handle into a place, part by part.
#[inline(always)]
pub fn write(place: &mut Entry, entry: Entry)
    ensures { place.new ≡ entry }
{
    place.node = entry.node;
    place.number = entry.number;
    place.kind = entry.kind;
    place.at = entry.at;
    place.port = entry.port;
    place.pool = entry.pool;
    place.slot = entry.slot;
    place.client = entry.client;
    place.connections = entry.connections;
}
