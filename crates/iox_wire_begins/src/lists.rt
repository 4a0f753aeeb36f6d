//! What a node lists as it begins a call.
ghost use Rattle.std.specs.Prelude.{◌≡◌};

use iox_wire_handle_calls::{Source, Stop, Target, WordMap};
use std::alloc::{AllocError, Global};

/// The ways that a node lists as it begins a call. They are of no use later. Only `new` takes
/// memory.
#[derive(Drop)]
pub struct Lists {
    /// The ways that a receive is to visit.
    pub sources: Vec<Source>,
    /// The ways that a loan, a release, a question or a hint is to visit.
    pub stops: Vec<Stop>,
    /// The servers to which a request is to go.
    pub targets: Vec<Target>,
}

impl Lists {
    ghost use Rattle.std.specs.Prelude.{◌≡◌, IfOk};
    ghost use Rattle.iox_wire_begins.specs.ListRooms.{ListsHaveRoom};

    /// Lists with room for all that a begin lists on such a wire.
    pub fn new(alloc: Global, map: &WordMap) -> Result<Lists, AllocError>
        ensures { IfOk result (ListsHaveRoom map.now) }
    {
        let Some(ways) = map.most_ways() else {
            return Err(AllocError);
        };
        Ok(Lists {
            sources: Vec::with_capacity(alloc, ways)?,
            stops: Vec::with_capacity(alloc, ways)?,
            targets: Vec::with_capacity(alloc, ways)?,
        })
    }
}
