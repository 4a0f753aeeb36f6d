//! Callers of a map, proved only from its clauses.
ghost use Rattle.std.specs.Prelude.{◌≡◌, IfErr, IfOk, IsTrue, None};
ghost use Rattle.iox_wire_words.specs.Programs.{site_of};
ghost use Rattle.iox_word_map.specs.WordMaps.{MessageQueue, ReturningQueue};
ghost use Rattle.iox_word_places.specs.declared.new_error.WordMapNewError.TheVariants.{WantOfMemory};
ghost use Rattle.iox_word_places.specs.Plans.{IsPlan, IsSlotAt, IsWayAt, layout_of, way_at};
ghost use Rattle.iox_word_places.specs.Refusals.{map_refusal};

use crate::new_error::WordMapNewError;
use crate::plan::WirePlan;
use crate::way_index::WayIndex;
use crate::word_map::WordMap;
use iox_steps::Site;
use iox_word_map::MessagePart;
use std::alloc::Global;

/// A map of a wire that is not too large wants nothing but memory.
pub fn map_that_fits(alloc: Global, plan: WirePlan) -> Result<WordMap, WordMapNewError>
    requires plan { IsPlan plan }
    requires fits { map_refusal plan ≡ None }
    ensures made { IfOk result (λ map. map ≡ plan) }
    ensures refused { IfErr result (λ error. error ≡ WantOfMemory) }
{
    WordMap::new(alloc, plan)
}

/// Where the messages of a way wait, and where they return.
pub fn both_queues(map: &WordMap, way: WayIndex) -> (Site, Site)
    requires { IsWayAt map.now way }
    ensures waiting { result.0 ≡ site_of (layout_of map.now) (MessageQueue (way_at map.now way)) }
    ensures returning { result.1
        ≡ site_of (layout_of map.now) (ReturningQueue (way_at map.now way)) }
{
    (map.message_queue(way), map.returning_queue(way))
}

/// The header of a message begins its slot.
pub fn header_is_first(map: &WordMap, port: usize, slot: usize) -> bool
    requires { IsSlotAt map.now port slot }
    ensures { IsTrue result }
{
    map.part(port, slot, MessagePart::Header) == map.slot(port, slot)
}
