//! A caller of the test of a plan, proved only from its clause.
ghost use Rattle.std.specs.Prelude.{◌≡◌, IfSome};
ghost use Rattle.iox_word_places.specs.Plans.{IsPlan};

use crate::checks::is_plan;
use iox_word_places::{WirePlan, WordMap};
use std::alloc::Global;

/// A map of the plan, if it makes sense and a map can be made.
pub fn map_if_it_makes_sense(alloc: Global, plan: WirePlan) -> Option<WordMap>
    ensures made { IfSome result (λ map. map ≡ plan) }
    ensures sensible { IfSome result (λ _. IsPlan plan) }
{
    if !is_plan(&plan) {
        return None;
    }
    WordMap::new(alloc, plan).ok()
}
