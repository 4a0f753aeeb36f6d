//! Where the next pool will be.
ghost use Rattle.std.specs.Prelude.{◌≡◌, IfSome};
ghost use Rattle.iox_slots.specs.Pools.{place_for_one};

use iox_slots::Pools;

/// The first vacant place for a pool, or the one behind the last.
pub fn vacant_place(pools: &Pools) -> Option<usize>
    ensures { IfSome result (λ place. place ≡ place_for_one pools.now) }
{
    for place in 0..usize::MAX {
        if pools.ids(place).is_none() {
            return Some(place);
        }
    }
    None
}
