//! Whether several have a slot.
ghost use Rattle.std.specs.Prelude.{◌≡◌, ◌<◌, length, nat_lt};
ghost use Rattle.iox_slots.specs.Places.{slots_in};
ghost use Rattle.iox_slots.specs.Slots.{slot_in};

use crate::place::Place;

impl Place {
    /// Whether more than one has a slot that is there.
    #[inline(always)]
    pub fn is_shared(&self, k: u64) -> bool
        requires { k < length (slots_in self.now) }
        ensures { result ≡ nat_lt 1 (slot_in (slots_in self.now) k).holders }
    {
        self.pool.is_shared(k)
    }
}
