//! Whether several have a slot.
ghost use Rattle.std.specs.Prelude.{◌≡◌, nat_lt, true};
ghost use Rattle.iox_tables.specs.HubStates.Tables.{slot_at};
ghost use Rattle.iox_slots.specs.Pools.{has_slot};

use crate::pools::Pools;

impl Pools {
    /// Whether more than one has a slot that is there.
    #[inline(always)]
    pub fn is_shared(&self, place: usize, slot: u64) -> bool
        requires { has_slot self.now place slot ≡ true }
        ensures { result ≡ nat_lt 1 (slot_at self.now place slot).holders }
    {
        self.places[place].is_shared(slot)
    }
}
