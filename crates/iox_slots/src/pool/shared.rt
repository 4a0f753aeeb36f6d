//! Whether several have a slot.
ghost use Rattle.std.specs.Prelude.{◌≡◌, ◌<◌, length, nat_lt};
ghost use Rattle.iox_slots.specs.Slots.{slot_in};

use crate::pool::Pool;

impl Pool {
    /// Whether more than one has a slot that is there.
    #[inline(always)]
    pub fn is_shared(&self, k: u64) -> bool
        requires { k < length self.now.slots }
        ensures { result ≡ nat_lt 1 (slot_in self.now.slots k).holders }
    {
        1 < self.slots[k as usize].holders()
    }
}
