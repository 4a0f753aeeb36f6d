//! Messages that are on the lanes of their slots, in a pool that is there.
ghost use Rattle.std.specs.Prelude.{◌≡◌, IfSome, None, false, is_some, true};
ghost use Rattle.std.specs.Bool.{OnTrue};
ghost use Rattle.iox_tables.specs.HubStates.Tables.{pool_at, slots_of};
ghost use Rattle.iox_tables.specs.HubLoans.Slots.{put_slot_of};
ghost use Rattle.iox_slots.specs.FreeLists.{has_free_slot};
ghost use Rattle.iox_slots.specs.Lanes.{AreOnOwnLanes, is_lane_held, own_lane};
ghost use Rattle.iox_slots.specs.Pools.{Takes, has_slot, with_pool, with_slot};
ghost use Rattle.iox_slots.specs.Slots.{rewritten, taken};

use crate::pools::Pools;

impl Pools {
    /// Whether it is known that each message of the pool that somebody has is on its slot's own
    /// lane. So no two of them are on one lane.
    #[inline(always)]
    pub fn has_own_lanes(&self, place: usize) -> bool
        requires { is_some (pool_at self.now place) ≡ true }
        ensures { OnTrue result (AreOnOwnLanes (slots_of self.now place)) }
    {
        self.places[place].has_own_lanes()
    }

    /// Writes another message into a slot that is there, on the lane of the one before. Who has the
    /// slot still has it.
    #[inline(always)]
    pub fn rewrite(&mut self, place: usize, slot: u64, serial: u64, request: u64, elements: u64)
        requires { has_slot self.old place slot ≡ true }
        ensures { self.new
            ≡ with_slot (rewritten serial request elements) self.old place slot }
    {
        self.places[place].rewrite(slot, serial, request, elements);
    }

    #[inline(always)]
    fn take_own_there(
        &mut self,
        place: usize,
        serial: u64,
        request: u64,
        elements: u64,
    ) -> Option<u64>
        requires { is_some (pool_at self.old place) ≡ true }
        ensures unheld { IfSome result (λ k. is_lane_held (slots_of self.old place)
            (own_lane (slots_of self.old place) k) ≡ false) }
        ensures free { IfSome result (λ k. has_free_slot self.old place k ≡ true) }
        ensures taken { IfSome result (λ k. self.new ≡ with_pool (put_slot_of k
            (taken serial (own_lane (slots_of self.old place) k) request elements))
            self.old place) }
        ensures unchanged { result ≡ None → self.new ≡ self.old }
    {
        self.places[place].take_own(serial, request, elements)
    }

    /// One has a slot of the pool that nobody had, with that message on the slot's own lane, on
    /// which nobody had a message. It is `None` where somebody has each slot, and where it is not
    /// known that all messages are on their slots' own lanes: then nothing changes.
    #[inline(always)]
    pub fn take_own(
        &mut self,
        place: usize,
        serial: u64,
        request: u64,
        elements: u64,
    ) -> Option<u64>
        requires { is_some (pool_at self.old place) ≡ true }
        ensures unheld { IfSome result (λ k. is_lane_held (slots_of self.old place)
            (own_lane (slots_of self.old place) k) ≡ false) }
        ensures taken { IfSome result (λ k. Takes self.old place k
            (taken serial (own_lane (slots_of self.old place) k) request elements) self.new) }
        ensures unchanged { result ≡ None → self.new ≡ self.old }
    {
        match self.take_own_there(place, serial, request, elements) {
            Some(slot) => Some(slot),
            None => None,
        }
    }
}
