//! Messages that are on the lanes of their slots.
ghost use Rattle.std.specs.Prelude.{◌≡◌, ◌<◌, IfSome, None, false, length, option_map, slice_get, true};
ghost use Rattle.std.specs.Bool.{OnTrue};
ghost use Rattle.std.specs.Option.{option_map_or};
ghost use Rattle.iox_slots.specs.Lanes.{AreOnOwnLanes, is_lane_held, own_lane};
ghost use Rattle.iox_slots.specs.Places.{slots_in};
ghost use Rattle.iox_slots.specs.Slots.{rewritten, taken, with_slot_of};
ghost use Rattle.iox_tables.specs.HubLoans.Slots.{put_slot_of};
ghost use Rattle.iox_tables.specs.HubStates.Tables.{is_free};

use crate::place::Place;

impl Place {
    /// Whether it is known that each message that somebody has is on its slot's own lane.
    #[inline(always)]
    pub fn has_own_lanes(&self) -> bool
        ensures { OnTrue result (AreOnOwnLanes (slots_in self.now)) }
    {
        self.pool.has_own_lanes()
    }

    /// Writes another message into a slot that is there, on the lane of the one before.
    #[inline(always)]
    pub fn rewrite(&mut self, k: u64, serial: u64, request: u64, elements: u64)
        requires { k < length (slots_in self.old) }
        ensures { self.new
            ≡ option_map (λ p. with_slot_of (rewritten serial request elements) p k) self.old }
    {
        self.pool.rewrite(k, serial, request, elements);
    }

    /// One has a slot that nobody had, with that message on the slot's own lane, on which nobody
    /// had a message. It is `None` where somebody has each slot, and where it is not known that
    /// all messages are on their slots' own lanes.
    #[inline(always)]
    pub fn take_own(&mut self, serial: u64, request: u64, elements: u64) -> Option<u64>
        ensures unheld { IfSome result (λ k.
            is_lane_held (slots_in self.old) (own_lane (slots_in self.old) k) ≡ false) }
        ensures free { IfSome result (λ k.
            option_map_or is_free (slice_get (slots_in self.old) k) false ≡ true) }
        ensures taken { IfSome result (λ k. self.new ≡ option_map (λ p.
            put_slot_of k (taken serial (own_lane (slots_in self.old) k) request elements) p)
            self.old) }
        ensures unchanged { result ≡ None → self.new ≡ self.old }
    {
        match self.pool.take_own(serial, request, elements) {
            Some(k) => Some(k),
            None => None,
        }
    }
}
