//! Messages that are on the lanes of their slots: so no two of them are on one.
ghost use Rattle.std.specs.Prelude.{◌≡◌, ◌<◌, IfSome, None, false, length, slice_get, true};
ghost use Rattle.std.specs.Bool.{OnTrue};
ghost use Rattle.std.specs.Option.{option_map_or};
ghost use Rattle.iox_slots.specs.Lanes.{AreOnOwnLanes, is_lane_held, own_lane};
ghost use Rattle.iox_slots.specs.Slots.{rewritten, taken, with_slot_of};
ghost use Rattle.iox_tables.specs.HubLoans.Slots.{put_slot_of};
ghost use Rattle.iox_tables.specs.HubStates.Tables.{is_free};

use crate::pool::Pool;
use crate::slot::Slot;

impl Pool {
    /// Whether it is known that each message that somebody has is on its slot's own lane.
    #[inline(always)]
    pub fn has_own_lanes(&self) -> bool
        ensures { OnTrue result (AreOnOwnLanes self.now.slots) }
    {
        self.own
    }

    /// Writes another message into a slot that is there, on the lane of the one before.
    #[inline(always)]
    pub fn rewrite(&mut self, k: u64, serial: u64, request: u64, elements: u64)
        requires { k < length self.old.slots }
        ensures { self.new ≡ with_slot_of (rewritten serial request elements) self.old k }
    {
        self.slots[k as usize].rewrite(serial, request, elements);
    }

    /// One has a slot that nobody had, with that message on the slot's own lane, on which nobody
    /// had a message. It is `None` where somebody has each slot, and where it is not known that
    /// all messages are on their slots' own lanes.
    #[inline(always)]
    pub fn take_own(&mut self, serial: u64, request: u64, elements: u64) -> Option<u64>
        ensures unheld { IfSome result (λ k.
            is_lane_held self.old.slots (own_lane self.old.slots k) ≡ false) }
        ensures taken { IfSome result (λ k.
            (option_map_or is_free (slice_get self.old.slots k) false ≡ true)
            × (self.new ≡ put_slot_of k
            (taken serial (own_lane self.old.slots k) request elements) self.old)) }
        ensures unchanged { result ≡ None → self.new ≡ self.old }
    {
        if !self.own {
            return None;
        }
        match self.free.pop() {
            Some(k) => {
                let place = k as usize;
                let lane = (self.slots.len() - 1 - place) as u64;
                self.slots[place] = Slot::taken(serial, lane, request, elements);
                Some(k)
            }
            None => None,
        }
    }
}
