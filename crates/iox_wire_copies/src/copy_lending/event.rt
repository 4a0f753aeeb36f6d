//! The event of the next access of the loan of a copy.
ghost use Rattle.std.specs.Prelude.{◌≡◌};

use super::CopyLending;
use crate::at::CopyAt;
use iox_model::event::Event;

impl CopyLending {
    ghost use Rattle.iox_wire_locals.specs.declared.seat.Seat.{Seat};
    ghost use Rattle.iox_wire_locals.specs.Tables.{Setting};
    ghost use Rattle.iox_wire_seats.specs.SlotEvents.{slot_event};
    ghost use Rattle.iox_wire_copies.specs.CopyAims.{IsAimed};

    /// The event of its next access, which finds `seen`, if it is one. It names a message by its
    /// slot.
    #[inline(always)]
    pub fn event(&self, seen: u64) -> Option<Event>
        ensures { (p : Setting) → (x : Seat) → IsAimed p x self.now
            → result ≡ slot_event p self.now.local seen }
    {
        match self.at {
            CopyAt::Rest | CopyAt::Writes => None,
            CopyAt::Lends => {
                // only what this promises is wanted
                let _storing = self.lending.is_storing();
                self.lending.event(seen)
            }
        }
    }
}
