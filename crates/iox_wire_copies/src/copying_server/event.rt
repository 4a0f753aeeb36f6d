//! The event of the next access of a server that copies a response.
ghost use Rattle.std.specs.Prelude.{◌≡◌};

use super::CopyingServer;
use crate::at::CopierAt;
use iox_model::event::Event;

impl CopyingServer {
    ghost use Rattle.iox_wire_locals.specs.declared.seat.Seat.{Seat};
    ghost use Rattle.iox_wire_locals.specs.Tables.{Setting};
    ghost use Rattle.iox_wire_seats.specs.SlotEvents.{slot_event};
    ghost use Rattle.iox_wire_copies.specs.ResponseCopies.{IsAimed};

    /// The event of its next access, which finds `seen`, if it is one. It names a message by its
    /// slot.
    #[inline(always)]
    pub fn event(&self, seen: u64) -> Option<Event>
        ensures { (p : Setting) → (x : Seat) → IsAimed p x self.now
            → result ≡ slot_event p self.now.local seen }
    {
        match self.at {
            CopierAt::Rest | CopierAt::Refuses => None,
            CopierAt::Lends => self.lends.event(seen),
            CopierAt::Sends => self.sends.event(seen),
        }
    }
}
