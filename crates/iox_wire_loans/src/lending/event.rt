//! The event of the next access of a loan.
use super::Lending;
use crate::at::LendAt;
use iox_model::event::Event;

impl Lending {
    ghost use Rattle.std.specs.Prelude.{◌≡◌};
    ghost use Rattle.iox_wire_locals.specs.declared.seat.Seat.{Seat};
    ghost use Rattle.iox_wire_locals.specs.Tables.{Setting};
    ghost use Rattle.iox_wire_seats.specs.SlotEvents.{slot_event};
    ghost use Rattle.iox_wire_loans.specs.Aims.{IsAimed};

    /// The event of its next access, which finds `seen`, if it is one. It names a message by its
    /// slot.
    #[inline(always)]
    pub fn event(&self, seen: u64) -> Option<Event>
        ensures { (p : Setting) → (x : Seat) → IsAimed p x self.now
            → result ≡ slot_event p self.now.local seen }
    {
        match self.at {
            LendAt::Rest | LendAt::Refuses | LendAt::Stores => None,
            LendAt::Empties => self.popper.return_event(self.way, self.site, seen),
        }
    }
}
