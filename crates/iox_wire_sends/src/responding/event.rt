//! The event of the next access of the send of a response.
use super::Responding;
use crate::at::RespondAt;
use iox_model::event::Event;
use iox_wire_seats::look_event;

impl Responding {
    ghost use Rattle.std.specs.Prelude.{◌≡◌};
    ghost use Rattle.iox_wire_locals.specs.Tables.{Setting};
    ghost use Rattle.iox_wire_seats.specs.SlotEvents.{slot_event};
    ghost use Rattle.iox_wire_sends.specs.Aims.{IsAimed};

    /// The event of its next access, which finds `seen`, if it is one. It names a message by its
    /// slot.
    #[inline(always)]
    pub fn event(&self, seen: u64) -> Option<Event>
        ensures { (p : Setting) → IsAimed p self.now
            → result ≡ slot_event p self.now.local seen }
    {
        let way = self.way();
        match self.at {
            RespondAt::Rest | RespondAt::Tells => None,
            RespondAt::Asks => look_event(way, seen),
            RespondAt::Empties => self.popper.return_event(way, self.terms.returning, seen),
            RespondAt::Looks | RespondAt::Pushes | RespondAt::Evicts | RespondAt::GetsBack => {
                self.pusher.message_event(way, self.terms.messages, seen)
            }
        }
    }
}
