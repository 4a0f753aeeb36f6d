//! The event of the next access of a receive.
ghost use Rattle.std.specs.Prelude.{◌≡◌};
ghost use Rattle.iox_model.specs.Messages.{response_way};

use super::Receiving;
use crate::at::ReceiveAt;
use iox_model::event::Event;
use iox_model::kind::Role;
use iox_model::way::Way;
use iox_wire_seats::look_event;

impl Receiving {
    ghost use Rattle.std.specs.Prelude.{◌≡◌};
    ghost use Rattle.iox_wire_locals.specs.declared.seat.Seat.{Seat};
    ghost use Rattle.iox_wire_locals.specs.Tables.{Setting};
    ghost use Rattle.iox_wire_seats.specs.SlotEvents.{slot_event};
    ghost use Rattle.iox_wire_receives.specs.Aims.{IsAimed};

    /// The event of its next access, which finds `seen`, if it is one. It names a message by its
    /// slot.
    #[inline(always)]
    pub fn event(&self, seen: u64) -> Option<Event>
        ensures { (p : Setting) → (x : Seat) → IsAimed p x self.now
            → result ≡ slot_event p self.now.local seen }
    {
        let way = self.source.way;
        match self.at {
            ReceiveAt::Rest | ReceiveAt::TellsNothing | ReceiveAt::Loads => None,
            ReceiveAt::Looks | ReceiveAt::Pops => self.popper.message_event(way, self.site, seen),
            ReceiveAt::Asks => match self.visit.role {
                Role::Client => look_event(state_on(way, way.lane), seen),
                Role::Server => look_event(state_on(way, self.header[4]), seen),
            },
            ReceiveAt::Returns => self.pusher.return_event(way, self.site, seen),
        }
    }
}

/// The way whose request state is that of a request, which came on this way and has that lane.
#[inline(always)]
fn state_on(way: Way, lane: u64) -> Way
    ensures { result ≡ response_way way.sender lane way.receiver }
{
    Way {
        sender: way.receiver,
        receiver: way.sender,
        lane,
    }
}
