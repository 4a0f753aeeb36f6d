//! The event of the next access of the send of a request.
use super::Requesting;
use crate::at::RequestAt;
use iox_model::event::Event;
use iox_model::way::Way;

impl Requesting {
    ghost use Rattle.std.specs.Prelude.{◌≡◌};
    ghost use Rattle.iox_model.specs.Messages.{response_way};
    ghost use Rattle.iox_wire_locals.specs.declared.seat.Seat.{Seat};
    ghost use Rattle.iox_wire_locals.specs.Tables.{Setting};
    ghost use Rattle.iox_wire_seats.specs.SlotEvents.{slot_event};
    ghost use Rattle.iox_wire_request_sends.specs.Aims.{IsAimed};

    /// The event of its next access, which finds `seen`, if it is one. It names a message by its
    /// slot.
    #[inline(always)]
    pub fn event(&self, seen: u64) -> Option<Event>
        ensures { (p : Setting) → (x : Seat) → IsAimed p x self.now
            → result ≡ slot_event p self.now.local seen }
    {
        let way = self.way();
        match self.at {
            RequestAt::Rest | RequestAt::Refuses | RequestAt::TellsNobody => None,
            RequestAt::Empties => self.popper.return_event(way, self.site, seen),
            RequestAt::Opens => Some(Event::Open {
                way: self.state_way(),
                id: self.loan.request,
            }),
            RequestAt::Looks | RequestAt::Pushes | RequestAt::Evicts | RequestAt::GetsBack => {
                self.pusher.message_event(way, self.site, seen)
            }
        }
    }

    /// The way on which the request state lies at the server that it visits.
    #[inline(always)]
    fn state_way(&self) -> Way
        ensures { result
            ≡ response_way self.now.loan.port self.now.loan.lane self.now.target.server }
    {
        Way {
            sender: self.target.server,
            receiver: self.loan.port,
            lane: self.loan.lane,
        }
    }
}
