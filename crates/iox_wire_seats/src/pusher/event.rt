//! The event of the next access of a party that pushes, with slots for serials.
use super::{PushAt, Pusher};
use iox_model::event::Event;
use iox_model::way::Way;
use iox_steps::Site;

impl Pusher {
    ghost use Rattle.std.specs.Prelude.{◌≡◌};
    ghost use Rattle.iox_word_map.specs.WordMaps.{MessageQueue, ReturningQueue};
    ghost use Rattle.iox_word_places.specs.Programs.{Pushes, WireLayout, site_of};
    ghost use Rattle.iox_wire_seats.specs.SlotEvents.{program_event};

    /// The event of its next access, which finds `seen`, if it is one. Its queue is the one where
    /// the messages of that way wait.
    #[inline(always)]
    pub fn message_event(&self, way: Way, site: Site, seen: u64) -> Option<Event>
        ensures { (p : WireLayout) → site ≡ site_of p (MessageQueue way)
            → result ≡ program_event p (Pushes (MessageQueue way) self.now) seen }
    {
        match self.at {
            PushAt::Rest | PushAt::LoadsWrite | PushAt::LoadsRead | PushAt::StoresCell => None,
            PushAt::StoresWrite => Some(Event::Deliver {
                way,
                serial: self.value,
            }),
            PushAt::Evicts => {
                if seen == self.read {
                    Some(Event::Evict { way })
                } else {
                    None
                }
            }
            PushAt::TakesOld => Some(Event::GetBack { way, serial: seen }),
            PushAt::LookLoadsWrite => None,
            PushAt::LookLoadsRead => {
                if site.is_full(seen, self.position) {
                    Some(Event::SeesFull { way })
                } else {
                    Some(Event::SeesRoom { way })
                }
            }
        }
    }

    /// The same, of the queue where they return.
    #[inline(always)]
    pub fn return_event(&self, way: Way, site: Site, seen: u64) -> Option<Event>
        ensures { (p : WireLayout) → site ≡ site_of p (ReturningQueue way)
            → result ≡ program_event p (Pushes (ReturningQueue way) self.now) seen }
    {
        match self.at {
            PushAt::StoresWrite => Some(Event::GiveBack {
                way,
                serial: self.value,
            }),
            _ => None,
        }
    }
}
