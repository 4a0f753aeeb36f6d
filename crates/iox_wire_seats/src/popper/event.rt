//! The event of the next access of a party that pops, with slots for serials.
use super::{PopAt, Popper, takes};
use iox_model::event::Event;
use iox_model::way::Way;
use iox_steps::Site;

impl Popper {
    ghost use Rattle.std.specs.Prelude.{◌≡◌};
    ghost use Rattle.iox_word_map.specs.WordMaps.{MessageQueue, ReturningQueue};
    ghost use Rattle.iox_word_places.specs.Programs.{Pops, WireLayout, site_of};
    ghost use Rattle.iox_wire_seats.specs.SlotEvents.{program_event};

    /// The event of its next access, which finds `seen`, if it is one. Its queue is the one where
    /// the messages of that way wait.
    #[inline(always)]
    pub fn message_event(&self, way: Way, site: Site, seen: u64) -> Option<Event>
        ensures { (p : WireLayout) → site ≡ site_of p (MessageQueue way)
            → result ≡ program_event p (Pops (MessageQueue way) self.now) seen }
    {
        match self.at {
            PopAt::Rest | PopAt::LoadsRead | PopAt::LoadsCell | PopAt::LookLoadsRead => None,
            PopAt::LoadsWrite => {
                if site.is_empty(self.position, seen) {
                    Some(Event::SeesEmpty { way })
                } else {
                    None
                }
            }
            PopAt::Takes => {
                if takes(site.kind, self.position, seen) {
                    Some(Event::Take {
                        way,
                        serial: self.value,
                    })
                } else {
                    None
                }
            }
            PopAt::LookLoadsWrite => {
                if site.is_empty(self.position, seen) {
                    Some(Event::SeesEmpty { way })
                } else {
                    Some(Event::SeesWaiting { way })
                }
            }
        }
    }

    /// The same, of the queue where they return.
    #[inline(always)]
    pub fn return_event(&self, way: Way, site: Site, seen: u64) -> Option<Event>
        ensures { (p : WireLayout) → site ≡ site_of p (ReturningQueue way)
            → result ≡ program_event p (Pops (ReturningQueue way) self.now) seen }
    {
        match self.at {
            PopAt::LoadsWrite => {
                if site.is_empty(self.position, seen) {
                    Some(Event::SeesNoneBack { way })
                } else {
                    None
                }
            }
            PopAt::Takes => {
                if takes(site.kind, self.position, seen) {
                    Some(Event::GetBack {
                        way,
                        serial: self.value,
                    })
                } else {
                    None
                }
            }
            _ => None,
        }
    }
}
