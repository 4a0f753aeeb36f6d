//! The event of the next access of a node's own call.
ghost use Rattle.std.specs.Prelude.{◌≡◌, option_map};
ghost use Rattle.iox_model.specs.declared.event.Event.TheVariants as events;
ghost use Rattle.iox_model.specs.Moments.{event_of};
ghost use Rattle.iox_wire_locals.specs.StateMoments.{hinting_moment, leaving_moment, looked};
ghost use Rattle.iox_wire_locals.specs.Locals.{state_told as told};
ghost use Rattle.iox_wire_locals.specs.Tables.{state_in as state_of};

use super::StoredSeat;
use super::ask::is_shown;
use super::release::{is_named, way_in};
use crate::at::At;
use iox_model::event::Event;
use iox_model::way::{RequestState, Way};
use iox_wire_locals::Entry;

impl StoredSeat {
    ghost use Rattle.std.specs.Prelude.{◌≡◌};
    ghost use Rattle.iox_wire_locals.specs.Tables.{Setting};
    ghost use Rattle.iox_wire_seats.specs.Aims.{IsAimed};
    ghost use Rattle.iox_wire_seats.specs.SlotEvents.{slot_event};

    /// The event of its next access, which finds `seen`, if it is one. It names a message by its
    /// slot.
    #[inline(always)]
    pub fn event(&self, seen: u64) -> Option<Event>
        ensures { (p : Setting) → IsAimed p self.now
            → result ≡ slot_event p self.now.seat.local seen }
    {
        let id = self.entry.request;
        match self.at {
            At::Idle | At::Drops | At::DropsOwn | At::Fills | At::Refuses => None,
            At::TellsDone | At::TellsAnswer | At::TellsWords | At::Reads | At::Writes => None,
            At::ReleaseReturns => {
                let way = way_in(self.entry);
                self.pusher.return_event(way, self.site, seen)
            }
            At::ReleaseCloses => Some(Event::Close { way: self.way, id }),
            At::ReleaseLooks => leaving_event(self.entry, seen),
            At::ReleaseExchanges => {
                if seen == self.seen {
                    Some(closing(self.entry))
                } else {
                    leaving_event(self.entry, seen)
                }
            }
            At::Checks => look_event(self.way, seen),
            At::Hints => hinting_event(self.entry, self.way, seen),
            At::HintExchanges => {
                if seen == id + 1 {
                    Some(Event::Hint { way: self.way, id })
                } else {
                    look_event(self.way, seen)
                }
            }
            At::Seeks => self.popper.message_event(self.way, self.site, seen),
        }
    }
}

/// The event of a load of the request state on a way, which finds that word.
#[inline(always)]
pub fn look_event(way: Way, word: u64) -> Option<Event>
    ensures { result ≡ option_map event_of (looked way word) }
{
    Some(Event::Look {
        way,
        shown: state_told(word),
    })
}

/// The event as the release of an entry finds that word as its request state: it is named still, or
/// closed now.
#[inline(always)]
fn leaving_event(entry: Entry, word: u64) -> Option<Event>
    ensures { result ≡ option_map event_of (leaving_moment entry word) }
{
    if is_named(word, entry.request) {
        look_event(state_in(entry), word)
    } else {
        Some(closing(entry))
    }
}

/// The event as a hint to an entry's request finds that word, unless the request is named without
/// one.
#[inline(always)]
fn hinting_event(entry: Entry, way: Way, word: u64) -> Option<Event>
    ensures { result ≡ option_map event_of (hinting_moment entry way word) }
{
    let id = entry.request;
    if is_shown(word, id, false) && !is_shown(word, id, true) {
        None
    } else {
        look_event(way, word)
    }
}

/// An entry's own request state is closed.
#[inline(always)]
fn closing(entry: Entry) -> Event
    ensures { result ≡ events.Close (state_of entry) entry.request }
{
    Event::Close {
        way: state_in(entry),
        id: entry.request,
    }
}

/// The way whose request state is an entry's own.
#[inline(always)]
fn state_in(entry: Entry) -> Way
    ensures { result ≡ state_of entry }
{
    Way {
        sender: entry.port,
        receiver: entry.client,
        lane: entry.lane,
    }
}

/// The request state that a word tells.
#[inline(always)]
fn state_told(word: u64) -> RequestState
    ensures { result ≡ told word }
{
    let hinted = (1 << 63) + 1;
    if word == 0 {
        RequestState::Closed
    } else if word >= hinted {
        RequestState::Named {
            id: word - hinted,
            hinted: true,
        }
    } else {
        RequestState::Named {
            id: word - 1,
            hinted: false,
        }
    }
}
