//! A look for a message that waits.
ghost use Rattle.std.specs.Prelude.{◌≡◌};

use super::StoredSeat;
use crate::at::{At, SeatReply};
use crate::stops::Stop;
use iox_steps::{QueueEvent, Site};

impl StoredSeat {
    ghost use Rattle.std.specs.Prelude.{◌≡◌, ◌+◌, ◌<◌, ◌≤◌, ◌^◌, length};
    ghost use Rattle.iox_wire_locals.specs.Tables.{Setting};
    ghost use Rattle.iox_wire_locals.specs.ReceiveCourses.{seeking};
    ghost use Rattle.iox_wire_seats.specs.Aims.{Answers, AreQueues, GoesOn, IsAimed};
    ghost use Rattle.iox_wire_seats.specs.Aims.{HasSameRooms, IsSeeking, KeepsRoom, QueuesInMemory, StaysAimed};
    ghost use Rattle.iox_wire_seats.specs.Seats.{ways_of};

    /// Begins to look for a message that waits on these ways, in queues like that one.
    pub fn seek(&mut self, queue: Site, stops: &[Stop])
        requires fits { length stops.now ≤ self.old.ways_room }
        requires within { QueuesInMemory queue.kind queue.capacity stops.now }
        ensures begun { self.new.seat ≡ seeking self.old.seat (ways_of stops.now) }
        ensures aimed { (p : Setting) → AreQueues p queue.kind queue.capacity stops.now
            → IsAimed p self.new }
        ensures accesses { self.new.seat.accesses ≡ self.old.seat.accesses }
        ensures room { self.new.room ≡ self.old.room }
        ensures rooms { HasSameRooms self.old self.new }
    {
        self.left.fill(stops);
        match self.left.next() {
            Some(stop) => {
                self.way = stop.way;
                self.site = Site {
                    base: stop.place,
                    ..queue
                };
                self.popper.look();
                self.at = At::Seeks;
            }
            None => {
                self.flag = false;
                self.at = At::TellsAnswer;
            }
        }
    }

    /// An access of a look at emptiness.
    #[inline(always)]
    pub(super) fn seek_on(&mut self, seen: u64) -> Option<SeatReply>
        requires there { IsSeeking self.old.seat.local }
        requires accesses { self.old.seat.accesses + 1 < 2 ^ 64 }
        ensures next { GoesOn self.old seen self.new }
        ensures over { Answers self.old seen result self.new }
        ensures aimed { StaysAimed self.old self.new }
        ensures accesses { self.new.seat.accesses ≡ self.old.seat.accesses + 1 }
        ensures room { KeepsRoom self.old self.new }
    {
        self.accesses += 1;
        match self.popper.advance(self.site, seen) {
            QueueEvent::SeesWaiting => {
                self.at = At::Idle;
                return Some(SeatReply::Answer(true));
            }
            QueueEvent::SeesEmpty => {}
            _ => return None,
        }
        match self.left.next() {
            Some(stop) => {
                self.way = stop.way;
                self.site.base = stop.place;
                self.popper.look();
                None
            }
            None => {
                self.at = At::Idle;
                Some(SeatReply::Answer(false))
            }
        }
    }
}
