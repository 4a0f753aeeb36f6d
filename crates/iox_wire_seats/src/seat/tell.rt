//! The end of a call that changes nothing of the node.
ghost use Rattle.std.specs.Prelude.{◌≡◌};

use super::StoredSeat;
use crate::at::{At, SeatReply};
use iox_wire_locals::CallRefusal;

impl StoredSeat {
    ghost use Rattle.std.specs.Prelude.{◌≡◌, ◌+◌, ◌<◌, ◌^◌};
    ghost use Rattle.iox_wire_locals.specs.declared.local.Ending.TheVariants.{Refuses};
    ghost use Rattle.iox_wire_locals.specs.Courses.{ended};
    ghost use Rattle.iox_wire_locals.specs.Tables.{Setting};
    ghost use Rattle.iox_wire_seats.specs.Aims.{Answers, GoesOn, IsAimed, IsTelling, KeepsRoom};
    ghost use Rattle.iox_wire_seats.specs.Aims.{HasSameRooms, StaysAimed};

    /// Begins a call that is refused.
    pub fn refuse(&mut self, refusal: CallRefusal)
        ensures begun { self.new.seat ≡ ended self.old.seat (Refuses refusal) }
        ensures aimed { (p : Setting) → IsAimed p self.new }
        ensures room { self.new.room ≡ self.old.room }
        ensures rooms { HasSameRooms self.old self.new }
    {
        self.refusal = refusal;
        self.at = At::Refuses;
    }

    /// The call ends with its one step.
    #[inline(always)]
    pub(super) fn tell_on(&mut self, seen: u64) -> Option<SeatReply>
        requires there { IsTelling self.old.seat.local }
        requires accesses { self.old.seat.accesses + 1 < 2 ^ 64 }
        ensures next { GoesOn self.old seen self.new }
        ensures over { Answers self.old seen result self.new }
        ensures aimed { StaysAimed self.old self.new }
        ensures accesses { self.new.seat.accesses ≡ self.old.seat.accesses + 1 }
        ensures room { KeepsRoom self.old self.new }
    {
        self.accesses += 1;
        let reply = match self.at {
            At::Refuses => SeatReply::Refused(self.refusal),
            At::TellsAnswer => SeatReply::Answer(self.flag),
            At::TellsWords => SeatReply::Words,
            _ => SeatReply::Done,
        };
        self.at = At::Idle;
        Some(reply)
    }
}
