//! The steps of a client that copies a request that are quiet.
use super::CopyingClient;
use crate::at::CopierAt;
use iox_wire_seats::StoredSeat;

impl CopyingClient {
    ghost use Rattle.std.specs.Prelude.{◌≡◌, ◌+◌, ◌<◌, ◌^◌, IfSome, None, length};
    ghost use Rattle.iox_steps.specs.Accesses.{IsWithin};
    ghost use Rattle.iox_wire_words.specs.Programs.{program_access};
    ghost use Rattle.iox_wire_locals.specs.Courses.{placed};
    ghost use Rattle.iox_wire_locals.specs.Locals.{program_of};
    ghost use Rattle.iox_wire_locals.specs.Tables.{Setting};
    ghost use Rattle.iox_wire_seats.specs.Keeps.{counted};
    ghost use Rattle.iox_wire_seats.specs.QuietSteps.{StepsQuietly};
    ghost use Rattle.iox_wire_copies.specs.CopyCalls.{IsAimed, IsSameCall, StaysAimed};

    /// Makes its next access and continues, if that is no moment and it goes on behind it; tells
    /// what it found. `None` says that nothing changed.
    #[inline(always)]
    pub fn quiet_step(&mut self, seat: &mut StoredSeat, words: &mut Vec<u64>) -> Option<u64>
        requires accesses { seat.old.seat.accesses + 1 < 2 ^ 64 }
        requires within { (p : Setting) × IsAimed p seat.old.seat self.old
            × IsWithin 0 (length words.old.items)
            (program_access p.layout (program_of p self.old.local)) }
        ensures quiet { (p : Setting) → IsAimed p seat.old.seat self.old → IfSome result
            (λ seen. StepsQuietly p (placed seat.old.seat self.old.local) words.old.items seen
            (placed seat.new.seat self.new.local) words.new.items) }
        ensures aimed { StaysAimed seat.old self.old seat.new self.new }
        ensures seat { IfSome result (λ seen. seat.new ≡ counted seat.old) }
        ensures same { IsSameCall self.old self.new }
        ensures at { self.new.at ≡ self.old.at }
        ensures loan { self.new.sends.loan ≡ self.old.sends.loan }
        ensures unchanged { result ≡ None → self.new ≡ self.old }
        ensures seat_unchanged { result ≡ None → seat.new ≡ seat.old }
        ensures words_unchanged { result ≡ None → words.new ≡ words.old }
    {
        match self.at {
            CopierAt::Rest | CopierAt::Refuses => None,
            CopierAt::Lends => {
                let seen = self.lends.quiet_step(seat, words)?;
                // only what this promises is wanted
                self.lends.place();
                Some(seen)
            }
            CopierAt::Sends => {
                let seen = self.sends.quiet_step(seat, words)?;
                Some(seen)
            }
        }
    }
}
