//! The steps of the loan of a copy that are quiet.
use super::CopyLending;
use crate::at::CopyAt;
use iox_wire_seats::StoredSeat;

impl CopyLending {
    ghost use Rattle.std.specs.Prelude.{◌≡◌, ◌+◌, ◌<◌, ◌^◌, IfSome, None, length};
    ghost use Rattle.iox_steps.specs.Accesses.{IsWithin};
    ghost use Rattle.iox_wire_words.specs.Programs.{program_access};
    ghost use Rattle.iox_wire_locals.specs.Begins.{is_busy};
    ghost use Rattle.iox_wire_locals.specs.Courses.{placed};
    ghost use Rattle.iox_wire_locals.specs.Locals.{program_of};
    ghost use Rattle.iox_wire_locals.specs.Tables.{Setting};
    ghost use Rattle.iox_wire_seats.specs.Keeps.{counted};
    ghost use Rattle.iox_wire_seats.specs.QuietSteps.{StepsQuietly};
    ghost use Rattle.iox_wire_copies.specs.CopyAims.{IsAimed, IsSameCopy, StaysAimed};

    /// Makes its next access and continues, if that is no moment and it goes on behind it; tells
    /// what it found. `None` says that nothing changed.
    #[inline(always)]
    pub fn quiet_step(&mut self, seat: &mut StoredSeat, words: &mut Vec<u64>) -> Option<u64>
        requires accesses { seat.old.seat.accesses + 1 < 2 ^ 64 }
        requires within { (p : Setting) × IsAimed p seat.old.seat self.old
            × IsWithin 0 (length words.old.items)
            (program_access p.layout (program_of p self.old.local)) }
        ensures quiet { (p : Setting) → IsAimed p seat.old.seat self.old → IfSome result
            (λ seen. StepsQuietly p (placed seat.old.seat self.old.local) words.old.items seen
            (placed seat.new.seat self.new.local) words.new.items) }
        ensures aimed { StaysAimed seat.old self.old seat.new self.new }
        ensures seat { IfSome result (λ seen. seat.new ≡ counted seat.old) }
        ensures busy { is_busy self.new.local ≡ is_busy self.old.local }
        ensures same { IsSameCopy self.old self.new }
        ensures unchanged { result ≡ None → self.new ≡ self.old }
        ensures seat_unchanged { result ≡ None → seat.new ≡ seat.old }
        ensures words_unchanged { result ≡ None → words.new ≡ words.old }
    {
        match self.at {
            CopyAt::Rest | CopyAt::Writes => None,
            CopyAt::Lends => {
                if self.lending.is_storing() {
                    let seen = self.lending.quiet_store(words)?;
                    seat.count_access();
                    return Some(seen);
                }
                let seen = self.lending.quiet_step(seat, words)?;
                Some(seen)
            }
        }
    }
}
