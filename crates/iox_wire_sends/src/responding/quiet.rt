//! The steps of the send of a response that are quiet.
use super::Responding;
use crate::at::RespondAt;
use iox_wire_seats::StoredSeat;

impl Responding {
    ghost use Rattle.std.specs.Prelude.{◌≡◌, ◌+◌, ◌<◌, ◌^◌, IfSome, None, length};
    ghost use Rattle.iox_steps.specs.Accesses.{IsWithin};
    ghost use Rattle.iox_wire_words.specs.Programs.{program_access};
    ghost use Rattle.iox_wire_locals.specs.Begins.{is_busy};
    ghost use Rattle.iox_wire_locals.specs.Courses.{placed};
    ghost use Rattle.iox_wire_locals.specs.Locals.{program_of};
    ghost use Rattle.iox_wire_locals.specs.Tables.{Setting};
    ghost use Rattle.iox_wire_seats.specs.Keeps.{counted};
    ghost use Rattle.iox_wire_seats.specs.QuietSteps.{StepsQuietly};
    ghost use Rattle.iox_wire_sends.specs.Aims.{IsAimed, IsSameSend};

    /// Makes its next access and continues, if that is no moment and it goes on behind it; tells
    /// what it found. `None` says that nothing changed.
    #[inline(always)]
    pub fn quiet_step(&mut self, seat: &mut StoredSeat, words: &mut Vec<u64>) -> Option<u64>
        requires accesses { seat.old.seat.accesses + 1 < 2 ^ 64 }
        requires within { (p : Setting) × IsAimed p self.old
            × IsWithin 0 (length words.old.items)
            (program_access p.layout (program_of p self.old.local)) }
        ensures quiet { (p : Setting) → IsAimed p self.old → IfSome result
            (λ seen. StepsQuietly p (placed seat.old.seat self.old.local) words.old.items seen
            (placed seat.new.seat self.new.local) words.new.items) }
        ensures seat { IfSome result (λ seen. seat.new ≡ counted seat.old) }
        ensures busy { is_busy self.new.local ≡ is_busy self.old.local }
        ensures same { IsSameSend self.old self.new }
        ensures unchanged { result ≡ None → self.new ≡ self.old }
        ensures seat_unchanged { result ≡ None → seat.new ≡ seat.old }
        ensures words_unchanged { result ≡ None → words.new ≡ words.old }
    {
        match self.at {
            RespondAt::Empties => {
                let seen = self.popper.quiet_pop(self.terms.returning, words)?;
                seat.count_access();
                Some(seen)
            }
            RespondAt::Looks => {
                let seen = self.pusher.quiet_look(self.terms.messages, words)?;
                seat.count_access();
                Some(seen)
            }
            RespondAt::Pushes => {
                let seen = self.pusher.quiet_push(self.terms.messages, words)?;
                seat.count_access();
                Some(seen)
            }
            _ => None,
        }
    }
}
