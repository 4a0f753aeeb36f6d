//! The steps of a loan that are quiet.
use super::Lending;
use crate::at::LendAt;
use iox_steps::Access;
use iox_wire_seats::StoredSeat;

impl Lending {
    ghost use Rattle.std.specs.Prelude.{◌≡◌, ◌+◌, ◌<◌, ◌^◌, IfSome, None, length};
    ghost use Rattle.iox_steps.specs.Accesses.{IsWithin, seen_at, words_after};
    ghost use Rattle.iox_wire_words.specs.Programs.{program_access};
    ghost use Rattle.iox_wire_locals.specs.Begins.{is_busy};
    ghost use Rattle.iox_wire_locals.specs.Courses.{placed};
    ghost use Rattle.iox_wire_locals.specs.Locals.{program_of};
    ghost use Rattle.iox_wire_locals.specs.declared.seat.Seat.{Seat};
    ghost use Rattle.iox_wire_locals.specs.Tables.{Setting};
    ghost use Rattle.iox_wire_seats.specs.Keeps.{counted};
    ghost use Rattle.iox_wire_seats.specs.QuietSteps.{StepsQuietly};
    ghost use Rattle.iox_wire_loans.specs.Aims.{IsAimed, IsSameLoan, IsStoring, StaysAimed, StoresAhead};

    /// Makes its next access and continues, if that is no moment and it goes on behind it; tells
    /// what it found. `None` says that nothing changed.
    #[inline(always)]
    pub fn quiet_step(&mut self, seat: &mut StoredSeat, words: &mut Vec<u64>) -> Option<u64>
        requires accesses { seat.old.seat.accesses + 1 < 2 ^ 64 }
        requires within { (p : Setting) × IsAimed p seat.old.seat self.old
            × IsWithin 0 (length words.old.items)
            (program_access p.layout (program_of p self.old.local)) }
        ensures quiet { (p : Setting) → IsAimed p seat.old.seat self.old → IfSome result
            (λ seen. StepsQuietly p (placed seat.old.seat self.old.local) words.old.items seen
            (placed seat.new.seat self.new.local) words.new.items) }
        ensures aimed { StaysAimed seat.old self.old seat.new self.new }
        ensures seat { IfSome result (λ seen. seat.new ≡ counted seat.old) }
        ensures busy { is_busy self.new.local ≡ is_busy self.old.local }
        ensures same { IsSameLoan self.old self.new }
        ensures unchanged { result ≡ None → self.new ≡ self.old }
        ensures seat_unchanged { result ≡ None → seat.new ≡ seat.old }
        ensures words_unchanged { result ≡ None → words.new ≡ words.old }
    {
        match self.at {
            LendAt::Empties => {
                let seen = self.popper.quiet_pop(self.site, words)?;
                seat.count_access();
                Some(seen)
            }
            LendAt::Stores => {
                let seen = self.quiet_store(words)?;
                seat.count_access();
                Some(seen)
            }
            _ => None,
        }
    }

    /// Stores the next word of its message, if another one follows, and tells which word it
    /// replaced. `None` says that nothing changed.
    #[inline(always)]
    pub fn quiet_store(&mut self, words: &mut Vec<u64>) -> Option<u64>
        requires there { IsStoring self.old.local }
        requires within { (p : Setting) × (x : Seat) × IsAimed p x self.old
            × IsWithin 0 (length words.old.items)
            (program_access p.layout (program_of p self.old.local)) }
        ensures finds { (p : Setting) → (x : Seat) → IsAimed p x self.old → IfSome result
            (λ seen. seen
            ≡ seen_at (program_access p.layout (program_of p self.old.local)) words.old.items) }
        ensures leaves { (p : Setting) → (x : Seat) → IsAimed p x self.old → IfSome result
            (λ seen. words.new.items
            ≡ words_after (program_access p.layout (program_of p self.old.local))
            words.old.items) }
        ensures next { IfSome result
            (λ seen. StoresAhead self.old.local (length self.old.words) None self.new.local) }
        ensures aimed { (p : Setting) → (x : Seat) → IsAimed p x self.old
            → IsAimed p x self.new }
        ensures same { IsSameLoan self.old self.new }
        ensures unchanged { result ≡ None → self.new ≡ self.old }
        ensures words_unchanged { result ≡ None → words.new ≡ words.old }
    {
        if self.next + 1 >= self.words.len() {
            return None;
        }
        let Access::Store(place, word) = self.asks() else {
            return None;
        };
        let seen = words[place];
        words[place] = word;
        self.next += 1;
        Some(seen)
    }
}
