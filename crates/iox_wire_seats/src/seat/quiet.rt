//! The steps of a node's own call that are quiet.
use super::StoredSeat;
use crate::at::At;
use iox_steps::perform;

impl StoredSeat {
    ghost use Rattle.std.specs.Prelude.{◌≡◌, ◌+◌, ◌<◌, ◌^◌, IfSome, None, length};
    ghost use Rattle.iox_steps.specs.Accesses.{IsWithin};
    ghost use Rattle.iox_word_places.specs.Programs.{program_access};
    ghost use Rattle.iox_wire_locals.specs.Locals.{program_of};
    ghost use Rattle.iox_wire_locals.specs.Tables.{Setting};
    ghost use Rattle.iox_wire_seats.specs.Aims.{IsAimed, KeepsRoom, StaysAimed};
    ghost use Rattle.iox_wire_seats.specs.QuietSteps.{StepsQuietly};

    /// Makes its next access and continues, if that is no moment and the call goes on behind it;
    /// tells what it found. `None` says that nothing changed.
    #[inline(always)]
    pub fn quiet_step(&mut self, words: &mut Vec<u64>) -> Option<u64>
        requires accesses { self.old.seat.accesses + 1 < 2 ^ 64 }
        requires within { (p : Setting) × IsAimed p self.old
            × IsWithin 0 (length words.old.items)
            (program_access p.layout (program_of p self.old.seat.local)) }
        ensures quiet { (p : Setting) → IsAimed p self.old → IfSome result
            (λ seen. StepsQuietly p self.old.seat words.old.items seen self.new.seat
            words.new.items) }
        ensures aimed { StaysAimed self.old self.new }
        ensures accesses { IfSome result
            (λ seen. self.new.seat.accesses ≡ self.old.seat.accesses + 1) }
        ensures room { KeepsRoom self.old self.new }
        ensures unchanged { result ≡ None → self.new ≡ self.old }
        ensures words_unchanged { result ≡ None → words.new ≡ words.old }
    {
        match self.at {
            At::ReleaseReturns => {
                let seen = self.pusher.quiet_push(self.site, words)?;
                self.accesses += 1;
                Some(seen)
            }
            At::Reads => {
                if self.words.len() + 1 >= self.count {
                    return None;
                }
                let access = self.asks();
                let seen = perform(words, access);
                let _going = self.read_on(seen);
                Some(seen)
            }
            At::Writes => {
                if self.next + 1 >= self.count {
                    return None;
                }
                let place = self.message.payload + self.next;
                let seen = words[place];
                words[place] = self.words[self.next];
                self.next += 1;
                self.accesses += 1;
                Some(seen)
            }
            _ => None,
        }
    }
}
