//! The steps of a node that are quiet.
use super::StoredNode;
use crate::call_at::CallAt;

impl StoredNode {
    ghost use Rattle.std.specs.Prelude.{◌≡◌, ◌+◌, ◌<◌, ◌^◌, IfSome, None, length};
    ghost use Rattle.iox_steps.specs.Accesses.{IsWithin};
    ghost use Rattle.iox_wire_begins.specs.Aims.{KeepsRoom};
    ghost use Rattle.iox_wire_begins.specs.Locals.{program_of};
    ghost use Rattle.iox_wire_begins.specs.Programs.{program_access};
    ghost use Rattle.iox_wire_begins.specs.Tables.{Setting};
    ghost use Rattle.iox_wire_seats.specs.QuietSteps.{StepsQuietly};
    ghost use Rattle.iox_wire_nodes.specs.Aims.{IsAimed, StaysAimed, StaysReady};
    ghost use Rattle.iox_wire_nodes.specs.Nodes.{seat_in};
    ghost use Rattle.iox_wire_nodes.specs.Rooms.{KeepsRooms};

    /// Makes its next access and continues, if that is no moment and its call goes on behind it;
    /// tells what it found. `None` says that nothing changed.
    #[inline(always)]
    pub fn quiet_step(&mut self, words: &mut Vec<u64>) -> Option<u64>
        requires accesses { self.old.seat.seat.accesses + 1 < 2 ^ 64 }
        requires within { (p : Setting) × IsAimed p self.old
            × IsWithin 0 (length words.old.items)
            (program_access p.layout (program_of p (seat_in self.old).local)) }
        ensures quiet { (p : Setting) → IsAimed p self.old → IfSome result
            (λ seen. StepsQuietly p (seat_in self.old) words.old.items seen (seat_in self.new)
            words.new.items) }
        ensures ready { StaysReady self.old None self.new }
        ensures aimed { StaysAimed self.old self.new }
        ensures call { self.new.at ≡ self.old.at }
        ensures room { KeepsRoom self.old.seat self.new.seat }
        ensures rooms { KeepsRooms self.old self.new }
        ensures unchanged { result ≡ None → self.new ≡ self.old }
        ensures words_unchanged { result ≡ None → words.new ≡ words.old }
    {
        let seat = &mut self.seat;
        match self.at {
            CallAt::Seats => {
                let seen = seat.quiet_step(words)?;
                Some(seen)
            }
            CallAt::Receives => {
                let seen = self.receiving.quiet_step(seat, words)?;
                Some(seen)
            }
            CallAt::Lends => {
                let seen = self.lending.quiet_step(seat, words)?;
                Some(seen)
            }
            CallAt::SendsRequest => {
                let seen = self.requesting.quiet_step(seat, words)?;
                Some(seen)
            }
            CallAt::SendsResponse => {
                let seen = self.responding.quiet_step(seat, words)?;
                Some(seen)
            }
            CallAt::CopiesRequest => {
                let seen = self.copying_client.quiet_step(seat, words)?;
                Some(seen)
            }
            CallAt::CopiesResponse => {
                let seen = self.copying_server.quiet_step(seat, words)?;
                Some(seen)
            }
        }
    }
}
