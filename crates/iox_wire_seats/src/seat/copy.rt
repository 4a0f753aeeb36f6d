//! What a send leaves at the seat whose loan the same call made. It was never a handle.
ghost use Rattle.std.specs.Prelude.{◌≡◌};

use super::StoredSeat;
use iox_wire_locals::Entry;

impl StoredSeat {
    ghost use Rattle.std.specs.Prelude.{◌≡◌, false};
    ghost use Rattle.iox_wire_locals.specs.Begins.{is_busy};
    ghost use Rattle.iox_wire_seats.specs.Desks.{IsUsed, MayCount, MayGiveUp};
    ghost use Rattle.iox_wire_seats.specs.Keeps.{copied_away, copy_given_up};

    /// The loan of a response succeeded, and its message has one use less, as it is sent.
    pub fn send_copy_away(&mut self, loan: Entry)
        requires rests { is_busy self.old.seat.local ≡ false }
        requires counts { MayCount loan.port self.old.seat.desks }
        requires used { IsUsed loan.port loan.slot self.old.seat.desks }
        ensures { self.new ≡ copied_away self.old loan }
    {
        self.desks.count_loan(loan.port);
        self.desks.use_less(loan.port, loan.slot);
    }

    /// The loan succeeded, and is given up, as its send is refused.
    pub fn give_up_copy(&mut self, loan: Entry)
        requires rests { is_busy self.old.seat.local ≡ false }
        requires counts { MayCount loan.port self.old.seat.desks }
        requires held { MayGiveUp loan self.old.seat.desks }
        ensures { self.new ≡ copy_given_up self.old loan }
    {
        self.desks.count_loan(loan.port);
        self.desks.give_up(loan);
    }
}
