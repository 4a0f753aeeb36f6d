//! A server of a wire that loans, writes and sends a response in one call.
ghost use Rattle.std.specs.Prelude.{◌≡◌};

mod begin;
mod event;
mod place;
mod quiet;
mod send;

use crate::at::{CopierAt, ResponseCopyReply};
use crate::copy_lending::CopyLending;
use iox_steps::Access;
use iox_wire_locals::CallRefusal;
use iox_wire_seats::StoredSeat;
use iox_wire_sends::Responding;
use std::alloc::{AllocError, Global};
use std::marker::Model;

/// A server's copy of a response, beside what its node keeps: it lends, stores the message with its
/// payload, and sends it. Only its making takes memory.
#[derive(Drop)]
pub struct CopyingServer {
    at: CopierAt,
    lends: CopyLending,
    sends: Responding,
}

impl Model for CopyingServer {
    ghost use Rattle.std.specs.Prelude.{◌≡◌};
    ghost use Rattle.iox_wire_locals.specs.Begins.{is_busy};
    ghost use Rattle.iox_wire_copies.specs.Copiers.{SendsLoan, lends_at, local_of, sends_at};
    ghost use Rattle.iox_wire_copies.specs.ResponseCopies.{LendsResponse, ResponseCopy};

    ghost Value = { ResponseCopy };

    ghost view = { λ c. record {
      at = c.at;
      local = local_of c.at c.lends.local c.sends.local;
      lends = c.lends;
      sends = c.sends;
    } };

    ghost invariant = { λ c.
        (is_busy c.lends.local ≡ lends_at c.at) × (is_busy c.sends.local ≡ sends_at c.at)
        × LendsResponse c.at c.lends.lending.order
        × SendsLoan c.at c.lends.lending.order c.sends.loan };
}

impl CopyingServer {
    ghost use Rattle.std.specs.Prelude.{◌≡◌, ◌+◌, ◌<◌, ◌^◌, IfOk, None, false, is_none, true};
    ghost use Rattle.iox_wire_words.specs.Programs.{program_access};
    ghost use Rattle.iox_wire_locals.specs.declared.local.Local.TheVariants.{Idle};
    ghost use Rattle.iox_wire_locals.specs.declared.seat.Seat.{Seat};
    ghost use Rattle.iox_wire_locals.specs.Begins.{is_busy};
    ghost use Rattle.iox_wire_locals.specs.Locals.{program_of};
    ghost use Rattle.iox_wire_locals.specs.Tables.{Setting};
    ghost use Rattle.iox_wire_request_sends.specs.Aims.{IsOneStep};
    ghost use Rattle.iox_wire_copies.specs.Copiers.{IsAtWork};
    ghost use Rattle.iox_wire_copies.specs.ResponseCopies.{Answers, FindsUsed, GoesOn, IsAimed};
    ghost use Rattle.iox_wire_copies.specs.ResponseCopies.{IsSameCall, MayEndCall, SendsItsLoan};
    ghost use Rattle.iox_wire_copies.specs.ResponseCopies.{StaysAimed};

    /// No copy is under way, and there is room for so many ways, and for so many words of a
    /// message.
    pub fn new(alloc: Global, ways: usize, longest: usize) -> Result<CopyingServer, AllocError>
        ensures local { IfOk result (λ c. c.local ≡ Idle) }
        ensures ways { IfOk result (λ c. c.lends.lending.ways_room ≡ ways) }
        ensures words { IfOk result (λ c. c.lends.lending.words_room ≡ longest) }
        ensures payload { IfOk result (λ c. c.lends.payload_room ≡ longest) }
    {
        Ok(CopyingServer {
            at: CopierAt::Rest,
            lends: CopyLending::new(alloc, ways, longest)?,
            sends: Responding::new(),
        })
    }

    /// Whether a copy is under way.
    pub fn is_busy(&self) -> bool
        ensures { result ≡ is_busy self.now.local }
    {
        !matches!(self.at, CopierAt::Rest)
    }

    /// The access that it makes next.
    #[inline(always)]
    pub fn asks(&self) -> Access
        ensures { (p : Setting) → (x : Seat) → IsAimed p x self.now → result
            ≡ program_access p.layout (program_of p self.now.local) }
    {
        match self.at {
            CopierAt::Rest | CopierAt::Refuses => Access::Local,
            CopierAt::Lends => self.lends.asks(),
            CopierAt::Sends => self.sends.asks(),
        }
    }

    /// Continues after its access, which found `seen`. If it is over it says what that answers.
    /// What it gets back and what it sends is to be in use at the port's desk, and what it delivers
    /// is to have room in the record of its way.
    #[inline(always)]
    pub fn go_on(&mut self, seat: &mut StoredSeat, seen: u64) -> Option<ResponseCopyReply>
        requires busy { is_busy self.old.local ≡ true }
        requires accesses { seat.old.seat.accesses + 1 < 2 ^ 64 }
        requires rests { is_busy seat.old.seat.local ≡ false }
        requires may { MayEndCall seat.old self.old }
        requires finds { FindsUsed seat.old self.old seen }
        ensures next { GoesOn seat.old self.old seen seat.new self.new }
        ensures over { Answers seat.old self.old seen result }
        ensures aimed { StaysAimed seat.old self.old seat.new self.new }
        ensures busy { is_busy self.new.local ≡ is_none result }
        ensures works { result ≡ None → IsAtWork self.old.at }
        ensures same { IsSameCall self.old self.new }
        ensures loan { SendsItsLoan self.new }
        ensures step { IsOneStep seat.old seat.new }
    {
        match self.at {
            CopierAt::Rest => None,
            CopierAt::Refuses => {
                seat.count_access();
                self.at = CopierAt::Rest;
                Some(ResponseCopyReply::Refused(CallRefusal::WrongLength))
            }
            CopierAt::Lends => self.lend_on(seat, seen),
            CopierAt::Sends => self.send_on(seat, seen),
        }
    }
}
