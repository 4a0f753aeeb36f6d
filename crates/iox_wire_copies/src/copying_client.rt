//! A client of a wire that loans, writes and sends a request in one call.
ghost use Rattle.std.specs.Prelude.{◌≡◌};

mod begin;
mod event;
mod place;
mod quiet;
mod send;

use crate::at::{CopierAt, CopyReply};
use crate::copy_lending::CopyLending;
use iox_steps::Access;
use iox_wire_locals::CallRefusal;
use iox_wire_request_sends::Requesting;
use iox_wire_seats::StoredSeat;
use std::alloc::{AllocError, Global};
use std::marker::Model;

/// A client's copy of a request, beside what its node keeps: it lends, stores the message with its
/// payload, and sends it. Only its making takes memory.
#[derive(Drop)]
pub struct CopyingClient {
    at: CopierAt,
    lends: CopyLending,
    sends: Requesting,
}

impl Model for CopyingClient {
    ghost use Rattle.std.specs.Prelude.{◌≡◌};
    ghost use Rattle.iox_wire_locals.specs.Begins.{is_busy};
    ghost use Rattle.iox_wire_copies.specs.Copiers.{SendsLoan, SendsOwn, lends_at, local_of, sends_at};
    ghost use Rattle.iox_wire_copies.specs.CopyCalls.{CopyCall, LendsRequest};

    ghost Value = { CopyCall };

    ghost view = { λ c. record {
      at = c.at;
      local = local_of c.at c.lends.local c.sends.local;
      lends = c.lends;
      sends = c.sends;
    } };

    ghost invariant = { λ c.
        (is_busy c.lends.local ≡ lends_at c.at) × (is_busy c.sends.local ≡ sends_at c.at)
        × LendsRequest c.at c.lends.lending.order
        × SendsLoan c.at c.lends.lending.order c.sends.loan × SendsOwn c.at c.sends.copied };
}

impl CopyingClient {
    ghost use Rattle.std.specs.Prelude.{◌≡◌, ◌+◌, ◌<◌, ◌^◌, IfOk, None, false, is_none, true};
    ghost use Rattle.iox_wire_words.specs.Programs.{program_access};
    ghost use Rattle.iox_wire_locals.specs.declared.local.Local.TheVariants.{Idle};
    ghost use Rattle.iox_wire_locals.specs.declared.seat.Seat.{Seat};
    ghost use Rattle.iox_wire_locals.specs.Begins.{is_busy};
    ghost use Rattle.iox_wire_locals.specs.Locals.{program_of};
    ghost use Rattle.iox_wire_locals.specs.Tables.{Setting};
    ghost use Rattle.iox_wire_request_sends.specs.Aims.{IsOneStep};
    ghost use Rattle.iox_wire_copies.specs.Copiers.{IsAtWork};
    ghost use Rattle.iox_wire_copies.specs.CopyCalls.{Answers, FindsUsed, GoesOn, IsAimed};
    ghost use Rattle.iox_wire_copies.specs.CopyCalls.{IsSameCall, MayEndCall, SendsItsLoan};
    ghost use Rattle.iox_wire_copies.specs.CopyCalls.{StaysAimed};

    /// No copy is under way, no servers are told, and there is room for so many ways, and for so
    /// many words of a message.
    pub fn new(alloc: Global, ways: usize, longest: usize) -> Result<CopyingClient, AllocError>
        ensures local { IfOk result (λ c. c.local ≡ Idle) }
        ensures ways { IfOk result (λ c. c.lends.lending.ways_room ≡ ways) }
        ensures words { IfOk result (λ c. c.lends.lending.words_room ≡ longest) }
        ensures payload { IfOk result (λ c. c.lends.payload_room ≡ longest) }
        ensures room { IfOk result (λ c. c.sends.room ≡ ways) }
    {
        Ok(CopyingClient {
            at: CopierAt::Rest,
            lends: CopyLending::new(alloc, ways, longest)?,
            sends: Requesting::new(alloc, ways)?,
        })
    }

    /// Whether a copy is under way.
    pub fn is_busy(&self) -> bool
        ensures { result ≡ is_busy self.now.local }
    {
        !matches!(self.at, CopierAt::Rest)
    }

    /// The access that it makes next.
    #[inline(always)]
    pub fn asks(&self) -> Access
        ensures { (p : Setting) → (x : Seat) → IsAimed p x self.now → result
            ≡ program_access p.layout (program_of p self.now.local) }
    {
        match self.at {
            CopierAt::Rest | CopierAt::Refuses => Access::Local,
            CopierAt::Lends => self.lends.asks(),
            CopierAt::Sends => self.sends.asks(),
        }
    }

    /// Continues after its access, which found `seen`. If it is over it says what that answers.
    /// What it gets back is to be in use at the port's desk, and what it delivers is to have room
    /// in the record of its way.
    #[inline(always)]
    pub fn go_on(&mut self, seat: &mut StoredSeat, seen: u64) -> Option<CopyReply>
        requires busy { is_busy self.old.local ≡ true }
        requires accesses { seat.old.seat.accesses + 1 < 2 ^ 64 }
        requires rests { is_busy seat.old.seat.local ≡ false }
        requires may { MayEndCall seat.old self.old }
        requires finds { FindsUsed seat.old self.old seen }
        ensures next { GoesOn seat.old self.old seen seat.new self.new }
        ensures over { Answers seat.old self.old seen result }
        ensures aimed { StaysAimed seat.old self.old seat.new self.new }
        ensures busy { is_busy self.new.local ≡ is_none result }
        ensures works { result ≡ None → IsAtWork self.old.at }
        ensures same { IsSameCall self.old self.new }
        ensures loan { SendsItsLoan self.new }
        ensures step { IsOneStep seat.old seat.new }
    {
        match self.at {
            CopierAt::Rest => None,
            CopierAt::Refuses => {
                seat.count_access();
                self.at = CopierAt::Rest;
                Some(CopyReply::Refused(CallRefusal::WrongLength))
            }
            CopierAt::Lends => self.lend_on(seat, seen),
            CopierAt::Sends => self.send_on(seat, seen),
        }
    }
}
