//! The send of a response by a node of a wire.
ghost use Rattle.std.specs.Prelude.{◌≡◌};

mod ask;
mod begin;
mod deliver;
mod event;
mod finish;
mod look;
mod place;
mod quiet;

use crate::at::{RespondAt, RespondReply};
use crate::terms::ResponseTerms;
use iox_model::kind::Kind;
use iox_steps::{Access, QueueKind, Site};
use iox_wire_locals::Entry;
use iox_wire_seats::{Popper, Pusher, StoredSeat};
use std::marker::Model;

const NO_LOAN: Entry = Entry {
    number: 0,
    kind: Kind::ResponseMut,
    port: 0,
    sender: 0,
    slot: 0,
    client: 0,
    lane: 0,
    request: 0,
    elements: 0,
    connections: 0,
};

const NO_SITE: Site = Site {
    kind: QueueKind::Index,
    base: 0,
    capacity: 0,
};

const NO_TERMS: ResponseTerms = ResponseTerms {
    messages: NO_SITE,
    returning: NO_SITE,
    state: 0,
    overflow: false,
    fails: false,
    node: 0,
};

/// The send of a loaned response, beside what the node keeps. It takes no memory.
#[derive(Drop)]
pub struct Responding {
    at: RespondAt,
    loan: Entry,
    /// whether the same call made the loan
    copied: bool,
    terms: ResponseTerms,
    popper: Popper,
    pusher: Pusher,
}

impl Model for Responding {
    ghost use Rattle.std.specs.Prelude.{◌≡◌, true};
    ghost use Rattle.iox_model.specs.Handles.{is_response_loan};
    ghost use Rattle.iox_wire_seats.specs.Aims.{IsInMemory};
    ghost use Rattle.iox_wire_sends.specs.Dispatches.{Dispatch, local_of};

    ghost Value = { Dispatch };

    ghost view = { λ r. record {
      local = local_of r.at (record {
        loan = r.loan;
        copied = r.copied;
        pushing = r.pusher;
        popping = r.popper;
      });
      loan = r.loan;
      copied = r.copied;
      terms = r.terms;
    } };

    ghost invariant = { λ r.
        IsInMemory r.terms.messages × IsInMemory r.terms.returning
        × (is_response_loan r.loan.kind ≡ true) };
}

impl Responding {
    ghost use Rattle.std.specs.Prelude.{◌≡◌, ◌+◌, ◌<◌, ◌^◌, false, is_none, true};
    ghost use Rattle.iox_wire_words.specs.Programs.{program_access};
    ghost use Rattle.iox_wire_locals.specs.declared.local.Local.TheVariants.{Idle};
    ghost use Rattle.iox_wire_locals.specs.Begins.{is_busy};
    ghost use Rattle.iox_wire_locals.specs.Locals.{program_of};
    ghost use Rattle.iox_wire_locals.specs.Tables.{Setting};
    ghost use Rattle.iox_wire_seats.specs.Aims.{KeepsRoom};
    ghost use Rattle.iox_wire_seats.specs.Desks.{IsUsed};
    ghost use Rattle.iox_wire_sends.specs.Aims.{Answers, FindsUsed, GoesOn, IsAimed, IsSameSend};
    ghost use Rattle.iox_wire_sends.specs.Aims.{MayCountMade};

    /// No send is under way.
    pub fn new() -> Responding
        ensures { result.local ≡ Idle }
    {
        Responding {
            at: RespondAt::Rest,
            loan: NO_LOAN,
            copied: false,
            terms: NO_TERMS,
            popper: Popper::new(),
            pusher: Pusher::new(),
        }
    }

    /// Whether a send is under way.
    pub fn is_busy(&self) -> bool
        ensures { result ≡ is_busy self.now.local }
    {
        !matches!(self.at, RespondAt::Rest)
    }

    /// The access that it makes next.
    #[inline(always)]
    pub fn asks(&self) -> Access
        ensures { (p : Setting) → IsAimed p self.now → result
            ≡ program_access p.layout (program_of p self.now.local) }
    {
        match self.at {
            RespondAt::Rest | RespondAt::Tells => Access::Local,
            RespondAt::Asks => Access::Load(self.terms.state),
            RespondAt::Empties => self.popper.access(self.terms.returning),
            RespondAt::Looks | RespondAt::Pushes => self.pusher.access(self.terms.messages),
            RespondAt::Evicts | RespondAt::GetsBack => self.pusher.access(self.terms.messages),
        }
    }

    /// Continues after its access, which found `seen`. If it is over it says what that answers. The
    /// loan and what it gets back are to be in use at the port's desk, and what it delivers is to
    /// have room in the record of its way.
    #[inline(always)]
    pub fn go_on(&mut self, seat: &mut StoredSeat, seen: u64) -> Option<RespondReply>
        requires busy { is_busy self.old.local ≡ true }
        requires accesses { seat.old.seat.accesses + 1 < 2 ^ 64 }
        requires rests { is_busy seat.old.seat.local ≡ false }
        requires used { IsUsed self.old.loan.port self.old.loan.slot seat.old.seat.desks }
        requires counts { MayCountMade seat.old self.old }
        requires finds { FindsUsed seat.old self.old seen }
        ensures next { GoesOn seat.old self.old seen seat.new self.new }
        ensures over { Answers seat.old self.old seen result }
        ensures busy { is_busy self.new.local ≡ is_none result }
        ensures same { IsSameSend self.old self.new }
        ensures accesses { seat.new.seat.accesses ≡ seat.old.seat.accesses + 1 }
        ensures rests { is_busy seat.new.seat.local ≡ false }
        ensures room { KeepsRoom seat.old seat.new }
    {
        match self.at {
            RespondAt::Rest => None,
            RespondAt::Tells => {
                seat.count_access();
                self.finish(seat)
            }
            RespondAt::Asks => self.ask_on(seat, seen),
            RespondAt::Empties => self.empty_on(seat, seen),
            RespondAt::Looks => self.look_on(seat, seen),
            RespondAt::Pushes => self.push_on(seat, seen),
            RespondAt::Evicts => self.evict_on(seat, seen),
            RespondAt::GetsBack => self.get_back_on(seat, seen),
        }
    }
}
