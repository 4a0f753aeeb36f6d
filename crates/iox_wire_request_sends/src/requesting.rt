//! The send of a request by a client of a wire.
ghost use Rattle.std.specs.Prelude.{◌≡◌};

mod begin;
mod deliver;
mod empty;
mod event;
mod finish;
mod look;
mod place;
mod quiet;
mod visit;

use crate::at::{RequestAt, RequestReply};
use crate::target::{RequestTerms, Target};
use crate::targets::Targets;
use iox_model::kind::Kind;
use iox_model::way::Way;
use iox_steps::{Access, QueueKind, Site};
use iox_wire_locals::Entry;
use iox_wire_seats::{Popper, Pusher, StoredSeat};
use std::alloc::{AllocError, Global};
use std::marker::Model;

const NO_LOAN: Entry = Entry {
    number: 0,
    kind: Kind::RequestMut,
    port: 0,
    sender: 0,
    slot: 0,
    client: 0,
    lane: 0,
    request: 0,
    elements: 0,
    connections: 0,
};

const NO_SITE: Site = Site {
    kind: QueueKind::Index,
    base: 0,
    capacity: 0,
};

const NO_TERMS: RequestTerms = RequestTerms {
    kind: QueueKind::Index,
    capacity: 0,
    back: 0,
    room: 0,
    state: 0,
    overflow: false,
    fails: false,
    active: 0,
};

const NO_TARGET: Target = Target {
    server: 0,
    place: 0,
};

/// The send of a loaned request, beside what the node keeps. Only its making takes memory.
#[derive(Drop)]
pub struct Requesting {
    at: RequestAt,
    loan: Entry,
    /// whether the same call made the loan
    copied: bool,
    terms: RequestTerms,
    /// the servers, and the one that it visits
    targets: Targets,
    target: Target,
    /// the servers that it saw full
    full: Vec<u64>,
    /// the way of its last delivery, if nothing was pushed out there though it may have been
    last: Option<Way>,
    /// to how many it delivered
    count: u64,
    popper: Popper,
    pusher: Pusher,
    /// where the queue stands that it accesses, and the request state
    site: Site,
    state: usize,
}

impl Model for Requesting {
    ghost use Rattle.std.specs.Prelude.{◌≡◌, ◌<◌, ◌≤◌, ◌^◌, length, true, vec_capacity};
    ghost use Rattle.iox_model.specs.Handles.{is_request_loan};
    ghost use Rattle.iox_wire_seats.specs.Aims.{HasRoomForHint, IsInMemory};
    ghost use Rattle.iox_wire_request_sends.specs.Aims.{HasCount, HasSeen};
    ghost use Rattle.iox_wire_request_sends.specs.RequestDispatches.{RequestDispatch, local_of};
    ghost use Rattle.iox_wire_request_sends.specs.Targets.{AreWithin};

    ghost Value = { RequestDispatch };

    ghost view = { λ r. record {
      local = local_of r.at (record {
        loan = r.loan;
        copied = r.copied;
        targets = r.targets.all;
        target = r.target;
        left = r.targets.left;
        full = r.full.items;
        last = r.last;
        count = r.count;
        pushing = r.pusher;
        popping = r.popper;
      });
      loan = r.loan;
      copied = r.copied;
      terms = r.terms;
      targets = r.targets.all;
      target = r.target;
      left = r.targets.left;
      full = r.full.items;
      last = r.last;
      count = r.count;
      site = r.site;
      state = r.state;
      room = r.targets.room;
    } };

    ghost invariant = { λ r.
        (is_request_loan r.loan.kind ≡ true) × HasRoomForHint r.loan × IsInMemory r.site
        × AreWithin r.terms r.targets.all × AreWithin r.terms r.targets.left
        × (length r.targets.all ≤ vec_capacity r.full)
        × HasSeen r.at (length r.full.items) (length r.targets.left) (length r.targets.all)
        × HasCount r.at r.count (length r.targets.left) (length r.targets.all)
        × (r.targets.room ≤ vec_capacity r.full) };
}

impl Requesting {
    ghost use Rattle.std.specs.Prelude.{◌≡◌, ◌+◌, ◌<◌, ◌^◌, IfOk, IfSome, false, is_none, true};
    ghost use Rattle.iox_model.specs.Messages.{request_way};
    ghost use Rattle.iox_wire_words.specs.Programs.{program_access};
    ghost use Rattle.iox_wire_locals.specs.declared.local.Local.TheVariants.{Idle};
    ghost use Rattle.iox_wire_locals.specs.declared.seat.Seat.{Seat};
    ghost use Rattle.iox_wire_locals.specs.Begins.{is_busy};
    ghost use Rattle.iox_wire_locals.specs.Locals.{program_of};
    ghost use Rattle.iox_wire_locals.specs.Tables.{Setting};
    ghost use Rattle.iox_wire_request_sends.specs.Aims.{Answers, FindsUsed, GoesOn, IsAimed};
    ghost use Rattle.iox_wire_request_sends.specs.Aims.{IsOneStep, IsSameSend, IsToldBy, LoanMayEnd};
    ghost use Rattle.iox_wire_request_sends.specs.Aims.{StaysAimed};

    /// No send is under way, and there is room for so many servers.
    pub fn new(alloc: Global, ways: usize) -> Result<Requesting, AllocError>
        ensures local { IfOk result (λ r. r.local ≡ Idle) }
        ensures own { IfOk result (λ r. r.copied ≡ false) }
        ensures room { IfOk result (λ r. r.room ≡ ways) }
    {
        Ok(Requesting {
            at: RequestAt::Rest,
            loan: NO_LOAN,
            copied: false,
            terms: NO_TERMS,
            targets: Targets::new(alloc, ways)?,
            target: NO_TARGET,
            full: Vec::with_capacity(alloc, ways)?,
            last: None,
            count: 0,
            popper: Popper::new(),
            pusher: Pusher::new(),
            site: NO_SITE,
            state: 0,
        })
    }

    /// Whether a send is under way.
    pub fn is_busy(&self) -> bool
        ensures { result ≡ is_busy self.now.local }
    {
        !matches!(self.at, RequestAt::Rest)
    }

    /// The access that it makes next.
    #[inline(always)]
    pub fn asks(&self) -> Access
        ensures { (p : Setting) → (x : Seat) → IsAimed p x self.now → result
            ≡ program_access p.layout (program_of p self.now.local) }
    {
        match self.at {
            RequestAt::Rest | RequestAt::Refuses | RequestAt::TellsNobody => Access::Local,
            RequestAt::Empties => self.popper.access(self.site),
            RequestAt::Looks | RequestAt::Pushes => self.pusher.access(self.site),
            RequestAt::Evicts | RequestAt::GetsBack => self.pusher.access(self.site),
            RequestAt::Opens => Access::Store(self.state, self.loan.request + 1),
        }
    }

    /// Continues after its access, which found `seen`. If it is over it says what that answers. A
    /// loan that is sent is told by a handle exactly where its own call made it. What it gets back
    /// is to be in use at the port's desk, and what it delivers is to have room in the record of
    /// its way.
    #[inline(always)]
    pub fn go_on(&mut self, seat: &mut StoredSeat, seen: u64) -> Option<RequestReply>
        requires busy { is_busy self.old.local ≡ true }
        requires accesses { seat.old.seat.accesses + 1 < 2 ^ 64 }
        requires rests { is_busy seat.old.seat.local ≡ false }
        requires may { LoanMayEnd seat.old self.old }
        requires finds { FindsUsed seat.old self.old seen }
        ensures next { GoesOn seat.old self.old seen seat.new self.new }
        ensures over { Answers seat.old self.old seen result }
        ensures aimed { StaysAimed seat.old self.old seat.new self.new }
        ensures busy { is_busy self.new.local ≡ is_none result }
        ensures told { IfSome result (IsToldBy self.new.copied) }
        ensures same { IsSameSend self.old self.new }
        ensures step { IsOneStep seat.old seat.new }
    {
        match self.at {
            RequestAt::Rest => None,
            RequestAt::Refuses | RequestAt::TellsNobody => {
                seat.count_access();
                self.tell(seat)
            }
            RequestAt::Empties => self.empty_on(seat, seen),
            RequestAt::Looks => self.look_on(seat, seen),
            RequestAt::Opens => {
                seat.count_access();
                self.open_next(seat)
            }
            RequestAt::Pushes => self.push_on(seat, seen),
            RequestAt::Evicts => self.evict_on(seat, seen),
            RequestAt::GetsBack => self.get_back_on(seat, seen),
        }
    }
}
