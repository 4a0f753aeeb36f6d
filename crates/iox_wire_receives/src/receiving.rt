//! A receive of a node of a wire.
ghost use Rattle.std.specs.Prelude.{◌≡◌};

mod event;
mod give;
mod load;
mod pop;
mod quiet;
mod take;
mod visit;

use crate::at::{ReceiveAt, ReceiveReply};
use crate::source::{ReceiveTerms, Source};
use crate::sources::Sources;
use iox_model::kind::Role;
use iox_model::way::Way;
use iox_steps::{Access, QueueKind, Site};
use iox_wire_locals::Visit;
use iox_wire_seats::{Popper, Pusher, StoredSeat};
use std::alloc::{AllocError, Global};
use std::marker::Model;

/// No header has more words.
const LONGEST_HEADER: usize = 7;

const NO_VISIT: Visit = Visit {
    port: 0,
    role: Role::Server,
    lane: 0,
    request: 0,
};

const NO_TERMS: ReceiveTerms = ReceiveTerms {
    kind: QueueKind::Index,
    capacity: 0,
    back: 0,
    room: 0,
    state: 0,
    lane_words: 0,
    limit: 0,
    fire_and_forget: false,
    number: 0,
};

const NO_SOURCE: Source = Source {
    way: Way {
        sender: 0,
        receiver: 0,
        lane: 0,
    },
    node: 0,
    place: 0,
    region: 0,
    slots: 0,
    slot_words: 0,
    lanes: 0,
};

const NO_SITE: Site = Site {
    kind: QueueKind::Index,
    base: 0,
    capacity: 0,
};

/// A receive of a node, beside what the node keeps. Only `new` takes memory.
#[derive(Drop)]
pub struct Receiving {
    at: ReceiveAt,
    visit: Visit,
    terms: ReceiveTerms,
    /// the way that it visits, and those that follow
    source: Source,
    left: Sources,
    /// whether it saw a message where it may have no more
    waiting: bool,
    /// whether what it took on this way before did not fit
    again: bool,
    /// what it took, and the words of that header
    slot: u64,
    header: Vec<u64>,
    popper: Popper,
    pusher: Pusher,
    /// where the queue stands that it accesses, and the header or the request state
    site: Site,
    place: usize,
}

impl Model for Receiving {
    ghost use Rattle.std.specs.Prelude.{◌≤◌, vec_capacity};
    ghost use Rattle.iox_wire_seats.specs.Aims.{IsInMemory};
    ghost use Rattle.iox_wire_receives.specs.Aims.{AreVisited, HasHeader};
    ghost use Rattle.iox_wire_receives.specs.Receipts.{Receipt, local_of};

    ghost Value = { Receipt };

    ghost view = { λ r. record {
      local = local_of r.at (record {
        visit = r.visit;
        source = r.source;
        left = r.left.left;
        waiting = r.waiting;
        again = r.again;
        slot = r.slot;
        header = r.header.items;
        pushing = r.pusher;
        popping = r.popper;
      });
      visit = r.visit;
      terms = r.terms;
      source = r.source;
      left = r.left.left;
      waiting = r.waiting;
      slot = r.slot;
      header = r.header.items;
      site = r.site;
      place = r.place;
      room = r.left.room;
    } };

    ghost invariant = { λ r.
        IsInMemory r.site × AreVisited r.at r.visit r.terms r.source r.left.left
        × HasHeader r.at r.visit r.header.items r.place (vec_capacity r.header)
        × (7 ≤ vec_capacity r.header) };
}

impl Receiving {
    ghost use Rattle.std.specs.Prelude.{◌≡◌, ◌+◌, ◌<◌, ◌^◌, IfOk, None, true};
    ghost use Rattle.iox_wire_words.specs.Programs.{program_access};
    ghost use Rattle.iox_wire_locals.specs.declared.local.Local.TheVariants.{Idle};
    ghost use Rattle.iox_wire_locals.specs.declared.seat.Seat.{Seat};
    ghost use Rattle.iox_wire_locals.specs.Begins.{is_busy};
    ghost use Rattle.iox_wire_locals.specs.Locals.{program_of};
    ghost use Rattle.iox_wire_locals.specs.Tables.{Setting};
    ghost use Rattle.iox_wire_seats.specs.Aims.{KeepsRoom};
    ghost use Rattle.iox_wire_receives.specs.Aims.{Answers, GoesOn, MayTakeOneMore, IsAimed};
    ghost use Rattle.iox_wire_receives.specs.Aims.{MayReceive, StaysAimed};

    /// No receive is under way, and there is room for so many ways.
    pub fn new(alloc: Global, ways: usize) -> Result<Receiving, AllocError>
        ensures local { IfOk result (λ r. r.local ≡ Idle) }
        ensures ways { IfOk result (λ r. r.room ≡ ways) }
    {
        Ok(Receiving {
            at: ReceiveAt::Rest,
            visit: NO_VISIT,
            terms: NO_TERMS,
            source: NO_SOURCE,
            left: Sources::new(alloc, ways)?,
            waiting: false,
            again: false,
            slot: 0,
            header: Vec::with_capacity(alloc, LONGEST_HEADER)?,
            popper: Popper::new(),
            pusher: Pusher::new(),
            site: NO_SITE,
            place: 0,
        })
    }

    /// Whether a receive is under way.
    pub fn is_busy(&self) -> bool
        ensures { result ≡ is_busy self.now.local }
    {
        !matches!(self.at, ReceiveAt::Rest)
    }

    /// The access that it makes next.
    #[inline(always)]
    pub fn asks(&self) -> Access
        ensures { (p : Setting) → (x : Seat) → IsAimed p x self.now → result
            ≡ program_access p.layout (program_of p self.now.local) }
    {
        match self.at {
            ReceiveAt::Rest | ReceiveAt::TellsNothing => Access::Local,
            ReceiveAt::Looks | ReceiveAt::Pops => self.popper.access(self.site),
            ReceiveAt::Loads => Access::Load(self.place + self.header.len()),
            ReceiveAt::Asks => Access::Load(self.place),
            ReceiveAt::Returns => self.pusher.access(self.site),
        }
    }

    /// Continues after its access, which found `seen`. If it is over it says what that answers.
    #[inline(always)]
    pub fn go_on(&mut self, seat: &mut StoredSeat, seen: u64) -> Option<ReceiveReply>
        requires busy { is_busy self.old.local ≡ true }
        requires accesses { seat.old.seat.accesses + 1 < 2 ^ 64 }
        requires may { MayReceive seat.old self.old.terms.number }
        requires counts { MayTakeOneMore seat.old.seat self.old.local }
        ensures next { GoesOn seat.old self.old seen seat.new self.new }
        ensures over { Answers seat.old self.old seen result }
        ensures aimed { StaysAimed seat.old self.old seat.new self.new }
        ensures accesses { seat.new.seat.accesses ≡ seat.old.seat.accesses + 1 }
        ensures room { KeepsRoom seat.old seat.new }
        ensures rests { seat.new.seat.local ≡ seat.old.seat.local }
        ensures may { result ≡ None → MayReceive seat.new self.new.terms.number }
        ensures counts { MayTakeOneMore seat.new.seat self.new.local }
        ensures terms { self.new.terms ≡ self.old.terms }
        ensures ways { self.new.room ≡ self.old.room }
    {
        match self.at {
            ReceiveAt::Rest => None,
            ReceiveAt::TellsNothing => {
                seat.count_access();
                self.at = ReceiveAt::Rest;
                Some(ReceiveReply::Nothing)
            }
            ReceiveAt::Looks => self.look_on(seat, seen),
            ReceiveAt::Pops => self.pop_on(seat, seen),
            ReceiveAt::Loads => self.load_on(seat, seen),
            ReceiveAt::Asks => self.ask_on(seat, seen),
            ReceiveAt::Returns => self.return_on(seat, seen),
        }
    }
}
