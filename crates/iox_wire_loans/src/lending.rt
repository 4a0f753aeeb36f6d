//! A loan of a client or of a server of a wire.
ghost use Rattle.std.specs.Prelude.{◌≡◌};

mod begin;
mod empty;
mod event;
mod quiet;
mod store;

use crate::at::{LendAt, LendReply};
use crate::order::Order;
use crate::slot_places::SlotPlaces;
use iox_model::kind::Kind;
use iox_model::way::Way;
use iox_steps::{Access, QueueKind, Site};
use iox_wire_locals::CallRefusal;
use iox_wire_seats::{Popper, Stops, StoredSeat};
use std::alloc::{AllocError, Global};
use std::marker::Model;

const NO_ORDER: Order = Order {
    number: 0,
    kind: Kind::RequestMut,
    port: 0,
    client: 0,
    lane: 0,
    request: 0,
    serial: 0,
    elements: 0,
};

const NO_WAY: Way = Way {
    sender: 0,
    receiver: 0,
    lane: 0,
};

const NO_SITE: Site = Site {
    kind: QueueKind::Index,
    base: 0,
    capacity: 0,
};

const NO_PLACES: SlotPlaces = SlotPlaces {
    region: 0,
    slots: 0,
    slot_words: 0,
    header: 0,
    user: 0,
    step: 0,
};

/// A loan of a node, beside what the node keeps. Only its making takes memory.
#[derive(Drop)]
pub struct Lending {
    at: LendAt,
    order: Order,
    /// the way on which it gets back, and those that follow
    way: Way,
    left: Stops,
    /// how many messages may return on each
    room: usize,
    popper: Popper,
    site: Site,
    /// the words of its message, for how many there is room, and where the slots of its port stand
    words: Vec<u64>,
    longest: usize,
    places: SlotPlaces,
    /// the slot that it took, where both headers stand there, and which word is stored next
    slot: u64,
    first: usize,
    user: usize,
    next: usize,
    /// why it is refused
    refusal: CallRefusal,
}

impl Model for Lending {
    ghost use Rattle.std.specs.Prelude.{◌≤◌, vec_capacity};
    ghost use Rattle.iox_wire_seats.specs.Aims.{IsInMemory};
    ghost use Rattle.iox_wire_loans.specs.Aims.{AreVisited, HasWords, HasWordsLeft};
    ghost use Rattle.iox_wire_loans.specs.Loans.{Loaned, local_of};

    ghost Value = { Loaned };

    ghost view = { λ l. record {
      local = local_of l.at (record {
        order = l.order;
        way = l.way;
        left = l.left.left;
        popping = l.popper;
        slot = l.slot;
        next = l.next;
        refusal = l.refusal;
      });
      order = l.order;
      left = l.left.left;
      room = l.room;
      site = l.site;
      words = l.words.items;
      places = l.places;
      first = l.first;
      user = l.user;
      ways_room = l.left.room;
      words_room = l.longest;
    } };

    ghost invariant = { λ l.
        IsInMemory l.site × AreVisited l.at l.room l.left.left
        × HasWords l.at l.words.items l.places
        × HasWordsLeft l.at l.words.items l.places l.next l.first l.user
        × (l.longest ≤ vec_capacity l.words) };
}

impl Lending {
    ghost use Rattle.std.specs.Prelude.{◌≡◌, ◌+◌, ◌<◌, ◌^◌, IfOk, None, false, is_none, true};
    ghost use Rattle.iox_wire_words.specs.Programs.{program_access};
    ghost use Rattle.iox_wire_locals.specs.declared.local.Local.TheVariants.{Idle};
    ghost use Rattle.iox_wire_locals.specs.declared.seat.Seat.{Seat};
    ghost use Rattle.iox_wire_locals.specs.Begins.{is_busy};
    ghost use Rattle.iox_wire_locals.specs.Locals.{program_of};
    ghost use Rattle.iox_wire_locals.specs.Tables.{Setting};
    ghost use Rattle.iox_wire_seats.specs.Aims.{KeepsRoom};
    ghost use Rattle.iox_wire_seats.specs.Lends.{MayLend};
    ghost use Rattle.iox_wire_loans.specs.Aims.{Answers, GetsBackUsed, GoesOn, IsAimed};
    ghost use Rattle.iox_wire_loans.specs.Aims.{IsNoHandle, IsSameLoan, StaysAimed, is_storing};

    /// No loan is under way, and there is room for so many ways, and for so many words of a message
    /// in front of its payload.
    pub fn new(alloc: Global, ways: usize, longest: usize) -> Result<Lending, AllocError>
        ensures local { IfOk result (λ l. l.local ≡ Idle) }
        ensures ways { IfOk result (λ l. l.ways_room ≡ ways) }
        ensures words { IfOk result (λ l. l.words_room ≡ longest) }
    {
        Ok(Lending {
            at: LendAt::Rest,
            order: NO_ORDER,
            way: NO_WAY,
            left: Stops::new(alloc, ways)?,
            room: 0,
            popper: Popper::new(),
            site: NO_SITE,
            words: Vec::with_capacity(alloc, longest)?,
            longest,
            places: NO_PLACES,
            slot: 0,
            first: 0,
            user: 0,
            next: 0,
            refusal: CallRefusal::WrongLength,
        })
    }

    /// Whether a loan is under way.
    pub fn is_busy(&self) -> bool
        ensures { result ≡ is_busy self.now.local }
    {
        !matches!(self.at, LendAt::Rest)
    }

    /// The access that it makes next.
    #[inline(always)]
    pub fn asks(&self) -> Access
        ensures { (p : Setting) → (x : Seat) → IsAimed p x self.now → result
            ≡ program_access p.layout (program_of p self.now.local) }
    {
        match self.at {
            LendAt::Rest | LendAt::Refuses => Access::Local,
            LendAt::Empties => self.popper.access(self.site),
            LendAt::Stores => {
                let header = self.places.header;
                let place = if self.next < header {
                    self.first + self.next
                } else {
                    self.user + (self.next - header)
                };
                Access::Store(place, self.words[self.next])
            }
        }
    }

    /// Continues after its access, which found `seen`. If it is over it says what that answers:
    /// where it stored nothing, a refusal.
    #[inline(always)]
    pub fn go_on(&mut self, seat: &mut StoredSeat, seen: u64) -> Option<LendReply>
        requires busy { is_busy self.old.local ≡ true }
        requires rests { is_busy seat.old.seat.local ≡ false }
        requires accesses { seat.old.seat.accesses + 1 < 2 ^ 64 }
        requires may { MayLend seat.old self.old.order.number self.old.order.port }
        requires used { GetsBackUsed seat.old.seat self.old.local }
        ensures next { GoesOn seat.old self.old seen seat.new self.new }
        ensures over { Answers seat.old self.old seen result }
        ensures aimed { StaysAimed seat.old self.old seat.new self.new }
        ensures busy { is_busy self.new.local ≡ is_none result }
        ensures accesses { seat.new.seat.accesses ≡ seat.old.seat.accesses + 1 }
        ensures room { KeepsRoom seat.old seat.new }
        ensures rests { is_busy seat.new.seat.local ≡ false }
        ensures may { result ≡ None → MayLend seat.new self.new.order.number self.new.order.port }
        ensures stored { is_storing self.old.local ≡ false → IsNoHandle result }
        ensures same { IsSameLoan self.old self.new }
    {
        match self.at {
            LendAt::Rest => None,
            LendAt::Refuses => {
                seat.count_access();
                self.at = LendAt::Rest;
                Some(LendReply::Refused(self.refusal))
            }
            LendAt::Empties => self.empty_on(seat, seen),
            LendAt::Stores => self.store_on(seat, seen),
        }
    }
}
