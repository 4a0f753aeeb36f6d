//! The loan of a copy.
ghost use Rattle.std.specs.Prelude.{◌≡◌};

mod begin;
mod event;
mod lend;
mod place;
mod quiet;
mod respond;
mod store;

use crate::at::{CopyAt, CopyLent};
use crate::payload_places::PayloadPlaces;
use iox_model::kind::Kind;
use iox_steps::Access;
use iox_wire_locals::Entry;
use iox_wire_request_sends::{Lending, SlotPlaces};
use iox_wire_seats::StoredSeat;
use std::alloc::{AllocError, Global};
use std::marker::Model;

const NO_LOAN: Entry = Entry {
    number: 0,
    kind: Kind::RequestMut,
    port: 0,
    sender: 0,
    slot: 0,
    client: 0,
    lane: 0,
    request: 0,
    elements: 0,
    connections: 0,
};

/// One slot of one word, which is the header.
const NO_SLOTS: SlotPlaces = SlotPlaces {
    region: 0,
    slots: 1,
    slot_words: 1,
    header: 1,
    user: 0,
    step: 1,
};

const NO_PAYLOADS: PayloadPlaces = PayloadPlaces { step: 1, room: 0 };

/// The loan of a copy by a node, beside what the node keeps: as a loan gets back and takes a slot,
/// whose words it stores, and those of its payload behind them. Only its making takes memory.
#[derive(Drop)]
pub struct CopyLending {
    at: CopyAt,
    /// the loan without its payload
    lending: Lending,
    payload: Vec<u64>,
    /// for how many words of a payload there is room
    longest: usize,
    /// where the slots of its port stand, and the payload there
    slots: SlotPlaces,
    places: PayloadPlaces,
    /// what it made, where the payload stands there, and which word of that is stored next
    loan: Entry,
    place: usize,
    next: usize,
}

impl Model for CopyLending {
    ghost use Rattle.std.specs.Prelude.{◌≡◌, ◌≤◌, length, vec_capacity};
    ghost use Rattle.iox_wire_locals.specs.Begins.{is_busy};
    ghost use Rattle.iox_wire_request_sends.specs.Lenders.{IsWithin};
    ghost use Rattle.iox_wire_copies.specs.Copies.{CopyLoan, HasMade, HasSlots, HasWordsLeft};
    ghost use Rattle.iox_wire_copies.specs.Copies.{lends_at, local_of};
    ghost use Rattle.iox_wire_copies.specs.Payloads.{SlotsHold};

    ghost Value = { CopyLoan };

    ghost view = { λ l. record {
      at = l.at;
      local = local_of l.at l.lending l.payload.items l.loan.slot l.next;
      lending = l.lending;
      payload = l.payload.items;
      slots = l.slots;
      places = l.places;
      loan = l.loan;
      place = l.place;
      payload_room = l.longest;
    } };

    ghost invariant = { λ l.
        IsWithin l.slots × SlotsHold l.slots l.places
        × (length l.payload.items ≤ l.places.room)
        × (is_busy l.lending.local ≡ lends_at l.at)
        × HasSlots l.at l.slots l.lending
        × HasWordsLeft l.at l.place l.next (length l.payload.items)
        × HasMade l.at l.lending.order l.loan
        × (l.longest ≤ vec_capacity l.payload) };
}

impl CopyLending {
    ghost use Rattle.std.specs.Prelude.{◌≡◌, ◌+◌, ◌<◌, ◌^◌, IfOk, false, is_none, true};
    ghost use Rattle.iox_wire_words.specs.Programs.{program_access};
    ghost use Rattle.iox_wire_locals.specs.declared.local.Local.TheVariants.{Idle};
    ghost use Rattle.iox_wire_locals.specs.declared.seat.Seat.{Seat};
    ghost use Rattle.iox_wire_locals.specs.Begins.{is_busy};
    ghost use Rattle.iox_wire_locals.specs.Locals.{program_of};
    ghost use Rattle.iox_wire_locals.specs.Tables.{Setting};
    ghost use Rattle.iox_wire_seats.specs.Aims.{KeepsRoom};
    ghost use Rattle.iox_wire_seats.specs.Lends.{MayLend};
    ghost use Rattle.iox_wire_request_sends.specs.WireLoansAims.{GetsBackUsed};
    ghost use Rattle.iox_wire_copies.specs.CopyAims.{GoesOn, HoldsMade, IsAimed, IsLoanOfOrder, IsMadeAt};
    ghost use Rattle.iox_wire_copies.specs.CopyAims.{IsSameCopy, KeepsPeers, MayLendMade, StaysAimed};

    /// No loan is under way, and there is room for so many ways, and for so many words of a
    /// message.
    pub fn new(alloc: Global, ways: usize, longest: usize) -> Result<CopyLending, AllocError>
        ensures local { IfOk result (λ l. l.local ≡ Idle) }
        ensures ways { IfOk result (λ l. l.lending.ways_room ≡ ways) }
        ensures words { IfOk result (λ l. l.lending.words_room ≡ longest) }
        ensures payload { IfOk result (λ l. l.payload_room ≡ longest) }
    {
        Ok(CopyLending {
            at: CopyAt::Rest,
            lending: Lending::new(alloc, ways, longest)?,
            payload: Vec::with_capacity(alloc, longest)?,
            longest,
            slots: NO_SLOTS,
            places: NO_PAYLOADS,
            loan: NO_LOAN,
            place: 0,
            next: 0,
        })
    }

    /// Whether a loan is under way.
    pub fn is_busy(&self) -> bool
        ensures { result ≡ is_busy self.now.local }
    {
        !matches!(self.at, CopyAt::Rest)
    }

    /// The loan that it made last.
    #[inline(always)]
    pub fn loan(&self) -> Entry
        ensures { result ≡ self.now.loan }
    {
        self.loan
    }

    /// The access that it makes next.
    #[inline(always)]
    pub fn asks(&self) -> Access
        ensures { (p : Setting) → (x : Seat) → IsAimed p x self.now → result
            ≡ program_access p.layout (program_of p self.now.local) }
    {
        match self.at {
            CopyAt::Rest => Access::Local,
            CopyAt::Lends => {
                // only what this promises is wanted
                let _storing = self.lending.is_storing();
                self.lending.asks()
            }
            CopyAt::Writes => Access::Store(self.place + self.next, self.payload[self.next]),
        }
    }

    /// Continues after its access, which found `seen`. If it is over it says how.
    #[inline(always)]
    pub fn go_on(&mut self, seat: &mut StoredSeat, seen: u64) -> Option<CopyLent>
        requires busy { is_busy self.old.local ≡ true }
        requires rests { is_busy seat.old.seat.local ≡ false }
        requires accesses { seat.old.seat.accesses + 1 < 2 ^ 64 }
        requires may { MayLend seat.old self.old.lending.order.number
            self.old.lending.order.port }
        requires used { GetsBackUsed seat.old.seat self.old.local }
        ensures next { GoesOn seat.old self.old seen seat.new self.new result }
        ensures aimed { StaysAimed seat.old self.old seat.new self.new }
        ensures made { IsLoanOfOrder self.new result }
        ensures stored { IsMadeAt self.old.local result }
        ensures held { HoldsMade seat.old self.old seat.new self.new result }
        ensures busy { is_busy self.new.local ≡ is_none result }
        ensures accesses { seat.new.seat.accesses ≡ seat.old.seat.accesses + 1 }
        ensures room { KeepsRoom seat.old seat.new }
        ensures rests { is_busy seat.new.seat.local ≡ false }
        ensures may { MayLendMade seat.new self.new.lending.order result }
        ensures peers { KeepsPeers seat.old self.old seat.new }
        ensures same { IsSameCopy self.old self.new }
    {
        match self.at {
            CopyAt::Rest => None,
            CopyAt::Lends => {
                if self.lending.is_storing() {
                    self.store_on(seat)
                } else {
                    self.lend_on(seat, seen)
                }
            }
            CopyAt::Writes => self.write_on(seat),
        }
    }
}
