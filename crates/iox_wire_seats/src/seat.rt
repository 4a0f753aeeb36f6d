//! A node's own part of a wire.
ghost use Rattle.std.specs.Prelude.{◌≡◌};

mod ask;
mod close;
mod copy;
mod count;
mod event;
mod hint;
mod keep;
mod lend;
mod quiet;
mod read;
mod release;
mod seek;
mod send;
mod tell;
mod told;
mod write;

use crate::at::{At, SeatReply};
use crate::counts::Counts;
use crate::desks::Desks;
use crate::entries::Entries;
use crate::message_places::MessagePlaces;
use crate::popper::Popper;
use crate::pusher::Pusher;
use crate::stops::Stops;
pub use event::look_event;
use iox_model::kind::Kind;
use iox_model::way::Way;
use iox_steps::{Access, QueueKind, Site};
use iox_wire_locals::{CallRefusal, Entry};
pub use release::is_named;
pub use send::pending_entry;
use std::alloc::{AllocError, Global};
use std::marker::Model;

const NO_ENTRY: Entry = Entry {
    number: 0,
    kind: Kind::Client,
    port: 0,
    sender: 0,
    slot: 0,
    client: 0,
    lane: 0,
    request: 0,
    elements: 0,
    connections: 0,
};

const NO_SITE: Site = Site {
    kind: QueueKind::Index,
    base: 0,
    capacity: 0,
};

const NO_WAY: Way = Way {
    sender: 0,
    receiver: 0,
    lane: 0,
};

const NO_PLACES: MessagePlaces = MessagePlaces {
    user: 0,
    user_count: 0,
    payload: 0,
};

/// What a node of a wire keeps for itself, and where it is in its call. Beside the name of that
/// place stand the numbers of all places.
#[derive(Drop)]
pub struct StoredSeat {
    node: u64,
    accesses: u64,
    handles_made: u64,
    entries: Entries,
    desks: Desks,
    counts: Counts,
    forgot: Vec<u64>,
    at: At,
    /// the handle that the call is of
    entry: Entry,
    pusher: Pusher,
    popper: Popper,
    /// where the queue stands that the call accesses, and the request state
    site: Site,
    state: usize,
    /// what was seen of the request state
    seen: u64,
    /// where the words of a message stand, so many; those that are known, and which one is stored
    message: MessagePlaces,
    count: usize,
    words: Vec<u64>,
    next: usize,
    /// for how many words there is room
    longest: usize,
    /// why the call is refused
    refusal: CallRefusal,
    /// whether it asks for a hint, or what it answers
    flag: bool,
    /// the way that it visits, and those that follow
    way: Way,
    left: Stops,
}

impl Model for StoredSeat {
    ghost use Rattle.std.specs.Prelude.{◌≤◌, vec_capacity};
    ghost use Rattle.iox_wire_seats.specs.Aims.{AreInMemory, AreVisited, HasWordsLeft, IsInMemory};
    ghost use Rattle.iox_wire_seats.specs.Aims.{HasUse, IsOfKind, MayBeHinted};
    ghost use Rattle.iox_wire_seats.specs.Seats.{Placed, local_of};

    ghost Value = { Placed };

    ghost view = { λ s. record {
      seat = record {
        node = s.node;
        accesses = s.accesses;
        handles_made = s.handles_made;
        table = s.entries.entries;
        desks = s.desks;
        borrowed = s.counts;
        forgot = s.forgot.items;
        local = local_of s.at (record {
          entry = s.entry;
          pushing = s.pusher;
          seen = s.seen;
          popping = s.popper;
          words = s.words.items;
          next = s.next;
          refusal = s.refusal;
          flag = s.flag;
          way = s.way;
          left = s.left.left;
        });
      };
      room = s.entries.room;
      site = s.site;
      state = s.state;
      message = s.message;
      count = s.count;
      words = s.words.items;
      left = s.left.left;
      ways_room = s.left.room;
      words_room = s.longest;
    } };

    ghost invariant = { λ s.
        IsInMemory s.site × IsOfKind s.at s.entry × HasUse s.at s.entry s.desks
        × AreInMemory s.message s.count
        × HasWordsLeft s.at s.words.items s.next s.count (vec_capacity s.words)
        × MayBeHinted s.at s.entry × AreVisited s.at s.site s.left.left
        × (s.longest ≤ vec_capacity s.words) };
}

impl StoredSeat {
    ghost use Rattle.std.specs.Prelude.{◌≡◌, ◌+◌, ◌<◌, ◌^◌, IfOk};
    ghost use Rattle.iox_word_places.specs.Programs.{program_access};
    ghost use Rattle.iox_wire_locals.specs.Begins.{is_busy};
    ghost use Rattle.iox_wire_locals.specs.Tables.{Setting, entry_at};
    ghost use Rattle.iox_wire_locals.specs.Locals.{program_of};
    ghost use Rattle.iox_wire_seats.specs.Aims.{Answers, GoesOn, IsAimed, KeepsRoom, StaysAimed};
    ghost use Rattle.iox_wire_seats.specs.Seats.{new_seat};

    /// A node between calls, with no handles and room for so many, for so many ways that a call
    /// visits, and for so many words of a message.
    pub fn new(
        alloc: Global,
        node: u64,
        room: usize,
        ways: usize,
        longest: usize,
        desks: Desks,
        counts: Counts,
    ) -> Result<StoredSeat, AllocError>
        ensures seat { IfOk result (λ s. s.seat ≡ new_seat node desks counts) }
        ensures room { IfOk result (λ s. s.room ≡ room) }
        ensures ways { IfOk result (λ s. s.ways_room ≡ ways) }
        ensures words { IfOk result (λ s. s.words_room ≡ longest) }
    {
        Ok(StoredSeat {
            node,
            accesses: 0,
            handles_made: 0,
            entries: Entries::new(alloc, room)?,
            desks,
            counts,
            forgot: Vec::new(alloc),
            at: At::Idle,
            entry: NO_ENTRY,
            pusher: Pusher::new(),
            popper: Popper::new(),
            site: NO_SITE,
            state: 0,
            seen: 0,
            message: NO_PLACES,
            count: 0,
            words: Vec::with_capacity(alloc, longest)?,
            next: 0,
            longest,
            refusal: CallRefusal::WrongKind,
            flag: false,
            way: NO_WAY,
            left: Stops::new(alloc, ways)?,
        })
    }

    /// Whether a call is under way.
    pub fn is_busy(&self) -> bool
        ensures { result ≡ is_busy self.now.seat.local }
    {
        !matches!(self.at, At::Idle)
    }

    /// The handle of that number.
    pub fn entry(&self, number: u64) -> Option<Entry>
        ensures { result ≡ entry_at number self.now.seat.table }
    {
        self.entries.find(number)
    }

    /// The words that its last call loaded.
    pub fn words(&self) -> &[u64]
        ensures { result.now ≡ self.now.words }
    {
        &self.words
    }

    /// The access that it makes next.
    #[inline(always)]
    pub fn asks(&self) -> Access
        ensures asked { (p : Setting) → IsAimed p self.now
            → result ≡ program_access p.layout (program_of p self.now.seat.local) }
    {
        match self.at {
            At::Idle | At::Drops | At::DropsOwn | At::Fills | At::Refuses => Access::Local,
            At::TellsDone | At::TellsAnswer | At::TellsWords => Access::Local,
            At::ReleaseReturns => self.pusher.access(self.site),
            At::ReleaseLooks => Access::Load(self.state),
            At::ReleaseExchanges => Access::CompareExchange(self.state, self.seen, 0),
            At::ReleaseCloses => Access::Store(self.state, 0),
            At::Reads => {
                let next = self.message.word(self.words.len(), self.count);
                Access::Load(next)
            }
            At::Writes => Access::Store(self.message.payload + self.next, self.words[self.next]),
            At::Checks | At::Hints => Access::Load(self.state),
            At::HintExchanges => {
                let named = self.entry.request + 1;
                Access::CompareExchange(self.state, named, named + (1 << 63))
            }
            At::Seeks => self.popper.access(self.site),
        }
    }

    /// Continues after its access, which found `seen`. If its call is over it says what that
    /// answers.
    #[inline(always)]
    pub fn go_on(&mut self, seen: u64) -> Option<SeatReply>
        requires { self.old.seat.accesses + 1 < 2 ^ 64 }
        ensures next { GoesOn self.old seen self.new }
        ensures over { Answers self.old seen result self.new }
        ensures aimed { StaysAimed self.old self.new }
        ensures accesses { self.new.seat.accesses ≡ self.old.seat.accesses + 1 }
        ensures room { KeepsRoom self.old self.new }
    {
        match self.at {
            At::Idle => {
                self.accesses += 1;
                None
            }
            At::Drops | At::ReleaseReturns | At::ReleaseLooks | At::ReleaseExchanges => {
                self.release_on(seen)
            }
            At::Fills | At::Refuses | At::TellsDone | At::TellsAnswer | At::TellsWords => {
                self.tell_on(seen)
            }
            At::DropsOwn | At::ReleaseCloses => self.close_on(seen),
            At::Reads => self.read_on(seen),
            At::Writes => self.write_on(seen),
            At::Checks => self.check_on(seen),
            At::Hints | At::HintExchanges => self.hint_on(seen),
            At::Seeks => self.seek_on(seen),
        }
    }
}
