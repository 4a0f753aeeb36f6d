//! A node of a wire.
ghost use Rattle.std.specs.Prelude.{◌≡◌, ◌+◌, ◌<◌, ◌^◌, false, nat_le, true};
ghost use Rattle.std.specs.Option.{option_map_or};

mod begin;
mod count;
mod over;
mod quiet;

use crate::stored_call::StoredCall;
use iox_model::event::Event;
use iox_steps::{Access, perform};
use iox_wire_weaves::{NodeReply, StoredNode, WireRefusal};
use std::alloc::{AllocError, Global};
use std::marker::Model;

/// How many accesses a node may make.
const MOST_ACCESSES: u64 = 1 << 56;

/// A call under way, without its words, and how many events came before its begin.
#[derive(Clone, Copy, Debug)]
struct BegunCall {
    call: StoredCall,
    begun: usize,
}

/// A node of a wire: its number, how many events came before its death, if it is dead, its own part
/// of the wire, and the call that it has under way.
#[derive(Drop)]
pub(crate) struct Member {
    number: u64,
    died: Option<usize>,
    node: StoredNode,
    call: Option<BegunCall>,
    // the words of that call, as far as there is room for them, those of its last read that is
    // over, and for how many there is room
    words: Vec<u64>,
    read: Vec<u64>,
    longest: usize,
}

impl Model for Member {
    ghost use Rattle.std.specs.Prelude.{is_none, option_map, vec_capacity};
    ghost use Rattle.iox_wire.specs.Replies.{FitsRoom, call_with};
    ghost use Rattle.iox_wire_weaves.specs.Wires.{WireNode};

    ghost Value = { WireNode };

    ghost view = { λ m. record {
      number = m.number;
      alive = is_none m.died;
      died = m.died;
      node = m.node;
      call = option_map
          (λ c. record { call = call_with m.words.items c.call; begun = c.begun }) m.call;
      longest = m.longest;
      read = m.read.items;
    } };

    ghost invariant = { λ m.
        FitsRoom m.longest m.words.items (vec_capacity m.words)
        × FitsRoom m.longest m.read.items (vec_capacity m.read) };
}

impl Member {
    ghost use Rattle.std.specs.Prelude.{◌≡◌, ◌<◌, ℕ, [], IfOk, List, None, Some, false, is_some};
    ghost use Rattle.std.specs.Prelude.{nat_le, true};
    ghost use Rattle.iox_wire_weaves.specs.Begins.{is_busy};
    ghost use Rattle.iox_wire_weaves.specs.Rooms.{KeepsRooms};
    ghost use Rattle.iox_wire_weaves.specs.Tables.{Setting};
    ghost use Rattle.iox_wire_weaves.specs.Nodes.{seat_in};
    ghost use Rattle.iox_wire_weaves.specs.Steps.{most_accesses, rest_refusal};
    ghost use Rattle.iox_steps.specs.Accesses.{seen_at, words_after};
    ghost use Rattle.iox_wire_weaves.specs.SlotEvents.{slot_event};
    ghost use Rattle.iox_wire_weaves.specs.Aims.{IsAimed};
    ghost use Rattle.iox_wire_weaves.specs.Laws.{LivesAs};
    ghost use Rattle.iox_wire.specs.Kept.{FoundThere, HasGoneOn, MayAccess, access_in};

    /// A living node, which has room for so many words of a call, and of a read.
    pub(crate) fn new(
        alloc: Global,
        number: u64,
        node: StoredNode,
        longest: usize,
    ) -> Result<Member, AllocError>
        ensures { IfOk result (λ member. member ≡ record {
          number = number;
          alive = true;
          died = None;
          node = node;
          call = None;
          longest = longest;
          read = [];
        }) }
    {
        let words = Vec::with_capacity(alloc, longest)?;
        let read = Vec::with_capacity(alloc, longest)?;
        Ok(Member {
            number,
            died: None,
            node,
            call: None,
            words,
            read,
            longest,
        })
    }

    /// The number of the node.
    #[inline]
    pub(crate) fn number(&self) -> u64
        ensures { result ≡ self.now.number }
    {
        self.number
    }

    /// Whether it lives.
    #[inline]
    pub(crate) fn is_alive(&self) -> bool
        ensures { result ≡ self.now.alive }
    {
        self.died.is_none()
    }

    /// How many events came before its death, if it died.
    pub(crate) fn died(&self) -> Option<usize>
        ensures { result ≡ self.now.died }
    {
        self.died
    }

    /// The most words that it keeps of a call.
    #[inline]
    pub(crate) fn longest(&self) -> usize
        ensures { result ≡ self.now.longest }
    {
        self.longest
    }

    /// It dies after so many events.
    pub(crate) fn die(&mut self, events: usize)
        ensures { self.new ≡ record (self.old) { alive = false; died = Some events } }
    {
        self.died = Some(events);
    }

    /// The words of its last read that is over.
    pub(crate) fn words_read(&self) -> &[u64]
        ensures { result.now ≡ self.now.read }
    {
        &self.read
    }

    /// Why it makes no step, if it lives. It is busy where it has a call under way.
    #[inline(always)]
    pub(crate) fn rest_refusal(&self) -> Option<WireRefusal>
        requires { is_busy (seat_in self.now.node).local ≡ is_some self.now.call }
        ensures { result ≡ rest_refusal self.now }
    {
        if self.call.is_none() {
            return Some(WireRefusal::AtRest);
        }
        if self.node.accesses() >= MOST_ACCESSES {
            return Some(WireRefusal::AccessesSpent);
        }
        None
    }

    /// Makes its next access, and tells what that found.
    #[inline(always)]
    pub(crate) fn make_access(&self, words: &mut Vec<u64>) -> u64
        requires { (p : Setting) × MayAccess p self.now.node words.old.items }
        ensures seen { (p : Setting) → MayAccess p self.now.node words.old.items
            → result ≡ seen_at (access_in p self.now.node) words.old.items }
        ensures words { (p : Setting) → MayAccess p self.now.node words.old.items
            → words.new.items ≡ words_after (access_in p self.now.node) words.old.items }
    {
        let access: Access = self.node.asks();
        perform(words, access)
    }

    /// The event of that access, if it is one. A message is named by its slot.
    #[inline(always)]
    pub(crate) fn event(&self, seen: u64) -> Option<Event>
        ensures { (p : Setting) → IsAimed p self.now.node
            → result ≡ slot_event p (seat_in self.now.node).local seen }
    {
        self.node.event(seen)
    }

    /// Continues with what its access found.
    #[inline(always)]
    pub(crate) fn go_on(&mut self, seen: u64) -> Option<NodeReply>
        requires may { (p : Setting) × FoundThere p self.old.node seen }
        requires busy { is_busy (seat_in self.old.node).local ≡ true }
        requires few { (seat_in self.old.node).accesses < most_accesses }
        ensures made { (p : Setting) → (words : List ℕ) → MayAccess p self.old.node words
            → seen ≡ seen_at (access_in p self.old.node) words
            → HasGoneOn p self.old.node words result self.new.node }
        ensures number { self.new.number ≡ self.old.number }
        ensures lives { LivesAs self.old self.new }
        ensures call { self.new.call ≡ self.old.call }
        ensures read { self.new.read ≡ self.old.read }
        ensures rooms { KeepsRooms self.old.node self.new.node }
    {
        self.node.place();
        self.node.go_on(seen)
    }
}
