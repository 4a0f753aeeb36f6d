//! A message in its place of a pool, but for its words.
ghost use Rattle.std.specs.Prelude.{◌≡◌, ◌<◌, ◌^◌, ◌-◌};
ghost use Rattle.iox_tables.specs.HubStates.Tables.{no_slot, is_free};
ghost use Rattle.iox_slots.specs.Slots.{held, let_go, rewritten, taken, written};

use std::marker::Model;

/// A message in its place of a pool, but for its words, and how many lanes and handles have it.
#[derive(Clone, Copy, Debug, PartialEq, Eq, Drop)]
pub struct Slot {
    serial: u64,
    lane: u64,
    request: u64,
    elements: u64,
    holders: u64,
}

impl Model for Slot {
    ghost use Rattle.iox_tables.specs.HubStates.Tables.{SlotState};

    ghost Value = { SlotState };

    ghost view = { λ s. record {
      serial = s.serial;
      lane = s.lane;
      request = s.request;
      elements = s.elements;
      holders = s.holders;
    } };

    ghost inverse = { λ v. record {
      serial = v.serial;
      lane = v.lane;
      request = v.request;
      elements = v.elements;
      holders = v.holders;
    } };
}

impl Slot {
    /// Its message's number, of all that its port ever sent.
    #[inline]
    pub fn serial(&self) -> u64
        ensures { result ≡ self.now.serial }
    {
        self.serial
    }

    /// The lane of its responses.
    #[inline]
    pub fn lane(&self) -> u64
        ensures { result ≡ self.now.lane }
    {
        self.lane
    }

    /// The request that it is or answers.
    #[inline]
    pub fn request(&self) -> u64
        ensures { result ≡ self.now.request }
    {
        self.request
    }

    /// How many elements it has.
    #[inline]
    pub fn elements(&self) -> u64
        ensures { result ≡ self.now.elements }
    {
        self.elements
    }

    /// How many lanes and handles have it.
    #[inline]
    pub fn holders(&self) -> u64
        ensures { result ≡ self.now.holders }
    {
        self.holders
    }

    // ---- in its pool

    /// A slot that nothing was ever written to.
    pub(crate) fn new() -> Slot
        ensures { result ≡ no_slot }
    {
        Slot {
            serial: 0,
            lane: 0,
            request: 0,
            elements: 0,
            holders: 0,
        }
    }

    /// Whether nobody has it.
    #[inline]
    pub(crate) fn is_free(&self) -> bool
        ensures { result ≡ is_free self.now }
    {
        self.holders == 0
    }

    /// The slot as it is when one more has it.
    #[inline]
    pub(crate) fn held(self) -> Slot
        requires { self.holders < 2 ^ 64 - 1 }
        ensures { result ≡ held self }
    {
        let mut slot = self;
        slot.holders += 1;
        slot
    }

    /// One more has it.
    #[inline(always)]
    pub(crate) fn hold(&mut self)
        requires { self.old.holders < 2 ^ 64 - 1 }
        ensures { self.new ≡ held self.old }
    {
        self.holders += 1;
    }

    /// One less has it, and says whether nobody has it any more.
    #[inline(always)]
    pub(crate) fn leave(&mut self) -> bool
        requires { 0 < self.old.holders }
        ensures left { self.new ≡ let_go self.old }
        ensures freed { result ≡ is_free self.new }
    {
        self.holders -= 1;
        self.is_free()
    }

    /// A slot with that message, which one has.
    #[inline]
    pub(crate) fn taken(serial: u64, lane: u64, request: u64, elements: u64) -> Slot
        ensures { result ≡ taken serial lane request elements }
    {
        Slot {
            serial,
            lane,
            request,
            elements,
            holders: 1,
        }
    }

    /// Another message is in the slot, on the same lane. Who has the slot still has it.
    #[inline(always)]
    pub(crate) fn rewrite(&mut self, serial: u64, request: u64, elements: u64)
        ensures { self.new ≡ rewritten serial request elements self.old }
    {
        *self = Slot {
            serial,
            request,
            elements,
            ..*self
        };
    }

    /// The slot with another message. Who has the slot still has it.
    #[inline]
    pub(crate) fn written(self, serial: u64, lane: u64, request: u64, elements: u64) -> Slot
        ensures { result ≡ written serial lane request elements self }
    {
        Slot {
            serial,
            lane,
            request,
            elements,
            holders: self.holders,
        }
    }
}
