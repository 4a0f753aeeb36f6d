//! The party that pops and looks at emptiness, kept in memory.
ghost use Rattle.std.specs.Prelude.{◌≡◌};
ghost use Rattle.iox_steps.specs.Pops.{is_taken as was_taken};

mod place;

use super::answer::{StepAnswer, look_answer};
use super::cell::Cursor;
use super::hearing::{Hears, Nobody};
use iox_steps::{Access, EmptyLook, Pop, QueueEvent, QueueKind, Site, perform};
use std::marker::Model;

/// Where a pop or a look at emptiness is, as a bare name without its numbers.
#[derive(Clone, Copy)]
pub enum PopAt {
    /// a pop that reads the read position next
    LoadsRead,
    /// a pop that reads the write position next
    LoadsWrite,
    /// a pop that reads the cell of its position next
    LoadsCell,
    /// a pop that raises the read position next
    Takes,
    /// a look at emptiness that reads the read position next
    LookLoadsRead,
    /// a look at emptiness that reads the write position next
    LookLoadsWrite,
    /// no call is under way
    Rest,
}

/// A party that pops and looks at emptiness, kept in memory between its steps.
#[derive(Drop)]
pub struct StoredPopper {
    site: Site,
    at: PopAt,
    /// the read position that it saw
    position: u64,
    /// the value that it loaded
    value: u64,
    /// the cell of the position
    cell: usize,
    cursor: Cursor,
}

impl Model for StoredPopper {
    ghost use Rattle.iox_queue_steps.specs.Stored.{Popper};
    ghost use Rattle.iox_queue_steps.specs.StoredPlaces.{popping_of, KnowsCell};

    ghost Value = { Popper };

    ghost view = { λ p. record {
      site = p.site;
      place = popping_of p.at p.position p.value p.cell;
    } };

    ghost invariant = { λ p. KnowsCell p.site p.cursor };
}

impl StoredPopper {
    ghost use Rattle.std.specs.Prelude.{◌≡◌, ◌↔◌, ◌+◌, ◌^◌, ◌<◌, IsTrue, length};
    ghost use Rattle.std.specs.Bool.{OnTrue, OnFalse};
    ghost use Rattle.iox_steps.specs.declared.side.Popping.TheVariants.{AtRest, Pops, Looks};
    ghost use Rattle.iox_steps.specs.declared.pop.Pop.TheVariants.{LoadsRead};
    ghost use Rattle.iox_steps.specs.declared.pop.EmptyLook.TheVariants as empty_look;
    ghost use Rattle.iox_steps.specs.Accesses.{IsWithin, words_after};
    ghost use Rattle.iox_steps.specs.Sites.{size};
    ghost use Rattle.iox_steps.specs.Sides.{popping_access, popping_sees, popping_after, popping_event};
    ghost use Rattle.iox_queue_steps.specs.Stored.{popping_says};
    ghost use Rattle.iox_queue_steps.specs.StoredPlaces.{IsPop};

    /// A party at rest, which expects this read position first.
    pub fn new(site: Site, position: u64) -> StoredPopper
        requires { site.base + size site < 2 ^ 64 }
        ensures { result ≡ record { site = site; place = AtRest } }
    {
        StoredPopper {
            site,
            at: PopAt::Rest,
            position: 0,
            value: 0,
            cell: 0,
            cursor: Cursor::new(site, position),
        }
    }

    /// Begins a pop, with no access, if no call is under way.
    #[inline]
    pub fn begin_pop(&mut self) -> bool
        ensures free { IsTrue result ↔ (self.old.place ≡ AtRest) }
        ensures begun { OnTrue result
            (self.new ≡ record { site = self.old.site; place = Pops LoadsRead }) }
        ensures busy { OnFalse result (self.new ≡ self.old) }
    {
        match self.at {
            PopAt::Rest => {
                self.at = PopAt::LoadsRead;
                true
            }
            _ => false,
        }
    }

    /// Begins a look at emptiness, with no access, if no call is under way.
    #[inline]
    pub fn begin_is_empty(&mut self) -> bool
        ensures free { IsTrue result ↔ (self.old.place ≡ AtRest) }
        ensures begun { OnTrue result
            (self.new ≡ record { site = self.old.site; place = Looks empty_look.LoadsRead }) }
        ensures busy { OnFalse result (self.new ≡ self.old) }
    {
        let free = self.is_at_rest();
        if free {
            self.at = PopAt::LookLoadsRead;
        }
        free
    }

    /// Is no call under way?
    #[inline]
    pub(crate) fn is_at_rest(&self) -> bool
        ensures { IsTrue result ↔ (self.now.place ≡ AtRest) }
    {
        matches!(self.at, PopAt::Rest)
    }

    /// Makes its next access, and continues.
    #[inline]
    pub fn step(&mut self, words: &mut Vec<u64>) -> StepAnswer
        requires within { IsWithin 0 (length words.old.items)
            (popping_access self.old.site self.old.place) }
        ensures words { words.new.items ≡
            words_after (popping_access self.old.site self.old.place) words.old.items }
        ensures site { self.new.site ≡ self.old.site }
        ensures place { self.new.place ≡ popping_after self.old.site self.old.place
            (popping_sees self.old.site self.old.place words.old.items) }
        ensures answer { result ≡ popping_says self.old.site self.old.place
            (popping_sees self.old.site self.old.place words.old.items) }
    {
        self.step_heard(words, &mut Nobody)
    }

    /// The same; it also gives `ear` the event of the access.
    #[inline(always)]
    pub(crate) fn step_heard<H: Hears>(&mut self, words: &mut Vec<u64>, ear: &mut H) -> StepAnswer
        requires within { IsWithin 0 (length words.old.items)
            (popping_access self.old.site self.old.place) }
        requires listens { H.can_hear ear.old }
        ensures words { words.new.items ≡
            words_after (popping_access self.old.site self.old.place) words.old.items }
        ensures heard { H.heard ear.old (popping_event self.old.site self.old.place
            (popping_sees self.old.site self.old.place words.old.items)) ear.new }
        ensures site { self.new.site ≡ self.old.site }
        ensures place { self.new.place ≡ popping_after self.old.site self.old.place
            (popping_sees self.old.site self.old.place words.old.items) }
        ensures answer { result ≡ popping_says self.old.site self.old.place
            (popping_sees self.old.site self.old.place words.old.items) }
    {
        match self.at {
            PopAt::Rest => ear.hear(QueueEvent::Quiet),
            PopAt::LookLoadsRead => {
                self.position = perform(words, Access::Load(self.site.base + 1));
                ear.hear(QueueEvent::Quiet);
                self.at = PopAt::LookLoadsWrite;
            }
            PopAt::LookLoadsWrite => {
                let (site, read) = (self.site, self.position);
                let write = perform(words, Access::Load(site.base));
                ear.hear(EmptyLook::LoadsWrite(read).event(site, write));
                self.at = PopAt::Rest;
                return look_answer(site.is_empty(read, write));
            }
            PopAt::LoadsRead | PopAt::LoadsWrite | PopAt::LoadsCell | PopAt::Takes => {
                return self.pop_on(words, ear);
            }
        }
        StepAnswer::Going
    }

    /// The same of a pop.
    #[inline(always)]
    fn pop_on<H: Hears>(&mut self, words: &mut Vec<u64>, ear: &mut H) -> StepAnswer
        requires pop { IsPop self.old.place }
        requires within { IsWithin 0 (length words.old.items)
            (popping_access self.old.site self.old.place) }
        requires listens { H.can_hear ear.old }
        ensures words { words.new.items ≡
            words_after (popping_access self.old.site self.old.place) words.old.items }
        ensures heard { H.heard ear.old (popping_event self.old.site self.old.place
            (popping_sees self.old.site self.old.place words.old.items)) ear.new }
        ensures site { self.new.site ≡ self.old.site }
        ensures place { self.new.place ≡ popping_after self.old.site self.old.place
            (popping_sees self.old.site self.old.place words.old.items) }
        ensures answer { result ≡ popping_says self.old.site self.old.place
            (popping_sees self.old.site self.old.place words.old.items) }
    {
        match self.at {
            PopAt::LoadsRead => {
                self.position = perform(words, Access::Load(self.site.base + 1));
                ear.hear(QueueEvent::Quiet);
                self.at = PopAt::LoadsWrite;
            }
            PopAt::LoadsWrite => {
                let read = self.position;
                let write = perform(words, Access::Load(self.site.base));
                ear.hear(Pop::LoadsWrite(read).event(self.site, write));
                if self.site.is_empty(read, write) {
                    self.at = PopAt::Rest;
                    return StepAnswer::Done;
                }
                self.cell = self.cursor.visit(self.site, read);
                self.at = PopAt::LoadsCell;
            }
            PopAt::LoadsCell => {
                self.value = perform(words, Access::Load(self.cell));
                ear.hear(QueueEvent::Quiet);
                self.at = PopAt::Takes;
            }
            PopAt::Takes => {
                let (read, value) = (self.position, self.value);
                let place = Pop::Takes(read, value);
                let seen = perform(words, place.access(self.site));
                ear.hear(place.event(self.site, seen));
                if is_taken(self.site.kind, read, seen) {
                    self.at = PopAt::Rest;
                    return StepAnswer::Gives(value);
                }
                self.cell = self.cursor.visit(self.site, seen);
                self.position = seen;
                self.at = PopAt::LoadsCell;
            }
            _ => unreachable!(),
        }
        StepAnswer::Going
    }
}

/// Was the value taken by an access that found `seen`?
#[inline]
fn is_taken(kind: QueueKind, read: u64, seen: u64) -> bool
    ensures { result ≡ was_taken kind read seen }
{
    match kind {
        QueueKind::Index => true,
        QueueKind::Overflowing => seen == read,
    }
}
