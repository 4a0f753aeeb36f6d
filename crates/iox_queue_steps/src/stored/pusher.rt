//! The party that pushes and looks at fullness, kept in memory.
ghost use Rattle.std.specs.Prelude.{◌≡◌, ◌==◌};
ghost use Rattle.iox_steps.specs.Sites.{last_position};
ghost use Rattle.iox_steps.specs.Pushes.{is_refused};

mod place;

use super::answer::{StepAnswer, look_answer};
use super::cell::Cursor;
use super::hearing::{Hears, Nobody};
use iox_steps::{Access, FullLook, Push, QueueEvent, QueueKind, Site, perform};
use std::marker::Model;

/// Where a push or a look at fullness is, as a bare name without its numbers.
#[derive(Clone, Copy)]
pub enum PushAt {
    /// a push that reads the write position next
    LoadsWrite,
    /// a push that reads the read position next
    LoadsRead,
    /// a push that puts its value in the cell next
    StoresCell,
    /// a push that raises the write position next
    StoresWrite,
    /// a push that raises the read position next, to push out the oldest value
    Evicts,
    /// a push that reads the value that it pushed out next
    TakesOld,
    /// a look at fullness that reads the write position next
    LookLoadsWrite,
    /// a look at fullness that reads the read position next
    LookLoadsRead,
    /// no call is under way
    Rest,
}

/// A party that pushes and looks at fullness, kept in memory between its steps.
#[derive(Drop)]
pub struct StoredPusher {
    site: Site,
    at: PushAt,
    value: u64,
    /// the write position, then the next one
    position: u64,
    /// is the queue full at this read position?
    full: bool,
    read: u64,
    /// the cell of the write position
    cell: usize,
    cursor: Cursor,
    /// the cell of the value that was pushed out
    oldest: usize,
}

impl Model for StoredPusher {
    ghost use Rattle.iox_queue_steps.specs.Stored.{Pusher};
    ghost use Rattle.iox_queue_steps.specs.StoredPlaces.{pushing_of, KnowsCell};

    ghost Value = { Pusher };

    ghost view = { λ p. record {
      site = p.site;
      place = pushing_of p.at p.value p.position p.full p.read p.cell p.oldest;
    } };

    ghost invariant = { λ p. KnowsCell p.site p.cursor };
}

impl StoredPusher {
    ghost use Rattle.std.specs.Prelude.{◌≡◌, ◌↔◌, ◌+◌, ◌^◌, ◌<◌, IsTrue, length};
    ghost use Rattle.std.specs.Bool.{OnTrue, OnFalse};
    ghost use Rattle.iox_steps.specs.declared.side.Pushing.TheVariants.{AtRest, Pushes, Looks};
    ghost use Rattle.iox_steps.specs.declared.push.Push.TheVariants.{LoadsWrite};
    ghost use Rattle.iox_steps.specs.declared.push.FullLook.TheVariants as full_look;
    ghost use Rattle.iox_steps.specs.Accesses.{IsWithin, words_after};
    ghost use Rattle.iox_steps.specs.Sites.{size};
    ghost use Rattle.iox_steps.specs.Sides.{pushing_access, pushing_sees, pushing_after, pushing_event};
    ghost use Rattle.iox_queue_steps.specs.Stored.{pushing_says};
    ghost use Rattle.iox_queue_steps.specs.StoredPlaces.{IsPublishing, IsEvicting};

    /// A party at rest, which expects this write position first.
    pub fn new(site: Site, position: u64) -> StoredPusher
        requires { site.base + size site < 2 ^ 64 }
        ensures { result ≡ record { site = site; place = AtRest } }
    {
        StoredPusher {
            site,
            at: PushAt::Rest,
            value: 0,
            position: 0,
            full: false,
            read: 0,
            cell: 0,
            cursor: Cursor::new(site, position),
            oldest: 0,
        }
    }

    /// Begins a push, with no access, if no call is under way.
    #[inline]
    pub fn begin_push(&mut self, value: u64) -> bool
        ensures free { IsTrue result ↔ (self.old.place ≡ AtRest) }
        ensures begun { OnTrue result
            (self.new ≡ record { site = self.old.site; place = Pushes (LoadsWrite value) }) }
        ensures busy { OnFalse result (self.new ≡ self.old) }
    {
        match self.at {
            PushAt::Rest => {
                self.value = value;
                self.at = PushAt::LoadsWrite;
                true
            }
            _ => false,
        }
    }

    /// Begins a look at fullness, with no access, if no call is under way.
    #[inline]
    pub fn begin_is_full(&mut self) -> bool
        ensures free { IsTrue result ↔ (self.old.place ≡ AtRest) }
        ensures begun { OnTrue result
            (self.new ≡ record { site = self.old.site; place = Looks full_look.LoadsWrite }) }
        ensures busy { OnFalse result (self.new ≡ self.old) }
    {
        let free = self.is_at_rest();
        if free {
            self.at = PushAt::LookLoadsWrite;
        }
        free
    }

    /// What its pushes do to a full queue.
    #[inline]
    pub(crate) fn kind(&self) -> QueueKind
        ensures { result ≡ self.now.site.kind }
    {
        self.site.kind
    }

    /// Is no call under way?
    #[inline]
    pub(crate) fn is_at_rest(&self) -> bool
        ensures { IsTrue result ↔ (self.now.place ≡ AtRest) }
    {
        matches!(self.at, PushAt::Rest)
    }

    /// Makes its next access, and continues.
    #[inline]
    pub fn step(&mut self, words: &mut Vec<u64>) -> StepAnswer
        requires within { IsWithin 0 (length words.old.items)
            (pushing_access self.old.site self.old.place) }
        ensures words { words.new.items ≡
            words_after (pushing_access self.old.site self.old.place) words.old.items }
        ensures site { self.new.site ≡ self.old.site }
        ensures place { self.new.place ≡ pushing_after self.old.site self.old.place
            (pushing_sees self.old.site self.old.place words.old.items) }
        ensures answer { result ≡ pushing_says self.old.site self.old.place
            (pushing_sees self.old.site self.old.place words.old.items) }
    {
        self.step_heard(words, &mut Nobody)
    }

    /// The same; it also gives `ear` the event of the access.
    #[inline(always)]
    pub(crate) fn step_heard<H: Hears>(&mut self, words: &mut Vec<u64>, ear: &mut H) -> StepAnswer
        requires within { IsWithin 0 (length words.old.items)
            (pushing_access self.old.site self.old.place) }
        requires listens { H.can_hear ear.old }
        ensures words { words.new.items ≡
            words_after (pushing_access self.old.site self.old.place) words.old.items }
        ensures heard { H.heard ear.old (pushing_event self.old.site self.old.place
            (pushing_sees self.old.site self.old.place words.old.items)) ear.new }
        ensures site { self.new.site ≡ self.old.site }
        ensures place { self.new.place ≡ pushing_after self.old.site self.old.place
            (pushing_sees self.old.site self.old.place words.old.items) }
        ensures answer { result ≡ pushing_says self.old.site self.old.place
            (pushing_sees self.old.site self.old.place words.old.items) }
    {
        match self.at {
            PushAt::Rest => ear.hear(QueueEvent::Quiet),
            PushAt::LookLoadsWrite => {
                self.position = perform(words, Access::Load(self.site.base));
                ear.hear(QueueEvent::Quiet);
                self.at = PushAt::LookLoadsRead;
            }
            PushAt::LookLoadsRead => {
                let (site, write) = (self.site, self.position);
                let read = perform(words, Access::Load(site.base + 1));
                ear.hear(FullLook::LoadsRead(write).event(site, read));
                return ends(&mut self.at, look_answer(site.is_full(read, write)));
            }
            PushAt::LoadsWrite | PushAt::LoadsRead | PushAt::StoresCell | PushAt::StoresWrite => {
                return self.push_on(words, ear);
            }
            PushAt::Evicts | PushAt::TakesOld => return self.evict_on(words, ear),
        }
        StepAnswer::Going
    }

    /// The same of a push that has its value still to publish.
    #[inline(always)]
    fn push_on<H: Hears>(&mut self, words: &mut Vec<u64>, ear: &mut H) -> StepAnswer
        requires push { IsPublishing self.old.place }
        requires within { IsWithin 0 (length words.old.items)
            (pushing_access self.old.site self.old.place) }
        requires listens { H.can_hear ear.old }
        ensures words { words.new.items ≡
            words_after (pushing_access self.old.site self.old.place) words.old.items }
        ensures heard { H.heard ear.old (pushing_event self.old.site self.old.place
            (pushing_sees self.old.site self.old.place words.old.items)) ear.new }
        ensures site { self.new.site ≡ self.old.site }
        ensures place { self.new.place ≡ pushing_after self.old.site self.old.place
            (pushing_sees self.old.site self.old.place words.old.items) }
        ensures answer { result ≡ pushing_says self.old.site self.old.place
            (pushing_sees self.old.site self.old.place words.old.items) }
    {
        match self.at {
            PushAt::LoadsWrite => {
                self.position = perform(words, Access::Load(self.site.base));
                ear.hear(QueueEvent::Quiet);
                self.at = PushAt::LoadsRead;
            }
            PushAt::LoadsRead => {
                let write = self.position;
                let read = perform(words, Access::Load(self.site.base + 1));
                let full = self.site.is_full(read, write);
                self.full = full;
                self.read = read;
                ear.hear(Push::LoadsRead(self.value, write).event(self.site, read));
                if refuses(self.site.kind, full, write) {
                    return ends(&mut self.at, StepAnswer::Refuses(self.value));
                }
                self.cell = self.cursor.visit(self.site, write);
                self.position = write + 1;
                self.at = PushAt::StoresCell;
            }
            PushAt::StoresCell => {
                perform(words, Access::Store(self.cell, self.value));
                ear.hear(QueueEvent::Quiet);
                self.at = PushAt::StoresWrite;
            }
            PushAt::StoresWrite => {
                perform(words, Access::Store(self.site.base, self.position));
                ear.hear(QueueEvent::Publish(self.value));
                if !self.full {
                    return ends(&mut self.at, StepAnswer::Done);
                }
                self.at = PushAt::Evicts;
            }
            _ => unreachable!(),
        }
        StepAnswer::Going
    }

    /// The same of a push that has published its value, and pushes the oldest out.
    #[inline(always)]
    fn evict_on<H: Hears>(&mut self, words: &mut Vec<u64>, ear: &mut H) -> StepAnswer
        requires push { IsEvicting self.old.place }
        requires within { IsWithin 0 (length words.old.items)
            (pushing_access self.old.site self.old.place) }
        requires listens { H.can_hear ear.old }
        ensures words { words.new.items ≡
            words_after (pushing_access self.old.site self.old.place) words.old.items }
        ensures heard { H.heard ear.old (pushing_event self.old.site self.old.place
            (pushing_sees self.old.site self.old.place words.old.items)) ear.new }
        ensures site { self.new.site ≡ self.old.site }
        ensures place { self.new.place ≡ pushing_after self.old.site self.old.place
            (pushing_sees self.old.site self.old.place words.old.items) }
        ensures answer { result ≡ pushing_says self.old.site self.old.place
            (pushing_sees self.old.site self.old.place words.old.items) }
    {
        match self.at {
            PushAt::Evicts => {
                let read = self.read;
                if perform(words, Push::Evicts(read).access(self.site)) != read {
                    ear.hear(QueueEvent::Quiet);
                    return ends(&mut self.at, StepAnswer::Done);
                }
                ear.hear(QueueEvent::Evict);
                self.oldest = self.cursor.before(self.site, read);
                self.at = PushAt::TakesOld;
            }
            PushAt::TakesOld => {
                let oldest = perform(words, Access::Load(self.oldest));
                ear.hear(QueueEvent::Learn(oldest));
                return ends(&mut self.at, StepAnswer::Gives(oldest));
            }
            _ => unreachable!(),
        }
        StepAnswer::Going
    }
}

/// The call ends with this answer.
#[inline]
fn ends(at: &mut PushAt, answer: StepAnswer) -> StepAnswer
    ensures at { at.new ≡ PushAt.Rest }
    ensures answer { result ≡ answer }
{
    *at = PushAt::Rest;
    answer
}

/// Is a push refused at this write position, of a queue that is full or not?
#[inline]
fn refuses(kind: QueueKind, full: bool, write: u64) -> bool
    ensures { result ≡ is_refused kind (write == last_position) full }
{
    if write == u64::MAX {
        return true;
    }
    if full {
        match kind {
            QueueKind::Index => return true,
            QueueKind::Overflowing => {}
        }
    }
    false
}
