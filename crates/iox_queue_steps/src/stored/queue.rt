//! A queue and its two parties.
ghost use Rattle.std.specs.Prelude.{◌≡◌};

use super::answer::StepAnswer;
use super::popper::StoredPopper;
use super::pusher::StoredPusher;
use iox_steps::{QueueKind, Site};
use std::marker::Model;

/// A queue among words, with its two parties, each of which makes one access at a time. It is a
/// queue machine that writes down no events.
#[derive(Drop)]
pub struct StoredQueue {
    words: Vec<u64>,
    pusher: StoredPusher,
    popper: StoredPopper,
}

impl Model for StoredQueue {
    ghost use Rattle.std.specs.Prelude.{◌≡◌};
    ghost use Rattle.iox_queue_steps.specs.Stored.{Stored, ArePartsAfterCalls};

    ghost Value = { Stored };

    ghost view = { λ q. record {
      site = q.pusher.site;
      words = q.words.items;
      pushes = q.pusher.place;
      pops = q.popper.place;
    } };

    ghost invariant = { λ q. ArePartsAfterCalls q.words.items q.pusher q.popper };
}

impl StoredQueue {
    ghost use Rattle.std.specs.Prelude.{◌≡◌, ◌↔◌, ◌+◌, ◌<◌, ◌≤◌, IsTrue, length};
    ghost use Rattle.std.specs.Bool.{OnTrue, OnFalse};
    ghost use Rattle.iox_steps.specs.declared.side.Pushing.TheVariants as pushing;
    ghost use Rattle.iox_steps.specs.declared.side.Popping.TheVariants as popping;
    ghost use Rattle.iox_steps.specs.declared.push.Push.TheVariants as push;
    ghost use Rattle.iox_steps.specs.declared.push.FullLook.TheVariants as full_look;
    ghost use Rattle.iox_steps.specs.declared.pop.Pop.TheVariants as pop;
    ghost use Rattle.iox_steps.specs.declared.pop.EmptyLook.TheVariants as empty_look;
    ghost use Rattle.iox_steps.specs.Sites.{size};
    ghost use Rattle.iox_queue_steps.specs.Queues.{IsEmptyAt};
    ghost use Rattle.iox_queue_steps.specs.Stored.{IsAfterCalls, StepsPush, StepsPop};

    /// The empty queue at this place among the words, at whatever position it is.
    pub fn new(words: Vec<u64>, site: Site) -> StoredQueue
        requires room { site.base + size site ≤ length words.items }
        requires empty { IsEmptyAt site words.items }
        requires some { site.kind ≡ QueueKind.Overflowing → 0 < site.capacity }
        ensures { result ≡ record {
          site = site;
          words = words.items;
          pushes = pushing.AtRest;
          pops = popping.AtRest;
        } }
    {
        let position = words[site.base];
        StoredQueue {
            words,
            pusher: StoredPusher::new(site, position),
            popper: StoredPopper::new(site, position),
        }
    }

    /// The shared words.
    pub fn words(&self) -> &[u64]
        ensures words { result.now ≡ self.now.words }
        ensures queue { IsAfterCalls self.now }
    {
        &self.words
    }

    /// Begins a push, with no access, if the pushing party is at rest.
    #[inline]
    pub fn begin_push(&mut self, value: u64) -> bool
        ensures free { IsTrue result ↔ (self.old.pushes ≡ pushing.AtRest) }
        ensures begun { OnTrue result (self.new ≡ record {
          site = self.old.site;
          words = self.old.words;
          pushes = pushing.Pushes (push.LoadsWrite value);
          pops = self.old.pops;
        }) }
        ensures busy { OnFalse result (self.new ≡ self.old) }
    {
        self.pusher.begin_push(value)
    }

    /// Begins a look at fullness, with no access, if the pushing party is at rest.
    #[inline]
    pub fn begin_is_full(&mut self) -> bool
        ensures free { IsTrue result ↔ (self.old.pushes ≡ pushing.AtRest) }
        ensures begun { OnTrue result (self.new ≡ record {
          site = self.old.site;
          words = self.old.words;
          pushes = pushing.Looks full_look.LoadsWrite;
          pops = self.old.pops;
        }) }
        ensures busy { OnFalse result (self.new ≡ self.old) }
    {
        self.pusher.begin_is_full()
    }

    /// One access of the push, or of the look at fullness.
    #[inline]
    pub fn step_push(&mut self) -> StepAnswer
        ensures { StepsPush self.old result self.new }
    {
        self.pusher.step(&mut self.words)
    }

    /// Begins a pop, with no access, if the popping party is at rest.
    #[inline]
    pub fn begin_pop(&mut self) -> bool
        ensures free { IsTrue result ↔ (self.old.pops ≡ popping.AtRest) }
        ensures begun { OnTrue result (self.new ≡ record {
          site = self.old.site;
          words = self.old.words;
          pushes = self.old.pushes;
          pops = popping.Pops pop.LoadsRead;
        }) }
        ensures busy { OnFalse result (self.new ≡ self.old) }
    {
        self.popper.begin_pop()
    }

    /// Begins a look at emptiness, with no access, if the popping party is at rest.
    #[inline]
    pub fn begin_is_empty(&mut self) -> bool
        ensures free { IsTrue result ↔ (self.old.pops ≡ popping.AtRest) }
        ensures begun { OnTrue result (self.new ≡ record {
          site = self.old.site;
          words = self.old.words;
          pushes = self.old.pushes;
          pops = popping.Looks empty_look.LoadsRead;
        }) }
        ensures busy { OnFalse result (self.new ≡ self.old) }
    {
        self.popper.begin_is_empty()
    }

    /// One access of the pop, or of the look at emptiness.
    #[inline]
    pub fn step_pop(&mut self) -> StepAnswer
        ensures { StepsPop self.old result self.new }
    {
        self.popper.step(&mut self.words)
    }
}
