//! What comes to one port, from each port that is connected to it.
ghost use Rattle.std.specs.Option.{option_map};
ghost use Rattle.std.specs.Prelude.{◌≡◌, ◌-◌, ◌<◌, IfOk, IfSome, None, Some, is_some, length, option_copied, slice_get, take};
ghost use Rattle.std.specs.Vec.{vec_capacity};
ghost use Rattle.iox_lanes.specs.Lanes.{without_returned};
ghost use Rattle.iox_lanes.specs.Pipes.{lane_to_get, on_lane, with_lane, with_state};
ghost use Rattle.iox_lanes.specs.Visited.{all_visited, all_visits};
ghost use Rattle.iox_lanes.specs.Incomings.{IncomingState, IsFirstAt, all_visited_of, connected, disconnected, has_room_for, has_waiting_from_any, no_pipes, on_pipe_by, rank_from, with_pipe_by};

mod known;
mod near;
mod usual;

use crate::pipe::{Next, Pipe};
use crate::search::LaneVisit;
use crate::steps::{LaneStep, PipeStep, StateStep};
use crate::wanted::{Labels, Wanted};
use std::alloc::{AllocError, Global};
use std::marker::Model;

/// What the visits of a receiver came to.
#[derive(Clone, Copy, Debug, PartialEq, Eq, Drop)]
pub enum Visits {
    /// From this sender, of that pool, the message in this place was taken.
    Got(u64, usize, u64),
    /// No lane gave a message. On one, something waits, and the receiver has as many as it may.
    AtLimit,
    /// Nothing that is wanted waits.
    Nothing,
}

/// What comes to a port, from each port of the other role, in the order in which they came.
///
/// It takes memory when it is made, and never again. Where it has no pipe of a rank, nothing waits
/// there, and nothing is delivered.
#[derive(Drop)]
pub struct Incoming {
    pipes: Vec<Pipe>,
    most: usize,
}

impl Model for Incoming {
    ghost use Rattle.std.specs.Prelude.{◌≤◌};
    ghost use Rattle.std.specs.Vec.{vec_capacity};
    ghost use Rattle.iox_lanes.specs.Incomings.{IncomingState};

    ghost Value = { IncomingState };

    ghost view = { λ c. record { most = c.most; pipes = c.pipes.items } };

    ghost invariant = { λ c. c.most ≤ vec_capacity c.pipes };
}

/// Visits the lane of that number of each pipe, in their order, until one gives a message.
#[inline(always)]
fn visit_pipes<L: Labels>(all: &mut Vec<Pipe>, lane: usize, wanted: Wanted, labels: &L) -> Visits
    ensures visits { result ≡ all_visits wanted (L.label_of labels.now) lane all.old.items }
    ensures left { all.new.items ≡ all_visited wanted (L.label_of labels.now) lane all.old.items }
    ensures capacity { vec_capacity all.new ≡ vec_capacity all.old }
{
    let mut waits = false;
    for i in 0..all.len() {
        let pipe = &mut all[i];
        let sender = pipe.sender();
        let pool = pipe.pool(lane);
        match pipe.visit(lane, wanted, labels) {
            LaneVisit::Got(place) => return Visits::Got(sender, pool, place),
            LaneVisit::AtLimit => waits = true,
            LaneVisit::Nothing => {}
        }
    }
    if waits {
        return Visits::AtLimit;
    }
    Visits::Nothing
}

impl Incoming {
    /// Makes room for so many pipes. It fails only for want of memory.
    pub fn new(alloc: Global, most: usize) -> Result<Incoming, AllocError>
        ensures { IfOk result (λ c. c ≡ no_pipes most) }
    {
        Ok(Incoming {
            pipes: Vec::with_capacity(alloc, most)?,
            most,
        })
    }

    /// How many ports are connected.
    #[inline]
    pub fn len(&self) -> usize
        ensures { result ≡ length self.now.pipes }
    {
        self.pipes.len()
    }

    /// The rank of the pipe from this sender, if it is connected.
    pub fn rank(&self, sender: u64) -> Option<usize>
        ensures first { result ≡ rank_from self.now.pipes sender }
        ensures within { IfSome result (λ rank. rank < length self.now.pipes) }
    {
        self.pipes.iter().position(|pipe| pipe.sender() == sender)
    }

    /// The same, which is looked for at the hint first.
    #[inline]
    #[tactic(auto, using(crate::proofs::Senders::first_at))]
    pub fn rank_at(&self, sender: u64, hint: usize) -> Option<usize>
        requires once { IsFirstAt self.now.pipes hint }
        ensures first { result ≡ rank_from self.now.pipes sender }
        ensures within { IfSome result (λ rank. rank < length self.now.pipes) }
    {
        if hint < self.pipes.len() {
            if self.pipes[hint].sender() == sender {
                return Some(hint);
            }
        }
        self.rank(sender)
    }

    /// Connects one more port, and says whether there was room.
    pub fn connect(&mut self, pipe: Pipe) -> bool
        ensures room { result ≡ has_room_for self.old }
        ensures connected { self.new ≡ connected self.old pipe }
    {
        if self.pipes.len() < self.most {
            if self.pipes.push(pipe).is_err() {
                unreachable!();
            }
            return true;
        }
        false
    }

    /// Takes the pipe of that rank out, if there is one.
    pub fn disconnect(&mut self, rank: usize) -> Option<Pipe>
        ensures pipe { result ≡ slice_get self.old.pipes rank }
        ensures disconnected { self.new ≡ disconnected self.old rank }
    {
        if rank < self.pipes.len() {
            return Some(self.pipes.remove(rank));
        }
        None
    }

    /// Takes the last pipe out, if there is one.
    pub fn take_pipe(&mut self) -> Option<Pipe>
        ensures last { result ≡ slice_get self.old.pipes (length self.old.pipes - 1) }
        ensures left { self.new
            ≡ record (self.old) { pipes = take (length self.old.pipes - 1) self.old.pipes } }
    {
        self.pipes.pop()
    }

    // ---- the pipe from a sender

    /// The pipe from this sender, if it is connected.
    #[inline]
    pub fn pipe(&self, sender: u64) -> Option<&Pipe>
        ensures { option_copied result ≡ on_pipe_by (λ p. Some p) None self.now sender }
    {
        match self.rank(sender) {
            Some(rank) => Some(&self.pipes[rank]),
            None => None,
        }
    }

    /// Takes a step on the pipe from this sender.
    #[inline]
    pub fn on_pipe<S: PipeStep>(&mut self, sender: u64, step: &S) -> S::Answer
        ensures told { result ≡ on_pipe_by (S.told step.now) (S.none step.now) self.old sender }
        ensures changed { self.new ≡ with_pipe_by (S.changed step.now) self.old sender }
    {
        let Some(rank) = self.rank(sender) else {
            return step.nothing();
        };
        step.step(&mut self.pipes[rank])
    }

    /// The same, where the pipe is looked for at the hint first.
    #[inline]
    pub fn on_pipe_at<S: PipeStep>(&mut self, sender: u64, hint: usize, step: &S) -> S::Answer
        requires once { IsFirstAt self.old.pipes hint }
        ensures told { result ≡ on_pipe_by (S.told step.now) (S.none step.now) self.old sender }
        ensures changed { self.new ≡ with_pipe_by (S.changed step.now) self.old sender }
    {
        let Some(rank) = self.rank_at(sender, hint) else {
            return step.nothing();
        };
        let pipe = &mut self.pipes[rank];
        step.step(pipe)
    }

    /// Takes a step on that lane of the pipe from this sender.
    #[inline]
    pub fn on_lane<S: LaneStep>(&mut self, sender: u64, lane: usize, step: &S) -> S::Answer
        ensures told { result ≡ on_pipe_by (λ p. on_lane (S.told step.now) (S.none step.now) p lane)
            (S.none step.now) self.old sender }
        ensures changed { self.new
            ≡ with_pipe_by (λ p. with_lane (S.changed step.now) p lane) self.old sender }
    {
        match self.rank(sender) {
            Some(rank) => step.step(&mut self.pipes[rank], lane),
            None => step.nothing(),
        }
    }

    /// Takes a step on that request state of the pipe from this sender.
    #[inline]
    pub fn on_state<S: StateStep>(&mut self, sender: u64, lane: usize, step: &S)
        ensures { self.new
            ≡ with_pipe_by (λ p. with_state (S.changed step.now) p lane) self.old sender }
    {
        match self.rank(sender) {
            Some(rank) => step.step(&mut self.pipes[rank], lane),
            None => {}
        }
    }

    /// The lowest lane from this sender on which something that was given back is left to get back,
    /// if there is one.
    #[inline]
    pub fn lane_to_get(&mut self, sender: u64) -> Option<usize>
        ensures lowest { result ≡ on_pipe_by lane_to_get None self.old sender }
        ensures unchanged { self.new ≡ self.old }
    {
        match self.rank(sender) {
            Some(rank) => self.pipes[rank].lane_to_get(),
            None => None,
        }
    }

    /// Gets back the oldest message of those that were given back on the lowest lane from this
    /// sender on which something is left to get back, if there is one.
    #[inline(always)]
    pub fn get_next(&mut self, sender: u64) -> Option<Next>
        ensures lowest { option_map (λ n. n.lane) result
            ≡ on_pipe_by lane_to_get None self.old sender }
        ensures oldest { IfSome result (λ n.
            on_pipe_by (λ p. on_lane (λ l. slice_get l.returned 0) None p n.lane)
            None self.old sender
            ≡ Some n.place) }
        ensures got_back { IfSome result (λ n.
            self.new ≡ with_pipe_by (λ p. with_lane without_returned p n.lane) self.old sender) }
        ensures more { IfSome result (λ n.
            n.more ≡ is_some (on_pipe_by lane_to_get None self.new sender)) }
        ensures unchanged { result ≡ None → self.new ≡ self.old }
    {
        match self.rank(sender) {
            Some(rank) => self.pipes[rank].get_next(),
            None => None,
        }
    }

    // ---- all pipes

    /// Whether something waits on the lane of that number, from some sender.
    pub fn has_waiting_from_any(&self, lane: usize) -> bool
        ensures { result ≡ has_waiting_from_any self.now lane }
    {
        self.pipes.iter().any(|pipe| pipe.has_waiting(lane))
    }

    /// Visits the lane of that number of each sender, in their order, until one gives a message.
    #[inline(always)]
    #[tactic(auto, using(crate::proofs::Visiting::none_comes))]
    pub fn visit_all<L: Labels>(&mut self, lane: usize, wanted: Wanted, labels: &L) -> Visits
        ensures visits { result ≡ all_visits wanted (L.label_of labels.now) lane self.old.pipes }
        ensures visited { self.new ≡ all_visited_of wanted (L.label_of labels.now) lane self.old }
    {
        if self.pipes.is_empty() {
            return Visits::Nothing;
        }
        visit_pipes(&mut self.pipes, lane, wanted, labels)
    }
}
