//! What is kept of ports that are gone.
ghost use Rattle.std.specs.Option.{option_map};
ghost use Rattle.std.specs.Prelude.{◌≡◌, ◌-◌, ◌<◌, IfOk, IfSome, None, Some, is_some, length, option_copied, slice_get, take};
ghost use Rattle.iox_lanes.specs.Lanes.{without_returned};
ghost use Rattle.iox_lanes.specs.Pipes.{lane_to_get, with_state};
ghost use Rattle.iox_lanes.specs.Visited.{all_visited, all_visits};
ghost use Rattle.iox_lanes.specs.Incomings.{IncomingState, all_visited_of, given_up_for, has_waiting_from_any, no_pipes, on_lane_of, on_pipe, rank_from, with_kept, with_lane_of, with_pipe};

use crate::incoming::Visits;
use crate::pipe::{Next, Pipe};
use crate::search::LaneVisit;
use crate::steps::{LaneStep, PipeStep, StateStep};
use crate::wanted::{Labels, Wanted};
use circular_buffer::HeapCircularBuffer;
use std::alloc::{AllocError, Global};
use std::marker::Model;

/// The pipes that a port keeps of ports that are gone, the oldest first. They stand in a ring: as
/// the oldest is given up, no other moves.
///
/// It takes memory when it is made, and never again. Where it has no pipe of a rank, nothing waits
/// there, and nothing is changed.
#[derive(Drop)]
pub struct Expired {
    pipes: HeapCircularBuffer<Pipe>,
}

impl Model for Expired {
    ghost use Rattle.std.specs.Prelude.{◌≤◌, length};
    ghost use Rattle.iox_lanes.specs.Incomings.{IncomingState};

    ghost Value = { IncomingState };

    ghost view = { λ c. record { most = c.pipes.capacity; pipes = c.pipes.items } };

    ghost invariant = { λ c. length c.pipes.items ≤ c.pipes.capacity };
}

/// Visits the lane of that number of each pipe, in their order, until one gives a message.
fn visit_ring<L: Labels>(
    all: &mut HeapCircularBuffer<Pipe>,
    lane: usize,
    wanted: Wanted,
    labels: &L,
) -> Visits
    ensures visits { result ≡ all_visits wanted (L.label_of labels.now) lane all.old.items }
    ensures left { all.new.items ≡ all_visited wanted (L.label_of labels.now) lane all.old.items }
    ensures capacity { all.new.capacity ≡ all.old.capacity }
    ensures same_len { length all.new.items ≡ length all.old.items }
{
    let mut waits = false;
    for i in 0..all.len() {
        let Some(pipe) = all.get_mut(i) else {
            unreachable!();
        };
        let sender = pipe.sender();
        let pool = pipe.pool(lane);
        match pipe.visit(lane, wanted, labels) {
            LaneVisit::Got(place) => return Visits::Got(sender, pool, place),
            LaneVisit::AtLimit => waits = true,
            LaneVisit::Nothing => {}
        }
    }
    if waits {
        return Visits::AtLimit;
    }
    Visits::Nothing
}

impl Expired {
    /// Makes room for so many pipes. It fails only for want of memory.
    pub fn new(alloc: Global, most: usize) -> Result<Expired, AllocError>
        ensures { IfOk result (λ c. c ≡ no_pipes most) }
    {
        Ok(Expired {
            pipes: HeapCircularBuffer::with_capacity(alloc, most)?,
        })
    }

    /// How many pipes are kept.
    #[inline]
    pub fn len(&self) -> usize
        ensures { result ≡ length self.now.pipes }
    {
        self.pipes.len()
    }

    /// The rank of the pipe from this sender, if one is kept. It is short enough to stand in place
    /// of the call, before each step with a connected sender.
    #[inline]
    pub fn rank(&self, sender: u64) -> Option<usize>
        ensures first { result ≡ rank_from self.now.pipes sender }
        ensures within { IfSome result (λ rank. rank < length self.now.pipes) }
    {
        for rank in 0..self.pipes.len() {
            let Some(pipe) = self.pipes.get(rank) else {
                unreachable!();
            };
            if pipe.sender() == sender {
                return Some(rank);
            }
        }
        None
    }

    /// Keeps one more pipe, as the last. Where there is no room the oldest is given up for it, and
    /// where there is room for none the new one is. It tells which is given up. It takes no memory.
    pub fn keep(&mut self, pipe: Pipe) -> Option<Pipe>
        ensures given_up { result ≡ given_up_for self.old pipe }
        ensures kept { self.new ≡ with_kept self.old pipe }
    {
        self.pipes.push_back(pipe)
    }

    /// Takes the last pipe out, if there is one.
    pub fn take_pipe(&mut self) -> Option<Pipe>
        ensures last { result ≡ slice_get self.old.pipes (length self.old.pipes - 1) }
        ensures left { self.new
            ≡ record (self.old) { pipes = take (length self.old.pipes - 1) self.old.pipes } }
    {
        self.pipes.pop_back()
    }

    // ---- one pipe

    /// The pipe of that rank, if there is one.
    #[inline]
    pub fn pipe(&self, rank: usize) -> Option<&Pipe>
        ensures { option_copied result ≡ slice_get self.now.pipes rank }
    {
        self.pipes.get(rank)
    }

    /// Takes a step on the pipe of that rank.
    #[inline]
    pub fn on_pipe<S: PipeStep>(&mut self, rank: usize, step: &S) -> S::Answer
        ensures told { result ≡ on_pipe (S.told step.now) (S.none step.now) self.old rank }
        ensures changed { self.new ≡ with_pipe (S.changed step.now) self.old rank }
    {
        let Some(pipe) = self.pipes.get_mut(rank) else {
            return step.nothing();
        };
        step.step(pipe)
    }

    /// Takes a step on that lane of the pipe of that rank.
    #[inline]
    pub fn on_lane<S: LaneStep>(&mut self, rank: usize, lane: usize, step: &S) -> S::Answer
        ensures told { result
            ≡ on_lane_of (S.told step.now) (S.none step.now) self.old rank lane }
        ensures changed { self.new ≡ with_lane_of (S.changed step.now) self.old rank lane }
    {
        match self.pipes.get_mut(rank) {
            Some(pipe) => step.step(pipe, lane),
            None => step.nothing(),
        }
    }

    /// Takes a step on that request state of the pipe of that rank.
    #[inline]
    pub fn on_state<S: StateStep>(&mut self, rank: usize, lane: usize, step: &S)
        ensures { self.new
            ≡ with_pipe (λ p. with_state (S.changed step.now) p lane) self.old rank }
    {
        if let Some(pipe) = self.pipes.get_mut(rank) {
            step.step(pipe, lane);
        }
    }

    /// The lowest lane of that pipe on which something that was given back is left to get back, if
    /// there is one.
    #[inline]
    pub fn lane_to_get(&mut self, rank: usize) -> Option<usize>
        ensures lowest { result ≡ on_pipe lane_to_get None self.old rank }
        ensures unchanged { self.new ≡ self.old }
    {
        let Some(pipe) = self.pipes.get_mut(rank) else {
            return None;
        };
        pipe.lane_to_get()
    }

    /// Gets back the oldest message of those that were given back on the lowest lane of that pipe
    /// on which something is left to get back, if there is one.
    #[inline(always)]
    pub fn get_next(&mut self, rank: usize) -> Option<Next>
        ensures lowest { option_map (λ n. n.lane) result ≡ on_pipe lane_to_get None self.old rank }
        ensures oldest { IfSome result (λ n.
            on_lane_of (λ l. slice_get l.returned 0) None self.old rank n.lane ≡ Some n.place) }
        ensures got_back { IfSome result (λ n.
            self.new ≡ with_lane_of without_returned self.old rank n.lane) }
        ensures more { IfSome result (λ n.
            n.more ≡ is_some (on_pipe lane_to_get None self.new rank)) }
        ensures unchanged { result ≡ None → self.new ≡ self.old }
    {
        let Some(pipe) = self.pipes.get_mut(rank) else {
            return None;
        };
        pipe.get_next()
    }

    // ---- all pipes

    /// Whether something waits on the lane of that number, from some sender.
    #[inline]
    pub fn has_waiting_from_any(&self, lane: usize) -> bool
        ensures { result ≡ has_waiting_from_any self.now lane }
    {
        if self.pipes.is_empty() {
            return false;
        }
        self.pipes.iter().any(|pipe| pipe.has_waiting(lane))
    }

    /// Visits the lane of that number of each sender, in their order, until one gives a message.
    #[tactic(auto, using(crate::proofs::Visiting::none_comes))]
    pub fn visit_all<L: Labels>(&mut self, lane: usize, wanted: Wanted, labels: &L) -> Visits
        ensures visits { result ≡ all_visits wanted (L.label_of labels.now) lane self.old.pipes }
        ensures visited { self.new ≡ all_visited_of wanted (L.label_of labels.now) lane self.old }
    {
        if self.pipes.is_empty() {
            return Visits::Nothing;
        }
        visit_ring(&mut self.pipes, lane, wanted, labels)
    }
}
