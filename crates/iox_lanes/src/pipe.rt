//! All lanes from one port to another.
ghost use Rattle.std.specs.Prelude.{◌≡◌, ◌+◌, ◌-◌, ◌^◌, ◌<◌, IfOk, None, false, length, replicate, slice_get, take, true};
ghost use Rattle.iox_lanes.specs.Lanes.{offered, empty_lane, has_room, has_waiting, is_full, is_taken, oldest, released, without_oldest, without_returned, returned_times};
ghost use Rattle.iox_lanes.specs.Pipes.{IsSoundAt, PipeState, closed, has_waiting_on_any, hinted, new_pipe, on_lane, opened, with_lane};
ghost use Rattle.iox_lanes.specs.PipeSteps.{pushed, pushed_out};
ghost use Rattle.iox_lanes.specs.Searches.{state_on};
ghost use Rattle.iox_lanes.specs.Visited.{pipe_visit, pipe_visited, pool_on};

mod getting;
mod usual;

use crate::lane::Lane;
use crate::marks::Marks;
use crate::search::{LaneVisit, visit_lane};
use crate::states::{after_hint, is_named, state_of};
use crate::wanted::{Labels, Wanted};
use iox_model::way::RequestState;
use std::alloc::{AllocError, Global};
use std::marker::Model;

/// A message that its sender gets back.
#[derive(Clone, Copy, Debug, PartialEq, Eq, Drop)]
pub struct Next {
    /// The lane on which it was given back.
    pub lane: usize,
    /// The place of the message in its sender's pool.
    pub place: u64,
    /// Whether something is left to get back.
    pub more: bool,
}

/// What is left to get back, as far as it tells which way is short.
#[derive(Clone, Copy, Debug, PartialEq, Eq, Drop)]
pub enum Left {
    /// Nothing.
    Nothing,
    /// One message, on the first lane.
    One,
    /// It may be anything.
    Other,
}

/// All lanes from one port to its receiver. Beside the lane of requests from a client stand the
/// states of the requests that it has open here.
///
/// It takes memory when it is made, and never again. Where it has no lane of a number, nothing
/// waits there, and nothing is delivered.
#[derive(Drop)]
pub struct Pipe {
    sender: u64,
    lanes: Vec<Lane>,
    states: Vec<RequestState>,
    // on which lanes something is left to get back
    marks: Marks,
    // A pipe has 128 bytes with these, so that its place in a list is a shift.
    spare: [u64; 3],
}

impl Model for Pipe {
    ghost use Rattle.iox_lanes.specs.Marks.{AreMarked};
    ghost use Rattle.iox_lanes.specs.Pipes.{PipeState};

    ghost Value = { PipeState };

    ghost view = { λ p. record {
      sender = p.sender;
      lanes = p.lanes.items;
      states = p.states.items;
    } };

    ghost invariant = { λ p. AreMarked p.marks p.lanes.items };
}

fn new_lanes(
    alloc: Global,
    count: usize,
    pool: usize,
    buffer: usize,
    limit: usize,
) -> Result<Vec<Lane>, AllocError>
    requires { buffer + limit < 2 ^ 64 }
    ensures { IfOk result (λ lanes. lanes.items ≡ replicate count (empty_lane pool buffer limit)) }
{
    let mut lanes = Vec::with_capacity(alloc, count)?;
    for _ in 0..count {
        lanes.push(Lane::new(alloc, pool, buffer, limit)?)?;
    }
    Ok(lanes)
}

/// Takes the last lane out, if there is one.
fn take_last(lanes: &mut Vec<Lane>) -> Option<Lane>
    ensures last { result ≡ slice_get lanes.old.items (length lanes.old.items - 1) }
    ensures left { lanes.new.items ≡ take (length lanes.old.items - 1) lanes.old.items }
{
    lanes.pop()
}

impl Pipe {
    /// Makes the lanes from a sender to one receiver, and the states of the requests there. It
    /// fails only for want of memory.
    pub fn new(
        alloc: Global,
        sender: u64,
        pool: usize,
        lanes: usize,
        buffer: usize,
        limit: usize,
        states: usize,
    ) -> Result<Pipe, AllocError>
        requires { buffer + limit < 2 ^ 64 }
        ensures { IfOk result (λ p. p ≡ new_pipe sender pool lanes buffer limit states) }
    {
        Ok(Pipe {
            sender,
            lanes: new_lanes(alloc, lanes, pool, buffer, limit)?,
            states: vec![in alloc; RequestState::Closed; states]?,
            marks: Marks::new(alloc, lanes)?,
            spare: [0; 3],
        })
    }

    /// From which port the messages come.
    #[inline]
    pub fn sender(&self) -> u64
        ensures { result ≡ self.now.sender }
    {
        self.sender
    }

    /// The pool of that lane's places.
    #[inline]
    pub fn pool(&self, lane: usize) -> usize
        ensures { result ≡ pool_on self.now lane }
    {
        if lane < self.lanes.len() {
            return self.lanes[lane].pool();
        }
        0
    }

    /// Whether as many messages wait on that lane as may.
    #[inline]
    #[tactic(auto, using(crate::proofs::Sound::sound))]
    pub fn is_full(&self, lane: usize) -> bool
        ensures full { result ≡ on_lane is_full true self.now lane }
        ensures sound { IsSoundAt self.now.lanes lane }
    {
        if lane < self.lanes.len() {
            return self.lanes[lane].is_full();
        }
        true
    }

    /// Whether something waits on that lane.
    #[inline]
    pub fn has_waiting(&self, lane: usize) -> bool
        ensures { result ≡ on_lane has_waiting false self.now lane }
    {
        if lane < self.lanes.len() {
            return !self.lanes[lane].is_empty();
        }
        false
    }

    /// How many messages of that lane the receiver has.
    #[inline]
    pub fn taken_len(&self, lane: usize) -> usize
        ensures { result ≡ on_lane (λ l. length l.taken) 0 self.now lane }
    {
        if lane < self.lanes.len() {
            return self.lanes[lane].taken_len();
        }
        0
    }

    /// Whether something waits on some lane.
    pub fn has_waiting_on_any(&self) -> bool
        ensures { result ≡ has_waiting_on_any self.now }
    {
        self.lanes.iter().any(|lane| !lane.is_empty())
    }

    /// How often the message in this place was given back on that lane, and is left to get back.
    pub fn returned_times(&self, lane: usize, place: u64) -> usize
        ensures { result ≡ on_lane (λ l. returned_times l place) 0 self.now lane }
    {
        if lane < self.lanes.len() {
            return self.lanes[lane].returned_times(place);
        }
        0
    }

    // ---- the sender

    /// Puts a message last in line on that lane, and says whether there was room.
    #[inline]
    pub fn deliver(&mut self, lane: usize, place: u64) -> bool
        ensures room { result ≡ on_lane has_room false self.old lane }
        ensures delivered { self.new ≡ with_lane (λ l. offered l place) self.old lane }
    {
        if lane < self.lanes.len() {
            return self.lanes[lane].deliver(place);
        }
        false
    }

    /// Pushes the oldest message of that lane out, if any waits: it is its sender's again.
    #[inline]
    pub fn evict(&mut self, lane: usize) -> Option<u64>
        ensures oldest { result ≡ on_lane oldest None self.old lane }
        ensures evicted { self.new ≡ with_lane without_oldest self.old lane }
    {
        if lane < self.lanes.len() {
            return self.lanes[lane].evict();
        }
        None
    }

    /// Puts a message last in line on that lane. Where as many wait as may, the oldest is pushed
    /// out first: it is its sender's again.
    #[inline(always)]
    pub fn push(&mut self, lane: usize, place: u64) -> Option<u64>
        ensures oldest { result ≡ on_lane pushed_out None self.old lane }
        ensures pushed { self.new ≡ with_lane (λ l. pushed l place) self.old lane }
    {
        if lane < self.lanes.len() {
            return self.lanes[lane].push(place);
        }
        None
    }

    /// Gets back the oldest message of those that were given back on that lane, if there is one.
    #[inline]
    pub fn get_back(&mut self, lane: usize) -> Option<u64>
        ensures oldest { result ≡ on_lane (λ l. slice_get l.returned 0) None self.old lane }
        ensures got_back { self.new ≡ with_lane without_returned self.old lane }
    {
        if self.lanes.len() <= lane {
            return None;
        }
        let l = &mut self.lanes[lane];
        let oldest = l.get_back();
        if l.has_returned() {
            return oldest;
        }
        self.marks.remove(lane);
        oldest
    }

    // ---- the receiver

    /// Takes the oldest message on that lane that is wanted, unless the receiver has as many as it
    /// may.
    #[inline(always)]
    pub fn visit<L: Labels>(&mut self, lane: usize, wanted: Wanted, labels: &L) -> LaneVisit
        ensures visit { result ≡ pipe_visit wanted (L.label_of labels.now) lane self.old }
        ensures visited { self.new ≡ pipe_visited wanted (L.label_of labels.now) lane self.old }
    {
        if self.lanes.len() <= lane {
            return LaneVisit::Nothing;
        }
        let l = &mut self.lanes[lane];
        let visit = visit_lane(l, wanted, labels, &self.states);
        if l.has_returned() {
            self.marks.insert(lane);
            return visit;
        }
        visit
    }

    /// Gives a message of that lane back that the receiver has, and says whether it had it.
    #[inline]
    pub fn release(&mut self, lane: usize, place: u64) -> bool
        ensures taken { result ≡ on_lane (λ l. is_taken l place) false self.old lane }
        ensures released { self.new ≡ with_lane (λ l. released l place) self.old lane }
    {
        if self.lanes.len() <= lane {
            return false;
        }
        if self.lanes[lane].release(place) {
            self.marks.insert(lane);
            return true;
        }
        false
    }

    // ---- a pipe that is taken apart

    /// Takes the last lane out, if there is one.
    pub fn take_lane(&mut self) -> Option<Lane>
        ensures last { result ≡ slice_get self.old.lanes (length self.old.lanes - 1) }
        ensures left { self.new
            ≡ record (self.old) { lanes = take (length self.old.lanes - 1) self.old.lanes } }
    {
        let last = take_last(&mut self.lanes);
        self.marks.remove(self.lanes.len());
        last
    }

    // ---- the states of requests

    /// The request state of that lane; closed where there is none.
    #[inline]
    pub fn state(&self, lane: u64) -> RequestState
        ensures { result ≡ state_on self.now.states lane }
    {
        state_of(&self.states, lane)
    }

    /// Opens a request on that lane.
    #[inline(always)]
    pub fn open_request(&mut self, lane: usize, id: u64)
        ensures { self.new ≡ opened self.old lane id }
    {
        if lane < self.states.len() {
            self.states[lane] = RequestState::Named { id, hinted: false };
        }
    }

    /// Closes the request on that lane, if it is the open one.
    pub fn close_request(&mut self, lane: usize, id: u64)
        ensures { self.new ≡ closed self.old lane id }
    {
        if lane < self.states.len() {
            if is_named(self.states[lane], id) {
                self.states[lane] = RequestState::Closed;
            }
        }
    }

    /// Says of the request on that lane that its client lost interest, if it is the open one.
    pub fn hint_request(&mut self, lane: usize, id: u64)
        ensures { self.new ≡ hinted self.old lane id }
    {
        if lane < self.states.len() {
            self.states[lane] = after_hint(self.states[lane], id);
        }
    }
}
