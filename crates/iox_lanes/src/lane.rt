//! What waits for a receiver, what it has, and what it gave back.
ghost use Rattle.std.specs.Bool.{OnTrue};
ghost use Rattle.std.specs.Prelude.{◌≡◌, [], ◌∷◌, ◌+◌, ◌-◌, ◌<◌, ◌≤◌, ◌^◌, ◌==◌, if◌then◌else◌, IfOk, IfSome, OnSome, Some, length, slice_get, true};
ghost use Rattle.iox_model.specs.Maps.{is_empty};
ghost use Rattle.iox_lanes.specs.Lanes.{HasOneInHand, IsSound, offered, empty_lane, has_returned, has_room, is_at_limit, is_full, is_taken, oldest, oldest_returned, oldest_taken, outstanding, places, rank_in, released, returned_times, with_returned, with_taken, without_first, without_oldest, without_returned, without_taken};
ghost use Rattle.iox_lanes.specs.PipeSteps.{pushed, pushed_out};

mod usual;

use crate::cells::Cells;
use std::alloc::{AllocError, Global};
use std::marker::Model;

/// The messages on one lane of a way, by their places in the pool of their sender.
///
/// It takes memory when it is made, and never again. What its receiver has can always be given
/// back.
#[derive(Drop)]
pub struct Lane {
    pool: usize,
    waiting: Cells,
    returned: Cells,
    taken: Vec<u64>,
    limit: usize,
    // how many messages were ever delivered, and how many were ever given back
    deliveries: u64,
    returns: u64,
}

impl Model for Lane {
    ghost use Rattle.std.specs.Prelude.{◌≡◌, ◌+◌, ◌≤◌};
    ghost use Rattle.std.specs.Vec.{vec_capacity};
    ghost use Rattle.iox_lanes.specs.Lanes.{IsSound, LaneState, lane_of};

    ghost Value = { LaneState };

    ghost view = { λ l.
        lane_of l.pool l.waiting l.returned l.taken.items l.limit l.deliveries l.returns };

    ghost invariant = { λ l. (l.returned.capacity ≡ l.waiting.capacity + l.limit)
        × (l.limit ≤ vec_capacity l.taken)
        × IsSound (lane_of l.pool l.waiting l.returned l.taken.items
        l.limit l.deliveries l.returns) };
}

fn rank_of(places: &[u64], place: u64) -> Option<usize>
    ensures first { result ≡ rank_in places.now place }
    ensures within { IfSome result (λ rank. rank < length places.now) }
{
    places.iter().position(|other| *other == place)
}

/// Whether this is the only place.
#[inline]
#[tactic(auto, using(crate::proofs::Lone::one_place))]
fn is_only(places: &[u64], place: u64) -> bool
    ensures { OnTrue result (places.now ≡ place ∷ []) }
{
    if places.len() == 1 {
        return places[0] == place;
    }
    false
}

/// One time more, if both places are one.
fn counted(times: usize, other: u64, place: u64) -> usize
    requires { times < 2 ^ 64 - 1 }
    ensures { result ≡ times + (if other == place then 1 else 0) }
{
    if other == place {
        return times + 1;
    }
    times
}

impl Lane {
    /// Makes a lane on which nothing waits. It fails only for want of memory.
    pub fn new(alloc: Global, pool: usize, buffer: usize, limit: usize) -> Result<Lane, AllocError>
        requires { buffer + limit < 2 ^ 64 }
        ensures { IfOk result (λ l. l ≡ empty_lane pool buffer limit) }
    {
        Ok(Lane {
            pool,
            waiting: Cells::new(alloc, buffer)?,
            returned: Cells::new(alloc, buffer + limit)?,
            taken: Vec::with_capacity(alloc, limit)?,
            limit,
            deliveries: 0,
            returns: 0,
        })
    }

    /// Which pool its places are of.
    #[inline]
    pub fn pool(&self) -> usize
        ensures pool { result ≡ self.now.pool }
        ensures sound { IsSound self.now }
    {
        self.pool
    }

    /// How many messages wait.
    #[inline]
    pub fn waiting_len(&self) -> usize
        ensures len { result ≡ length self.now.waiting }
        ensures within { result ≤ self.now.buffer }
    {
        self.waiting.len()
    }

    /// How many messages its receiver has.
    #[inline]
    pub fn taken_len(&self) -> usize
        ensures len { result ≡ length self.now.taken }
        ensures within { result ≤ self.now.limit }
    {
        self.taken.len()
    }

    /// Whether nothing waits.
    #[inline]
    pub fn is_empty(&self) -> bool
        ensures { result ≡ is_empty self.now.waiting }
    {
        self.waiting.is_empty()
    }

    /// Whether as many messages wait as may.
    #[inline]
    pub fn is_full(&self) -> bool
        ensures full { result ≡ is_full self.now }
        ensures sound { IsSound self.now }
    {
        self.waiting.capacity() <= self.waiting.len()
    }

    /// Whether its receiver has as many messages as it may.
    #[inline]
    pub fn is_at_limit(&self) -> bool
        ensures { result ≡ is_at_limit self.now }
    {
        self.limit <= self.taken.len()
    }

    /// Whether something that was given back is left to get back.
    #[inline]
    pub fn has_returned(&self) -> bool
        ensures { result ≡ has_returned self.now }
    {
        !self.returned.is_empty()
    }

    /// How often the message in this place was given back, and is left to get back.
    pub fn returned_times(&self, place: u64) -> usize
        ensures { result ≡ returned_times self.now place }
    {
        let mut times = 0;
        for rank in 0..self.returned.len() {
            let Some(other) = self.returned.get(rank) else {
                unreachable!();
            };
            times = counted(times, other, place);
        }
        times
    }

    /// Whether a message can be delivered.
    #[inline]
    fn has_room(&self) -> bool
        ensures { result ≡ has_room self.now }
    {
        let most = self.returned.capacity();
        let waiting = self.waiting.len();
        waiting < self.waiting.capacity()
            && waiting + self.returned.len() + self.taken.len() < most
            && self.deliveries < u64::MAX
    }

    // ---- its sender

    /// Puts a message last in line, and says whether there was room.
    ///
    /// Where nothing is left to get back, it lacks room exactly if it is full.
    #[inline]
    pub fn deliver(&mut self, place: u64) -> bool
        ensures room { result ≡ has_room self.old }
        ensures delivered { self.new ≡ offered self.old place }
    {
        if self.has_room() {
            self.waiting.push(place);
            self.deliveries += 1;
            return true;
        }
        false
    }

    /// Pushes the oldest message out, if any waits: it is its sender's again.
    #[inline]
    pub fn evict(&mut self) -> Option<u64>
        ensures oldest { result ≡ oldest self.old }
        ensures evicted { self.new ≡ without_oldest self.old }
    {
        self.pull()
    }

    /// Puts a message last in line. Where as many wait as may, the oldest is pushed out first: it
    /// is its sender's again.
    #[inline]
    #[tactic(auto, unfolding(crate::specs::PipeSteps::pushed, crate::specs::PipeSteps::pushed_out))]
    pub fn push(&mut self, place: u64) -> Option<u64>
        ensures oldest { result ≡ pushed_out self.old }
        ensures pushed { self.new ≡ pushed self.old place }
    {
        if self.is_full() {
            let oldest = self.evict();
            self.deliver(place);
            return oldest;
        }
        self.deliver(place);
        None
    }

    /// Gets back the oldest message of those that were given back, if there is one.
    #[inline]
    pub fn get_back(&mut self) -> Option<u64>
        ensures oldest { result ≡ slice_get self.old.returned 0 }
        ensures got_back { self.new ≡ without_returned self.old }
    {
        self.returned.pop()
    }

    /// Gets back the oldest message of those that were given back. There is one.
    #[inline]
    #[tactic(auto, using(crate::proofs::Returns::some_there))]
    pub(crate) fn get_one_back(&mut self) -> u64
        requires some { has_returned self.old ≡ true }
        ensures oldest { Some result ≡ slice_get self.old.returned 0 }
        ensures got_back { self.new ≡ without_returned self.old }
    {
        self.returned.take_next()
    }

    /// Whether just one message that was given back is left to get back.
    #[inline(always)]
    pub(crate) fn has_one_returned(&self) -> bool
        ensures { result ≡ (length self.now.returned == 1) }
    {
        self.returned.len() == 1
    }

    // ---- its receiver

    /// Takes the oldest message that waits, if there is one.
    #[inline]
    pub fn take(&mut self) -> Option<u64>
        requires below { length self.old.taken < self.old.limit }
        ensures oldest { result ≡ oldest self.old }
        ensures taken { self.new ≡ oldest_taken self.old }
    {
        let place = self.pull()?;
        self.hold(place);
        Some(place)
    }

    /// Gives the oldest message that waits back unread, if there is one.
    #[inline]
    pub fn pass_over(&mut self) -> Option<u64>
        ensures oldest { result ≡ oldest self.old }
        ensures returned { self.new ≡ oldest_returned self.old }
    {
        let oldest = self.pull()?;
        self.give_back(oldest);
        Some(oldest)
    }

    /// Gives a message back that its receiver has, and says whether it had it.
    #[inline]
    pub fn release(&mut self, place: u64) -> bool
        ensures taken { result ≡ is_taken self.old place }
        ensures released { self.new ≡ released self.old place }
    {
        if self.let_go(place) {
            self.give_back(place);
            return true;
        }
        false
    }

    /// Takes a message from its receiver, and says whether it had it.
    #[inline]
    fn let_go(&mut self, place: u64) -> bool
        ensures taken { result ≡ is_taken self.old place }
        ensures left { self.new ≡ without_taken self.old place }
        ensures hand { OnSome (rank_in self.old.taken place) (HasOneInHand self.new) }
    {
        if is_only(&self.taken, place) {
            self.taken.take_last();
            return true;
        }
        self.let_go_of(place)
    }

    /// The same, where it may have several.
    fn let_go_of(&mut self, place: u64) -> bool
        ensures taken { result ≡ is_taken self.old place }
        ensures left { self.new ≡ without_taken self.old place }
        ensures hand { OnSome (rank_in self.old.taken place) (HasOneInHand self.new) }
    {
        match rank_of(&self.taken, place) {
            None => false,
            Some(rank) => {
                self.taken.swap_remove(rank);
                true
            }
        }
    }

    // ---- a lane that is taken apart

    /// Takes the first message off the lane, if there is one: of those that were given back, then
    /// of those that wait, then of those that its receiver has.
    pub fn take_off(&mut self) -> Option<u64>
        ensures first { result ≡ slice_get (places self.old) 0 }
        ensures left { self.new ≡ without_first self.old }
    {
        if self.has_returned() {
            return self.get_back();
        }
        if !self.is_empty() {
            return self.evict();
        }
        if self.taken.is_empty() {
            return None;
        }
        Some(self.taken.remove(0))
    }

    // ---- steps of its receiver

    /// Takes the oldest out of the line. It is in its receiver's hand, and not counted yet.
    #[inline]
    pub(crate) fn pull(&mut self) -> Option<u64>
        ensures oldest { result ≡ oldest self.old }
        ensures left { self.new ≡ without_oldest self.old }
        ensures hand { OnSome result (HasOneInHand self.new) }
    {
        self.waiting.pop()
    }

    /// Gives a message back that was in its receiver's hand.
    #[inline]
    pub(crate) fn give_back(&mut self, place: u64)
        requires hand { HasOneInHand self.old }
        ensures { self.new ≡ with_returned self.old place }
    {
        self.returned.push(place);
        self.returns += 1;
    }

    /// Counts the message that is in its receiver's hand.
    #[inline]
    pub(crate) fn hold(&mut self, place: u64)
        requires below { length self.old.taken < self.old.limit }
        requires hand { HasOneInHand self.old }
        ensures { self.new ≡ with_taken self.old place }
    {
        self.taken.push_reserved(place);
    }
}
