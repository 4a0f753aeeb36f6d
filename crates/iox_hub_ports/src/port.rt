//! A connected port, and what comes to it.
ghost use Rattle.std.specs.Option.{option_map};
ghost use Rattle.std.specs.Prelude.{◌≡◌, ◌<◌, ◌+◌, ◌^◌, ◌-◌, IfSome, None, Some, is_some, length, option_copied, slice_get, true};
ghost use Rattle.iox_tables.specs.HubStates.Asks.{waits_for};
ghost use Rattle.iox_tables.specs.HubStates.Receives.{both_visits, visited_port};
ghost use Rattle.iox_tables.specs.Visits.TheVariants.{AtLimit};
ghost use Rattle.iox_tables.specs.HubStates.Tables.{PortState, pipe_from, pipes_of};
ghost use Rattle.iox_tables.specs.Incomings.{has_room_for};
ghost use Rattle.iox_tables.specs.Pipes.{IsSoundAt};
ghost use Rattle.iox_tables.specs.HubStates.Ways.{lanes_from};
ghost use Rattle.iox_tables.specs.Lanes.{is_full, returned_times, without_returned};
ghost use Rattle.iox_tables.specs.Visited.{all_visits};
ghost use Rattle.iox_tables.specs.HubMaking.OneByOne.{without_first_pipe};
ghost use Rattle.iox_hub_ports.specs.Ports.{gone_from, info_of, lane_to_get_on, on_lane_from, port_of, state_from, with_connected};
ghost use Rattle.iox_hub_ports.specs.Ports.{with_lane_from, with_loan_counted, with_state_from, without_pipe_from, without_value};

mod known;
mod near;
mod usual;

use crate::info::PortInfo;
use iox_model::kind::Role;
use iox_model::way::RequestState;
use iox_tables::expired::Expired;
use iox_tables::incoming::{Incoming, Visits};
use iox_tables::pipe::{Next, Pipe};
use iox_tables::steps::{LaneStep, StateStep};
use iox_tables::wanted::{Labels, Wanted};
use std::marker::Model;

/// A connected port: what is said of it, and what comes to it. Pipes from ports that are gone stand
/// before those from connected ports.
#[derive(Drop)]
pub struct Port {
    info: PortInfo,
    // Where the pipes from it likely stand among those that lead to others.
    rank: usize,
    expired: Expired,
    incoming: Incoming,
}

impl Model for Port {
    ghost use Rattle.iox_tables.specs.HubStates.Tables.{PortState};
    ghost use Rattle.iox_hub_ports.specs.Ports.{port_of};

    ghost Value = { PortState };

    ghost view = { λ p. port_of p.info p.expired p.incoming };
}

/// What visits come to after others that gave no message, since there was a lane at its limit.
fn after_limit(visits: Visits) -> Visits
    ensures { result ≡ both_visits AtLimit visits }
{
    match visits {
        Visits::Got(sender, pool, place) => Visits::Got(sender, pool, place),
        Visits::AtLimit => Visits::AtLimit,
        Visits::Nothing => Visits::AtLimit,
    }
}

impl Port {
    /// A port to which these pipes lead.
    pub fn new(info: PortInfo, expired: Expired, incoming: Incoming) -> Port
        ensures { result ≡ port_of info expired incoming }
    {
        Port {
            info,
            rank: 0,
            expired,
            incoming,
        }
    }

    /// What is said of it beside what comes to it.
    #[inline]
    pub fn info(&self) -> PortInfo
        ensures { result ≡ info_of self.now }
    {
        self.info
    }

    /// Its number.
    #[inline]
    pub fn number(&self) -> u64
        ensures { result ≡ self.now.number }
    {
        self.info.number
    }

    /// Its role.
    #[inline]
    pub fn role(&self) -> Role
        ensures { result ≡ self.now.role }
    {
        self.info.role
    }

    /// How many pipes from ports that are gone lead to it.
    pub fn kept(&self) -> usize
        ensures { result ≡ length self.now.expired.pipes }
    {
        self.expired.len()
    }

    /// Counts one loan more.
    #[inline]
    pub fn count_loan(&mut self)
        requires { self.old.loans < 2 ^ 64 - 1 }
        ensures { self.new ≡ with_loan_counted self.old }
    {
        self.info.loans += 1;
    }

    /// Its own value is gone.
    #[inline]
    pub fn release_value(&mut self)
        ensures { self.new ≡ without_value self.old }
    {
        self.info.held = false;
    }

    // ---- one lane, or one request state

    /// The pipe from this sender, if there is one.
    #[inline]
    fn pipe_from(&self, sender: u64) -> Option<&Pipe>
        ensures { option_copied result ≡ pipe_from (pipes_of self.now) sender }
    {
        match self.expired.rank(sender) {
            Some(rank) => self.expired.pipe(rank),
            None => self.incoming.pipe(sender),
        }
    }

    /// Takes a step on the lane of that number, of the pipe from this sender.
    #[inline(always)]
    pub fn on_lane<S: LaneStep>(&mut self, sender: u64, lane: usize, step: &S) -> S::Answer
        ensures told { result
            ≡ on_lane_from (S.told step.now) (S.none step.now) self.old sender lane }
        ensures changed { self.new ≡ with_lane_from (S.changed step.now) self.old sender lane }
    {
        match self.expired.rank(sender) {
            Some(rank) => self.expired.on_lane(rank, lane, step),
            None => self.incoming.on_lane(sender, lane, step),
        }
    }

    /// Takes a step on the request state of that lane, beside the pipe from this sender.
    #[inline(always)]
    pub fn on_state<S: StateStep>(&mut self, sender: u64, lane: usize, step: &S)
        ensures { self.new ≡ with_state_from (S.changed step.now) self.old sender lane }
    {
        match self.expired.rank(sender) {
            Some(rank) => self.expired.on_state(rank, lane, step),
            None => self.incoming.on_state(sender, lane, step),
        }
    }

    /// Whether as many messages wait on that lane, from this sender, as may.
    #[inline]
    pub fn is_full(&self, sender: u64, lane: usize) -> bool
        ensures full { result ≡ on_lane_from is_full true self.now sender lane }
        ensures sound { IsSoundAt (lanes_from (pipes_of self.now) sender) lane }
    {
        match self.pipe_from(sender) {
            Some(pipe) => pipe.is_full(lane),
            None => true,
        }
    }

    /// How often it gave the message in this place back on that lane from this sender, so that it
    /// is left to get back.
    pub fn returned_times(&self, sender: u64, lane: usize, place: u64) -> usize
        ensures { result ≡ on_lane_from (λ l. returned_times l place) 0 self.now sender lane }
    {
        match self.pipe_from(sender) {
            Some(pipe) => pipe.returned_times(lane, place),
            None => 0,
        }
    }

    /// The request state of that lane, beside the pipe from this sender; closed where there is
    /// none.
    #[inline]
    pub fn state(&self, sender: u64, lane: u64) -> RequestState
        ensures { result ≡ state_from self.now sender lane }
    {
        match self.pipe_from(sender) {
            Some(pipe) => pipe.state(lane),
            None => RequestState::Closed,
        }
    }

    /// The lowest lane from this sender on which something is left to get back, if there is one.
    #[inline]
    pub fn lane_to_get(&mut self, sender: u64) -> Option<usize>
        ensures lowest { result ≡ lane_to_get_on (pipes_of self.old) sender }
        ensures unchanged { self.new ≡ self.old }
    {
        match self.expired.rank(sender) {
            Some(rank) => self.expired.lane_to_get(rank),
            None => self.incoming.lane_to_get(sender),
        }
    }

    /// Gets back the oldest message of those that were given back on the lowest lane from this
    /// sender on which something is left to get back, if there is one.
    #[inline(always)]
    pub fn get_next(&mut self, sender: u64) -> Option<Next>
        ensures lowest { option_map (λ n. n.lane) result
            ≡ lane_to_get_on (pipes_of self.old) sender }
        ensures oldest { IfSome result (λ n.
            on_lane_from (λ l. slice_get l.returned 0) None self.old sender n.lane
            ≡ Some n.place) }
        ensures got_back { IfSome result (λ n.
            self.new ≡ with_lane_from without_returned self.old sender n.lane) }
        ensures more { IfSome result (λ n.
            n.more ≡ is_some (lane_to_get_on (pipes_of self.new) sender)) }
        ensures number { self.new.number ≡ self.old.number }
        ensures role { self.new.role ≡ self.old.role }
        ensures unchanged { result ≡ None → self.new ≡ self.old }
    {
        match self.expired.rank(sender) {
            Some(rank) => self.expired.get_next(rank),
            None => self.incoming.get_next(sender),
        }
    }

    // ---- the receiver

    /// Whether something waits on the lane of that number, from some sender.
    pub fn has_waiting(&self, lane: usize) -> bool
        ensures { result ≡ waits_for self.now lane }
    {
        self.expired.has_waiting_from_any(lane) || self.incoming.has_waiting_from_any(lane)
    }

    /// Visits the lane of that number of each sender until one gives a message: first of the
    /// senders that are gone.
    #[inline(always)]
    pub fn visit<L: Labels>(&mut self, lane: usize, wanted: Wanted, labels: &L) -> Visits
        ensures visits { result
            ≡ all_visits wanted (L.label_of labels.now) lane (pipes_of self.old) }
        ensures visited { self.new ≡ visited_port wanted (L.label_of labels.now) lane self.old }
    {
        if self.expired.len() == 0 {
            return self.incoming.visit_all(lane, wanted, labels);
        }
        self.visit_both(lane, wanted, labels)
    }

    /// The same, where there may be senders that are gone. A call of its own, so that only the
    /// visits to connected senders are made in place.
    #[inline(never)]
    #[cold]
    fn visit_both<L: Labels>(&mut self, lane: usize, wanted: Wanted, labels: &L) -> Visits
        ensures visits { result
            ≡ all_visits wanted (L.label_of labels.now) lane (pipes_of self.old) }
        ensures visited { self.new ≡ visited_port wanted (L.label_of labels.now) lane self.old }
    {
        match self.expired.visit_all(lane, wanted, labels) {
            Visits::Got(sender, pool, place) => Visits::Got(sender, pool, place),
            Visits::Nothing => self.incoming.visit_all(lane, wanted, labels),
            Visits::AtLimit => after_limit(self.incoming.visit_all(lane, wanted, labels)),
        }
    }

    // ---- connected senders

    /// One more pipe leads to the port. It says whether there was room.
    pub fn connect(&mut self, pipe: Pipe) -> bool
        ensures room { result ≡ has_room_for self.old.incoming }
        ensures connected { self.new ≡ with_connected self.old pipe }
    {
        self.incoming.connect(pipe)
    }

    /// Takes the pipe from this connected sender out, if there is one.
    pub fn disconnect(&mut self, sender: u64) -> Option<Pipe>
        ensures pipe { result ≡ pipe_from self.old.incoming.pipes sender }
        ensures disconnected { self.new ≡ without_pipe_from self.old sender }
    {
        match self.incoming.rank(sender) {
            Some(rank) => self.incoming.disconnect(rank),
            None => None,
        }
    }

    /// This connected sender is gone: the pipe from it is kept, as the last of those from ports
    /// that are gone, if something waits there. It tells the pipe that goes: that one, or one that
    /// is given up for it. It takes no memory.
    pub fn expire(&mut self, sender: u64) -> Option<Pipe>
        ensures gone { result ≡ gone_from self.old sender }
        ensures left { self.new ≡ without_first_pipe sender self.old }
    {
        match self.disconnect(sender) {
            None => None,
            Some(pipe) => {
                if pipe.has_waiting_on_any() {
                    return self.expired.keep(pipe);
                }
                Some(pipe)
            }
        }
    }

    /// The pipes from ports that are gone, and those from connected ports, of a port that goes.
    pub fn into_pipes(self) -> (Expired, Incoming)
        ensures expired { result.0 ≡ self.expired }
        ensures incoming { result.1 ≡ self.incoming }
    {
        (self.expired, self.incoming)
    }
}
