//! The connected ports of a hub.
#![tactic(auto, using(crate::proofs::Keeping::kept))]

ghost use Rattle.std.specs.Prelude.{◌≡◌, ◌<◌, ◌%◌, ◌^◌, ◌-◌, ◌+◌, IfOk, IfSome, IsSome, OnErr, OnOk, None, false, length};
ghost use Rattle.std.specs.Option.{option_map_or};
ghost use Rattle.iox_model.specs.Maps.{AreDistinct, has_number};
ghost use Rattle.iox_tables.specs.Incomings.{has_room_for};
ghost use Rattle.iox_tables.specs.Lanes.{is_taken, released};
ghost use Rattle.iox_tables.specs.Visited.{all_visits};
ghost use Rattle.iox_tables.specs.HubStates.Asks.{waits_for};
ghost use Rattle.iox_tables.specs.HubStates.Receives.{visited_port};
ghost use Rattle.iox_tables.specs.HubStates.Tables.{numbers_of, pipes_to, port_in};
ghost use Rattle.iox_tables.specs.HubMaking.OneByOne.{without_first_pipe};
ghost use Rattle.iox_tables.specs.HubStates.Ways.{with_lane_on, with_port, with_state_on};
ghost use Rattle.iox_hub_ports.specs.Ports.{gone_from, info_at, info_in, kept_at, no_ports, on_way, place_in, with_connected, with_loan_counted};
ghost use Rattle.iox_hub_ports.specs.Ports.{with_port_added, with_port_removed, with_ports, without_value};

mod in_place;
mod known;
mod near;
mod sender;
mod states;
mod usual;

use crate::info::PortInfo;
use crate::port::Port;
use crate::role_places::{RolePlaces, arrange};
use crate::steps::Release;
use crate::walks::{is_at, place_of};
use iox_model::way::Way;
use iox_tables::incoming::Visits;
use iox_tables::pipe::Pipe;
use iox_tables::steps::{LaneStep, StateStep};
use iox_tables::wanted::{Labels, Wanted};
use std::alloc::{AllocError, Global};
use std::marker::Model;

/// By so many remainders of their numbers it is kept where ports are.
const REMAINDERS: usize = 64;

/// The connected ports of a hub, oldest first. Room for them is reserved before they come: only
/// `new` and `reserve` take memory.
///
/// Where there is no port of a number, or no such lane, nothing waits, and nothing is changed.
#[derive(Drop)]
pub struct Ports {
    ports: Vec<Port>,
    // How many may be added.
    room: usize,
    // No port has a greater number.
    last: u64,
    // By the remainder of its number, where a port is.
    latest: [usize; REMAINDERS],
    // Where the clients are, and the servers.
    lists: RolePlaces,
}

impl Model for Ports {
    ghost use Rattle.std.specs.Vec.{vec_capacity};
    ghost use Rattle.iox_hub_ports.specs.Ports.{IsPorts, PortsState};

    ghost Value = { PortsState };

    ghost view = { λ s. record { room = s.room; ports = s.ports.items } };

    ghost invariant = { λ s. IsPorts s.ports.items s.room s.last (vec_capacity s.ports)
        s.lists };
}

/// The remainder of a port's number.
#[inline]
fn remainder(number: u64) -> usize
    ensures { result ≡ number % 64 }
{
    (number % REMAINDERS as u64) as usize
}

/// Where each port is, by the remainder of its number: of two with one remainder, the later one.
fn latest_of(ports: &[Port]) -> [usize; REMAINDERS] {
    let mut latest = [0; REMAINDERS];
    for place in 0..ports.len() {
        latest[remainder(ports[place].number())] = place;
    }
    latest
}

impl Ports {
    /// The place of the port of that number. It is looked for where it is likely to be first.
    #[inline]
    pub(crate) fn place(&self, number: u64) -> Option<usize>
        ensures first { result ≡ place_in self.now.ports number }
        ensures within { IfSome result (λ place. place < length self.now.ports) }
    {
        let likely = self.latest[remainder(number)];
        if is_at(&self.ports, likely, number) {
            return Some(likely);
        }
        place_of(&self.ports, number)
    }

    /// Takes a step on the lane of a way.
    #[inline(always)]
    pub(crate) fn on_lane_of<S: LaneStep>(&mut self, way: Way, step: &S) -> S::Answer
        ensures told { result ≡ on_way (S.told step.now) (S.none step.now) self.old.ports way }
        ensures changed { self.new
            ≡ with_ports self.old (with_lane_on (S.changed step.now) self.old.ports way) }
    {
        match self.place(way.receiver) {
            Some(place) => self.ports[place].on_lane(way.sender, way.lane as usize, step),
            None => step.nothing(),
        }
    }

    /// Takes a step on the request state of a way.
    #[inline(always)]
    pub(crate) fn on_state_of<S: StateStep>(&mut self, way: Way, step: &S)
        ensures { self.new
            ≡ with_ports self.old (with_state_on (S.changed step.now) self.old.ports way) }
    {
        match self.place(way.sender) {
            Some(place) => self.ports[place].on_state(way.receiver, way.lane as usize, step),
            None => {}
        }
    }

    /// No port, and room for so many.
    pub fn new(alloc: Global, room: usize) -> Result<Ports, AllocError>
        ensures { IfOk result (λ ports. ports ≡ no_ports room) }
    {
        Ok(Ports {
            ports: Vec::with_capacity(alloc, room)?,
            room,
            last: 0,
            latest: [0; REMAINDERS],
            lists: RolePlaces::new(alloc, room)?,
        })
    }

    /// How many ports are connected.
    #[inline]
    pub fn len(&self) -> usize
        ensures len { result ≡ length self.now.ports }
        ensures apart { AreDistinct (numbers_of self.now.ports) }
    {
        self.ports.len()
    }

    /// How many ports may be added.
    #[inline]
    pub fn room(&self) -> usize
        ensures { result ≡ self.now.room }
    {
        self.room
    }

    /// Makes room for so many ports more.
    pub fn reserve(&mut self, more: usize) -> Result<(), AllocError>
        ensures reserved { OnOk result (self.new
            ≡ record (self.old) { room = self.old.room + more }) }
        ensures unchanged { OnErr result (self.new ≡ self.old) }
    {
        let Some(room) = self.room.checked_add(more) else {
            return Err(AllocError);
        };
        let Some(most) = self.ports.len().checked_add(room) else {
            return Err(AllocError);
        };
        self.ports.reserve(room)?;
        self.lists.reserve(most)?;
        self.room = room;
        Ok(())
    }

    /// Adds a port of a new number.
    pub fn add(&mut self, port: Port)
        requires room { 0 < self.old.room }
        requires fresh { has_number port.number (numbers_of self.old.ports) ≡ false }
        ensures { self.new ≡ with_port_added self.old port }
    {
        let number = port.number();
        self.room -= 1;
        self.last = self.last.max(number);
        self.latest[remainder(number)] = self.ports.len();
        self.ports.push_reserved(port);
        arrange(&mut self.ports, &mut self.lists);
    }

    /// Takes the port of that number out, if there is one.
    pub fn remove(&mut self, number: u64) -> Option<Port>
        ensures port { result ≡ port_in self.old.ports number }
        ensures removed { IsSome result → self.new ≡ with_port_removed self.old number }
        ensures unchanged { result ≡ None → self.new ≡ self.old }
    {
        match self.place(number) {
            None => None,
            Some(place) => {
                self.room += 1;
                let port = self.ports.remove(place);
                self.latest = latest_of(&self.ports);
                arrange(&mut self.ports, &mut self.lists);
                Some(port)
            }
        }
    }

    /// What is said of the port of that number.
    pub fn find(&self, number: u64) -> Option<PortInfo>
        ensures { result ≡ info_in self.now.ports number }
    {
        if number > self.last {
            return None;
        }
        match self.place(number) {
            Some(place) => Some(self.ports[place].info()),
            None => None,
        }
    }

    /// What is said of the port in that place, of all in their order.
    #[inline]
    pub fn at(&self, place: usize) -> Option<PortInfo>
        ensures { result ≡ info_at self.now.ports place }
    {
        if place < self.ports.len() {
            return Some(self.ports[place].info());
        }
        None
    }

    /// How many pipes from ports that are gone lead to the port in that place.
    pub fn kept(&self, place: usize) -> usize
        ensures { result ≡ kept_at self.now.ports place }
    {
        if place < self.ports.len() {
            return self.ports[place].kept();
        }
        0
    }

    /// Counts one loan more of the port of that number.
    pub fn count_loan(&mut self, number: u64)
        requires { option_map_or (λ p. p.loans) (port_in self.old.ports number) 0 < 2 ^ 64 - 1 }
        ensures { self.new
            ≡ with_ports self.old (with_port with_loan_counted self.old.ports number) }
    {
        match self.place(number) {
            Some(place) => self.ports[place].count_loan(),
            None => {}
        }
    }

    /// The own value of the port of that number is gone.
    pub fn release_value(&mut self, number: u64)
        ensures { self.new ≡ with_ports self.old (with_port without_value self.old.ports number) }
    {
        match self.place(number) {
            Some(place) => self.ports[place].release_value(),
            None => {}
        }
    }

    // ---- the receiver

    /// Whether something waits for the port of that number on a lane, from some sender.
    pub fn has_waiting(&self, number: u64, lane: u64) -> bool
        ensures { result
            ≡ option_map_or (λ p. waits_for p lane) (port_in self.now.ports number) false }
    {
        match self.place(number) {
            Some(place) => self.ports[place].has_waiting(lane as usize),
            None => false,
        }
    }

    /// Visits that lane of each sender to the port of that number, until one gives a message.
    #[inline(always)]
    pub fn visit<L: Labels>(&mut self, number: u64, lane: u64, wanted: Wanted, labels: &L) -> Visits
        ensures visits { result
            ≡ all_visits wanted (L.label_of labels.now) lane (pipes_to self.old.ports number) }
        ensures visited { self.new ≡ with_ports self.old
            (with_port (visited_port wanted (L.label_of labels.now) lane) self.old.ports number) }
    {
        match self.place(number) {
            Some(place) => self.ports[place].visit(lane as usize, wanted, labels),
            None => Visits::Nothing,
        }
    }

    /// Gives a message of the way back that its receiver has, and says whether it had it.
    #[inline(always)]
    pub fn release(&mut self, way: Way, place: u64) -> bool
        ensures taken { result ≡ on_way (λ l. is_taken l place) false self.old.ports way }
        ensures released { self.new
            ≡ with_ports self.old (with_lane_on (λ l. released l place) self.old.ports way) }
    {
        self.on_lane_of(way, &Release { place })
    }

    // ---- connected senders

    /// One more pipe leads to the port of that number. It says whether there was room.
    pub fn connect(&mut self, number: u64, pipe: Pipe) -> bool
        ensures room { result
            ≡ option_map_or (λ p. has_room_for p.incoming) (port_in self.old.ports number) false }
        ensures connected { self.new ≡ with_ports self.old
            (with_port (λ p. with_connected p pipe) self.old.ports number) }
    {
        match self.place(number) {
            Some(place) => self.ports[place].connect(pipe),
            None => false,
        }
    }

    /// This connected sender to the port of that number is gone: the pipe from it is kept if
    /// something waits there. It tells the pipe that goes, if one does.
    pub fn expire(&mut self, number: u64, sender: u64) -> Option<Pipe>
        ensures gone { result
            ≡ option_map_or (λ p. gone_from p sender) (port_in self.old.ports number) None }
        ensures left { self.new ≡ with_ports self.old
            (with_port (without_first_pipe sender) self.old.ports number) }
    {
        match self.place(number) {
            Some(place) => self.ports[place].expire(sender),
            None => None,
        }
    }
}
