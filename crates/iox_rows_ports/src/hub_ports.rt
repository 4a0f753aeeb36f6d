//! Tests of `iox_hub_ports`, of each function once. A test is a list of what is done and of what
//! has to come of it, which one function plays.
mod ports;

use crate::expected::{equal, holds, is_so};
use iox_hub_ports::info::PortInfo;
use iox_hub_ports::port::Port;
use iox_hub_ports::ports::Ports;
use iox_lanes::expired::Expired;
use iox_lanes::incoming::{Incoming, Visits};
use iox_lanes::pipe::Pipe;
use iox_lanes::wanted::{Label, Labels, Wanted};
use iox_model::kind::Role;
use iox_model::way::{RequestState, Way};
use iox_types::backpressure::BackpressureStrategy;
use iox_types::identifiers::UniqueSystemId;
use std::alloc::Global;
use std::process::Abort;

/// Every message has the same label.
#[derive(Drop)]
struct NoLabel;

impl Labels for NoLabel {
    ghost label_of = { λ l pool place. record { lane = 0; request = 0 } };

    fn label(&self, _pool: usize, _place: u64) -> Label {
        Label {
            lane: 0,
            request: 0,
        }
    }
}

/// A pipe from this sender, of this pool, with so many lanes and states.
type PipeOf = (u64, usize, usize, usize);

/// What is done, or asked, and what has to come of it.
enum Deed {
    /// A port is added, with room for so many pipes from ports that are gone, and from connected
    /// ones.
    Adds(u64, Role, usize, usize),
    Reserves(usize),
    CountsLoan(u64),
    /// A pipe to that port is connected, or not.
    Connects(u64, PipeOf, bool),
    ReleasesValue(u64),
    /// A sender to that port is gone, and with it goes the pipe from that one.
    Expires(u64, u64, Option<u64>),
    /// The port of that number is removed, which has this number.
    Removes(u64, Option<u64>),
    /// How many ports there are, and how many may be added.
    Counts((usize, usize)),
    /// How many loans the port has, and whether it is held.
    Seen(u64, Option<(u64, bool)>),
    /// The number of the port of that place.
    NumberAt(usize, Option<u64>),
    Delivers(Way, u64, bool),
    IsFull(Way, bool),
    Pushes(Way, u64, Option<u64>),
    Evicts(Way, Option<u64>),
    Releases(Way, u64, bool),
    GetsBack(Way, Option<u64>),
    /// Something waits for that port on that lane.
    HasWaiting(u64, u64, bool),
    /// The port visits that lane.
    Visits(u64, u64, Visits),
    /// The port is looked for at that place alone, and visits that lane on the usual way.
    VisitsUsually(u64, usize, u64, Option<Visits>),
    /// The lane on which something is left to get back, from that sender to that receiver.
    LaneToGet(u64, u64, Option<usize>),
    /// On lane 0 from client 1 to the port of that place.
    DeliversAt(usize, u64, bool),
    IsFullAt(usize, bool),
    PushesAt(usize, u64, Option<u64>),
    GetsBackAt(usize, Option<u64>),
    Opens(Way, u64),
    Hints(Way, u64),
    Closes(Way, u64),
    State(Way, RequestState),
    /// On lane 1 of client 1, with each server.
    OpensAll(u64),
    HintsAll(u64),
    ClosesAll(u64),
}

/// A port, with room for so many pipes from ports that are gone, and from connected ones.
fn a_port(
    rt: &impl Abort,
    alloc: Global,
    number: u64,
    role: Role,
    kept: usize,
    pipes: usize,
) -> Port {
    let id = UniqueSystemId {
        process: 1,
        seconds: 2,
        nanoseconds: 3,
        counter: 4,
    };
    let info = PortInfo {
        number,
        node: 0,
        role,
        node_id: id,
        id,
        pool: 0,
        size: 2,
        longest: 8,
        grows: false,
        strategy: BackpressureStrategy::DiscardData,
        loaned_responses: 1,
        held: true,
        loans: 0,
    };
    let expired = Expired::new(alloc, kept).expect(rt, "room for what is kept");
    let incoming = Incoming::new(alloc, pipes).expect(rt, "room for pipes");
    Port::new(info, expired, incoming)
}

/// How many loans the port has, and whether it is held.
fn seen(ports: &Ports, number: u64) -> Option<(u64, bool)> {
    let info = ports.find(number)?;
    Some((info.loans, info.held))
}

/// The number of the port of that place.
fn number_at(ports: &Ports, place: usize) -> Option<u64> {
    Some(ports.at(place)?.number)
}

/// From whom the pipe came that goes, as a sender is gone.
fn expire(ports: &mut Ports, number: u64, sender: u64) -> Option<u64> {
    Some(ports.expire(number, sender)?.sender())
}

/// The number of what was removed.
fn remove(ports: &mut Ports, number: u64) -> Option<u64> {
    Some(ports.remove(number)?.number())
}

/// Adds a port, where there is none of its number.
#[tactic(auto, using(crate::proofs::Ports::none_has_it))]
fn adds(rt: &impl Abort, ports: &mut Ports, port: Port) {
    is_so(rt, ports.room() > 0);
    is_so(rt, !ports.find(port.number()).is_some());
    ports.add(port);
}

/// Counts a loan of the port of that number, if it has fewer than 2^32.
fn counts_loan(rt: &impl Abort, ports: &mut Ports, number: u64) {
    let info = ports.find(number).expect(rt, "a port");
    is_so(rt, info.loans < 1 << 32);
    ports.count_loan(number);
}

/// A pipe on which one may wait and one may be taken.
fn a_pipe(rt: &impl Abort, alloc: Global, (sender, pool, lanes, states): PipeOf) -> Pipe {
    Pipe::new(alloc, sender, pool, lanes, 1, 1, states).expect(rt, "a pipe")
}

/// Does what changes which ports and pipes there are.
fn makes(rt: &impl Abort, alloc: Global, ports: &mut Ports, deed: &Deed) {
    match deed {
        Deed::Adds(number, role, kept, pipes) => {
            adds(rt, ports, a_port(rt, alloc, *number, *role, *kept, *pipes));
        }
        Deed::Reserves(more) => ports.reserve(*more).expect(rt, "room for ports"),
        Deed::CountsLoan(number) => counts_loan(rt, ports, *number),
        Deed::Connects(number, pipe, wanted) => {
            equal(
                rt,
                ports.connect(*number, a_pipe(rt, alloc, *pipe)),
                *wanted,
            );
        }
        Deed::ReleasesValue(number) => ports.release_value(*number),
        Deed::Expires(number, sender, wanted) => {
            equal(rt, expire(ports, *number, *sender), *wanted);
        }
        Deed::Removes(number, wanted) => equal(rt, remove(ports, *number), *wanted),
        Deed::Counts(wanted) => equal(rt, (ports.len(), ports.room()), *wanted),
        Deed::Seen(number, wanted) => equal(rt, seen(ports, *number), *wanted),
        Deed::NumberAt(place, wanted) => equal(rt, number_at(ports, *place), *wanted),
        _ => sends(rt, ports, deed),
    }
}

/// Does what is done on a way.
fn sends(rt: &impl Abort, ports: &mut Ports, deed: &Deed) {
    match deed {
        Deed::Delivers(way, place, wanted) => equal(rt, ports.deliver(*way, *place), *wanted),
        Deed::IsFull(way, wanted) => equal(rt, ports.is_full(*way), *wanted),
        Deed::Pushes(way, place, wanted) => equal(rt, ports.push(*way, *place), *wanted),
        Deed::Evicts(way, wanted) => equal(rt, ports.evict(*way), *wanted),
        Deed::Releases(way, place, wanted) => equal(rt, ports.release(*way, *place), *wanted),
        Deed::GetsBack(way, wanted) => equal(rt, ports.get_back(*way), *wanted),
        Deed::HasWaiting(number, lane, wanted) => {
            equal(rt, ports.has_waiting(*number, *lane), *wanted);
        }
        Deed::Visits(number, lane, wanted) => {
            equal(
                rt,
                ports.visit(*number, *lane, Wanted::Any, &NoLabel),
                *wanted,
            );
        }
        Deed::VisitsUsually(number, hint, lane, wanted) => {
            equal(
                rt,
                ports.visit_usual(*number, *hint, *lane, Wanted::Any, &NoLabel),
                *wanted,
            );
        }
        Deed::LaneToGet(sender, receiver, wanted) => {
            equal(rt, ports.lane_to_get(*sender, *receiver), *wanted);
        }
        _ => opens(rt, ports, deed),
    }
}

/// Does what is done by the place of a port, and with requests.
fn opens(rt: &impl Abort, ports: &mut Ports, deed: &Deed) {
    match deed {
        Deed::DeliversAt(at, place, wanted) => {
            equal(rt, ports.deliver_at(*at, 1, 0, *place), *wanted);
        }
        Deed::IsFullAt(at, wanted) => equal(rt, ports.is_full_at(*at, 1, 0), *wanted),
        Deed::PushesAt(at, place, wanted) => {
            equal(rt, ports.push_at(*at, 1, 0, *place), *wanted);
        }
        Deed::GetsBackAt(at, wanted) => equal(rt, ports.get_back_at(*at, 1, 0), *wanted),
        Deed::Opens(way, id) => ports.open(*way, *id),
        Deed::Hints(way, id) => ports.hint(*way, *id),
        Deed::Closes(way, id) => ports.close(*way, *id),
        Deed::State(way, wanted) => equal(rt, ports.state(*way), *wanted),
        Deed::OpensAll(id) => ports.open_all(1, 1, *id),
        Deed::HintsAll(id) => ports.hint_all(1, 1, *id),
        Deed::ClosesAll(id) => ports.close_all(1, 1, *id),
        _ => holds(rt, false),
    }
}

/// Does all of it.
fn goes(rt: &impl Abort, alloc: Global, ports: &mut Ports, list: &[Deed]) {
    for deed in list {
        makes(rt, alloc, ports, deed);
    }
}

/// Does all of it with new ports, of which there may be one: first one list and then another.
fn plays(rt: &impl Abort, alloc: Global, first: &[Deed], rest: &[Deed]) {
    let mut ports = Ports::new(alloc, 1).expect(rt, "room for a port");
    goes(rt, alloc, &mut ports, first);
    goes(rt, alloc, &mut ports, rest);
}
