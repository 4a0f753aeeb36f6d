//! Callers, proved only from the clauses.
ghost use Rattle.std.specs.Prelude.{◌≡◌, IfOk, Some, true, false};
ghost use Rattle.iox_model.specs.declared.kind.Role.TheVariants.{Client, Server};
ghost use Rattle.iox_model.specs.declared.way.RequestState.TheVariants.{Closed, Named};
ghost use Rattle.iox_tables.specs.Visits.TheVariants.{Got};
ghost use Rattle.iox_tables.specs.Incomings.{connected, no_pipes};
ghost use Rattle.iox_tables.specs.Pipes.{new_pipe};

use crate::info::PortInfo;
use crate::port::Port;
use crate::ports::Ports;
use iox_model::kind::Role;
use iox_model::way::{RequestState, Way};
use iox_tables::expired::Expired;
use iox_tables::incoming::{Incoming, Visits};
use iox_tables::pipe::Pipe;
use iox_tables::wanted::{Label, Labels, Wanted};
use iox_types::backpressure::BackpressureStrategy;
use iox_types::identifiers::UniqueSystemId;
use std::alloc::{AllocError, Global};

/// Every message has the same label.
#[derive(Drop)]
pub struct OneLabel {
    /// The label of every message.
    pub label: Label,
}

impl Labels for OneLabel {
    ghost label_of = { λ l pool place. l.label };

    fn label(&self, _pool: usize, _place: u64) -> Label {
        self.label
    }
}

/// A server of number 2, to which one pipe leads from client 1.
pub fn one_server(alloc: Global, id: UniqueSystemId) -> Result<Port, AllocError>
    ensures { IfOk result (λ p. (p.number ≡ 2) × (p.role ≡ Server) × (p.expired ≡ no_pipes 0)
        × (p.incoming ≡ connected (no_pipes 1) (new_pipe 1 0 1 1 1 1))) }
{
    let info = PortInfo {
        number: 2,
        node: 0,
        role: Role::Server,
        node_id: id,
        id,
        pool: 1,
        size: 1,
        longest: 8,
        grows: false,
        strategy: BackpressureStrategy::DiscardData,
        loaned_responses: 1,
        held: true,
        loans: 0,
    };
    let mut port = Port::new(info, Expired::new(alloc, 0)?, Incoming::new(alloc, 1)?);
    port.connect(Pipe::new(alloc, 1, 0, 1, 1, 1, 1)?);
    Ok(port)
}

/// What a client delivers to a server is taken there, given back, and got back.
pub fn goes_around(
    alloc: Global,
    id: UniqueSystemId,
    label: Label,
    place: u64,
) -> Result<(bool, Visits, bool, Option<u64>), AllocError>
    ensures { IfOk result (λ r. r ≡ (true, Got 1 0 place, true, Some place)) }
{
    let way = Way {
        sender: 1,
        receiver: 2,
        lane: 0,
    };
    let mut ports = Ports::new(alloc, 1)?;
    ports.add(one_server(alloc, id)?);
    let delivered = ports.deliver(way, place);
    let visits = ports.visit(2, 0, Wanted::Any, &OneLabel { label });
    let released = ports.release(way, place);
    Ok((delivered, visits, released, ports.get_back(way)))
}

/// A request is opened with the server, hinted and closed there.
pub fn opens_and_closes(
    alloc: Global,
    id: UniqueSystemId,
    request: u64,
) -> Result<(RequestState, RequestState, RequestState), AllocError>
    ensures { IfOk result (λ r. r ≡ (Named request false, Named request true, Closed)) }
{
    let way = Way {
        sender: 2,
        receiver: 1,
        lane: 0,
    };
    let mut ports = Ports::new(alloc, 1)?;
    ports.add(one_server(alloc, id)?);
    ports.open_all(1, 0, request);
    let opened = ports.state(way);
    ports.hint_all(1, 0, request);
    let hinted = ports.state(way);
    ports.close_all(1, 0, request);
    Ok((opened, hinted, ports.state(way)))
}

/// A port that was taken out is found no more, and there is room for another.
pub fn comes_and_goes(alloc: Global, id: UniqueSystemId) -> Result<(bool, usize), AllocError>
    ensures { IfOk result (λ r. r ≡ (false, 1)) }
{
    let mut ports = Ports::new(alloc, 0)?;
    ports.reserve(1)?;
    ports.add(one_server(alloc, id)?);
    ports.remove(2);
    Ok((ports.find(2).is_some(), ports.room()))
}

/// A client of number 1, with room for what is waiting from so many ports that are gone.
pub fn one_client(alloc: Global, id: UniqueSystemId, room: usize) -> Result<Port, AllocError>
    ensures { IfOk result (λ p. (p.number ≡ 1) × (p.role ≡ Client)
        × (p.expired ≡ no_pipes room) × (p.incoming ≡ no_pipes 2)) }
{
    let info = PortInfo {
        number: 1,
        node: 0,
        role: Role::Client,
        node_id: id,
        id,
        pool: 0,
        size: 1,
        longest: 8,
        grows: false,
        strategy: BackpressureStrategy::DiscardData,
        loaned_responses: 1,
        held: true,
        loans: 0,
    };
    Ok(Port::new(info, Expired::new(alloc, room)?, Incoming::new(alloc, 2)?))
}

/// The way of responses from that server to client 1.
fn from_server(sender: u64) -> Way
    ensures { result ≡ record { sender = sender; receiver = 1; lane = 0 } }
{
    Way {
        sender,
        receiver: 1,
        lane: 0,
    }
}

/// Two servers answer a client and go. With room for two it gets both answers, the older first.
pub fn both_are_kept(
    alloc: Global,
    id: UniqueSystemId,
    label: Label,
    first: u64,
    second: u64,
) -> Result<(Visits, Visits), AllocError>
    ensures { IfOk result (λ r. r ≡ (Got 2 5 first, Got 3 6 second)) }
{
    let mut ports = Ports::new(alloc, 1)?;
    ports.add(one_client(alloc, id, 2)?);
    ports.connect(1, Pipe::new(alloc, 2, 5, 1, 1, 1, 1)?);
    ports.connect(1, Pipe::new(alloc, 3, 6, 1, 1, 1, 1)?);
    ports.deliver(from_server(2), first);
    ports.deliver(from_server(3), second);
    ports.expire(1, 2);
    ports.expire(1, 3);
    let labels = OneLabel { label };
    let got = ports.visit(1, 0, Wanted::Any, &labels);
    Ok((got, ports.visit(1, 0, Wanted::Any, &labels)))
}
