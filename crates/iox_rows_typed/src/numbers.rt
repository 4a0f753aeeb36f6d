//! Hubs whose requests and responses are one number, and whose ports may have handlers. Each of
//! these makes one call or two of a hub that it is lent, and promises nothing.

use crate::exchange::NODE;
use iceoryx2_ports::{
    ActiveRequest, Backpressure, Client, Hub, MessageShape, One, PendingResponse,
    PortFactoryClient, PortFactoryServer, RequestSendError, SendError, Server, Settings,
};
use std::alloc::{AllocError, Global};

/// Requests and responses of one number, and ports with handlers `H`.
pub type Numbers<H = ()> = Hub<One<u64>, (), One<u64>, (), H>;

/// A client of such a hub.
pub type Asker = Client<One<u64>, (), One<u64>, ()>;

/// A server of such a hub.
pub type Answerer = Server<One<u64>, (), One<u64>, ()>;

/// What a client has of a request until it is over.
pub type Pending = PendingResponse<One<u64>, (), One<u64>, ()>;

/// A request that a server received.
pub type Active = ActiveRequest<One<u64>, (), One<u64>, ()>;

/// To how many servers a request went, or why it did not.
pub type Told = Option<Result<u64, RequestSendError>>;

/// A hub in which no port was made. Sizes and alignments are those of the types.
pub fn hub<H: Backpressure>(alloc: Global, settings: &Settings) -> Result<Numbers<H>, AllocError> {
    let request = MessageShape::of_requests(None, ());
    let response = MessageShape::of_responses(None, ());
    Hub::new(alloc, *settings, request, response)
}

/// A client of node 0, with this handler, if any.
pub fn asker<H: Backpressure>(
    alloc: Global,
    hub: &mut Numbers<H>,
    handler: Option<H>,
) -> Option<Asker> {
    let plain = PortFactoryClient::new(0, NODE);
    let factory = match handler {
        Some(handler) => plain.set_backpressure_handler(handler),
        None => plain,
    };
    factory.create(alloc, hub).ok()
}

/// A server of node 1, with this handler, if any.
pub fn answerer<H: Backpressure>(
    alloc: Global,
    hub: &mut Numbers<H>,
    handler: Option<H>,
) -> Option<Answerer> {
    let plain = PortFactoryServer::new(1, NODE);
    let factory = match handler {
        Some(handler) => plain.set_backpressure_handler(handler),
        None => plain,
    };
    factory.create(alloc, hub).ok()
}

/// Such a client and such a server.
pub fn ports<H: Backpressure>(
    alloc: Global,
    hub: &mut Numbers<H>,
    handler: Option<H>,
) -> Result<(Asker, Answerer), AllocError> {
    let Some(client) = asker(alloc, hub, handler) else {
        return Err(AllocError);
    };
    match answerer(alloc, hub, handler) {
        Some(server) => Ok((client, server)),
        None => {
            client.release(hub);
            Err(AllocError)
        }
    }
}

/// Sends a copy of that number.
pub fn ask<H: Backpressure>(
    hub: &mut Numbers<H>,
    client: &Asker,
    value: u64,
) -> Option<Result<Pending, RequestSendError>> {
    if client.exists(hub) {
        return Some(client.send_copy(hub, value));
    }
    None
}

/// The answer to what was sent is given up.
pub fn given_up<H: Backpressure>(
    hub: &mut Numbers<H>,
    sent: Result<Pending, RequestSendError>,
) -> Result<u64, RequestSendError> {
    let pending = sent?;
    let servers = pending.number_of_server_connections();
    pending.release(hub);
    Ok(servers)
}

/// Sends a copy of that number, and gives the answer up.
pub fn tell<H: Backpressure>(hub: &mut Numbers<H>, client: &Asker, value: u64) -> Told {
    let sent = ask(hub, client, value)?;
    Some(given_up(hub, sent))
}

/// The next request.
pub fn receive<H: Backpressure>(hub: &mut Numbers<H>, server: &Answerer) -> Option<Active> {
    if hub.calls() < 1 << 56 && server.exists(hub) {
        return server.receive(hub).ok()?;
    }
    None
}

/// What comes of a copy of that number that answers the request.
pub fn answer<H: Backpressure>(
    hub: &mut Numbers<H>,
    request: &Active,
    value: u64,
) -> Option<Result<(), SendError>> {
    if request.exists(hub) {
        return Some(request.send_copy(hub, value));
    }
    None
}

/// What the next response says, if one comes.
pub fn heard<H: Backpressure>(hub: &mut Numbers<H>, pending: &Pending) -> Option<u64> {
    if hub.calls() >= 1 << 56 || !pending.exists(hub) {
        return None;
    }
    let response = pending.receive(hub).ok()??;
    let value = response.first(hub).copied();
    response.release(hub);
    value
}
