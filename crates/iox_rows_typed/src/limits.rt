//! How many messages a typed port may have at once, as its factory says.

use crate::exchange::{
    Active, Answerer, Asker, Exchange, NODE, SETTINGS, ask, hub_tells, lent, lent_response, receive,
};
use iceoryx2_ports::{LoanError, Many, One, PortFactoryClient, PortFactoryServer};
use std::alloc::Global;

/// Whether there is a loan, which is given up then, and if not, why.
pub type Lends = Option<Result<(), LoanError>>;

/// The same of a request.
fn lends(hub: &mut Exchange, client: &Asker) -> Lends {
    match lent(hub, client)? {
        Ok(loan) => {
            loan.release(hub);
            Some(Ok(()))
        }
        Err(error) => Some(Err(error)),
    }
}

/// The same while the client has another one.
pub fn lends_two(hub: &mut Exchange, client: &Asker) -> Lends {
    let first = lent(hub, client)?.ok()?;
    let second = lends(hub, client);
    first.release(hub);
    second
}

/// Whether there is a loan of so many bytes for a response, and if not, why.
pub fn responds(hub: &mut Exchange, request: &Active, length: usize) -> Lends {
    match lent_response(hub, request, length)? {
        Ok(loan) => {
            loan.release(hub);
            Some(Ok(()))
        }
        Err(error) => Some(Err(error)),
    }
}

/// The same of one byte, while the request has another loan.
pub fn responds_twice(hub: &mut Exchange, request: &Active) -> Lends {
    let first = lent_response(hub, request, 1)?.ok()?;
    let second = responds(hub, request, 1);
    first.release(hub);
    second
}

/// Whether the next request has a second loan, and if not, why.
fn of_received(hub: &mut Exchange, server: &Answerer) -> Lends {
    let request = receive(hub, server)?;
    let told = responds_twice(hub, &request);
    request.release(hub);
    told
}

/// The same of a request that the client sends now.
fn answers(hub: &mut Exchange, client: &Asker, server: &Answerer) -> Lends {
    let pending = ask(hub, client, 123)?.ok()?;
    let told = of_received(hub, server);
    pending.release(hub);
    told
}

/// What comes of a second loan of a client, and of one of a request that it sends.
type Seconds = Option<(Lends, Lends)>;

/// The same of this client, and of a server that is made so.
fn of_server(
    hub: &mut Exchange,
    alloc: Global,
    client: &Asker,
    factory: PortFactoryServer<One<u64>, (), Many<u8>, u32>,
) -> Seconds {
    let server = factory.create(alloc, hub).ok()?;
    let told = (lends_two(hub, client), answers(hub, client, &server));
    server.release(hub);
    Some(told)
}

/// The same of ports that are made so.
fn of_ports(
    hub: &mut Exchange,
    alloc: Global,
    client: PortFactoryClient<One<u64>, (), Many<u8>, u32>,
    server: PortFactoryServer<One<u64>, (), Many<u8>, u32>,
) -> Seconds {
    let client = client.create(alloc, hub).ok()?;
    let told = of_server(hub, alloc, &client, server);
    client.release(hub);
    told
}

/// The same where the factories say nothing.
fn plain(hub: &mut Exchange, alloc: Global) -> Seconds {
    let client = PortFactoryClient::new(0, NODE);
    of_ports(hub, alloc, client, PortFactoryServer::new(1, NODE))
}

/// The same where each port has memory for one message.
fn few(hub: &mut Exchange, alloc: Global) -> Seconds {
    let client = PortFactoryClient::new(0, NODE).request_preallocation(1);
    let server = PortFactoryServer::new(1, NODE).response_preallocation(1);
    of_ports(hub, alloc, client, server)
}

/// The same where a request has one response on loan at most.
fn limited(hub: &mut Exchange, alloc: Global) -> Seconds {
    let client = PortFactoryClient::new(0, NODE);
    let server = PortFactoryServer::new(1, NODE).max_loaned_responses_per_request(1);
    of_ports(hub, alloc, client, server)
}

#[test]
fn a_factory_says_how_many_messages_there_are(rt: HostRuntime) {
    const PLAIN: Seconds = Some((Some(Ok(())), Some(Ok(()))));
    const FEW: Seconds = Some((
        Some(Err(LoanError::OutOfMemory)),
        Some(Err(LoanError::OutOfMemory)),
    ));
    const LIMITED: Seconds = Some((Some(Ok(())), Some(Err(LoanError::ExceedsMaxLoans))));
    hub_tells(&rt, rt.alloc(), &SETTINGS, plain, PLAIN);
    hub_tells(&rt, rt.alloc(), &SETTINGS, few, FEW);
    hub_tells(&rt, rt.alloc(), &SETTINGS, limited, LIMITED);
}
