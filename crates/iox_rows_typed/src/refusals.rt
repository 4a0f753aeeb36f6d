//! What typed ports refuse, by name.

use crate::exchange::{
    Active, Answerer, Asker, Exchange, NODE, SETTINGS, Told, Unanswered, hub_tells, lent_response,
    ports, ports_tell, receive, tell,
};
use crate::limits::{Lends, responds};
use iceoryx2_ports::{
    AllocationStrategy, ClientCreateError, LoanError, Many, One, PortFactoryClient,
    PortFactoryServer, ServerCreateError,
};
use std::alloc::Global;

/// Whether the loan is written with three bytes.
fn is_filled_by_three(hub: &mut Exchange, loan: Unanswered) -> Option<bool> {
    if !loan.exists(hub) {
        loan.release(hub);
        return None;
    }
    match loan.write_from_slice(hub, &[1, 2, 3]) {
        Ok(response) => {
            response.release(hub);
            Some(true)
        }
        Err(loan) => {
            loan.release(hub);
            Some(false)
        }
    }
}

/// Whether an answer is written that is not as long as its loan.
fn is_written(hub: &mut Exchange, request: &Active) -> Option<bool> {
    let loan = lent_response(hub, request, 2)?.ok()?;
    is_filled_by_three(hub, loan)
}

/// What comes of an answer that is too long, and of one that is not as long as its loan.
type Wrong = (Lends, Option<bool>);

/// What a request is told, and what comes of such answers to it.
fn wrong_lengths(hub: &mut Exchange, client: &Asker, server: &Answerer) -> (Told, Option<Wrong>) {
    let sent = tell(hub, client, 1);
    match receive(hub, server) {
        Some(request) => {
            let told = (responds(hub, &request, 5), is_written(hub, &request));
            request.release(hub);
            (sent, Some(told))
        }
        None => (sent, None),
    }
}

#[test]
fn lengths_are_minded(rt: HostRuntime) {
    const MINDED: (Told, Option<Wrong>) = (
        Some(Ok(1)),
        Some((Some(Err(LoanError::ExceedsMaxLoanSize)), Some(false))),
    );
    ports_tell(&rt, rt.alloc(), &SETTINGS, wrong_lengths, MINDED);
}

/// Why such a client is not made.
fn refused(
    alloc: Global,
    hub: &mut Exchange,
    factory: PortFactoryClient<One<u64>, (), Many<u8>, u32>,
) -> Option<ClientCreateError> {
    match factory.create(alloc, hub) {
        Ok(client) => {
            client.release(hub);
            None
        }
        Err(error) => Some(error),
    }
}

/// Why such a server is not made.
fn refused_server(
    alloc: Global,
    hub: &mut Exchange,
    factory: PortFactoryServer<One<u64>, (), Many<u8>, u32>,
) -> Option<ServerCreateError> {
    match factory.create(alloc, hub) {
        Ok(server) => {
            server.release(hub);
            None
        }
        Err(error) => Some(error),
    }
}

/// Why a server of messages that are too large is not made.
fn refused_large(hub: &mut Exchange, alloc: Global) -> Option<ServerCreateError> {
    let large = PortFactoryServer::new(1, NODE).initial_max_slice_len(u64::MAX);
    refused_server(alloc, hub, large)
}

/// Why a client of single elements is not made, if its messages are to grow. None: it is made.
fn refused_growing(hub: &mut Exchange, alloc: Global) -> Option<ClientCreateError> {
    let growing = AllocationStrategy::PowerOfTwo;
    let single = PortFactoryClient::new(0, NODE).allocation_strategy(growing);
    refused(alloc, hub, single)
}

/// Why a further client is not made.
fn refused_further(hub: &mut Exchange, alloc: Global) -> Option<ClientCreateError> {
    refused(alloc, hub, PortFactoryClient::new(0, NODE))
}

/// Why a client is not made beside another one, and beside none.
type Beside = (Option<ClientCreateError>, Option<ClientCreateError>);

/// The same where there is a server as well.
fn beside_a_client(hub: &mut Exchange, alloc: Global) -> Option<Beside> {
    let (client, server) = ports(alloc, hub).ok()?;
    let second = refused_further(hub, alloc);
    client.release(hub);
    let third = refused_further(hub, alloc);
    server.release(hub);
    Some((second, third))
}

/// Why these are not made, one after another: the server, the client, and the pair of clients.
type AllRefused = (
    Option<ServerCreateError>,
    Option<ClientCreateError>,
    Option<Beside>,
);

/// All of that, one after another.
fn all_refused(hub: &mut Exchange, alloc: Global) -> AllRefused {
    let large = refused_large(hub, alloc);
    let growing = refused_growing(hub, alloc);
    (large, growing, beside_a_client(hub, alloc))
}

#[test]
fn ports_are_refused_by_name(rt: HostRuntime) {
    const BY_NAME: AllRefused = (
        Some(ServerCreateError::UnableToCreateDataSegment),
        None,
        Some((Some(ClientCreateError::ExceedsMaxSupportedClients), None)),
    );
    hub_tells(&rt, rt.alloc(), &SETTINGS, all_refused, BY_NAME);
}
