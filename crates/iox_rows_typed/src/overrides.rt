//! Closures choose how many messages a port has memory for.

use crate::exchange::{
    Answerer, Asker, Exchange, NODE, SETTINGS, Told, asker, hub_tells, receive, tell,
};
use crate::limits::{Lends, lends_two, responds_twice};
use iceoryx2_ports::{LoanError, PortFactoryClient, PortFactoryServer};
use std::alloc::Global;

/// Whether a client has a second loan, and if not, why. The client is given up then.
fn second_of(hub: &mut Exchange, client: Asker) -> Lends {
    let second = lends_two(hub, &client);
    client.release(hub);
    second
}

/// The same of a client whose closure asks for one message, if it is asked with what it needs.
fn needed_lends_two(hub: &mut Exchange, alloc: Global) -> Lends {
    // 2 on loan, 1 active, and at each of 2 servers 1 that waits and 1 that was received.
    let factory = PortFactoryClient::new(0, NODE).override_request_preallocation(|needed| {
        if needed == 7 { 1 } else { needed }
    });
    let client = factory.create(alloc, hub).ok()?;
    second_of(hub, client)
}

#[test]
fn a_closure_is_asked_with_what_a_client_needs(rt: HostRuntime) {
    const ONE: Lends = Some(Err(LoanError::OutOfMemory));
    hub_tells(&rt, rt.alloc(), &SETTINGS, needed_lends_two, ONE);
}

/// The same of a client whose closure asks for no message.
fn least_lends_two(hub: &mut Exchange, alloc: Global) -> Lends {
    let factory = PortFactoryClient::new(0, NODE).override_request_preallocation(|_needed| 0);
    let client = factory.create(alloc, hub).ok()?;
    second_of(hub, client)
}

/// The same where the closure asks for far more than is needed.
fn most_lends_two(hub: &mut Exchange, alloc: Global) -> Lends {
    let factory = PortFactoryClient::new(0, NODE).override_request_preallocation(
        |_needed| usize::MAX,
    );
    let client = factory.create(alloc, hub).ok()?;
    second_of(hub, client)
}

/// Both, one after another.
fn least_and_most(hub: &mut Exchange, alloc: Global) -> (Lends, Lends) {
    let least = least_lends_two(hub, alloc);
    (least, most_lends_two(hub, alloc))
}

#[test]
fn what_a_closure_answers_is_brought_between_1_and_what_is_needed(rt: HostRuntime) {
    const BETWEEN: (Lends, Lends) = (Some(Err(LoanError::OutOfMemory)), Some(Ok(())));
    hub_tells(&rt, rt.alloc(), &SETTINGS, least_and_most, BETWEEN);
}

/// A server whose closure asks for one message, if it is asked with what it needs.
fn server(hub: &mut Exchange, alloc: Global) -> Option<Answerer> {
    // 2 on loan, and on each of 7 lanes of the client 2 that wait and 2 that were received.
    let factory = PortFactoryServer::new(0, NODE)
        .initial_max_slice_len(4)
        .override_response_preallocation(|needed| if needed == 30 { 1 } else { needed });
    factory.create(alloc, hub).ok()
}

/// Whether a server is lent a second response to the next request, and if not, why.
fn second_response(hub: &mut Exchange, server: &Answerer) -> Lends {
    let request = receive(hub, server)?;
    let second = responds_twice(hub, &request);
    request.release(hub);
    second
}

/// What a request to that server is told, and whether the server is lent a second response.
fn responds_to(hub: &mut Exchange, alloc: Global, client: &Asker) -> Option<(Told, Lends)> {
    let server = server(hub, alloc)?;
    let sent = tell(hub, client, 1);
    let second = second_response(hub, &server);
    server.release(hub);
    Some((sent, second))
}

/// The same of a client that is made now.
fn server_responds(hub: &mut Exchange, alloc: Global) -> Option<(Told, Lends)> {
    let client = asker(alloc, hub)?;
    let told = responds_to(hub, alloc, &client);
    client.release(hub);
    told
}

#[test]
fn a_closure_is_asked_with_what_a_server_needs(rt: HostRuntime) {
    const ONE_RESPONSE: Option<(Told, Lends)> = Some((
        Some(Ok(1)),
        Some(Err(LoanError::OutOfMemory)),
    ));
    hub_tells(&rt, rt.alloc(), &SETTINGS, server_responds, ONE_RESPONSE);
}
