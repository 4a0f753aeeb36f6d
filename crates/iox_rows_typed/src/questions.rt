//! What typed ports and handles tell, before and after other calls.

use crate::exchange::{
    Active, Answerer, Asker, Exchange, NODE, Pending, SETTINGS, answer, answered, ask, hub_tells,
    ports, ports_tell, receive,
};
use iceoryx2_ports::{BackpressureStrategy, PortFactoryClient, PortFactoryServer};
use std::alloc::Global;

const DISCARDS: BackpressureStrategy = BackpressureStrategy::DiscardData;

const RETRIES: BackpressureStrategy = BackpressureStrategy::RetryUntilDelivered;

/// Whether a request waits for the server.
fn waits(hub: &Exchange, server: &Answerer) -> Option<bool> {
    if !server.exists(hub) {
        return None;
    }
    server.has_requests(hub).ok()
}

/// Whether the request is open at some server, and whether a response to it waits.
fn of_pending(hub: &Exchange, pending: &Pending) -> Option<(bool, bool)> {
    if !pending.exists(hub) {
        return None;
    }
    Some((pending.is_connected(hub), pending.has_response(hub)))
}

/// Whether the request is open, and whether its client wants no more responses.
fn of_active(hub: &Exchange, request: &Active) -> Option<(bool, bool)> {
    if !request.exists(hub) {
        return None;
    }
    Some((request.is_connected(hub), request.has_disconnect_hint(hub)))
}

/// The client wants no more responses.
fn hint(hub: &mut Exchange, pending: &Pending) {
    if pending.exists(hub) {
        pending.set_disconnect_hint(hub);
    }
}

/// What the client is told about a request that is received, answered and heard.
fn told_the_client(
    hub: &mut Exchange,
    pending: &Pending,
    request: &Active,
) -> [Option<(bool, bool)>; 3] {
    let received = of_pending(hub, pending);
    answer(hub, request, &[4, 5, 6]);
    let waiting = of_pending(hub, pending);
    answered(hub, pending);
    [received, waiting, of_pending(hub, pending)]
}

/// What a server is told about a request that its client hints at, and then gives up.
fn told_the_server(
    hub: &mut Exchange,
    pending: Pending,
    request: &Active,
) -> [Option<(bool, bool)>; 3] {
    let received = of_active(hub, request);
    hint(hub, &pending);
    let hinted = of_active(hub, request);
    pending.release(hub);
    [received, hinted, of_active(hub, request)]
}

/// Whether a request waits once it was received, and what the server is then told.
type Server = (Option<bool>, [Option<(bool, bool)>; 3]);

/// The same of the next request.
fn told_of_received(hub: &mut Exchange, server: &Answerer, pending: Pending) -> Option<Server> {
    let Some(request) = receive(hub, server) else {
        pending.release(hub);
        return None;
    };
    let after = waits(hub, server);
    let told = told_the_server(hub, pending, &request);
    request.release(hub);
    Some((after, told))
}

/// Whether a request waits before one is sent, and then, and what the server is told.
type Told = (Option<bool>, Option<bool>, Option<Server>);

/// The same of a request that is sent now.
fn a_server_is_told(hub: &mut Exchange, client: &Asker, server: &Answerer) -> Option<Told> {
    let before = waits(hub, server);
    let pending = ask(hub, client, 123)?.ok()?;
    let sent = waits(hub, server);
    Some((before, sent, told_of_received(hub, server, pending)))
}

#[test]
fn a_server_is_told_of_requests_hints_and_ends(rt: HostRuntime) {
    const SERVER_TOLD: Option<Told> = Some((
        Some(false),
        Some(true),
        Some((
            Some(false),
            [
                Some((true, false)),
                Some((true, true)),
                Some((false, false)),
            ],
        )),
    ));
    ports_tell(&rt, rt.alloc(), &SETTINGS, a_server_is_told, SERVER_TOLD);
}

/// What the client is told about the next request.
fn told_of_answered(
    hub: &mut Exchange,
    server: &Answerer,
    pending: &Pending,
) -> Option<[Option<(bool, bool)>; 3]> {
    let request = receive(hub, server)?;
    let told = told_the_client(hub, pending, &request);
    request.release(hub);
    Some(told)
}

/// What it is told about a request before and after that, and this.
type OfClient = Option<([Option<(bool, bool)>; 2], Option<[Option<(bool, bool)>; 3]>)>;

/// The same of a request that is sent now.
fn a_client_is_told(hub: &mut Exchange, client: &Asker, server: &Answerer) -> OfClient {
    let pending = ask(hub, client, 123)?.ok()?;
    let sent = of_pending(hub, &pending);
    let told = told_of_answered(hub, server, &pending);
    let after = of_pending(hub, &pending);
    pending.release(hub);
    Some(([sent, after], told))
}

#[test]
fn a_client_is_told_of_responses_and_of_the_end(rt: HostRuntime) {
    const CLIENT_TOLD: OfClient = Some((
        [Some((true, false)), Some((false, false))],
        Some([Some((true, false)), Some((true, true)), Some((true, false))]),
    ));
    ports_tell(&rt, rt.alloc(), &SETTINGS, a_client_is_told, CLIENT_TOLD);
}

/// What a port does at a full receiver, how long its messages are, and whether it looks for others.
type Made = Option<(BackpressureStrategy, u64, bool)>;

/// The same of a client.
fn of_client(hub: &Exchange, client: &Asker) -> Made {
    if !client.exists(hub) {
        return None;
    }
    let looks = client.update_connections(hub).is_ok();
    let strategy = client.backpressure_strategy(hub);
    Some((strategy, client.initial_max_slice_len(hub), looks))
}

/// The same of a server.
fn of_server(hub: &Exchange, server: &Answerer) -> Made {
    if !server.exists(hub) {
        return None;
    }
    let looks = server.update_connections(hub).is_ok();
    let strategy = server.backpressure_strategy(hub);
    Some((strategy, server.initial_max_slice_len(hub), looks))
}

/// Whether both servers have one id.
fn are_of_one_id(hub: &Exchange, server: &Answerer, other: &Answerer) -> Option<bool> {
    if !server.exists(hub) || !other.exists(hub) {
        return None;
    }
    Some(server.id(hub) == other.id(hub))
}

/// What a client tells that was told to try again.
fn of_chosen(hub: &mut Exchange, alloc: Global) -> Made {
    let factory = PortFactoryClient::new(0, NODE).backpressure_strategy(RETRIES);
    let client = factory.create(alloc, hub).ok()?;
    let told = of_client(hub, &client);
    client.release(hub);
    told
}

/// A server that was told to try again, and whose responses are longer.
fn longer(hub: &mut Exchange, alloc: Global) -> Option<Answerer> {
    let factory = PortFactoryServer::new(1, NODE)
        .backpressure_strategy(RETRIES)
        .initial_max_slice_len(9);
    factory.create(alloc, hub).ok()
}

/// What such a server tells, and whether it has the id of this one.
fn of_longer(hub: &mut Exchange, alloc: Global, server: &Answerer) -> Option<(Made, Option<bool>)> {
    let other = longer(hub, alloc)?;
    let told = of_server(hub, &other);
    let same = are_of_one_id(hub, server, &other);
    other.release(hub);
    Some((told, same))
}

/// What ports tell that are as the settings say, and what such a client and such a server tell.
type AllMade = ([Made; 2], Made, Option<(Made, Option<bool>)>);

/// The same of ports that are made now.
fn of_all(hub: &mut Exchange, alloc: Global) -> Option<AllMade> {
    let (client, server) = ports(alloc, hub).ok()?;
    let served = [of_client(hub, &client), of_server(hub, &server)];
    client.release(hub);
    let chosen = of_chosen(hub, alloc);
    let other = of_longer(hub, alloc, &server);
    server.release(hub);
    Some((served, chosen, other))
}

#[test]
fn ports_tell_how_they_were_made(rt: HostRuntime) {
    const HOW_MADE: Option<AllMade> = Some((
        [Some((DISCARDS, 1, true)), Some((DISCARDS, 4, true))],
        Some((RETRIES, 1, true)),
        Some((Some((RETRIES, 9, true)), Some(false))),
    ));
    hub_tells(&rt, rt.alloc(), &SETTINGS, of_all, HOW_MADE);
}
