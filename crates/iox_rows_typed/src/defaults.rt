//! Loans that are filled with their default, by typed ports.
ghost use Rattle.std.specs.Prelude.{IfOk, IsSome};
ghost use Rattle.iceoryx2_ports.specs.HubKeeping.{HaveSameShapes};

use crate::exchange::{NODE, SETTINGS};
use crate::expected::equal;
use iceoryx2_ports::{
    ActiveRequest, Client, Hub, Many, MessageShape, One, Payload, PendingResponse,
    PortFactoryClient, PortFactoryServer, Server,
};
use std::alloc::{AllocError, Global};

/// Requests of one number, and responses of many bytes.
type Bytes = Hub<One<u64>, (), Many<u8>, ()>;

/// Requests of many numbers, and responses of one.
type Numbers = Hub<Many<u64>, (), One<u64>, ()>;

/// A hub whose requests carry 7, and whose responses carry nines, where nothing is written.
fn bytes(alloc: Global) -> Result<Bytes, AllocError>
    ensures request { IfOk result (λ hub. IsSome hub.request.default) }
    ensures response { IfOk result (λ hub. IsSome hub.response.default) }
{
    let request = MessageShape::of_requests(Some(7), ());
    let response = MessageShape::of_responses(Some(9), ());
    Hub::new(alloc, SETTINGS, request, response)
}

/// A hub whose requests carry eights, and whose responses carry 6, where nothing is written.
fn numbers(alloc: Global) -> Result<Numbers, AllocError>
    ensures request { IfOk result (λ hub. IsSome hub.request.default) }
    ensures response { IfOk result (λ hub. IsSome hub.response.default) }
{
    let request = MessageShape::of_requests(Some(8), ());
    let response = MessageShape::of_responses(Some(6), ());
    Hub::new(alloc, SETTINGS, request, response)
}

/// A client of node 0, whose requests have at most four elements.
pub fn asker<Q: Payload, P: Payload>(
    alloc: Global,
    hub: &mut Hub<Q, (), P, ()>,
) -> Option<Client<Q, (), P, ()>>
    ensures { HaveSameShapes hub.old hub.new }
{
    let factory = PortFactoryClient::new(0, NODE).initial_max_slice_len(4);
    factory.create(alloc, hub).ok()
}

/// A server of node 1, whose responses have at most four elements.
pub fn answerer<Q: Payload, P: Payload>(
    alloc: Global,
    hub: &mut Hub<Q, (), P, ()>,
) -> Option<Server<Q, (), P, ()>>
    ensures { HaveSameShapes hub.old hub.new }
{
    let factory = PortFactoryServer::new(1, NODE).initial_max_slice_len(4);
    factory.create(alloc, hub).ok()
}

/// The next request.
pub fn receive<Q: Payload, P: Payload>(
    hub: &mut Hub<Q, (), P, ()>,
    server: &Server<Q, (), P, ()>,
) -> Option<ActiveRequest<Q, (), P, ()>>
    ensures { HaveSameShapes hub.old hub.new }
{
    if hub.calls() >= 1 << 56 || !server.exists(hub) {
        return None;
    }
    server.receive(hub).ok()?
}

/// What a request carries that is loaned with its default.
fn first_number(hub: &mut Bytes, client: &Client<One<u64>, (), Many<u8>, ()>) -> Option<u64>
    requires { IsSome hub.old.request.default }
    ensures { HaveSameShapes hub.old hub.new }
{
    if !client.exists(hub) {
        return None;
    }
    let loan = client.loan(hub).ok()?;
    let value = loan.payload(hub).first().copied();
    loan.release(hub);
    value
}

/// How many bytes a response has that is loaned with their defaults, and the last of them.
fn first_bytes(
    hub: &mut Bytes,
    request: &ActiveRequest<One<u64>, (), Many<u8>, ()>,
) -> Option<(usize, Option<u8>)>
    requires { IsSome hub.old.response.default }
{
    if !request.exists(hub) {
        return None;
    }
    let loan = request.loan_slice(hub, 3).ok()?;
    let bytes = loan.payload(hub);
    let told = (bytes.len(), bytes.last().copied());
    loan.release(hub);
    Some(told)
}

/// The same of the answer to the next request.
fn received_with_bytes(
    hub: &mut Bytes,
    server: &Server<One<u64>, (), Many<u8>, ()>,
) -> Option<(usize, Option<u8>)>
    requires { IsSome hub.old.response.default }
{
    let request = receive(hub, server)?;
    let told = first_bytes(hub, &request);
    request.release(hub);
    told
}

/// The same of the answer to a request that is sent now.
fn answered_with_bytes(
    hub: &mut Bytes,
    client: &Client<One<u64>, (), Many<u8>, ()>,
    server: &Server<One<u64>, (), Many<u8>, ()>,
) -> Option<(usize, Option<u8>)>
    requires { IsSome hub.old.response.default }
{
    if !client.exists(hub) {
        return None;
    }
    let pending = client.send_copy(hub, 1).ok()?;
    let told = received_with_bytes(hub, server);
    pending.release(hub);
    told
}

/// What such a request carries, and how many bytes such a response has, with the last of them.
type OfBytes = Option<(Option<u64>, Option<(usize, Option<u8>)>)>;

/// The same of this client, and of a server that is made now.
fn told_by_client(
    hub: &mut Bytes,
    alloc: Global,
    client: &Client<One<u64>, (), Many<u8>, ()>,
) -> OfBytes
    requires request { IsSome hub.old.request.default }
    requires response { IsSome hub.old.response.default }
{
    let server = answerer(alloc, hub)?;
    let value = first_number(hub, client);
    let told = answered_with_bytes(hub, client, &server);
    server.release(hub);
    Some((value, told))
}

/// The same of a client that is made now as well.
fn told_by_bytes(hub: &mut Bytes, alloc: Global) -> OfBytes
    requires request { IsSome hub.old.request.default }
    requires response { IsSome hub.old.response.default }
{
    let client = asker(alloc, hub)?;
    let told = told_by_client(hub, alloc, &client);
    client.release(hub);
    told
}

/// The same of a new hub.
fn of_bytes(alloc: Global) -> Result<OfBytes, AllocError> {
    let mut hub = bytes(alloc)?;
    Ok(told_by_bytes(&mut hub, alloc))
}

#[test]
fn a_request_of_one_and_a_response_of_many_have_their_defaults(rt: HostRuntime) {
    const SEVEN_AND_NINES: OfBytes = Some((Some(7), Some((3, Some(9)))));
    let told = of_bytes(rt.alloc()).expect(&rt, "a hub");
    equal(&rt, told, SEVEN_AND_NINES);
}

/// The last of two numbers of a request that is loaned with their defaults, and sent.
fn ask_for_numbers(
    hub: &mut Numbers,
    client: &Client<Many<u64>, (), One<u64>, ()>,
) -> Option<(Option<u64>, PendingResponse<Many<u64>, (), One<u64>, ()>)>
    requires { IsSome hub.old.request.default }
    ensures { HaveSameShapes hub.old hub.new }
{
    if !client.exists(hub) {
        return None;
    }
    let loan = client.loan_slice(hub, 2).ok()?;
    let last = loan.payload(hub).last().copied();
    if hub.calls() >= 1 << 56 {
        loan.release(hub);
        return None;
    }
    Some((last, loan.send(hub).ok()?))
}

/// What a response carries that is loaned with its default.
fn answer_number(
    hub: &mut Numbers,
    request: &ActiveRequest<Many<u64>, (), One<u64>, ()>,
) -> Option<u64>
    requires { IsSome hub.old.response.default }
{
    if !request.exists(hub) {
        return None;
    }
    let loan = request.loan(hub).ok()?;
    let value = loan.payload(hub).first().copied();
    loan.release(hub);
    value
}

/// The same of the answer to the next request.
fn received_with_number(
    hub: &mut Numbers,
    server: &Server<Many<u64>, (), One<u64>, ()>,
) -> Option<u64>
    requires { IsSome hub.old.response.default }
{
    let request = receive(hub, server)?;
    let value = answer_number(hub, &request);
    request.release(hub);
    value
}

/// The last number of a request and the number of its answer.
type OfNumbers = Option<(Option<u64>, Option<u64>)>;

/// The same of this client, and of a server that is made now.
fn numbers_of_client(
    hub: &mut Numbers,
    alloc: Global,
    client: &Client<Many<u64>, (), One<u64>, ()>,
) -> OfNumbers
    requires request { IsSome hub.old.request.default }
    requires response { IsSome hub.old.response.default }
{
    let server = answerer(alloc, hub)?;
    let Some((last, pending)) = ask_for_numbers(hub, client) else {
        server.release(hub);
        return None;
    };
    let value = received_with_number(hub, &server);
    pending.release(hub);
    server.release(hub);
    Some((last, value))
}

/// The same of a client that is made now as well.
fn numbers_of_both(hub: &mut Numbers, alloc: Global) -> OfNumbers
    requires request { IsSome hub.old.request.default }
    requires response { IsSome hub.old.response.default }
{
    let client = asker(alloc, hub)?;
    let told = numbers_of_client(hub, alloc, &client);
    client.release(hub);
    told
}

/// The same of a new hub.
fn of_numbers(alloc: Global) -> Result<OfNumbers, AllocError> {
    let mut hub = numbers(alloc)?;
    Ok(numbers_of_both(&mut hub, alloc))
}

#[test]
fn a_request_of_many_and_a_response_of_one_have_their_defaults(rt: HostRuntime) {
    const EIGHT_AND_SIX: OfNumbers = Some((Some(8), Some(6)));
    let told = of_numbers(rt.alloc()).expect(&rt, "a hub");
    equal(&rt, told, EIGHT_AND_SIX);
}
