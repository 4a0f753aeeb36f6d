//! Messages that carry nothing, by typed ports.

use crate::defaults::{answerer, asker, receive};
use crate::exchange::SETTINGS;
use crate::expected::equal;
use iceoryx2_ports::{
    ActiveRequest, Client, Hub, Many, MessageShape, One, PendingResponse, Response, ResponseMut,
    ResponseMutUninit, Server,
};
use std::alloc::{AllocError, Global};

/// Requests and responses that carry nothing.
type Signals = Hub<One<()>, (), Many<()>, ()>;

/// A request that a server of signals received.
type Signal = ActiveRequest<One<()>, (), Many<()>, ()>;

/// A loaned response of three signals.
fn lent_signals(
    hub: &mut Signals,
    request: &Signal,
) -> Option<ResponseMutUninit<One<()>, (), Many<()>, ()>> {
    if request.exists(hub) {
        return request.loan_slice_uninit(hub, 3).ok();
    }
    None
}

/// The same, and filled.
fn written_signals(
    hub: &mut Signals,
    request: &Signal,
) -> Option<ResponseMut<One<()>, (), Many<()>, ()>> {
    let loan = lent_signals(hub, request)?;
    if !loan.exists(hub) {
        loan.release(hub);
        return None;
    }
    match loan.write_from_slice(hub, &[(), (), ()]) {
        Ok(response) => Some(response),
        Err(loan) => {
            loan.release(hub);
            None
        }
    }
}

/// How many signals the request has.
fn asked_signals(hub: &Signals, request: &Signal) -> Option<usize> {
    if request.exists(hub) {
        return Some(request.payload(hub).len());
    }
    None
}

/// Answers a request with three signals, and says how many the request has.
fn answer_signals(hub: &mut Signals, request: &Signal) -> Option<usize> {
    let asked = asked_signals(hub, request)?;
    let response = written_signals(hub, request)?;
    if hub.calls() >= 1 << 56 || !response.exists(hub) {
        response.release(hub);
        return None;
    }
    response.send(hub).ok()?;
    Some(asked)
}

/// The same of the next request.
fn received_signals(
    hub: &mut Signals,
    server: &Server<One<()>, (), Many<()>, ()>,
) -> Option<usize> {
    let request = receive(hub, server)?;
    let asked = answer_signals(hub, &request);
    request.release(hub);
    asked
}

/// The next response.
fn next_signals(
    hub: &mut Signals,
    pending: &PendingResponse<One<()>, (), Many<()>, ()>,
) -> Option<Response<One<()>, (), Many<()>, ()>> {
    if hub.calls() < 1 << 56 && pending.exists(hub) {
        return pending.receive(hub).ok()?;
    }
    None
}

/// How many signals a response has.
fn length(hub: &Signals, response: &Response<One<()>, (), Many<()>, ()>) -> Option<usize> {
    if response.exists(hub) {
        return Some(response.payload(hub).len());
    }
    None
}

/// How many signals the next response has.
fn hear_signals(
    hub: &mut Signals,
    pending: &PendingResponse<One<()>, (), Many<()>, ()>,
) -> Option<usize> {
    let response = next_signals(hub, pending)?;
    let heard = length(hub, &response);
    response.release(hub);
    heard
}

/// A request of one signal.
fn ask_by_signal(
    hub: &mut Signals,
    client: &Client<One<()>, (), Many<()>, ()>,
) -> Option<PendingResponse<One<()>, (), Many<()>, ()>> {
    if client.exists(hub) {
        return client.send_copy(hub, ()).ok();
    }
    None
}

/// How many signals a request and its response have.
type OfSignals = Option<(Option<usize>, Option<usize>)>;

/// The same of this client, and of a server that is made now.
fn signals_of_client(
    hub: &mut Signals,
    alloc: Global,
    client: &Client<One<()>, (), Many<()>, ()>,
) -> OfSignals {
    let server = answerer(alloc, hub)?;
    let Some(pending) = ask_by_signal(hub, client) else {
        server.release(hub);
        return None;
    };
    let asked = received_signals(hub, &server);
    let heard = hear_signals(hub, &pending);
    pending.release(hub);
    server.release(hub);
    Some((asked, heard))
}

/// The same of a client that is made now as well.
fn signals_of_both(hub: &mut Signals, alloc: Global) -> OfSignals {
    let client = asker(alloc, hub)?;
    let told = signals_of_client(hub, alloc, &client);
    client.release(hub);
    told
}

/// The same of a new hub.
fn of_signals(alloc: Global) -> Result<OfSignals, AllocError> {
    let request = MessageShape::of_requests(None, ());
    let response = MessageShape::of_responses(None, ());
    let mut hub: Signals = Hub::new(alloc, SETTINGS, request, response)?;
    Ok(signals_of_both(&mut hub, alloc))
}

#[test]
fn messages_may_carry_nothing(rt: HostRuntime) {
    let told = of_signals(rt.alloc()).expect(&rt, "a hub");
    equal(&rt, told, Some((Some(1), Some(3))));
}
