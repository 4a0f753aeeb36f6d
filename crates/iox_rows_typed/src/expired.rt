//! What is waiting of servers that are gone, by typed ports.

use crate::exchange::{
    Active, Answerer, Asker, Exchange, Heard, Pending, SETTINGS, answer, answerer, ask, asker,
    hub_tells, receive,
};
use iceoryx2_ports::Settings;
use std::alloc::Global;
use std::process::Abort;

/// What three receives told: nothing where one was refused, else the byte of a response, if one
/// came.
type Told = (Option<Option<u8>>, Option<Option<u8>>, Option<Option<u8>>);

/// The server answers the next request with that byte. With the request it says whether the answer
/// was sent.
fn answers(hub: &mut Exchange, server: &Answerer, byte: u8) -> Option<(Active, bool)> {
    let request = receive(hub, server)?;
    let sent = match answer(hub, &request, &[byte]) {
        Some(Ok(())) => true,
        Some(Err(_)) => false,
        None => false,
    };
    Some((request, sent))
}

/// The server releases all that it has. It says whether its answer was sent.
fn goes(hub: &mut Exchange, server: Answerer, had: Option<(Active, bool)>) -> bool {
    let sent = match had {
        Some((request, sent)) => {
            request.release(hub);
            sent
        }
        None => false,
    };
    server.release(hub);
    sent
}

/// Both servers answer the next request, with 10 and with 20. The first releases all that it has,
/// and then the second. It says whether both answers were sent.
fn both_answer_and_go(hub: &mut Exchange, first: Answerer, second: Answerer) -> bool {
    let ten = answers(hub, &first, 10);
    let twenty = answers(hub, &second, 20);
    let first_sent = goes(hub, first, ten);
    let second_sent = goes(hub, second, twenty);
    first_sent && second_sent
}

/// The next response, if one comes, unless that is refused.
fn received(hub: &mut Exchange, pending: &Pending) -> Option<Option<Heard>> {
    if hub.calls() < 1 << 56 && pending.exists(hub) {
        return pending.receive(hub).ok();
    }
    None
}

/// The byte of a response.
fn byte(hub: &Exchange, response: &Heard) -> Option<u8> {
    if response.exists(hub) {
        return response.payload(hub).first().copied();
    }
    None
}

/// The byte of the next response, if one comes.
fn next(hub: &mut Exchange, pending: &Pending) -> Option<Option<u8>> {
    match received(hub, pending)? {
        Some(response) => {
            let byte = byte(hub, &response);
            response.release(hub);
            Some(Some(byte?))
        }
        None => Some(None),
    }
}

/// What three receives tell.
fn three(hub: &mut Exchange, pending: &Pending) -> Told {
    (next(hub, pending), next(hub, pending), next(hub, pending))
}

/// Whether both servers answered a request before they were gone, and what the client is then told.
type Gone = Option<(bool, Told)>;

/// The same of a request that is sent now.
fn both_go(hub: &mut Exchange, client: &Asker, first: Answerer, second: Answerer) -> Gone {
    let Some(Ok(pending)) = ask(hub, client, 122) else {
        first.release(hub);
        second.release(hub);
        return None;
    };
    let sent = both_answer_and_go(hub, first, second);
    let told = three(hub, &pending);
    pending.release(hub);
    Some((sent, told))
}

/// The same of servers that are made now.
fn of_servers(hub: &mut Exchange, alloc: Global, client: &Asker) -> Gone {
    let first = answerer(alloc, hub)?;
    let Some(second) = answerer(alloc, hub) else {
        first.release(hub);
        return None;
    };
    both_go(hub, client, first, second)
}

/// The same of a client that is made now as well.
fn of_ports(hub: &mut Exchange, alloc: Global) -> Gone {
    let client = asker(alloc, hub)?;
    let told = of_servers(hub, alloc, &client);
    client.release(hub);
    told
}

/// The test ends unless that is told, where the client keeps what is waiting of so many servers
/// that are gone.
fn plays(rt: &impl Abort, alloc: Global, kept: usize, wanted: Told) {
    let settings = Settings {
        client_expired: kept,
        ..SETTINGS
    };
    hub_tells(rt, alloc, &settings, of_ports, Some((true, wanted)));
}

#[test]
fn with_room_for_one_the_younger_answer_is_received(rt: HostRuntime) {
    const YOUNGER: Told = (Some(Some(20)), Some(None), Some(None));
    plays(&rt, rt.alloc(), 1, YOUNGER);
}

#[test]
fn with_room_for_two_both_answers_are_received(rt: HostRuntime) {
    const BOTH: Told = (Some(Some(10)), Some(Some(20)), Some(None));
    plays(&rt, rt.alloc(), 2, BOTH);
}

#[test]
fn without_room_no_answer_is_received(rt: HostRuntime) {
    const NONE: Told = (Some(None), Some(None), Some(None));
    plays(&rt, rt.alloc(), 0, NONE);
}
