//! The headers of loans, and of what is received, name who sent them.

use crate::exchange::{
    Active, Answerer, Asker, Exchange, Heard, Pending, SETTINGS, Unanswered, Unasked, answer, ask,
    lent, lent_response, next, ports_tell, receive,
};

/// Whether a header names who sent it, and how many elements it tells.
type Named = Option<(bool, u64)>;

/// The same of a client's loan.
fn of_unasked(hub: &Exchange, loan: &Unasked, client: &Asker) -> Named {
    if !loan.exists(hub) || !client.exists(hub) {
        return None;
    }
    let header = loan.header(hub).ok()?;
    let same = header.client_id() == client.id(hub);
    Some((same, header.number_of_elements()))
}

/// The same of a loan that is given up then.
fn of_a_loaned_request(hub: &mut Exchange, client: &Asker) -> Named {
    let loan = lent(hub, client)?.ok()?;
    let told = of_unasked(hub, &loan, client);
    loan.release(hub);
    told
}

/// Whether the header of a received request names that client, and whether its origin does.
fn of_a_request(hub: &Exchange, request: &Active, client: &Asker) -> Option<(bool, bool)> {
    if !request.exists(hub) || !client.exists(hub) {
        return None;
    }
    let header = request.header(hub).ok()?;
    let id = client.id(hub);
    Some((header.client_id() == id, request.origin(hub) == id))
}

/// Whether the header of a server's loan names it, and how many elements it tells.
fn of_unanswered(hub: &Exchange, loan: &Unanswered, server: &Answerer) -> Named {
    if !loan.exists(hub) || !server.exists(hub) {
        return None;
    }
    let header = loan.header(hub).ok()?;
    let same = header.server_id() == server.id(hub);
    Some((same, header.number_of_elements()))
}

/// The same of a loan of two bytes that is given up then.
fn of_a_loaned_response(hub: &mut Exchange, request: &Active, server: &Answerer) -> Named {
    let loan = lent_response(hub, request, 2)?.ok()?;
    let told = of_unanswered(hub, &loan, server);
    loan.release(hub);
    told
}

/// The same of a response that was received.
fn of_heard(hub: &Exchange, response: &Heard, server: &Answerer) -> Named {
    if !response.exists(hub) || !server.exists(hub) {
        return None;
    }
    let header = response.header(hub).ok()?;
    let same = header.server_id() == server.id(hub);
    Some((same, header.number_of_elements()))
}

/// The same of the next response.
fn of_a_response(hub: &mut Exchange, pending: &Pending, server: &Answerer) -> Named {
    let response = next(hub, pending)?;
    let told = of_heard(hub, &response, server);
    response.release(hub);
    told
}

/// What the headers of an answered request tell: of the request, of the loan, and of the response.
type Answered = (Option<(bool, bool)>, Named, Named);

/// The same of the next request.
fn of_an_answer(
    hub: &mut Exchange,
    pending: &Pending,
    client: &Asker,
    server: &Answerer,
) -> Option<Answered> {
    let request = receive(hub, server)?;
    let asked = of_a_request(hub, &request, client);
    let loaned = of_a_loaned_response(hub, &request, server);
    answer(hub, &request, &[4, 5, 6]);
    let heard = of_a_response(hub, pending, server);
    request.release(hub);
    Some((asked, loaned, heard))
}

/// The same of a request that is sent now.
fn of_a_round(hub: &mut Exchange, client: &Asker, server: &Answerer) -> Option<Answered> {
    let pending = ask(hub, client, 123)?.ok()?;
    let told = of_an_answer(hub, &pending, client, server);
    pending.release(hub);
    told
}

/// What the header of a client's loan tells, and what those of an answered request do.
fn of_all(hub: &mut Exchange, client: &Asker, server: &Answerer) -> (Named, Option<Answered>) {
    let loaned = of_a_loaned_request(hub, client);
    (loaned, of_a_round(hub, client, server))
}

#[test]
fn headers_name_who_sent(rt: HostRuntime) {
    const ALL_NAMED: (Named, Option<Answered>) = (
        Some((true, 1)),
        Some((Some((true, true)), Some((true, 2)), Some((true, 3)))),
    );
    ports_tell(&rt, rt.alloc(), &SETTINGS, of_all, ALL_NAMED);
}
