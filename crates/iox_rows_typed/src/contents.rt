//! What typed loans and received messages carry, as it is put, read and put anew.

use crate::exchange::{
    Active, Answerer, Answering, Asker, Asking, Exchange, Heard, Pending, SETTINGS, Unasked, ask,
    lent, lent_response, next, ports_tell, receive, sent_response, written, written_response,
};

/// How many elements of the loan are filled, and whether that is each of them.
fn filled(hub: &Exchange, loan: &Unasked) -> Option<(usize, bool)> {
    if !loan.exists(hub) {
        return None;
    }
    let _none: &() = loan.user_header(hub);
    Some((loan.payload(hub).len(), loan.is_filled(hub)))
}

/// What the loaned request carries, and how many elements its header tells.
fn read(hub: &Exchange, request: &Asking) -> Option<(u64, u64)> {
    if !request.exists(hub) {
        return None;
    }
    let _none: &() = request.user_header(hub);
    let value = request.payload(hub).first().copied()?;
    Some((value, request.header(hub).ok()?.number_of_elements()))
}

/// Puts 6 in place of what the request carries.
fn puts_6(hub: &mut Exchange, request: &Asking) -> Option<()> {
    if !request.exists(hub) {
        return None;
    }
    request.set_payload(hub, 6);
    Some(())
}

/// Whether so many elements are put in place of the request's one.
fn puts(hub: &mut Exchange, request: &Asking, values: &[u64]) -> Option<bool> {
    if !request.exists(hub) {
        return None;
    }
    Some(request.set_payload_from_slice(hub, values))
}

/// What a request carries, and how many elements its header tells: written, put anew twice, and not
/// put anew.
type Carried = [Option<(u64, u64)>; 4];

/// That, whether 6 was put, and whether one element and two were.
type Put = (Carried, Option<()>, [Option<bool>; 2]);

/// The same of this request.
fn of_written(hub: &mut Exchange, request: &Asking) -> Put {
    let written = read(hub, request);
    let six = puts_6(hub, request);
    let put = read(hub, request);
    let one = puts(hub, request, &[7]);
    let again = read(hub, request);
    let two = puts(hub, request, &[8, 9]);
    ([written, put, again, read(hub, request)], six, [one, two])
}

/// What a loan has that is unfilled, and the same of its request once 5 was written.
type OfRequest = Option<(Option<(usize, bool)>, Put)>;

/// The same of this client's.
fn of_a_request(hub: &mut Exchange, client: &Asker, _server: &Answerer) -> OfRequest {
    let loan = lent(hub, client)?.ok()?;
    let unfilled = filled(hub, &loan);
    let request = written(hub, loan, 5)?;
    let told = of_written(hub, &request);
    request.release(hub);
    Some((unfilled, told))
}

#[test]
fn a_request_is_put_anew(rt: HostRuntime) {
    const PUT_ANEW: OfRequest = Some((
        Some((0, false)),
        (
            [Some((5, 1)), Some((6, 1)), Some((7, 1)), Some((7, 1))],
            Some(()),
            [Some(true), Some(false)],
        ),
    ));
    ports_tell(&rt, rt.alloc(), &SETTINGS, of_a_request, PUT_ANEW);
}

/// The first byte of a response, how many it has, and its user header.
type Bytes = Option<(u8, usize, u32)>;

/// The same of a loaned response.
fn read_response(hub: &Exchange, response: &Answering) -> Bytes {
    if !response.exists(hub) {
        return None;
    }
    let bytes = response.payload(hub);
    let first = bytes.first().copied()?;
    Some((first, bytes.len(), *response.user_header(hub)))
}

/// Puts 9 in place of the response's user header.
fn put_header(hub: &mut Exchange, response: &Answering) -> Option<()> {
    if !response.exists(hub) {
        return None;
    }
    response.set_user_header(hub, 9);
    Some(())
}

/// The same, and whether those bytes are put in place of the response's.
fn put_response(hub: &mut Exchange, response: &Answering, bytes: &[u8]) -> Option<bool> {
    put_header(hub, response)?;
    if !response.exists(hub) {
        return None;
    }
    Some(response.set_payload_from_slice(hub, bytes))
}

/// What the response carries, once so many bytes are put there, or are not.
fn put_and_read(hub: &mut Exchange, response: &Answering, bytes: &[u8], is_put: bool) -> Bytes {
    if put_response(hub, response, bytes)? == is_put {
        return read_response(hub, response);
    }
    None
}

/// What the response carries that was received.
fn read_heard(hub: &Exchange, response: &Heard) -> Bytes {
    if !response.exists(hub) {
        return None;
    }
    let first = response.first(hub).copied()?;
    let length = response.payload(hub).len();
    Some((first, length, *response.user_header(hub)))
}

/// What the next response carries.
fn hear(hub: &mut Exchange, pending: &Pending) -> Bytes {
    let response = next(hub, pending)?;
    let read = read_heard(hub, &response);
    response.release(hub);
    read
}

/// A loaned response of the bytes 1 and 2.
fn loaned_response(hub: &mut Exchange, request: &Active) -> Option<Answering> {
    let loan = lent_response(hub, request, 2)?.ok()?;
    written_response(hub, loan, &[1, 2])
}

/// What a response carries as it is written, put anew, not put, and heard.
fn of_responses(hub: &mut Exchange, request: &Active, pending: &Pending) -> Option<[Bytes; 4]> {
    let response = loaned_response(hub, request)?;
    let written = read_response(hub, &response);
    let put = put_and_read(hub, &response, &[3, 4], true);
    let kept = put_and_read(hub, &response, &[5], false);
    sent_response(hub, response)?.ok()?;
    Some([written, put, kept, hear(hub, pending)])
}

/// The same of the answer to a request that is sent now.
fn of_an_answer(hub: &mut Exchange, client: &Asker, server: &Answerer) -> Option<[Bytes; 4]> {
    let pending = ask(hub, client, 123)?.ok()?;
    let told = match receive(hub, server) {
        Some(request) => {
            let told = of_responses(hub, &request, &pending);
            request.release(hub);
            told
        }
        None => None,
    };
    pending.release(hub);
    told
}

#[test]
fn a_response_is_put_anew_and_heard_so(rt: HostRuntime) {
    const HEARD_SO: Option<[Bytes; 4]> = Some([
        Some((1, 2, 3)),
        Some((3, 2, 9)),
        Some((3, 2, 9)),
        Some((3, 2, 9)),
    ]);
    ports_tell(&rt, rt.alloc(), &SETTINGS, of_an_answer, HEARD_SO);
}

/// What the pending response carries, and how many elements its header tells.
fn of_pending(hub: &Exchange, pending: &Pending) -> Option<(u64, u64)> {
    if !pending.exists(hub) {
        return None;
    }
    let _none: &() = pending.user_header(hub);
    let value = pending.payload(hub).first().copied()?;
    Some((value, pending.header(hub).ok()?.number_of_elements()))
}

/// The same of the active request.
fn of_active(hub: &Exchange, request: &Active) -> Option<(u64, u64)> {
    if !request.exists(hub) {
        return None;
    }
    let _none: &() = request.user_header(hub);
    let value = request.payload(hub).first().copied()?;
    Some((value, request.header(hub).ok()?.number_of_elements()))
}

/// The same of both ends of a request.
fn of_both(
    hub: &mut Exchange,
    client: &Asker,
    server: &Answerer,
) -> Option<[Option<(u64, u64)>; 2]> {
    let pending = ask(hub, client, 123)?.ok()?;
    let told = match receive(hub, server) {
        Some(request) => {
            let told = [of_pending(hub, &pending), of_active(hub, &request)];
            request.release(hub);
            Some(told)
        }
        None => None,
    };
    pending.release(hub);
    told
}

#[test]
fn both_ends_of_a_request_carry_the_same(rt: HostRuntime) {
    const BOTH_ENDS: Option<[Option<(u64, u64)>; 2]> = Some([Some((123, 1)), Some((123, 1))]);
    ports_tell(&rt, rt.alloc(), &SETTINGS, of_both, BOTH_ENDS);
}
