//! Loans are filled piece by piece, by typed ports.

use crate::exchange::{
    Active, Answerer, Answering, Asker, Asking, Exchange, Heard, Pending, SETTINGS, Unanswered,
    ask, lent, next, ports_tell, receive, sent_response, written,
};

/// An unfilled request gets 1234 as its next element, and is then written with 456.
fn written_after_next(hub: &mut Exchange, client: &Asker) -> Option<Asking> {
    if !client.exists(hub) {
        return None;
    }
    let loan = client.loan_uninit(hub).ok()?;
    loan.write_next(hub, 1234);
    written(hub, loan, 456)
}

/// A request that a closure filled.
fn written_by_a_closure(hub: &mut Exchange, client: &Asker) -> Option<Asking> {
    let loan = lent(hub, client)?.ok()?;
    if loan.exists(hub) {
        return Some(loan.write_from_fn(hub, |index| (index as u64).wrapping_add(40)));
    }
    loan.release(hub);
    None
}

/// What the loaned request carries.
fn payload(hub: &Exchange, loan: &Asking) -> Option<u64> {
    if loan.exists(hub) {
        return loan.payload(hub).first().copied();
    }
    None
}

/// The same of a request that is given up then.
fn carried(hub: &mut Exchange, loan: Option<Asking>) -> Option<u64> {
    let loan = loan?;
    let value = payload(hub, &loan);
    loan.release(hub);
    value
}

/// What both requests carry.
fn both_carried(
    hub: &mut Exchange,
    client: &Asker,
    _server: &Answerer,
) -> (Option<u64>, Option<u64>) {
    let written = written_after_next(hub, client);
    let value = carried(hub, written);
    let filled = written_by_a_closure(hub, client);
    (value, carried(hub, filled))
}

#[test]
fn a_write_replaces_what_was_filled(rt: HostRuntime) {
    ports_tell(
        &rt,
        rt.alloc(),
        &SETTINGS,
        both_carried,
        (Some(456), Some(40)),
    );
}

/// A response of two bytes, whose user header is 9, and of which the first byte is 5.
fn half_an_answer(hub: &mut Exchange, request: &Active) -> Option<Unanswered> {
    if !request.exists(hub) {
        return None;
    }
    let loan = request.loan_slice_uninit(hub, 2).ok()?;
    loan.set_user_header(hub, 9);
    loan.write_next(hub, 5);
    Some(loan)
}

/// The response, if the loan counts as filled, and else the loan again.
fn init(hub: &mut Exchange, loan: Unanswered) -> Option<Result<Answering, Unanswered>> {
    if loan.exists(hub) {
        return Some(loan.assume_init(hub));
    }
    loan.release(hub);
    None
}

/// The loan again, unless it counts as filled.
fn unfilled(hub: &mut Exchange, loan: Unanswered) -> Option<Unanswered> {
    match init(hub, loan)? {
        Ok(response) => {
            response.release(hub);
            None
        }
        Err(loan) => Some(loan),
    }
}

/// Whether 6 is the next byte of the loan, which is not filled before.
fn takes_6(hub: &mut Exchange, loan: &Unanswered) -> bool {
    if !loan.exists(hub) || loan.is_filled(hub) {
        return false;
    }
    loan.write_next(hub, 6);
    true
}

/// Whether the loan is sent, if it is filled.
fn is_sent(hub: &mut Exchange, loan: Unanswered) -> Option<bool> {
    match init(hub, loan)? {
        Ok(response) => Some(sent_response(hub, response)?.is_ok()),
        Err(loan) => {
            loan.release(hub);
            None
        }
    }
}

/// Whether the loan is sent, once its second byte is 6.
fn sends_the_rest(hub: &mut Exchange, loan: Unanswered) -> Option<bool> {
    if takes_6(hub, &loan) {
        return is_sent(hub, loan);
    }
    loan.release(hub);
    None
}

/// A response of two bytes, 5 and 6, whose user header is 9: whether it counted as filled after the
/// first of them, and whether it was sent.
fn answer_by_bytes(hub: &mut Exchange, request: &Active) -> Option<(bool, bool)> {
    let half = half_an_answer(hub, request)?;
    match unfilled(hub, half) {
        Some(loan) => Some((false, sends_the_rest(hub, loan)?)),
        None => Some((true, false)),
    }
}

/// The user header of a response, how many bytes it has, and the last of them.
type Bytes = Option<(u32, usize, Option<u8>)>;

/// The same of this one.
fn read(hub: &Exchange, response: &Heard) -> Bytes {
    if !response.exists(hub) {
        return None;
    }
    let header = *response.user_header(hub);
    let bytes = response.payload(hub);
    Some((header, bytes.len(), bytes.last().copied()))
}

/// The same of the next one.
fn heard(hub: &mut Exchange, pending: &Pending) -> Bytes {
    let response = next(hub, pending)?;
    let told = read(hub, &response);
    response.release(hub);
    told
}

/// The next request is answered so.
fn answered_by_bytes(hub: &mut Exchange, server: &Answerer) -> Option<(bool, bool)> {
    let request = receive(hub, server)?;
    let told = answer_by_bytes(hub, &request);
    request.release(hub);
    told
}

/// What comes of that answer to a request that is sent now.
fn by_bytes(
    hub: &mut Exchange,
    client: &Asker,
    server: &Answerer,
) -> Option<(Option<(bool, bool)>, Bytes)> {
    let pending = ask(hub, client, 1)?.ok()?;
    let told = answered_by_bytes(hub, server);
    let read = heard(hub, &pending);
    pending.release(hub);
    Some((told, read))
}

#[test]
fn a_response_is_filled_byte_by_byte(rt: HostRuntime) {
    const BYTE_BY_BYTE: Option<(Option<(bool, bool)>, Bytes)> = Some((
        Some((false, true)),
        Some((9, 2, Some(6))),
    ));
    ports_tell(&rt, rt.alloc(), &SETTINGS, by_bytes, BYTE_BY_BYTE);
}
