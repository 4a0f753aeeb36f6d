//! Requests go to a server and their responses come back, by typed ports.

use crate::exchange::{
    Answerer, Asker, Asking, Exchange, Pending, RETRYING, SETTINGS, Told, Unasked, answer,
    answered, ask, asked, at_ports, heard, hub_tells, lent, ports_tell, receive, tell, written,
};
use crate::limits::Lends;
use iceoryx2_ports::{Kind, LoanError, RequestSendError, SendError};
use std::alloc::Global;

/// What the server reads of a request, and the client of its response.
type Round = Option<(u64, usize, u64)>;

/// The same of the next request.
fn round(hub: &mut Exchange, pending: &Pending, server: &Answerer) -> Round {
    let request = receive(hub, server)?;
    let value = asked(hub, &request);
    let told = answer(hub, &request, &[4, 5, 6]);
    request.release(hub);
    match (value, told, answered(hub, pending)) {
        (Some(value), Some(Ok(())), Some((length, sum))) => Some((value, length, sum)),
        _ => None,
    }
}

/// What is read where a request is answered, and what comes behind that.
fn answered_once(
    hub: &mut Exchange,
    client: &Asker,
    server: &Answerer,
) -> Option<(Round, Option<(usize, u64)>)> {
    let pending = ask(hub, client, 123)?.ok()?;
    let seen = round(hub, &pending, server);
    let more = answered(hub, &pending);
    pending.release(hub);
    Some((seen, more))
}

#[test]
fn a_request_is_answered(rt: HostRuntime) {
    const ANSWERED: Option<(Round, Option<(usize, u64)>)> = Some((Some((123, 3, 15)), None));
    ports_tell(&rt, rt.alloc(), &SETTINGS, answered_once, ANSWERED);
}

/// What a second request is told beside one that is under way.
fn beside_one(hub: &mut Exchange, client: &Asker) -> Told {
    let pending = ask(hub, client, 1)?.ok()?;
    let second = tell(hub, client, 2);
    pending.release(hub);
    second
}

/// The same, and what a third one is told when that is over.
fn second_and_third(hub: &mut Exchange, client: &Asker, _server: &Answerer) -> (Told, Told) {
    let second = beside_one(hub, client);
    (second, tell(hub, client, 3))
}

#[test]
fn a_client_awaits_one_request(rt: HostRuntime) {
    const ONE_AWAITED: (Told, Told) = (
        Some(Err(RequestSendError::ExceedsMaxActiveRequests)),
        Some(Ok(1)),
    );
    ports_tell(&rt, rt.alloc(), &SETTINGS, second_and_third, ONE_AWAITED);
}

/// A loaned request that carries 7, or why there is none.
fn loan(hub: &mut Exchange, client: &Asker) -> Option<Result<Asking, LoanError>> {
    match lent(hub, client)? {
        Ok(loan) => Some(Ok(written(hub, loan, 7)?)),
        Err(error) => Some(Err(error)),
    }
}

/// Whether there is such a loan, which is given up then, and if not, why.
fn lends(hub: &mut Exchange, client: &Asker) -> Lends {
    match loan(hub, client)? {
        Ok(request) => {
            request.release(hub);
            Some(Ok(()))
        }
        Err(error) => Some(Err(error)),
    }
}

/// Whether there is a loan beside these two, and beside the second, once the first is given up.
fn beside_both(
    hub: &mut Exchange,
    client: &Asker,
    first: Asking,
    second: Asking,
) -> (Lends, Lends) {
    let third = lends(hub, client);
    first.release(hub);
    let fourth = lends(hub, client);
    second.release(hub);
    (third, fourth)
}

/// The same of two loans.
fn loans_beside(hub: &mut Exchange, client: &Asker, _server: &Answerer) -> Option<(Lends, Lends)> {
    let first = loan(hub, client)?.ok()?;
    let Some(Ok(second)) = loan(hub, client) else {
        first.release(hub);
        return None;
    };
    Some(beside_both(hub, client, first, second))
}

#[test]
fn a_client_has_two_loans(rt: HostRuntime) {
    const TWO_LOANS: Option<(Lends, Lends)> = Some((
        Some(Err(LoanError::ExceedsMaxLoans)),
        Some(Ok(())),
    ));
    ports_tell(&rt, rt.alloc(), &SETTINGS, loans_beside, TWO_LOANS);
}

/// A command writes the first loan of the first client.
fn is_written_by_a_command(hub: &mut Exchange) {
    if hub.has(0, 2, Kind::RequestMutUninit, 0) {
        hub.write_request(0, 2, 0, &[456]);
    }
}

/// Whether there is a loan beside these two, of which a command wrote the first; whether the holder
/// of that still has it as unfilled; and whether there is one once it was given up.
fn beside_a_written_one(
    hub: &mut Exchange,
    client: &Asker,
    first: Unasked,
    second: Asking,
) -> (Lends, bool, Lends) {
    is_written_by_a_command(hub);
    let before = lends(hub, client);
    let unfilled = first.exists(hub);
    first.release(hub);
    let after = lends(hub, client);
    second.release(hub);
    (before, unfilled, after)
}

/// The same of two loans.
fn loans_beside_a_written_one(
    hub: &mut Exchange,
    client: &Asker,
    _server: &Answerer,
) -> Option<(Lends, bool, Lends)> {
    let first = lent(hub, client)?.ok()?;
    let Some(Ok(second)) = loan(hub, client) else {
        first.release(hub);
        return None;
    };
    Some(beside_a_written_one(hub, client, first, second))
}

#[test]
fn a_loan_that_a_command_wrote_is_given_up_by_its_holder(rt: HostRuntime) {
    const WRITTEN: Option<(Lends, bool, Lends)> = Some((
        Some(Err(LoanError::ExceedsMaxLoans)),
        false,
        Some(Ok(())),
    ));
    ports_tell(
        &rt,
        rt.alloc(),
        &SETTINGS,
        loans_beside_a_written_one,
        WRITTEN,
    );
}

/// What two requests are told, and what the server then reads.
type Both = ((Told, Told), (Option<u64>, Option<u64>));

/// The same of these numbers.
fn both(hub: &mut Exchange, client: &Asker, server: &Answerer, first: u64, second: u64) -> Both {
    let told = (tell(hub, client, first), tell(hub, client, second));
    (told, (heard(hub, server), heard(hub, server)))
}

/// The same of 7 and 8.
fn seven_and_eight(hub: &mut Exchange, client: &Asker, server: &Answerer) -> Both {
    both(hub, client, server, 7, 8)
}

/// The same of 5 and 6.
fn five_and_six(hub: &mut Exchange, client: &Asker, server: &Answerer) -> Both {
    both(hub, client, server, 5, 6)
}

#[test]
fn the_oldest_request_is_pushed_out(rt: HostRuntime) {
    const PUSHED_OUT: Both = ((Some(Ok(1)), Some(Ok(1))), (Some(8), None));
    ports_tell(&rt, rt.alloc(), &SETTINGS, seven_and_eight, PUSHED_OUT);
}

#[test]
fn a_full_server_makes_a_send_fail(rt: HostRuntime) {
    const SEND_FAILS: Both = (
        (
            Some(Ok(1)),
            Some(Err(RequestSendError::SendError(SendError::UnableToDeliver))),
        ),
        (Some(5), None),
    );
    ports_tell(&rt, rt.alloc(), &RETRYING, five_and_six, SEND_FAILS);
}

/// Whether the hub has the pending response, by its holder and by its number, and by that number
/// after its release.
fn before_and_after(
    hub: &mut Exchange,
    client: &Asker,
    _server: &Answerer,
) -> Option<(bool, bool, bool)> {
    let pending = ask(hub, client, 1)?.ok()?;
    let there = pending.exists(hub);
    let named = hub.has(0, 2, Kind::PendingResponse, 0);
    pending.release(hub);
    Some((there, named, hub.has(0, 2, Kind::PendingResponse, 0)))
}

/// The same, and whether the hub has the client and the server in the end.
fn releases(hub: &mut Exchange, alloc: Global) -> Option<(Option<(bool, bool, bool)>, bool, bool)> {
    let pending = at_ports(hub, alloc, before_and_after).ok()?;
    let client = hub.has(0, 0, Kind::Client, 0);
    Some((pending, client, hub.has(1, 1, Kind::Server, 0)))
}

#[test]
fn what_is_released_is_gone(rt: HostRuntime) {
    const GONE: Option<(Option<(bool, bool, bool)>, bool, bool)> = Some((
        Some((true, true, false)),
        false,
        false,
    ));
    hub_tells(&rt, rt.alloc(), &SETTINGS, releases, GONE);
}
