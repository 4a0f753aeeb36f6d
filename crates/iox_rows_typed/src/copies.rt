//! Copies go to a server and back, by typed ports: loan, write and send in one.

use crate::exchange::{PART, RETRYING, SETTINGS};
use crate::expected::equal;
use crate::numbers::{
    Active, Answerer, Asker, Numbers, Told, answer, ask, heard, ports, receive, tell,
};
use iceoryx2_ports::{
    Hub, LoanError, MessageShape, One, RequestMutUninit, RequestSendError, SendError, Settings,
};
use std::alloc::{AllocError, Global};
use std::fmt::Debug;
use std::process::Abort;

type Unasked = RequestMutUninit<One<u64>, (), One<u64>, ()>;

/// A hub in which no port was made, and whose messages are numbers.
fn hub(alloc: Global, settings: &Settings) -> Result<Numbers, AllocError> {
    let shape: MessageShape<u64, ()> = MessageShape {
        default: None,
        user_header: (),
        header_part: PART,
        user_part: PART,
        element_part: PART,
    };
    Hub::new(alloc, *settings, shape, shape)
}

/// What that tells of a client and a server of this hub. They are given up then. The bound of
/// a closure may not name a type with a parameter, so `ports` has no such function beside it.
fn at_ports<T, F: FnOnce(&mut Numbers, &Asker, &Answerer) -> T + Drop>(
    alloc: Global,
    hub: &mut Numbers,
    told: F,
) -> Result<T, AllocError>
    requires { F.IsAlwaysCallable told }
{
    let (client, server) = ports(alloc, hub, None)?;
    let told = told(hub, &client, &server);
    client.release(hub);
    server.release(hub);
    Ok(told)
}

/// The same of a new hub. Only this owns one.
fn in_ports<T, F: FnOnce(&mut Numbers, &Asker, &Answerer) -> T + Drop>(
    alloc: Global,
    settings: &Settings,
    told: F,
) -> Result<T, AllocError>
    requires { F.IsAlwaysCallable told }
{
    let mut hub = hub(alloc, settings)?;
    at_ports(alloc, &mut hub, told)
}

/// Ends the test if that tells something else.
fn ports_tell<T: PartialEq + Debug + Drop, F: FnOnce(&mut Numbers, &Asker, &Answerer) -> T + Drop>(
    rt: &impl Abort,
    alloc: Global,
    settings: &Settings,
    told: F,
    wanted: T,
)
    requires { F.IsAlwaysCallable told }
{
    let told = in_ports(alloc, settings, told).expect(rt, "a hub with ports");
    equal(rt, told, wanted);
}

/// What the request says, and what comes of a copy that answers it with twice that.
fn double(hub: &mut Numbers, request: &Active) -> Option<(u64, Result<(), SendError>)> {
    if !request.exists(hub) {
        return None;
    }
    let value = request.payload(hub).first().copied()?;
    Some((value, answer(hub, request, value.wrapping_mul(2))?))
}

/// The same of the next request.
fn doubled(hub: &mut Numbers, server: &Answerer) -> Option<(u64, Result<(), SendError>)> {
    let request = receive(hub, server)?;
    let told = double(hub, &request);
    request.release(hub);
    told
}

/// What the server reads of a request, what comes of its answer, and what the client reads.
type Round = (Option<(u64, Result<(), SendError>)>, Option<u64>);

/// The same of a request that is sent now.
fn round(hub: &mut Numbers, client: &Asker, server: &Answerer) -> Option<Round> {
    let pending = ask(hub, client, 123)?.ok()?;
    let told = doubled(hub, server);
    let heard = heard(hub, &pending);
    pending.release(hub);
    Some((told, heard))
}

#[test]
fn a_copy_is_answered_by_a_copy(rt: HostRuntime) {
    const DOUBLED: Option<Round> = Some((Some((123, Ok(()))), Some(246)));
    ports_tell(&rt, rt.alloc(), &SETTINGS, round, DOUBLED);
}

/// What a copy is told, and how many calls were counted before and after it.
fn counted(hub: &mut Numbers, client: &Asker, _server: &Answerer) -> (Told, u64, u64) {
    let before = hub.calls();
    let sent = tell(hub, client, 1);
    (sent, before, hub.calls())
}

#[test]
fn a_copy_counts_two_calls(rt: HostRuntime) {
    ports_tell(&rt, rt.alloc(), &SETTINGS, counted, (Some(Ok(1)), 0, 2));
}

/// What a second copy is told beside one whose request is under way.
fn beside_one(hub: &mut Numbers, client: &Asker) -> Told {
    let pending = ask(hub, client, 1)?.ok()?;
    let second = tell(hub, client, 2);
    pending.release(hub);
    second
}

/// The same, and what a third one is told when that is over.
fn second_and_third(hub: &mut Numbers, client: &Asker, _server: &Answerer) -> (Told, Told) {
    let second = beside_one(hub, client);
    (second, tell(hub, client, 3))
}

#[test]
fn a_copy_past_the_limit_is_refused(rt: HostRuntime) {
    const ONE_AWAITED: (Told, Told) = (
        Some(Err(RequestSendError::ExceedsMaxActiveRequests)),
        Some(Ok(1)),
    );
    ports_tell(&rt, rt.alloc(), &SETTINGS, second_and_third, ONE_AWAITED);
}

/// What two copies are told.
fn two_copies(hub: &mut Numbers, client: &Asker, _server: &Answerer) -> (Told, Told) {
    let first = tell(hub, client, 5);
    (first, tell(hub, client, 6))
}

#[test]
fn a_full_server_makes_a_copy_fail(rt: HostRuntime) {
    const COPY_FAILS: (Told, Told) = (
        Some(Ok(1)),
        Some(Err(RequestSendError::SendError(SendError::UnableToDeliver))),
    );
    ports_tell(&rt, rt.alloc(), &RETRYING, two_copies, COPY_FAILS);
}

/// A loaned request.
fn lent(hub: &mut Numbers, client: &Asker) -> Option<Unasked> {
    if client.exists(hub) {
        return client.loan_uninit(hub).ok();
    }
    None
}

/// What comes of a copy beside two loans.
fn beside_two(hub: &mut Numbers, client: &Asker) -> Told {
    let first = lent(hub, client)?;
    let Some(second) = lent(hub, client) else {
        first.release(hub);
        return None;
    };
    let beside = tell(hub, client, 8);
    first.release(hub);
    second.release(hub);
    beside
}

/// The same, and what comes of one beside none.
fn beside_loans(hub: &mut Numbers, client: &Asker, _server: &Answerer) -> (Told, Told) {
    let beside = beside_two(hub, client);
    (beside, tell(hub, client, 9))
}

#[test]
fn a_copy_beside_two_loans_is_refused(rt: HostRuntime) {
    let refused = RequestSendError::from(LoanError::ExceedsMaxLoans);
    let wanted = (Some(Err(refused)), Some(Ok(1)));
    ports_tell(&rt, rt.alloc(), &SETTINGS, beside_loans, wanted);
}
