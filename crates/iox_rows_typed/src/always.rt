//! Sends to a full receiver, of typed ports whose handler always answers the same. A client has one
//! active request, and one response may wait for it. Nothing overflows, and there is one server: so
//! a second request meets a full queue, and so does a second response.

use crate::exchange::KEEPING;
use crate::expected::equal;
use crate::numbers::{
    Active, Answerer, Asker, Numbers, Told, answer, ask, given_up, heard, hub, ports, receive, tell,
};
use iceoryx2_ports::{
    Always, BackpressureAction, BackpressureStrategy, One, RequestMut, RequestSendError,
    ResponseMut, SendError, Settings,
};
use std::alloc::{AllocError, Global};
use std::process::Abort;

type Handled = Numbers<Always>;

/// What both handlers answer, and the strategy of both ports.
type Full = (BackpressureAction, BackpressureStrategy);

/// Nothing overflows.
fn settings(strategy: BackpressureStrategy) -> Settings {
    Settings {
        response_buffer: 1,
        response_overflow: false,
        client_strategy: strategy,
        server_strategy: strategy,
        ..KEEPING
    }
}

/// What that tells of a client and a server of this hub with that handler. They are given up then.
/// The bound of a closure may not name a type with a parameter, so `ports` has no such function
/// beside it.
fn at_ports<T, F: FnOnce(&mut Handled, &Asker, &Answerer) -> T + Drop>(
    alloc: Global,
    hub: &mut Handled,
    handler: Always,
    told: F,
) -> Result<T, AllocError>
    requires { F.IsAlwaysCallable told }
{
    let (client, server) = ports(alloc, hub, Some(handler))?;
    let told = told(hub, &client, &server);
    client.release(hub);
    server.release(hub);
    Ok(told)
}

/// The same of a new hub. Only this owns one.
fn in_ports<T, F: FnOnce(&mut Handled, &Asker, &Answerer) -> T + Drop>(
    alloc: Global,
    full: Full,
    told: F,
) -> Result<T, AllocError>
    requires { F.IsAlwaysCallable told }
{
    let (action, strategy) = full;
    let mut hub = hub(alloc, &settings(strategy))?;
    at_ports(alloc, &mut hub, Always { action }, told)
}

/// A loaned request that carries 6.
fn loaned(hub: &mut Handled, client: &Asker) -> Option<RequestMut<One<u64>, (), One<u64>, ()>> {
    if !client.exists(hub) {
        return None;
    }
    Some(client.loan_uninit(hub).ok()?.write_payload(hub, 6))
}

/// It is sent.
fn tell_loaned(hub: &mut Handled, client: &Asker) -> Told {
    let request = loaned(hub, client)?;
    if hub.calls() < 1 << 56 && request.exists(hub) {
        let sent = request.send(hub);
        return Some(given_up(hub, sent));
    }
    request.release(hub);
    None
}

/// What the first of three requests is told, and the second, which is loaned, and the third. The
/// answer of each is given up.
fn three_requests(hub: &mut Handled, client: &Asker, _server: &Answerer) -> [Told; 3] {
    [
        tell(hub, client, 5),
        tell_loaned(hub, client),
        tell(hub, client, 5),
    ]
}

/// The test ends if the second and third request are not told so.
fn requests(rt: &impl Abort, alloc: Global, full: Full, wanted: Result<u64, RequestSendError>) {
    let told = in_ports(alloc, full, three_requests).expect(rt, "a hub with ports");
    equal(rt, told, [Some(Ok(1)), Some(wanted), Some(wanted)]);
}

const FAILS: BackpressureAction = BackpressureAction::DiscardDataAndFail;

const DISCARDS: BackpressureAction = BackpressureAction::DiscardData;

const FOLLOWS: BackpressureAction = BackpressureAction::FollowBackpressureStrategy;

const DISCARDING: BackpressureStrategy = BackpressureStrategy::DiscardData;

const RETRYING: BackpressureStrategy = BackpressureStrategy::RetryUntilDelivered;

const REFUSED: RequestSendError = RequestSendError::SendError(SendError::UnableToDeliver);

#[test]
fn requests_are_refused_that_the_strategy_discards(rt: HostRuntime) {
    requests(&rt, rt.alloc(), (FAILS, DISCARDING), Err(REFUSED));
}

#[test]
fn requests_are_discarded_that_the_strategy_refuses(rt: HostRuntime) {
    requests(&rt, rt.alloc(), (DISCARDS, RETRYING), Ok(0));
}

#[test]
fn requests_are_refused_as_the_strategy_says(rt: HostRuntime) {
    requests(&rt, rt.alloc(), (FOLLOWS, RETRYING), Err(REFUSED));
}

#[test]
fn requests_are_discarded_as_the_strategy_says(rt: HostRuntime) {
    requests(&rt, rt.alloc(), (FOLLOWS, DISCARDING), Ok(0));
}

// ---- responses

/// A loaned response that carries this.
fn loaned_response(
    hub: &mut Handled,
    request: &Active,
    value: u64,
) -> Option<ResponseMut<One<u64>, (), One<u64>, ()>> {
    if !request.exists(hub) {
        return None;
    }
    Some(request.loan_uninit(hub).ok()?.write_payload(hub, value))
}

/// It is sent.
fn answer_loaned(hub: &mut Handled, request: &Active, value: u64) -> Option<Result<(), SendError>> {
    let response = loaned_response(hub, request, value)?;
    if hub.calls() < 1 << 56 && response.exists(hub) {
        return Some(response.send(hub));
    }
    response.release(hub);
    None
}

/// What the first of three responses is told, and the second, which is loaned, and the third.
type Answered = [Option<Result<(), SendError>>; 3];

/// The server answers the next request three times.
fn answers(hub: &mut Handled, server: &Answerer) -> Option<Answered> {
    let request = receive(hub, server)?;
    let answered = [
        answer(hub, &request, 10),
        answer_loaned(hub, &request, 20),
        answer(hub, &request, 30),
    ];
    request.release(hub);
    Some(answered)
}

/// What three responses to one request are told, and which two are received.
fn three_responses(
    hub: &mut Handled,
    client: &Asker,
    server: &Answerer,
) -> Option<(Option<Answered>, Option<u64>, Option<u64>)> {
    let pending = ask(hub, client, 5)?.ok()?;
    let answered = answers(hub, server);
    let told = (answered, heard(hub, &pending), heard(hub, &pending));
    pending.release(hub);
    Some(told)
}

/// The test ends if the second and third response are not told so, or if not only the first is
/// received.
fn responses(rt: &impl Abort, alloc: Global, full: Full, wanted: Result<(), SendError>) {
    let heard = in_ports(alloc, full, three_responses).expect(rt, "a hub with ports");
    let answered = Some([Some(Ok(())), Some(wanted), Some(wanted)]);
    equal(rt, heard, Some((answered, Some(10), None)));
}

#[test]
fn responses_are_refused_that_the_strategy_discards(rt: HostRuntime) {
    let refused = Err(SendError::UnableToDeliver);
    responses(&rt, rt.alloc(), (FAILS, DISCARDING), refused);
}

#[test]
fn responses_are_discarded_that_the_strategy_refuses(rt: HostRuntime) {
    responses(&rt, rt.alloc(), (DISCARDS, RETRYING), Ok(()));
}

#[test]
fn responses_are_refused_as_the_strategy_says(rt: HostRuntime) {
    let refused = Err(SendError::UnableToDeliver);
    responses(&rt, rt.alloc(), (FOLLOWS, RETRYING), refused);
}

#[test]
fn responses_are_discarded_as_the_strategy_says(rt: HostRuntime) {
    responses(&rt, rt.alloc(), (FOLLOWS, DISCARDING), Ok(()));
}
