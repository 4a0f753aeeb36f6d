//! Messages that grow, by typed ports.

use crate::exchange::NODE;
use crate::expected::equal;
use crate::long_requests::{Lister, Lists, in_hub, lends, lent};
use iceoryx2_ports::{
    ActiveRequest, AllocationStrategy, LoanError, Many, One, PendingResponse, PortFactoryClient,
    PortFactoryServer, RequestMut, Server,
};
use std::alloc::Global;

type Reader = Server<Many<u64>, (), One<u64>, ()>;

type Pending = PendingResponse<Many<u64>, (), One<u64>, ()>;

type Active = ActiveRequest<Many<u64>, (), One<u64>, ()>;

type Asking = RequestMut<Many<u64>, (), One<u64>, ()>;

/// A client of node 0, whose requests have one element unless they grow.
fn lister(hub: &mut Lists, alloc: Global, allocation: AllocationStrategy) -> Option<Lister> {
    let factory = PortFactoryClient::new(0, NODE)
        .initial_max_slice_len(1)
        .allocation_strategy(allocation);
    factory.create(alloc, hub).ok()
}

/// A server of node 1.
fn reader(hub: &mut Lists, alloc: Global) -> Option<Reader> {
    PortFactoryServer::new(1, NODE).create(alloc, hub).ok()
}

/// The numbers from 0 on, 33 of them.
const FIRST_33: [u64; 33] = [
    0, 1, 2, 3, 4, 5, 6, 7, 8, 9, 10, 11, 12, 13, 14, 15, 16, 17, 18, 19, 20, 21, 22, 23, 24, 25,
    26, 27, 28, 29, 30, 31, 32,
];

/// The numbers from 0 on, in a loan of 33 elements.
fn loaned(hub: &mut Lists, client: &Lister) -> Option<Asking> {
    let loan = lent(hub, client, 33)?.ok()?;
    if loan.exists(hub) {
        return Some(loan.write_from_fn(hub, |index| index as u64));
    }
    loan.release(hub);
    None
}

/// They are sent.
fn ask(hub: &mut Lists, client: &Lister) -> Option<Pending> {
    let request = loaned(hub, client)?;
    if hub.calls() < 1 << 56 && request.exists(hub) {
        return request.send(hub).ok();
    }
    request.release(hub);
    None
}

/// The next request.
fn receive(hub: &mut Lists, server: &Reader) -> Option<Active> {
    if hub.calls() < 1 << 56 && server.exists(hub) {
        return server.receive(hub).ok()?;
    }
    None
}

/// Whether a request carries the numbers from 0 on, 33 of them.
fn has_33(hub: &Lists, request: &Active) -> Option<bool> {
    if request.exists(hub) {
        return Some(request.payload(hub) == &FIRST_33[..]);
    }
    None
}

/// The same of the next request.
fn reads_33(hub: &mut Lists, server: &Reader) -> Option<bool> {
    let request = receive(hub, server)?;
    let same = has_33(hub, &request);
    request.release(hub);
    same
}

/// What comes of a request of 33 elements, sent and received.
fn goes_around(hub: &mut Lists, client: &Lister, server: &Reader) -> Option<bool> {
    let pending = ask(hub, client)?;
    let same = reads_33(hub, server);
    pending.release(hub);
    same
}

/// What comes of two requests of 33 elements, and whether there is a loan of 2^59, of 2^62 and of
/// 33.
type Outcome = (
    Option<bool>,
    Option<bool>,
    [Option<Result<(), LoanError>>; 3],
);

/// The same of these ports.
fn of_ports(hub: &mut Lists, client: &Lister, server: &Reader) -> Outcome {
    let first = goes_around(hub, client, server);
    let huge = lends(hub, client, 1 << 59);
    let unaddressed = lends(hub, client, 1 << 62);
    let second = goes_around(hub, client, server);
    (first, second, [huge, unaddressed, lends(hub, client, 33)])
}

/// The same of this client, and of a server that is made now.
fn of_client(hub: &mut Lists, alloc: Global, client: &Lister) -> Option<Outcome> {
    let server = reader(hub, alloc)?;
    let told = of_ports(hub, client, &server);
    server.release(hub);
    Some(told)
}

/// The same of a client that is made now as well.
fn tries(hub: &mut Lists, alloc: Global, allocation: AllocationStrategy) -> Option<Outcome> {
    let client = lister(hub, alloc, allocation)?;
    let told = of_client(hub, alloc, &client);
    client.release(hub);
    told
}

/// The same where messages grow by what is lent.
fn best_fit(hub: &mut Lists, alloc: Global) -> Option<Outcome> {
    tries(hub, alloc, AllocationStrategy::BestFit)
}

/// The same where they grow to a power of two.
fn power_of_two(hub: &mut Lists, alloc: Global) -> Option<Outcome> {
    tries(hub, alloc, AllocationStrategy::PowerOfTwo)
}

/// The same where they do not grow.
fn fixed(hub: &mut Lists, alloc: Global) -> Option<Outcome> {
    tries(hub, alloc, AllocationStrategy::Static)
}

const WANT: Option<Result<(), LoanError>> = Some(Err(LoanError::WantOfMemory));

const LONG: Option<Result<(), LoanError>> = Some(Err(LoanError::ExceedsMaxLoanSize));

/// What comes of requests that grow.
const GROWN: Outcome = (Some(true), Some(true), [WANT, LONG, Some(Ok(()))]);

#[test]
fn a_message_grows_by_what_is_lent(rt: HostRuntime) {
    let told = in_hub(rt.alloc(), best_fit).expect(&rt, "a hub");
    equal(&rt, told, Some(GROWN));
}

#[test]
fn a_message_grows_to_a_power_of_two(rt: HostRuntime) {
    let told = in_hub(rt.alloc(), power_of_two).expect(&rt, "a hub");
    equal(&rt, told, Some(GROWN));
}

#[test]
fn no_message_grows_where_that_is_not_wanted(rt: HostRuntime) {
    let wanted: Outcome = (None, None, [LONG, LONG, LONG]);
    let told = in_hub(rt.alloc(), fixed).expect(&rt, "a hub");
    equal(&rt, told, Some(wanted));
}
