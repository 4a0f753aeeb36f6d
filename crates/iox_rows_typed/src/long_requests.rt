//! Requests of many elements, by typed ports.

use crate::exchange::{NODE, PART, SETTINGS};
use crate::expected::equal;
use iceoryx2_ports::{
    Client, Hub, LoanError, Many, MessageShape, One, PortFactoryClient, RequestMut,
    RequestMutUninit,
};
use std::alloc::{AllocError, Global};

/// Requests of any number of numbers, responses of one.
pub type Lists = Hub<Many<u64>, (), One<u64>, ()>;

/// A client that sends such requests.
pub type Lister = Client<Many<u64>, (), One<u64>, ()>;

type Unasked = RequestMutUninit<Many<u64>, (), One<u64>, ()>;

type Asking = RequestMut<Many<u64>, (), One<u64>, ()>;

/// A hub in which no port was made.
fn hub(alloc: Global) -> Result<Lists, AllocError> {
    let shape: MessageShape<u64, ()> = MessageShape {
        default: None,
        user_header: (),
        header_part: PART,
        user_part: PART,
        element_part: PART,
    };
    Hub::new(alloc, SETTINGS, shape, shape)
}

/// What that tells of a new hub. Only this owns one.
pub fn in_hub<T, F: FnOnce(&mut Lists, Global) -> T + Drop>(
    alloc: Global,
    told: F,
) -> Result<T, AllocError>
    requires { F.IsAlwaysCallable told }
{
    let mut hub = hub(alloc)?;
    Ok(told(&mut hub, alloc))
}

/// A client of node 0, whose requests have at most 32 elements.
fn lister(hub: &mut Lists, alloc: Global) -> Option<Lister> {
    let factory = PortFactoryClient::new(0, NODE).initial_max_slice_len(32);
    factory.create(alloc, hub).ok()
}

/// A loan of so many elements, or why there is none.
pub fn lent(
    hub: &mut Lists,
    client: &Lister,
    elements: usize,
) -> Option<Result<Unasked, LoanError>> {
    if client.exists(hub) {
        return Some(client.loan_slice_uninit(hub, elements));
    }
    None
}

/// Whether there is such a loan, which is given up then, and if not, why.
pub fn lends(hub: &mut Lists, client: &Lister, elements: usize) -> Option<Result<(), LoanError>> {
    match lent(hub, client, elements)? {
        Ok(loan) => {
            loan.release(hub);
            Some(Ok(()))
        }
        Err(error) => Some(Err(error)),
    }
}

/// The thirteen numbers from 123 on.
const FROM_123: [u64; 13] = [
    123, 124, 125, 126, 127, 128, 129, 130, 131, 132, 133, 134, 135,
];

/// A loan of 13 elements that a closure filled.
fn filled(hub: &mut Lists, client: &Lister) -> Option<Asking> {
    let loan = lent(hub, client, 13)?.ok()?;
    if loan.exists(hub) {
        return Some(loan.write_from_fn(hub, |index| (index as u64).wrapping_add(123)));
    }
    loan.release(hub);
    None
}

/// Whether a request carries the thirteen numbers from 123 on.
fn is_from_123(hub: &Lists, request: &Asking) -> Option<bool> {
    if request.exists(hub) {
        return Some(request.payload(hub) == &FROM_123[..]);
    }
    None
}

/// The same of such a loan.
fn filled_from_123(hub: &mut Lists, client: &Lister) -> Option<bool> {
    let request = filled(hub, client)?;
    let same = is_from_123(hub, &request);
    request.release(hub);
    same
}

/// The same of a client that is made now.
fn thirteen(hub: &mut Lists, alloc: Global) -> Option<bool> {
    let client = lister(hub, alloc)?;
    let same = filled_from_123(hub, &client);
    client.release(hub);
    same
}

#[test]
fn a_closure_fills_thirteen_elements(rt: HostRuntime) {
    let told = in_hub(rt.alloc(), thirteen).expect(&rt, "a hub");
    equal(&rt, told, Some(true));
}

/// Whether there is a loan, and how many calls were counted then.
type Lends = (Option<Result<(), LoanError>>, u64);

/// The same of so many elements.
fn counted(hub: &mut Lists, client: &Lister, elements: usize) -> Lends {
    let lends = lends(hub, client, elements);
    (lends, hub.calls())
}

/// The same of 33 elements and of 32.
fn long_and_longest(hub: &mut Lists, alloc: Global) -> Option<(Lends, Lends)> {
    let client = lister(hub, alloc)?;
    let long = counted(hub, &client, 33);
    let longest = counted(hub, &client, 32);
    client.release(hub);
    Some((long, longest))
}

#[test]
fn a_loan_is_no_longer_than_the_client_said(rt: HostRuntime) {
    const LONGEST: Option<(Lends, Lends)> = Some((
        (Some(Err(LoanError::ExceedsMaxLoanSize)), 0),
        (Some(Ok(())), 1),
    ));
    let told = in_hub(rt.alloc(), long_and_longest).expect(&rt, "a hub");
    equal(&rt, told, LONGEST);
}
