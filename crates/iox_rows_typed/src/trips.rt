//! Whole trips by the callers that are proved with no proof of their own. Where memory is ample
//! they come to values, and not to nothing.

use crate::exchange::{KEEPING, NODE};
use crate::expected::equal;
use crate::numbers::{Numbers, hub};
use iceoryx2_ports::uses_exchange::exchanges;
use iceoryx2_ports::uses_round_trip::goes_the_whole_way;
use std::alloc::{AllocError, Global};

/// What that tells of a new hub. Only this owns one.
fn in_hub<T, F: FnOnce(&mut Numbers, Global) -> T + Drop>(
    alloc: Global,
    told: F,
) -> Result<T, AllocError>
    requires { F.IsAlwaysCallable told }
{
    let mut hub = hub(alloc, &KEEPING)?;
    Ok(told(&mut hub, alloc))
}

/// The number that was asked with, and the one that was answered.
type Both = Option<(u64, u64)>;

/// One exchange of these numbers.
fn exchanged(hub: &mut Numbers, alloc: Global, asked: u64, answered: u64) -> Both {
    exchanges(hub, alloc, NODE, asked, answered)
}

/// One exchange after another.
fn two_exchanges(hub: &mut Numbers, alloc: Global) -> (Both, Both) {
    let first = exchanged(hub, alloc, 1234, 456);
    (first, exchanged(hub, alloc, u64::MAX, 0))
}

#[test]
fn both_values_of_an_exchange_are_read(rt: HostRuntime) {
    const EXCHANGED: (Both, Both) = (Some((1234, 456)), Some((u64::MAX, 0)));
    let told = in_hub(rt.alloc(), two_exchanges).expect(&rt, "a hub");
    equal(&rt, told, EXCHANGED);
}

/// One whole way.
fn whole_way(hub: &mut Numbers, alloc: Global) -> Both {
    goes_the_whole_way(hub, alloc, 0, NODE)
}

#[test]
fn written_values_of_a_round_trip_are_read(rt: HostRuntime) {
    let told = in_hub(rt.alloc(), whole_way).expect(&rt, "a hub");
    equal(&rt, told, Some((456, 789)));
}
