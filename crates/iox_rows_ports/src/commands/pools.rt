//! How many messages a port has by its options, and in which order a port is refused.
use super::{Asked, Given, Told, plays};
use iox_model::reply::Refusal;

#[test]
fn a_pool_of_0_acts_as_one_of_1(rt: HostRuntime) {
    plays(
        &rt,
        rt.alloc(),
        &[
            (0, Asked::Client(Given::Pool(0)), Told::Client(0)),
            (0, Asked::Request(0, 122, 2), Told::Handle(1)),
            (
                0,
                Asked::Request(0, 122, 2),
                Told::Refused(Refusal::OutOfMemory),
            ),
        ],
    );
}

#[test]
fn a_pool_above_what_is_needed_acts_as_that(rt: HostRuntime) {
    // Far more messages than any pool may have.
    plays(
        &rt,
        rt.alloc(),
        &[
            (0, Asked::Client(Given::Pool(1 << 40)), Told::Client(0)),
            (0, Asked::Request(0, 122, 2), Told::Handle(1)),
            (
                0,
                Asked::Request(0, 122, 2),
                Told::Refused(Refusal::ExceedsMaxActiveRequests),
            ),
        ],
    );
}

#[test]
fn want_of_memory_is_told_before_too_many_ports(rt: HostRuntime) {
    const REFUSED: Told = Told::Refused(Refusal::UnableToCreateDataSegment);
    plays(
        &rt,
        rt.alloc(),
        &[
            (1, Asked::Server, Told::Server(0)),
            (0, Asked::Client(Given::Nothing), Told::Client(1)),
            (0, Asked::Client(Given::Nothing), Told::Client(2)),
            (0, Asked::Client(Given::Longest(1 << 60)), REFUSED),
            (
                0,
                Asked::Client(Given::Nothing),
                Told::Refused(Refusal::ExceedsMaxSupportedClients),
            ),
        ],
    );
}
