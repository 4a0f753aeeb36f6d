//! What is refused by its number, or by what is asked.
use super::{Asked, Given, Told, plays};
use iox_model::reply::Refusal;

#[test]
fn a_number_of_nothing_or_of_another_node_is_refused(rt: HostRuntime) {
    plays(
        &rt,
        rt.alloc(),
        &[
            (0, Asked::Client(Given::Nothing), Told::Client(0)),
            (0, Asked::Release(9), Told::Refused(Refusal::UnknownNumber)),
            (1, Asked::Release(0), Told::Refused(Refusal::ForeignNumber)),
            (0, Asked::Release(0), Told::Done),
            (0, Asked::Release(0), Told::Refused(Refusal::UnknownNumber)),
        ],
    );
}

#[test]
fn what_the_kind_does_not_do_is_refused(rt: HostRuntime) {
    plays(
        &rt,
        rt.alloc(),
        &[
            (0, Asked::Client(Given::Nothing), Told::Client(0)),
            (0, Asked::Receive(0), Told::Refused(Refusal::WrongKind)),
            (0, Asked::Read(0), Told::Refused(Refusal::WrongKind)),
            // Elements of a response are none of a client's.
            (0, Asked::Response(0, 5), Told::Refused(Refusal::WrongKind)),
        ],
    );
}

#[test]
fn a_length_that_does_not_fit_is_refused(rt: HostRuntime) {
    plays(
        &rt,
        rt.alloc(),
        &[
            (0, Asked::Client(Given::Nothing), Told::Client(0)),
            (
                0,
                Asked::Loan(0, 3),
                Told::Refused(Refusal::ExceedsMaxLoanSize),
            ),
            (0, Asked::Loan(0, 2), Told::Handle(1)),
            (
                0,
                Asked::Write(1, 5, 1),
                Told::Refused(Refusal::WrongLength),
            ),
        ],
    );
}

#[test]
fn a_port_that_is_too_large_is_refused(rt: HostRuntime) {
    const REFUSED: Told = Told::Refused(Refusal::UnableToCreateDataSegment);
    plays(
        &rt,
        rt.alloc(),
        &[
            (0, Asked::Client(Given::Longest(1 << 60)), REFUSED),
            (0, Asked::Client(Given::Nothing), Told::Client(0)),
        ],
    );
}

#[test]
fn a_server_beside_the_only_one_is_refused(rt: HostRuntime) {
    plays(
        &rt,
        rt.alloc(),
        &[
            (1, Asked::Server, Told::Server(0)),
            (
                1,
                Asked::Server,
                Told::Refused(Refusal::ExceedsMaxSupportedServers),
            ),
            (0, Asked::Client(Given::Nothing), Told::Client(1)),
            (0, Asked::Client(Given::Nothing), Told::Client(2)),
            (
                0,
                Asked::Client(Given::Nothing),
                Told::Refused(Refusal::ExceedsMaxSupportedClients),
            ),
            (
                0,
                Asked::Request(3, 122, 2),
                Told::Refused(Refusal::UnknownNumber),
            ),
        ],
    );
}
