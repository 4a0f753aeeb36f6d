//! Each command on its happy path.
use super::{Asked, Given, Told, plays};

#[test]
fn a_copied_request_is_received_and_read(rt: HostRuntime) {
    plays(
        &rt,
        rt.alloc(),
        &[
            (0, Asked::Client(Given::Nothing), Told::Client(0)),
            (1, Asked::Server, Told::Server(1)),
            (0, Asked::Request(0, 122, 2), Told::Handle(2)),
            (1, Asked::HasRequests(1), Told::Answer(true)),
            (1, Asked::Receive(1), Told::Handle(3)),
            // The word of the user header, and then those of the elements.
            (1, Asked::Read(3), Told::Words(3, 123)),
            (1, Asked::Receive(1), Told::Nothing),
        ],
    );
}

#[test]
fn a_copied_response_is_received_and_released(rt: HostRuntime) {
    plays(
        &rt,
        rt.alloc(),
        &[
            (0, Asked::Client(Given::Nothing), Told::Client(0)),
            (1, Asked::Server, Told::Server(1)),
            (0, Asked::Request(0, 122, 2), Told::Handle(2)),
            (1, Asked::Receive(1), Told::Handle(3)),
            (1, Asked::Response(3, 456), Told::Done),
            (0, Asked::HasResponse(2), Told::Answer(true)),
            (0, Asked::Receive(2), Told::Handle(4)),
            (0, Asked::Read(4), Told::Words(1, 456)),
            (0, Asked::Release(4), Told::Done),
        ],
    );
}

#[test]
fn a_hint_is_set_and_seen(rt: HostRuntime) {
    plays(
        &rt,
        rt.alloc(),
        &[
            (0, Asked::Client(Given::Nothing), Told::Client(0)),
            (1, Asked::Server, Told::Server(1)),
            (0, Asked::Request(0, 122, 2), Told::Handle(2)),
            (1, Asked::Receive(1), Told::Handle(3)),
            (1, Asked::HasHint(3), Told::Answer(false)),
            (0, Asked::SetHint(2), Told::Done),
            (1, Asked::HasHint(3), Told::Answer(true)),
            (1, Asked::IsConnected(3), Told::Answer(true)),
        ],
    );
}

#[test]
fn a_loan_holds_the_default_and_is_written_and_sent(rt: HostRuntime) {
    plays(
        &rt,
        rt.alloc(),
        &[
            (0, Asked::Client(Given::Nothing), Told::Client(0)),
            (1, Asked::Server, Told::Server(1)),
            (0, Asked::Loan(0, 2), Told::Handle(2)),
            (0, Asked::Read(2), Told::Words(3, 7)),
            (0, Asked::Write(2, 5, 2), Told::Done),
            (0, Asked::Read(2), Told::Words(3, 6)),
            (0, Asked::Send(2), Told::Sent(1)),
        ],
    );
}
