//! Ports that are made, and those that are not.
use super::{Deed, goes};
use iox_control::Settings;
use iox_control_making::NotMade;
use iox_model::kind::{Kind, Role};
use iox_port_commands::{Hub, MessageShape, Options, Part};
use iox_store::{Many, One};
use iox_types::{AllocationStrategy, BackpressureStrategy};
use std::alloc::{AllocError, Global};
use std::process::Abort;

type TheHub = Hub<Many<u64>, u32, One<u64>, ()>;

const PART: Part = Part {
    size: 8,
    alignment: 8,
};

const OPTIONS: Options = Options {
    max_slice_len: 2,
    pool: None,
    strategy: None,
    allocation: None,
    loaned_responses: None,
};

const SETTINGS: Settings = Settings {
    clients: 8,
    servers: 2,
    nodes: 2,
    active_requests: 4,
    loaned_requests: 2,
    response_buffer: 2,
    borrowed_responses: 2,
    loaned_responses: 2,
    client_expired: 0,
    server_expired: 0,
    request_overflow: true,
    response_overflow: true,
    fire_and_forget: true,
    client_strategy: BackpressureStrategy::DiscardData,
    server_strategy: BackpressureStrategy::DiscardData,
    client_allocation: AllocationStrategy::Static,
    server_allocation: AllocationStrategy::Static,
};

/// Requests are to grow.
const GROWING: Settings = Settings {
    client_allocation: AllocationStrategy::BestFit,
    ..SETTINGS
};

/// A hub of these settings.
fn hub(alloc: Global, settings: Settings) -> Result<TheHub, AllocError> {
    let request: MessageShape<u64, u32> = MessageShape {
        default: Some(7),
        user_header: 3,
        header_part: PART,
        user_part: PART,
        element_part: PART,
    };
    let response: MessageShape<u64, ()> = MessageShape {
        default: None,
        user_header: (),
        header_part: PART,
        user_part: PART,
        element_part: PART,
    };
    Hub::new(alloc, settings, request, response)
}

/// Does all of a list with a new hub of these settings.
pub(super) fn plays(rt: &impl Abort, alloc: Global, settings: &Settings, list: &[Deed]) {
    let mut hub = hub(alloc, *settings).expect(rt, "a hub");
    goes(rt, alloc, &mut hub, list);
}

#[test]
fn a_client_and_a_server_are_made(rt: HostRuntime) {
    plays(
        &rt,
        rt.alloc(),
        &SETTINGS,
        &[
            Deed::Makes(0, Role::Client, OPTIONS, Ok(0)),
            Deed::Makes(1, Role::Server, OPTIONS, Ok(1)),
            Deed::Has(0, 0, Kind::Client, true),
            Deed::Has(1, 1, Kind::Server, true),
            Deed::Has(0, 1, Kind::Server, false),
            Deed::Calls(0),
        ],
    );
}

#[test]
fn the_ninth_client_of_eight_is_refused(rt: HostRuntime) {
    plays(
        &rt,
        rt.alloc(),
        &SETTINGS,
        &[
            Deed::Makes(0, Role::Client, OPTIONS, Ok(0)),
            Deed::Makes(0, Role::Client, OPTIONS, Ok(1)),
            Deed::Makes(0, Role::Client, OPTIONS, Ok(2)),
            Deed::Makes(0, Role::Client, OPTIONS, Ok(3)),
            Deed::Makes(0, Role::Client, OPTIONS, Ok(4)),
            Deed::Makes(0, Role::Client, OPTIONS, Ok(5)),
            Deed::Makes(0, Role::Client, OPTIONS, Ok(6)),
            Deed::Makes(0, Role::Client, OPTIONS, Ok(7)),
            Deed::Makes(0, Role::Client, OPTIONS, Err(NotMade::TooManyPorts)),
            Deed::Kind(8, None),
        ],
    );
}

/// The messages are to grow so.
const BEST_FIT: Options = Options {
    allocation: Some(AllocationStrategy::BestFit),
    ..OPTIONS
};

const POWER_OF_TWO: Options = Options {
    allocation: Some(AllocationStrategy::PowerOfTwo),
    ..OPTIONS
};

#[test]
fn a_server_of_single_elements_is_made_though_its_messages_are_to_grow(rt: HostRuntime) {
    plays(
        &rt,
        rt.alloc(),
        &GROWING,
        &[
            Deed::Makes(0, Role::Server, BEST_FIT, Ok(0)),
            Deed::Makes(0, Role::Server, POWER_OF_TWO, Ok(1)),
            Deed::Makes(0, Role::Client, OPTIONS, Ok(2)),
        ],
    );
}

#[test]
fn a_port_that_is_too_large_is_refused_though_it_would_grow(rt: HostRuntime) {
    const LARGE: Options = Options {
        max_slice_len: 1 << 60,
        ..OPTIONS
    };
    plays(
        &rt,
        rt.alloc(),
        &GROWING,
        &[
            Deed::Makes(0, Role::Client, LARGE, Err(NotMade::DataSegment)),
            Deed::Makes(0, Role::Client, OPTIONS, Ok(0)),
        ],
    );
}
