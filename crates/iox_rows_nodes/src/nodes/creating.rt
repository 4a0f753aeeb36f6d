//! Services that are made, and those that may not be.
use super::service::{SETTINGS, id, new};
use super::{Ask, Row, Told, plays};
use crate::expected::equal;
use iox_control::Settings;
use iox_model::reply::Refusal;
use iox_types::identifiers::UniqueSystemId;
use std::alloc::Global;
use std::process::Abort;

/// Settings, a creator's process, what is asked of it, and why no such service is made, if none is.
type Made = (Settings, u32, Option<Refusal<u64>>, Option<Refusal<u64>>);

/// Why no such service is made, if none is.
fn refusal(
    alloc: Global,
    settings: Settings,
    id: UniqueSystemId,
    asked: Option<Refusal<u64>>,
) -> Option<Refusal<u64>> {
    new(alloc, settings, id, asked).err()
}

/// Ends the test where a service is refused for another reason, or is made.
fn are_refused(rt: &impl Abort, alloc: Global, list: &[Made]) {
    for (settings, process, asked, wanted) in list {
        equal(rt, refusal(alloc, *settings, id(*process), *asked), *wanted);
    }
}

const MOST: u64 = (1 << 24) - 2;

/// A service of one node.
const SINGLE: Settings = Settings {
    nodes: 1,
    ..SETTINGS
};

#[test]
fn a_limit_past_that_of_any_service_is_refused(rt: HostRuntime) {
    const LARGE: Option<Refusal<u64>> = Some(Refusal::LimitTooLarge);
    // A register of the most nodes takes more than a gigabyte.
    const MANY: Settings = Settings {
        nodes: 1 << 16,
        ..SETTINGS
    };
    const NODES: Settings = Settings {
        nodes: MOST + 1,
        ..SETTINGS
    };
    const CLIENTS: Settings = Settings {
        clients: MOST + 1,
        ..SINGLE
    };
    const SERVERS: Settings = Settings {
        servers: MOST + 1,
        ..SINGLE
    };
    const LIST: &[Made] = &[
        (MANY, 1, None, None),
        (NODES, 1, None, LARGE),
        (CLIENTS, 1, None, LARGE),
        (SERVERS, 1, None, LARGE),
    ];
    are_refused(&rt, rt.alloc(), LIST);
}

#[test]
fn a_creator_is_told_the_first_test_that_fails(rt: HostRuntime) {
    const LARGE: Settings = Settings {
        nodes: 1 << 24,
        ..SETTINGS
    };
    const ASKED: Option<Refusal<u64>> = Some(Refusal::IncompatibleResponseTypes);
    const INVALID: Option<Refusal<u64>> = Some(Refusal::InvalidNodeId);
    const LIST: &[Made] = &[
        (LARGE, 0, ASKED, INVALID),
        (SINGLE, 0, None, INVALID),
        (LARGE, 1, ASKED, ASKED),
        (SINGLE, 1, ASKED, ASKED),
        (SINGLE, 1, None, None),
    ];
    are_refused(&rt, rt.alloc(), LIST);
}

#[test]
fn a_new_service_has_its_creator_alone(rt: HostRuntime) {
    // A limit of no nodes is one of a single node.
    const SCRIPT: &[Row<'static>] = &[
        (Ask::Closed, Told::Answer(false)),
        (Ask::Nodes, Told::Listed(&[0])),
        (Ask::Clients, Told::Listed(&[])),
        (Ask::Servers, Told::Listed(&[])),
        (
            Ask::Join(2),
            Told::Refused(Refusal::ExceedsMaxNumberOfNodes),
        ),
        (Ask::Client(1), Told::Refused(Refusal::UnknownNode)),
        (Ask::Client(0), Told::Client(0)),
    ];
    plays(&rt, rt.alloc(), 0, SCRIPT);
}
