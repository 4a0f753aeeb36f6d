//! Nodes that open a service, and those that may not.
use super::openers::{BOTH, FITS, KEYS, MET, PAIRS, REQUESTS, RESPONSES, UNFIT};
use super::starts::SETTINGS;
use super::{Ask, Row, Told, plays};
use iceoryx2_wire::{Refusal, Settings};

#[test]
fn the_least_missing_pair_is_told(rt: HostRuntime) {
    const SCRIPT: &[Row<'static>] = &[
        (Ask::Open(2, PAIRS), Told::NoPair("a", "2")),
        (Ask::Nodes, Told::Listed(&[0])),
    ];
    plays(&rt, rt.alloc(), &SETTINGS, SCRIPT);
}

#[test]
fn a_missing_key_is_told_where_no_pair_is(rt: HostRuntime) {
    const SCRIPT: &[Row<'static>] = &[
        (Ask::Open(2, KEYS), Told::NoKey("d")),
        (Ask::Nodes, Told::Listed(&[0])),
        (Ask::Open(2, MET), Told::Node(1)),
        (Ask::Nodes, Told::Listed(&[0, 1])),
    ];
    plays(&rt, rt.alloc(), &SETTINGS, SCRIPT);
}

#[test]
fn the_first_test_that_fails_is_told(rt: HostRuntime) {
    const SINGLE: Settings = Settings {
        nodes: 1,
        ..SETTINGS
    };
    const SCRIPT: &[Row<'static>] = &[
        // At the limit of one node, each of these fails a later test as well.
        (Ask::Open(0, BOTH), Told::Refused(Refusal::InvalidNodeId)),
        (Ask::Open(1, BOTH), Told::Refused(Refusal::NodeIdInUse)),
        (
            Ask::Open(2, BOTH),
            Told::Refused(Refusal::IncompatibleRequestTypes),
        ),
        (
            Ask::Open(2, RESPONSES),
            Told::Refused(Refusal::IncompatibleResponseTypes),
        ),
        (Ask::Open(2, UNFIT), Told::NoPair("a", "9")),
        (
            Ask::Open(2, FITS),
            Told::Refused(Refusal::ExceedsMaxNumberOfNodes),
        ),
        (Ask::Leave(0), Told::Done),
        (
            Ask::Open(0, BOTH),
            Told::Refused(Refusal::MarkedForDestruction),
        ),
        (
            Ask::Open(2, FITS),
            Told::Refused(Refusal::MarkedForDestruction),
        ),
    ];
    plays(&rt, rt.alloc(), &SINGLE, SCRIPT);
}

#[test]
fn a_refused_open_leaves_nothing_behind(rt: HostRuntime) {
    const TWO: Settings = Settings {
        nodes: 2,
        ..SETTINGS
    };
    const SCRIPT: &[Row<'static>] = &[
        (Ask::Open(2, UNFIT), Told::NoPair("a", "9")),
        (
            Ask::Open(2, REQUESTS),
            Told::Refused(Refusal::IncompatibleRequestTypes),
        ),
        (Ask::Nodes, Told::Listed(&[0])),
        (Ask::Client(1), Told::Refused(Refusal::UnknownNode)),
        // The number, the id and the place are still there.
        (Ask::Open(2, FITS), Told::Node(1)),
        (
            Ask::Open(3, FITS),
            Told::Refused(Refusal::ExceedsMaxNumberOfNodes),
        ),
        (Ask::Leave(1), Told::Done),
        (Ask::Open(3, FITS), Told::Node(2)),
        (Ask::Nodes, Told::Listed(&[0, 2])),
    ];
    plays(&rt, rt.alloc(), &TWO, SCRIPT);
}
