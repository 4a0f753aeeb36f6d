//! Which nodes are registered with a service.
use super::asking::nodes;
use super::openers::{BOTH, FITS, RESPONSES, UNFIT};
use super::starts::SETTINGS;
use super::{Ask, Part, TheService, Then, Told, plays_parts};
use crate::expected::equal;
use iceoryx2_wire::{Backpressure, CallbackProgression, Refusal, Settings};
use std::alloc::Global;
use std::process::Abort;

/// How many nodes are registered, and whether the register is locked.
fn seen<H: Backpressure>(service: &TheService<H>) -> (usize, bool) {
    let registered = service.dynamic_config();
    (registered.number_of_nodes(), registered.is_locked())
}

/// As many nodes are registered as are listed, and the register is locked if the service is closed.
pub(super) fn as_many_as_listed<H: Backpressure>(
    rt: &impl Abort,
    alloc: Global,
    service: &TheService<H>,
) {
    let listed = nodes(rt, alloc, service).len();
    equal(rt, seen(service), (listed, service.is_closed()));
}

/// How often the id N 0 0 0 is registered.
fn times<H: Backpressure>(service: &TheService<H>, process: u32) -> u32 {
    let mut times = 0_u32;
    service.dynamic_config().list_node_ids(|id| {
        if id.system_id().process == process {
            times = times.saturating_add(1);
        }
        CallbackProgression::Continue
    });
    times
}

/// The ids N 0 0 0 of these are registered, each once, and no others. The register is locked where
/// there are none.
pub(super) fn are_registered<H: Backpressure>(
    rt: &impl Abort,
    service: &TheService<H>,
    wanted: &[u32],
) {
    equal(rt, seen(service), (wanted.len(), wanted.is_empty()));
    for process in wanted {
        equal(rt, (*process, times(service, *process)), (*process, 1));
    }
}

#[test]
fn a_refused_open_registers_nobody(rt: HostRuntime) {
    const TWO: Settings = Settings {
        nodes: 2,
        ..SETTINGS
    };
    const PARTS: &[Part<'static>] = &[
        (&[], Then::Registered(&[1])),
        (
            &[(Ask::Open(0, FITS), Told::Refused(Refusal::InvalidNodeId))],
            Then::Registered(&[1]),
        ),
        (
            &[(Ask::Open(1, FITS), Told::Refused(Refusal::NodeIdInUse))],
            Then::Registered(&[1]),
        ),
        (
            &[(
                Ask::Open(2, BOTH),
                Told::Refused(Refusal::IncompatibleRequestTypes),
            )],
            Then::Registered(&[1]),
        ),
        (
            &[(
                Ask::Open(2, RESPONSES),
                Told::Refused(Refusal::IncompatibleResponseTypes),
            )],
            Then::Registered(&[1]),
        ),
        (
            &[(Ask::Open(2, UNFIT), Told::NoPair("a", "9"))],
            Then::Registered(&[1]),
        ),
        (
            &[(Ask::Open(2, FITS), Told::Node(1))],
            Then::Registered(&[1, 2]),
        ),
        (
            &[(
                Ask::Open(3, FITS),
                Told::Refused(Refusal::ExceedsMaxNumberOfNodes),
            )],
            Then::Registered(&[1, 2]),
        ),
        (&[(Ask::Leave(0), Told::Done)], Then::Registered(&[2])),
        (&[(Ask::Leave(1), Told::Done)], Then::Registered(&[])),
        (
            &[(
                Ask::Open(3, FITS),
                Told::Refused(Refusal::MarkedForDestruction),
            )],
            Then::Registered(&[]),
        ),
    ];
    plays_parts(&rt, rt.alloc(), &TWO, PARTS);
}

#[test]
fn who_leaves_or_is_cleaned_up_is_deregistered(rt: HostRuntime) {
    const PARTS: &[Part<'static>] = &[
        (&[], Then::Registered(&[1])),
        (
            &[(Ask::Open(2, FITS), Told::Node(1))],
            Then::Registered(&[1, 2]),
        ),
        (
            &[(Ask::Open(3, FITS), Told::Node(2))],
            Then::Registered(&[1, 2, 3]),
        ),
        (
            &[(Ask::Open(4, FITS), Told::Node(3))],
            Then::Registered(&[1, 2, 3, 4]),
        ),
        (&[(Ask::Leave(1), Told::Done)], Then::Registered(&[1, 3, 4])),
        // The dead are registered until their cleanup.
        (&[(Ask::Die(3), Told::Done)], Then::Registered(&[1, 3, 4])),
        (&[(Ask::Cleanup(3), Told::Done)], Then::Registered(&[1, 3])),
        // An id that is free again is registered again.
        (
            &[(Ask::Open(4, FITS), Told::Node(4))],
            Then::Registered(&[1, 3, 4]),
        ),
        (&[(Ask::Leave(4), Told::Done)], Then::Registered(&[1, 3])),
    ];
    plays_parts(&rt, rt.alloc(), &SETTINGS, PARTS);
}

#[test]
fn ids_that_differ_in_one_half_are_deregistered_alone(rt: HostRuntime) {
    const PARTS: &[Part<'static>] = &[
        (&[], Then::Registered(&[1])),
        (
            &[(Ask::Open(2, FITS), Told::Node(1))],
            Then::Registered(&[1, 2]),
        ),
        (&[(Ask::Die(1), Told::Done)], Then::Registered(&[1, 2])),
        (&[(Ask::Cleanup(1), Told::Done)], Then::Registered(&[1])),
    ];
    plays_parts(&rt, rt.alloc(), &SETTINGS, PARTS);
}

#[test]
fn the_last_that_goes_locks_the_register(rt: HostRuntime) {
    // A limit of no nodes is one of a single node.
    const NONE: Settings = Settings {
        nodes: 0,
        ..SETTINGS
    };
    const PARTS: &[Part<'static>] = &[
        (&[], Then::Registered(&[1])),
        (
            &[(
                Ask::Open(2, FITS),
                Told::Refused(Refusal::ExceedsMaxNumberOfNodes),
            )],
            Then::Registered(&[1]),
        ),
        (&[(Ask::Die(0), Told::Done)], Then::Registered(&[1])),
        (&[(Ask::Cleanup(0), Told::Done)], Then::Registered(&[])),
        (
            &[(
                Ask::Open(2, FITS),
                Told::Refused(Refusal::MarkedForDestruction),
            )],
            Then::Registered(&[]),
        ),
    ];
    plays_parts(&rt, rt.alloc(), &NONE, PARTS);
}
