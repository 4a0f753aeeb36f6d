//! Which nodes are registered with a service.
use super::asking::nodes;
use super::service::SETTINGS;
use super::{Ask, Row, TheService, Told, Way, goes, service};
use crate::expected::equal;
use std::alloc::Global;
use std::process::Abort;

/// How many nodes are registered, and whether the register is locked.
fn registered(service: &TheService) -> (usize, bool) {
    let registered = service.dynamic_config();
    (registered.number_of_nodes(), registered.is_locked())
}

/// As many nodes are registered as are listed, and the register is locked if the service is closed.
pub(super) fn as_many_as_listed(rt: &impl Abort, alloc: Global, service: &TheService) {
    let listed = nodes(rt, alloc, service).len();
    equal(rt, registered(service), (listed, service.is_closed()));
}

/// Asks a new service in this way one after another. Then none is registered, and the register is
/// locked.
fn locks(rt: &impl Abort, alloc: Global, way: Way, script: &[Row<'_>]) {
    let mut service = service::with(rt, alloc, SETTINGS);
    goes(rt, alloc, &mut service, way, script);
    equal(rt, registered(&service), (0, true));
}

#[test]
fn the_last_that_is_cleaned_up_locks_the_register(rt: HostRuntime) {
    const SCRIPT: &[Row<'static>] = &[
        (Ask::Join(2), Told::Node(1)),
        (Ask::Die(1), Told::Done),
        (Ask::Die(0), Told::Done),
        (Ask::Cleanup(0), Told::Done),
        (Ask::Closed, Told::Answer(false)),
        (Ask::Cleanup(1), Told::Done),
        (Ask::Closed, Told::Answer(true)),
    ];
    locks(&rt, rt.alloc(), Way::Called, SCRIPT);
    locks(&rt, rt.alloc(), Way::Served, SCRIPT);
    locks(&rt, rt.alloc(), Way::Tried, SCRIPT);
}
