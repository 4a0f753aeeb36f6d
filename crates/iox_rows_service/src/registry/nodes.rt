//! Nodes that come, go and die.
use super::{handle, node};
use crate::expected::{are_shown, equal, holds};
use iox_registry::dynamic_config::Nodes;
use iox_registry::{
    RegisterNodeError, RegistryHandle, RegistryNewError, ReleaseError, RemainingOwners,
};
use iox_words::CallbackProgression;
use std::alloc::Global;
use std::process::Abort;

/// What is done, and what has to come of it. A node is told by its process and its counter, and a
/// handle by how many were handed out before.
#[derive(Clone, Copy)]
enum Deed<'a> {
    /// A node is registered.
    Comes(u32, u32),
    /// A node of that process is not registered.
    Refused(u32, RegisterNodeError),
    Goes(usize, Result<RemainingOwners, ReleaseError>),
    Dies(u32, u32, RemainingOwners),
    /// The handle is that of the node.
    Tells(usize, u32, u32),
    /// The handle is that of no node.
    Forgets(usize),
    /// There are so many nodes.
    Number(usize),
    /// The register takes no more nodes.
    Locked,
    /// The processes of the last three nodes that are listed, where the listing is stopped at the
    /// second one, or is not.
    Listed(bool, &'a [Option<u32>]),
}

/// What is done to a new register of so many nodes at most.
struct Run<'a> {
    /// What a failed test tells.
    name: &'a str,
    limit: usize,
    deeds: &'a [Deed<'a>],
}

/// The processes of the last three nodes that are listed.
fn listed(nodes: &Nodes, stops: bool) -> [Option<u32>; 3] {
    let mut seen = [None; 3];
    nodes.list_node_ids(|id| {
        seen = [seen[1], seen[2], Some(id.pid())];
        if stops && seen[1] != None {
            return CallbackProgression::Stop;
        }
        CallbackProgression::Continue
    });
    seen
}

/// A node is registered, and its handle is kept.
fn comes(
    rt: &impl Abort,
    nodes: &mut Nodes,
    handles: &mut Vec<RegistryHandle>,
    (process, counter): (u32, u32),
) {
    let handle = nodes
        .register_node_id(node(rt, process, counter))
        .expect(rt, "room");
    handles.push(handle).expect(rt, "memory");
}

/// Ends the test where the register tells otherwise.
fn is_told(
    rt: &impl Abort,
    nodes: &Nodes,
    handles: &[RegistryHandle],
    name: (&str, usize),
    deed: Deed<'_>,
) {
    match deed {
        Deed::Tells(of, process, counter) => {
            let told = nodes.node_id(handle(rt, handles, of));
            equal(rt, (name, told), (name, Some(node(rt, process, counter))));
        }
        Deed::Forgets(of) => {
            let told = nodes.node_id(handle(rt, handles, of));
            equal(rt, (name, told), (name, None));
        }
        Deed::Number(wanted) => equal(rt, (name, nodes.number_of_nodes()), (name, wanted)),
        Deed::Listed(stops, wanted) => {
            equal(rt, (name, listed(nodes, stops).as_slice()), (name, wanted));
        }
        Deed::Locked => equal(rt, (name, nodes.is_locked()), (name, true)),
        _ => holds(rt, false),
    }
}

/// Does it.
fn does(
    rt: &impl Abort,
    nodes: &mut Nodes,
    handles: &mut Vec<RegistryHandle>,
    name: (&str, usize),
    deed: Deed<'_>,
) {
    match deed {
        Deed::Comes(process, counter) => comes(rt, nodes, handles, (process, counter)),
        Deed::Refused(process, error) => {
            let came = nodes.register_node_id(node(rt, process, 1)).err();
            equal(rt, (name, came), (name, Some(error)));
        }
        Deed::Goes(of, wanted) => {
            let came = nodes.deregister_node_id(handle(rt, handles.as_slice(), of));
            equal(rt, (name, came), (name, wanted));
        }
        Deed::Dies(process, counter, wanted) => {
            let came = nodes.remove_dead_node_id(&node(rt, process, counter));
            equal(rt, (name, came), (name, wanted));
        }
        _ => is_told(rt, nodes, handles.as_slice(), name, deed),
    }
}

/// Does all of it.
fn goes(rt: &impl Abort, nodes: &mut Nodes, handles: &mut Vec<RegistryHandle>, run: &Run<'_>) {
    for (place, deed) in run.deeds.iter().enumerate() {
        does(rt, nodes, handles, (run.name, place), *deed);
    }
}

/// The same to a new register.
fn plays(rt: &impl Abort, alloc: Global, run: &Run<'_>) {
    let mut nodes = Nodes::new(alloc, 5, run.limit).expect(rt, "a register");
    let mut handles = Vec::new(alloc);
    goes(rt, &mut nodes, &mut handles, run);
}

#[test]
fn nodes_come_and_go_and_die(rt: HostRuntime) {
    const RUNS: &[Run<'static>] = &[
        Run {
            name: "the last node that goes locks for good",
            limit: 3,
            deeds: &[
                Deed::Comes(1, 1),
                Deed::Comes(2, 1),
                Deed::Number(2),
                Deed::Goes(0, Ok(RemainingOwners::HasOwners)),
                Deed::Goes(1, Ok(RemainingOwners::NoMoreOwners)),
                Deed::Locked,
                Deed::Refused(3, RegisterNodeError::MarkedForDestruction),
            ],
        },
        Run {
            name: "both entries of a dead node go, and no other",
            limit: 3,
            deeds: &[
                Deed::Comes(1, 1),
                Deed::Comes(2, 1),
                Deed::Comes(1, 1),
                Deed::Dies(1, 1, RemainingOwners::HasOwners),
                Deed::Number(1),
                Deed::Tells(1, 2, 1),
                Deed::Goes(0, Err(ReleaseError::Spent)),
                Deed::Goes(2, Err(ReleaseError::Spent)),
                Deed::Dies(2, 1, RemainingOwners::NoMoreOwners),
                Deed::Forgets(1),
            ],
        },
        Run {
            name: "nodes with the same low half are told apart",
            limit: 2,
            deeds: &[
                Deed::Comes(1, 9),
                Deed::Comes(2, 9),
                Deed::Dies(1, 9, RemainingOwners::HasOwners),
                Deed::Tells(1, 2, 9),
            ],
        },
        Run {
            name: "an open register without nodes has owners, and has room for one node",
            limit: 0,
            deeds: &[
                Deed::Dies(1, 1, RemainingOwners::HasOwners),
                Deed::Comes(1, 1),
                Deed::Refused(2, RegisterNodeError::ExceedsMaxNumberOfNodes),
            ],
        },
        Run {
            name: "a listing ends where it is told to",
            limit: 3,
            deeds: &[
                Deed::Comes(1, 1),
                Deed::Comes(2, 1),
                Deed::Comes(3, 1),
                Deed::Listed(false, &[Some(1), Some(2), Some(3)]),
                Deed::Listed(true, &[None, Some(1), Some(2)]),
            ],
        },
    ];
    for run in RUNS {
        plays(&rt, rt.alloc(), run);
    }
}

#[test]
fn errors_are_shown_by_their_names(rt: HostRuntime) {
    const RELEASES: &[(ReleaseError, &str)] = &[
        (ReleaseError::Foreign, "ReleaseError::Foreign"),
        (ReleaseError::Spent, "ReleaseError::Spent"),
    ];
    const REFUSALS: &[(RegisterNodeError, &str)] = &[(
        RegisterNodeError::MarkedForDestruction,
        "RegisterNodeError::MarkedForDestruction",
    )];
    const LIMITS: &[(RegistryNewError, &str)] = &[(
        RegistryNewError::LimitTooLarge,
        "RegistryNewError::LimitTooLarge",
    )];
    are_shown(&rt, rt.alloc(), RELEASES);
    are_shown(&rt, rt.alloc(), REFUSALS);
    are_shown(&rt, rt.alloc(), LIMITS);
}
