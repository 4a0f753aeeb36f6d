//! What calls of the registers answer. A test is a list of what is done to the ports of a service
//! and of what has to come of it, which `plays` does to each kind of service.
mod blackboards;
mod callers;
mod details;
mod events;
mod nodes;
mod requests;
mod samples;

use crate::expected::{equal, holds};
use iox_registry::{RegistryHandle, RegistryNewError, ReleaseError};
use iox_types::identifiers::{UniqueNodeId, UniqueSystemId};
use iox_words::CallbackProgression;
use std::alloc::Global;
use std::process::Abort;

/// Which ports of a service: those of the kind that its module names first, or the others.
#[derive(Clone, Copy)]
enum Kind {
    First,
    Second,
}

use Kind::{First, Second};

/// A port that comes: its id, and its node.
#[derive(Clone, Copy)]
struct Port {
    id: UniqueSystemId,
    node: UniqueNodeId,
}

/// A register of ports of two kinds.
trait Register {
    fn add(&mut self, kind: Kind, port: &Port) -> Option<RegistryHandle>;

    fn release(&mut self, kind: Kind, handle: RegistryHandle) -> Result<(), ReleaseError>;

    /// Whether the handle's details are those of the port, or are none.
    fn tells(&self, kind: Kind, handle: RegistryHandle, port: Option<&Port>) -> bool;

    fn number(&self, kind: Kind) -> usize;

    /// How many ports a listing tells that is stopped at the first one, or is not.
    fn listed(&self, kind: Kind, stops: bool) -> u8;

    fn remove(&mut self, node: &UniqueNodeId);
}

/// What is done, and what has to come of it. A port is told by its process, and a handle by how
/// many were handed out before.
#[derive(Clone, Copy)]
enum Deed {
    /// A port comes.
    Add(Kind, u32),
    /// There is no room for a port.
    Full(Kind, u32),
    Release(Kind, usize, Result<(), ReleaseError>),
    /// The handle is that of the port.
    Tells(Kind, usize, u32),
    /// The handle is that of no port.
    Forgets(Kind, usize),
    /// There are so many ports.
    Number(Kind, usize),
    /// A listing tells so many ports, where it is stopped at the first one, or is not.
    Listed(Kind, bool, u8),
    /// The node of a port dies.
    Dies(u32),
    /// The two handles are not the same.
    Differ(usize, usize),
}

/// Two ports of each kind come and go, as many as there may be.
const COME_AND_GO: &[Deed] = &[
    Deed::Add(First, 1),
    Deed::Add(First, 2),
    Deed::Add(Second, 1),
    Deed::Add(Second, 2),
    Deed::Full(First, 3),
    Deed::Full(Second, 3),
    Deed::Number(First, 2),
    Deed::Number(Second, 2),
    Deed::Tells(First, 1, 2),
    Deed::Tells(Second, 2, 1),
    Deed::Release(First, 2, Err(ReleaseError::Foreign)),
    Deed::Release(Second, 0, Err(ReleaseError::Foreign)),
    Deed::Listed(First, true, 1),
    Deed::Listed(Second, true, 1),
    Deed::Listed(Second, false, 2),
    Deed::Release(First, 1, Ok(())),
    Deed::Release(First, 1, Err(ReleaseError::Spent)),
    Deed::Forgets(First, 1),
    Deed::Release(Second, 2, Ok(())),
];

/// The node of a port of each kind dies, and leaves none.
const DIE: &[Deed] = &[
    Deed::Add(First, 1),
    Deed::Add(Second, 1),
    Deed::Dies(1),
    Deed::Number(First, 0),
    Deed::Number(Second, 0),
    Deed::Add(First, 1),
    Deed::Differ(0, 2),
];

fn system_id(process: u32, counter: u32) -> UniqueSystemId {
    UniqueSystemId {
        process,
        seconds: 7,
        nanoseconds: 8,
        counter,
    }
}

/// The node of that process with that counter.
fn node(rt: &impl Abort, process: u32, counter: u32) -> UniqueNodeId {
    UniqueNodeId::new(system_id(process, counter)).expect(rt, "a node")
}

fn port_of(rt: &impl Abort, process: u32) -> Port {
    Port {
        id: system_id(process, 3),
        node: node(rt, process, 1),
    }
}

/// Counts a port that is listed.
fn tell(count: &mut u8, stops: bool) -> CallbackProgression {
    *count = count.saturating_add(1);
    if stops {
        CallbackProgression::Stop
    } else {
        CallbackProgression::Continue
    }
}

/// The handle of that place among those that were handed out.
fn handle(rt: &impl Abort, handles: &[RegistryHandle], place: usize) -> RegistryHandle {
    handles.get(place).copied().expect(rt, "a handle")
}

/// A port comes, as it does at that place of the list, and its handle is kept.
fn comes<R: Register>(
    rt: &impl Abort,
    register: &mut R,
    handles: &mut Vec<RegistryHandle>,
    place: usize,
    kind: Kind,
    process: u32,
) {
    let came = register.add(kind, &port_of(rt, process));
    equal(rt, (place, came.is_some()), (place, true));
    handles.push(came.expect(rt, "room")).expect(rt, "memory");
}

/// Ends the test where the register tells otherwise.
fn is_told<R: Register>(
    rt: &impl Abort,
    register: &R,
    handles: &[RegistryHandle],
    place: usize,
    deed: Deed,
) {
    match deed {
        Deed::Tells(kind, of, process) => {
            let port = port_of(rt, process);
            let fact = register.tells(kind, handle(rt, handles, of), Some(&port));
            equal(rt, (place, fact), (place, true));
        }
        Deed::Forgets(kind, of) => {
            let fact = register.tells(kind, handle(rt, handles, of), None);
            equal(rt, (place, fact), (place, true));
        }
        Deed::Number(kind, wanted) => equal(rt, (place, register.number(kind)), (place, wanted)),
        Deed::Listed(kind, stops, wanted) => {
            equal(rt, (place, register.listed(kind, stops)), (place, wanted));
        }
        Deed::Differ(first, second) => {
            let fact = handle(rt, handles, first) == handle(rt, handles, second);
            equal(rt, (place, fact), (place, false));
        }
        _ => holds(rt, false),
    }
}

/// Does it.
fn does<R: Register>(
    rt: &impl Abort,
    register: &mut R,
    handles: &mut Vec<RegistryHandle>,
    place: usize,
    deed: Deed,
) {
    match deed {
        Deed::Add(kind, process) => comes(rt, register, handles, place, kind, process),
        Deed::Full(kind, process) => {
            let came = register.add(kind, &port_of(rt, process));
            equal(rt, (place, came), (place, None));
        }
        Deed::Release(kind, of, wanted) => {
            let came = register.release(kind, handle(rt, handles.as_slice(), of));
            equal(rt, (place, came), (place, wanted));
        }
        Deed::Dies(process) => register.remove(&node(rt, process, 1)),
        _ => is_told(rt, register, handles.as_slice(), place, deed),
    }
}

/// Does all of it to a new register. Its handles come behind those that are there.
fn plays<R: Register + Drop>(
    rt: &impl Abort,
    handles: &mut Vec<RegistryHandle>,
    made: Result<R, RegistryNewError>,
    deeds: &[Deed],
) {
    let mut register = made.expect(rt, "a register");
    for (place, deed) in deeds.iter().enumerate() {
        does(rt, &mut register, handles, place, *deed);
    }
}

/// The same, where no handle is there.
fn plays_alone<R: Register + Drop>(
    rt: &impl Abort,
    alloc: Global,
    made: Result<R, RegistryNewError>,
    deeds: &[Deed],
) {
    let mut handles = Vec::new(alloc);
    plays(rt, &mut handles, made, deeds);
}
