//! Tests and callers of `iox_hub`. A test is a list of what is done and of what has to come of it,
//! which one function plays with a hub that it is lent.
mod makes;
mod overrides;
mod starts;

use crate::expected::{equal, is_so};
use iox_control_lending::{Lent, LoanRefusal};
use iox_control_making::NotMade;
use iox_model::kind::{Kind, Role};
use iox_port_commands::{Hub, Options};
use iox_store::Payload;
use iox_types::identifiers::UniqueSystemId;
use iox_words::Words;
use std::alloc::Global;
use std::process::Abort;

const NODE: UniqueSystemId = UniqueSystemId {
    process: 1,
    seconds: 2,
    nanoseconds: 3,
    counter: 0,
};

/// What is done, or asked, and what has to come of it.
enum Deed {
    /// A port of this node and role is made, or not.
    Makes(u64, Role, Options, Result<u64, NotMade>),
    /// A client of node 0 is made whose pool has as many messages as a closure chooses that answers
    /// 0.
    MakesLeast(Options, Result<u64, NotMade>),
    /// The client of node 0 lends a request of so many elements: the number of the loan, or why
    /// there is none, or nothing where its pool is dry.
    Lends(u64, usize, Option<Result<u64, LoanRefusal>>),
    /// Whether the node has something of that number and kind.
    Has(u64, u64, Kind, bool),
    /// What node 0 has of that number.
    Kind(u64, Option<Kind>),
    Calls(u64),
    /// How many messages such a port needs.
    Worst(Role, Options, Option<usize>),
    /// Why a port is not made without memory.
    WithoutMemory(NotMade),
}

/// What comes of the client's loan of so many elements: its number, or why there is none, or
/// nothing where its pool is dry.
fn lent<Q: Payload, QH: Words, P: Payload, PH: Words>(
    rt: &impl Abort,
    hub: &mut Hub<Q, QH, P, PH>,
    client: u64,
    elements: usize,
) -> Option<Result<u64, LoanRefusal>> {
    is_so(rt, hub.has(0, client, Kind::Client, 0));
    match hub.lend_request(0, client, 0, elements, true) {
        Lent::Handle(loan) => Some(Ok(loan.number)),
        Lent::Refused(refusal) => Some(Err(refusal)),
        Lent::OutOfMemory => None,
    }
}

/// A port is made, or not. This promises nothing.
fn make<Q: Payload, QH: Words, P: Payload, PH: Words>(
    hub: &mut Hub<Q, QH, P, PH>,
    alloc: Global,
    node: u64,
    role: Role,
    options: Options,
) -> Result<u64, NotMade> {
    hub.make_port(alloc, node, role, NODE, options, None)
}

/// Those options with the pool that a closure chooses that answers 0.
fn least<Q: Payload, QH: Words, P: Payload, PH: Words>(
    rt: &impl Abort,
    hub: &Hub<Q, QH, P, PH>,
    options: Options,
) -> Options {
    let needed = hub
        .worst_pool(Role::Client, options)
        .expect(rt, "so many messages");
    Options {
        pool: Some(overrides::chooses_one(needed) as u64),
        ..options
    }
}

/// Does it.
fn does<Q: Payload, QH: Words, P: Payload, PH: Words>(
    rt: &impl Abort,
    alloc: Global,
    hub: &mut Hub<Q, QH, P, PH>,
    deed: &Deed,
) {
    match deed {
        Deed::Makes(node, role, options, wanted) => {
            equal(rt, make(hub, alloc, *node, *role, *options), *wanted);
        }
        Deed::MakesLeast(options, wanted) => {
            let options = least(rt, hub, *options);
            equal(rt, make(hub, alloc, 0, Role::Client, options), *wanted);
        }
        Deed::Lends(client, elements, wanted) => {
            equal(rt, lent(rt, hub, *client, *elements), *wanted);
        }
        Deed::Has(node, number, kind, wanted) => {
            equal(rt, hub.has(*node, *number, *kind, 0), *wanted);
        }
        Deed::Kind(number, wanted) => equal(rt, hub.kind(0, *number, 0), *wanted),
        Deed::Calls(wanted) => equal(rt, hub.calls(), *wanted),
        Deed::Worst(role, options, wanted) => {
            equal(rt, hub.worst_pool(*role, *options), *wanted);
        }
        Deed::WithoutMemory(wanted) => equal(rt, hub.without_memory(), *wanted),
    }
}

/// Does all of it.
fn goes<Q: Payload, QH: Words, P: Payload, PH: Words>(
    rt: &impl Abort,
    alloc: Global,
    hub: &mut Hub<Q, QH, P, PH>,
    list: &[Deed],
) {
    for deed in list {
        does(rt, alloc, hub, deed);
    }
}
