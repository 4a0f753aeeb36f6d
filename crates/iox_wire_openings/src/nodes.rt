//! A node of a wire as it opens, by the plan of the wire.
ghost use Rattle.std.specs.Prelude.{◌≡◌, ◌==◌, ◌++◌, ◌∷◌, [], IfOk, OnOk, if◌then◌else◌, map};
ghost use Rattle.iox_model.specs.Maps.{AreDistinct};
ghost use Rattle.iox_word_places.specs.Plans.{port_numbers};
ghost use Rattle.iox_wire_openings.specs.OpenedNodes.{no_count, planned_desk, planned_desks};
ghost use Rattle.iox_wire_openings.specs.OpenedNodes.{planned_lanes, planned_seat, ways_into};

use crate::ways::{list_from, list_into};
use iox_model::kind::Role;
use iox_wire_locals::Borrowed;
use iox_wire_seats::{Counts, Desks, StoredDesk, StoredSeat};
use iox_word_places::{PlanPort, WirePlan};
use std::alloc::{AllocError, Global};

/// How many lanes a port has.
fn lanes(port: PlanPort) -> usize
    ensures { result ≡ planned_lanes port }
{
    match port.role {
        Role::Client => port.pool,
        Role::Server => 0,
    }
}

/// The desk of a port that lent nothing.
fn open_desk(alloc: Global, plan: &WirePlan, port: PlanPort) -> Result<StoredDesk, AllocError>
    requires { AreDistinct (port_numbers plan.now) }
    ensures { IfOk result (λ desk. desk ≡ planned_desk plan.now port) }
{
    let mut ways = Vec::new(alloc);
    list_from(plan, port, &mut ways)?;
    let mut desk = StoredDesk::new(alloc, port.number, port.pool, lanes(port))?;
    for way in &ways {
        desk.add_way(alloc, *way)?;
    }
    Ok(desk)
}

/// Adds the desk of a port if that is one of the node's.
fn add_desk(
    alloc: Global,
    plan: &WirePlan,
    node: u64,
    port: PlanPort,
    desks: &mut Vec<StoredDesk>,
) -> Result<(), AllocError>
    requires { AreDistinct (port_numbers plan.now) }
    ensures { OnOk result (desks.new.items ≡ desks.old.items
        ++ (if port.node == node then planned_desk plan.now port ∷ [] else [])) }
{
    if port.node == node {
        desks.push(open_desk(alloc, plan, port)?)?;
    }
    Ok(())
}

/// Lists the desks of a node's ports.
fn list_desks(alloc: Global, plan: &WirePlan, node: u64) -> Result<Vec<StoredDesk>, AllocError>
    requires { AreDistinct (port_numbers plan.now) }
    ensures { IfOk result (λ desks. desks.items ≡ planned_desks plan.now node) }
{
    let mut desks = Vec::new(alloc);
    for port in &plan.ports {
        add_desk(alloc, plan, node, *port, &mut desks)?;
    }
    Ok(desks)
}

/// The desks of a node's ports.
fn open_desks(alloc: Global, plan: &WirePlan, node: u64) -> Result<Desks, AllocError>
    requires { AreDistinct (port_numbers plan.now) }
    ensures { IfOk result (λ desks. desks ≡ planned_desks plan.now node) }
{
    let desks = list_desks(alloc, plan, node)?;
    Ok(Desks::new(desks))
}

/// Lists a count for each way that comes to a port of the node.
fn list_counts(alloc: Global, plan: &WirePlan, node: u64) -> Result<Vec<Borrowed>, AllocError>
    ensures { IfOk result (λ counts. counts.items ≡ map no_count (ways_into plan.now node)) }
{
    let mut ways = Vec::new(alloc);
    list_into(plan, node, &mut ways)?;
    let mut counts = Vec::new(alloc);
    for way in &ways {
        counts.push(Borrowed {
            way: *way,
            count: 0,
        })?;
    }
    Ok(counts)
}

/// A count for each way that comes to a port of the node.
fn open_counts(alloc: Global, plan: &WirePlan, node: u64) -> Result<Counts, AllocError>
    requires { AreDistinct (port_numbers plan.now) }
    ensures { IfOk result (λ counts. counts ≡ map no_count (ways_into plan.now node)) }
{
    let counts = list_counts(alloc, plan, node)?;
    Ok(Counts::new(counts))
}

/// The node as the wire opens, with room for so many handles, for so many ways that a call visits,
/// and for so many words of a message.
pub fn open_node(
    alloc: Global,
    plan: &WirePlan,
    node: u64,
    room: usize,
    ways: usize,
    longest: usize,
) -> Result<StoredSeat, AllocError>
    requires { AreDistinct (port_numbers plan.now) }
    ensures seat { IfOk result (λ seat. seat.seat ≡ planned_seat plan.now node) }
    ensures room { IfOk result (λ seat. seat.room ≡ room) }
    ensures ways { IfOk result (λ seat. seat.ways_room ≡ ways) }
    ensures words { IfOk result (λ seat. seat.words_room ≡ longest) }
{
    let desks = open_desks(alloc, plan, node)?;
    let counts = open_counts(alloc, plan, node)?;
    StoredSeat::new(alloc, node, room, ways, longest, desks, counts)
}
