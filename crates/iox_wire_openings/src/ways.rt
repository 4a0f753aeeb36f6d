//! The ways between ports, as the plan of a wire tells them.
ghost use Rattle.std.specs.Prelude.{◌≡◌, ◌++◌, OnOk};
ghost use Rattle.iox_wire_openings.specs.OpenedNodes.{lanes_between, planned_ways, ways_between};
ghost use Rattle.iox_wire_openings.specs.OpenedNodes.{ways_into, ways_to};

use iox_model::kind::Role;
use iox_model::way::Way;
use iox_word_places::{PlanPort, WirePlan};
use std::alloc::AllocError;

/// Lists in addition the ways of a server's responses to a client, one on each lane.
fn list_lanes(server: PlanPort, client: PlanPort, ways: &mut Vec<Way>) -> Result<(), AllocError>
    ensures { OnOk result (ways.new.items ≡ ways.old.items ++ lanes_between server client) }
{
    for lane in 0..client.pool {
        ways.push(Way {
            sender: server.number,
            receiver: client.number,
            lane: lane as u64,
        })?;
    }
    Ok(())
}

/// Lists in addition the ways from one port to another.
fn list_between(sender: PlanPort, receiver: PlanPort, ways: &mut Vec<Way>) -> Result<(), AllocError>
    ensures { OnOk result (ways.new.items ≡ ways.old.items ++ ways_between sender receiver) }
{
    match (sender.role, receiver.role) {
        (Role::Client, Role::Server) => {
            ways.push(Way {
                sender: sender.number,
                receiver: receiver.number,
                lane: 0,
            })?;
        }
        (Role::Server, Role::Client) => list_lanes(sender, receiver, ways)?,
        (Role::Client, Role::Client) | (Role::Server, Role::Server) => {}
    }
    Ok(())
}

/// Lists in addition the ways on which a port sends.
pub(crate) fn list_from(
    plan: &WirePlan,
    sender: PlanPort,
    ways: &mut Vec<Way>,
) -> Result<(), AllocError>
    ensures { OnOk result (ways.new.items ≡ ways.old.items ++ planned_ways plan.now sender) }
{
    for receiver in &plan.ports {
        list_between(sender, *receiver, ways)?;
    }
    Ok(())
}

/// Lists in addition those of them that come to a port of the node.
fn list_to(
    plan: &WirePlan,
    node: u64,
    sender: PlanPort,
    ways: &mut Vec<Way>,
) -> Result<(), AllocError>
    ensures { OnOk result (ways.new.items ≡ ways.old.items ++ ways_to plan.now node sender) }
{
    for receiver in &plan.ports {
        if receiver.node == node {
            list_between(sender, *receiver, ways)?;
        }
    }
    Ok(())
}

/// Lists in addition the ways of all ports that come to a port of the node.
pub(crate) fn list_into(plan: &WirePlan, node: u64, ways: &mut Vec<Way>) -> Result<(), AllocError>
    ensures { OnOk result (ways.new.items ≡ ways.old.items ++ ways_into plan.now node) }
{
    for sender in &plan.ports {
        list_to(plan, node, *sender, ways)?;
    }
    Ok(())
}
