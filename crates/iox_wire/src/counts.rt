//! How many messages ports keep and have outstanding.
ghost use Rattle.std.specs.Prelude.{◌≡◌, ◌==◌, find, option_copied, option_map};
ghost use Rattle.iox_wire_weaves.specs.Plans.{port_of};

use crate::member::Member;
use crate::wire::Wire;
use iox_model::way::Way;
use iox_wire_weaves::{PlanPort, WordMap};

/// The port of that number in a list, if there is one.
fn port_in(ports: &[PlanPort], number: u64) -> Option<&PlanPort>
    ensures { option_copied result ≡ find (λ q. q.number == number) ports.now }
{
    ports.iter().find(|port| port.number == number)
}

/// The node that the plan gives the port of that number, if there is one.
pub(crate) fn node_of(map: &WordMap, port: u64) -> Option<u64>
    ensures { result ≡ option_map (λ q. q.node) (port_of map.now port) }
{
    match port_in(&map.plan().ports, port) {
        Some(found) => Some(found.node),
        None => None,
    }
}

impl Wire {
    ghost use Rattle.std.specs.Prelude.{◌≡◌, IfSome, None, Some};
    ghost use Rattle.iox_wire_weaves.specs.Owners.{owner_in};
    ghost use Rattle.iox_wire_weaves.specs.PortCounts.{kept_count, outstanding_count};
    ghost use Rattle.iox_wire_weaves.specs.Runs.{Run};
    ghost use Rattle.iox_wire_weaves.specs.Tables.{Setting};
    ghost use Rattle.iox_wire_weaves.specs.Wires.{Shows, node_at};

    /// The node of that number, alive or dead.
    fn member_of(&self, node: u64) -> Option<&Member>
        ensures there { IfSome result (λ x. node_at node self.now.nodes ≡ Some x.now) }
        ensures none { result ≡ None → node_at node self.now.nodes ≡ None }
    {
        match self.place(node) {
            Some(place) => Some(&self.members[place]),
            None => None,
        }
    }

    /// The node that has the port of that number, alive or dead.
    fn owner(&self, port: u64) -> Option<&Member>
        ensures there { IfSome result (λ x. owner_in self.now port ≡ Some x.now) }
        ensures none { result ≡ None → owner_in self.now port ≡ None }
    {
        match node_of(&self.places, port) {
            Some(node) => self.member_of(node),
            None => None,
        }
    }

    /// How many messages the port keeps, whether its node lives or is dead: in its handles, in the
    /// call of its node, and outstanding. 0 where there is no such port.
    pub fn kept(&self, port: u64) -> usize
        ensures { (p : Setting) → (r : Run) → Shows p self.now r
            → result ≡ kept_count r.last port }
    {
        match self.owner(port) {
            Some(member) => member.kept(port),
            None => 0,
        }
    }

    /// How many messages the port delivered to the other on that lane and did not get back, whether
    /// its node lives or is dead. 0 where there is no such port, or it does not send there.
    pub fn outstanding(&self, port: u64, other: u64, lane: u64) -> usize
        ensures { (p : Setting) → (r : Run) → Shows p self.now r
            → result ≡ outstanding_count r.last.state
            (record { sender = port; receiver = other; lane = lane }) }
    {
        let way = Way {
            sender: port,
            receiver: other,
            lane,
        };
        match self.owner(port) {
            Some(member) => member.outstanding(way),
            None => 0,
        }
    }
}
