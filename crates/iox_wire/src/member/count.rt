//! How many messages of its ports a node of a wire counts, and which serials its slots hold, alive
//! or dead.
use super::Member;
use iox_model::way::Way;

impl Member {
    ghost use Rattle.std.specs.Prelude.{◌≡◌};
    ghost use Rattle.std.specs.Option.{option_map_or};
    ghost use Rattle.iox_wire_weaves.specs.Counted.{desk_of, kept_at, outstanding_at, serial_at};

    /// How many of its messages a port keeps; none if the node does not have it.
    pub(crate) fn kept(&self, port: u64) -> usize
        ensures { result ≡ option_map_or kept_at (desk_of port self.now.node.seat.seat.desks) 0 }
    {
        match self.node.kept(port) {
            Some(count) => count,
            None => 0,
        }
    }

    /// How many messages its sender delivered on the way and did not get back; none if the node
    /// does not have that port.
    pub(crate) fn outstanding(&self, way: Way) -> usize
        ensures { result
            ≡ option_map_or (outstanding_at way)
            (desk_of way.sender self.now.node.seat.seat.desks) 0 }
    {
        match self.node.outstanding(way) {
            Some(count) => count,
            None => 0,
        }
    }

    /// The serial of the last loan that took the slot of a port; 0 if the node does not have that
    /// port.
    pub(crate) fn serial(&self, port: u64, slot: u64) -> u64
        ensures { result
            ≡ option_map_or (serial_at slot) (desk_of port self.now.node.seat.seat.desks) 0 }
    {
        match self.node.serial(port, slot) {
            Some(serial) => serial,
            None => 0,
        }
    }
}
