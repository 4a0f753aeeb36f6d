//! How many messages of its ports a node counts.
ghost use Rattle.std.specs.Prelude.{◌≡◌};

use super::StoredSeat;
use iox_model::way::Way;

impl StoredSeat {
    ghost use Rattle.std.specs.Prelude.{◌≡◌, option_map};
    ghost use Rattle.iox_wire_seats.specs.Counted.{desk_of, kept_at, outstanding_at, serial_at};

    /// How many of its messages a port keeps, if it is one of the node's.
    pub fn kept(&self, port: u64) -> Option<usize>
        ensures { result ≡ option_map kept_at (desk_of port self.now.seat.desks) }
    {
        self.desks.kept(port)
    }

    /// How many messages its sender delivered on the way and did not get back, if that is a port of
    /// the node.
    pub fn outstanding(&self, way: Way) -> Option<usize>
        ensures { result ≡ option_map (outstanding_at way)
            (desk_of way.sender self.now.seat.desks) }
    {
        self.desks.outstanding(way)
    }

    /// The serial of the last loan that took the slot of the port, if that is one of the node's.
    pub fn serial(&self, port: u64, slot: u64) -> Option<u64>
        ensures { result ≡ option_map (serial_at slot) (desk_of port self.now.seat.desks) }
    {
        self.desks.serial(port, slot)
    }
}
