//! How many messages of a port its desk counts.
ghost use Rattle.std.specs.Prelude.{◌≡◌};

use super::Desks;
use iox_model::way::Way;

impl Desks {
    ghost use Rattle.std.specs.Prelude.{◌≡◌, option_map};
    ghost use Rattle.iox_wire_seats.specs.Counted.{desk_of, kept_at, outstanding_at, serial_at};

    /// How many of its messages the port keeps, if it has a desk.
    pub fn kept(&self, port: u64) -> Option<usize>
        ensures { result ≡ option_map kept_at (desk_of port self.now) }
    {
        match self.place(port) {
            Some(place) => Some(self.desks[place].kept()),
            None => None,
        }
    }

    /// How many messages its sender delivered on the way and did not get back, if it has a desk.
    pub fn outstanding(&self, way: Way) -> Option<usize>
        ensures { result ≡ option_map (outstanding_at way) (desk_of way.sender self.now) }
    {
        match self.place(way.sender) {
            Some(place) => Some(self.desks[place].outstanding(way)),
            None => None,
        }
    }

    /// The serial of the last loan that took the slot of the port, if that has a desk.
    pub fn serial(&self, port: u64, slot: u64) -> Option<u64>
        ensures { result ≡ option_map (serial_at slot) (desk_of port self.now) }
    {
        match self.place(port) {
            Some(place) => Some(self.desks[place].serial(slot)),
            None => None,
        }
    }
}
