//! What a loan reads at the desk of its port.
ghost use Rattle.std.specs.Prelude.{◌≡◌};

use super::Desks;

impl Desks {
    ghost use Rattle.std.specs.Prelude.{◌≡◌};
    ghost use Rattle.iox_wire_locals.specs.Lendings.{first_lane};
    ghost use Rattle.iox_wire_seats.specs.Lends.{lanes_in, loans_in};

    /// How many loans of a port succeeded.
    pub fn loans(&self, port: u64) -> u64
        ensures { result ≡ loans_in port self.now }
    {
        match self.place(port) {
            Some(place) => self.desks[place].loans(),
            None => 0,
        }
    }

    /// The first free lane of a port; `none` if no lane is free.
    pub fn first_lane(&self, port: u64, none: u64) -> u64
        ensures { result ≡ first_lane none (lanes_in port self.now) }
    {
        match self.place(port) {
            Some(place) => self.desks[place].first_lane(none),
            None => none,
        }
    }
}
