//! How many slots are recorded on a way.
ghost use Rattle.std.specs.Prelude.{◌≡◌, length};

use super::{Records, StoredRecorded};
use iox_model::way::Way;

impl StoredRecorded {
    /// How many they are.
    fn count(&self) -> usize
        ensures { result ≡ length self.now.recorded.slots }
    {
        self.slots.len()
    }
}

impl Records {
    ghost use Rattle.std.specs.Prelude.{◌≡◌};
    ghost use Rattle.iox_wire_seats.specs.Counted.{count_recorded};
    ghost use Rattle.iox_wire_seats.specs.Records.{recorded_in};

    /// How many slots are recorded on the way; none where it has no record.
    pub fn count(&self, way: Way) -> usize
        ensures { result ≡ count_recorded way (recorded_in self.now) }
    {
        match self.place(way) {
            Some(place) => self.records[place].count(),
            None => 0,
        }
    }
}
