//! How many messages of its port a desk counts.
use super::StoredDesk;
use iox_model::way::Way;

impl StoredDesk {
    ghost use Rattle.std.specs.Prelude.{◌≡◌};
    ghost use Rattle.iox_wire_seats.specs.Counted.{kept_at, outstanding_at, serial_at};

    /// How many slots are not free.
    pub fn kept(&self) -> usize
        ensures { result ≡ kept_at self.now }
    {
        self.uses.len() - self.free.len()
    }

    /// How many messages were delivered on the way and not got back.
    pub fn outstanding(&self, way: Way) -> usize
        ensures { result ≡ outstanding_at way self.now }
    {
        self.recorded.count(way)
    }

    /// The serial of the last loan that took the slot; 0 where none did, or there is no such slot.
    pub fn serial(&self, slot: u64) -> u64
        ensures { result ≡ serial_at slot self.now }
    {
        match self.serials.get(slot as usize) {
            Some(serial) => *serial,
            None => 0,
        }
    }
}
