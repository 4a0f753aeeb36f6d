//! What a new loan reads of a desk.
use super::StoredDesk;

impl StoredDesk {
    ghost use Rattle.std.specs.Prelude.{◌≡◌};
    ghost use Rattle.iox_wire_locals.specs.Lendings.{first_lane};

    /// How many loans succeeded.
    #[inline(always)]
    pub fn loans(&self) -> u64
        ensures { result ≡ self.now.loans }
    {
        self.loans
    }

    /// The first free lane; `none` if no lane is free.
    #[inline(always)]
    pub fn first_lane(&self, none: u64) -> u64
        ensures { result ≡ first_lane none self.now.free_lanes }
    {
        match self.free_lanes.front() {
            Some(lane) => *lane,
            None => none,
        }
    }
}
