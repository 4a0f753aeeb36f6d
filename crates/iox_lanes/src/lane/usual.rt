//! The oldest message of a lane, where one waits.
ghost use Rattle.std.specs.Prelude.{◌≡◌, Some, false, true};
ghost use Rattle.iox_lanes.specs.Lanes.{has_waiting, is_at_limit, oldest, oldest_taken};

use crate::lane::Lane;

impl Lane {
    /// The oldest message that waits. One does.
    #[inline(always)]
    pub(crate) fn first_waiting(&self) -> u64
        requires { has_waiting self.now ≡ true }
        ensures { Some result ≡ oldest self.now }
    {
        self.waiting.first()
    }

    /// Takes the oldest message that waits. One does, and its receiver may have one more.
    #[inline(always)]
    pub(crate) fn take_waiting(&mut self)
        requires some { has_waiting self.old ≡ true }
        requires below { is_at_limit self.old ≡ false }
        ensures { self.new ≡ oldest_taken self.old }
    {
        let place = self.waiting.take_first();
        self.taken.push_reserved(place);
    }
}
