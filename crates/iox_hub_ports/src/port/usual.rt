//! Visits to senders on their usual way: none that is gone is kept, and the oldest message of the
//! first of whom one waits is taken.
ghost use Rattle.std.specs.Prelude.{◌≡◌, IfSome, OnSome, None};
ghost use Rattle.iox_tables.specs.Visited.{all_visits};
ghost use Rattle.iox_tables.specs.HubStates.Receives.{visited_port};
ghost use Rattle.iox_tables.specs.HubStates.Tables.{pipes_of};

use crate::port::Port;
use iox_tables::incoming::Visits;
use iox_tables::wanted::{Labels, Wanted};

impl Port {
    /// Visits the lane of that number of each sender, where no pipe is kept of one that is gone,
    /// and nothing waits, or the first message that waits is wanted, and the port may have one
    /// more. Else it is another way: `None` says that nothing changed.
    #[inline(always)]
    pub fn visit_usual<L: Labels>(
        &mut self,
        lane: usize,
        wanted: Wanted,
        labels: &L,
    ) -> Option<Visits>
        ensures visits { IfSome result (λ visits.
            visits ≡ all_visits wanted (L.label_of labels.now) lane (pipes_of self.old)) }
        ensures visited { OnSome result
            (self.new ≡ visited_port wanted (L.label_of labels.now) lane self.old) }
        ensures unchanged { result ≡ None → self.new ≡ self.old }
        ensures number { self.new.number ≡ self.old.number }
        ensures role { self.new.role ≡ self.old.role }
    {
        if !self.keeps_none() {
            return None;
        }
        self.incoming.visit_usual(lane, wanted, labels)
    }
}
