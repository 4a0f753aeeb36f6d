//! Visits of a port on their usual way.
#![tactic(auto, using(crate::proofs::Keeping::kept))]

ghost use Rattle.std.specs.Prelude.{◌≡◌, IfSome, OnSome, None};
ghost use Rattle.iox_tables.specs.Visited.{all_visits};
ghost use Rattle.iox_tables.specs.HubStates.Receives.{visited_port};
ghost use Rattle.iox_tables.specs.HubStates.Tables.{pipes_to};
ghost use Rattle.iox_tables.specs.HubStates.Ways.{with_port};
ghost use Rattle.iox_hub_ports.specs.Ports.{with_ports};

use crate::ports::Ports;
use iox_tables::incoming::Visits;
use iox_tables::wanted::{Labels, Wanted};

impl Ports {
    /// Visits that lane of each sender to the port of that number, where the port is at the hint,
    /// no pipe is kept of a sender that is gone, and nothing waits, or the first message that waits
    /// is wanted, and the port may have one more. Else it is another way: `None` says that nothing
    /// changed.
    #[inline(always)]
    pub fn visit_usual<L: Labels>(
        &mut self,
        number: u64,
        hint: usize,
        lane: u64,
        wanted: Wanted,
        labels: &L,
    ) -> Option<Visits>
        ensures visits { IfSome result (λ visits. visits
            ≡ all_visits wanted (L.label_of labels.now) lane (pipes_to self.old.ports number)) }
        ensures visited { OnSome result (self.new ≡ with_ports self.old
            (with_port (visited_port wanted (L.label_of labels.now) lane) self.old.ports number)) }
        ensures unchanged { result ≡ None → self.new ≡ self.old }
    {
        if !self.is_near(number, hint) {
            return None;
        }
        self.ports[hint].visit_usual(lane as usize, wanted, labels)
    }
}
