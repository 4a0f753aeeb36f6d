//! Visits on their usual way: the oldest message of the first sender of whom one waits is taken.
ghost use Rattle.std.specs.Prelude.{◌≡◌, ◌<◌, IfSome, OnSome, None, length};
ghost use Rattle.iox_lanes.specs.Visited.{all_visits};
ghost use Rattle.iox_lanes.specs.Incomings.{all_visited_of, first_waiting};

use crate::incoming::{Incoming, Visits};
use crate::wanted::{Labels, Wanted};

impl Incoming {
    /// The rank of the first pipe on which something waits on that lane.
    #[inline(always)]
    fn first_waiting(&self, lane: usize) -> Option<usize>
        ensures first { result ≡ first_waiting self.now.pipes lane }
        ensures within { IfSome result (λ rank. rank < length self.now.pipes) }
    {
        self.pipes.iter().position(|pipe| pipe.has_waiting(lane))
    }

    /// Visits the lane of that number of each sender, in their order, where nothing waits on any,
    /// or where the first message that waits is wanted, and the receiver may have one more. Else it
    /// is another way: `None` says that nothing changed.
    #[inline(always)]
    pub fn visit_usual<L: Labels>(
        &mut self,
        lane: usize,
        wanted: Wanted,
        labels: &L,
    ) -> Option<Visits>
        ensures visits { IfSome result (λ visits.
            visits ≡ all_visits wanted (L.label_of labels.now) lane self.old.pipes) }
        ensures visited { OnSome result
            (self.new ≡ all_visited_of wanted (L.label_of labels.now) lane self.old) }
        ensures unchanged { result ≡ None → self.new ≡ self.old }
    {
        let Some(rank) = self.first_waiting(lane) else {
            return Some(Visits::Nothing);
        };
        let pipe = &mut self.pipes[rank];
        let sender = pipe.sender();
        let (pool, place) = pipe.visit_usual(lane, wanted, labels)?;
        Some(Visits::Got(sender, pool, place))
    }
}
