//! A visit to a lane on its usual way: the oldest message is taken.
ghost use Rattle.std.specs.Prelude.{◌≡◌, IfSome, OnSome, None, false, true};
ghost use Rattle.iox_lanes.specs.declared.search.LaneVisit.TheVariants.{Got};
ghost use Rattle.iox_lanes.specs.Lanes.{has_waiting};
ghost use Rattle.iox_lanes.specs.Pipes.{on_lane};
ghost use Rattle.iox_lanes.specs.Visited.{pipe_visit, pipe_visited, pool_on};

use crate::pipe::Pipe;
use crate::search::wants;
use crate::wanted::{Labels, Wanted};

impl Pipe {
    /// Takes the oldest message on that lane, if it is wanted and the receiver may have one more.
    /// One waits there. It tells the pool and the place of the message. `None` says that nothing
    /// changed.
    #[inline(always)]
    pub(crate) fn visit_usual<L: Labels>(
        &mut self,
        lane: usize,
        wanted: Wanted,
        labels: &L,
    ) -> Option<(usize, u64)>
        requires { on_lane has_waiting false self.old lane ≡ true }
        ensures pool { IfSome result (λ got. got.0 ≡ pool_on self.old lane) }
        ensures visit { IfSome result (λ got.
            pipe_visit wanted (L.label_of labels.now) lane self.old ≡ Got got.1) }
        ensures visited { OnSome result
            (self.new ≡ pipe_visited wanted (L.label_of labels.now) lane self.old) }
        ensures unchanged { result ≡ None → self.new ≡ self.old }
    {
        let l = &mut self.lanes[lane];
        if l.is_at_limit() {
            return None;
        }
        let pool = l.pool();
        let place = l.first_waiting();
        if !wants(wanted, &self.states, labels, pool, place) {
            return None;
        }
        l.take_waiting();
        Some((pool, place))
    }
}
