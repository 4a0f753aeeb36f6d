//! The pipe from a sender, which is looked for at a hint first: a wrong hint is only slower.
ghost use Rattle.std.specs.Option.{option_map};
ghost use Rattle.std.specs.Prelude.{◌≡◌, IfSome, None, Some, is_some, slice_get};
ghost use Rattle.iox_model.specs.declared.way.RequestState.TheVariants.{Closed};
ghost use Rattle.iox_lanes.specs.Lanes.{without_returned};
ghost use Rattle.iox_lanes.specs.Pipes.{lane_to_get, on_lane, with_lane};
ghost use Rattle.iox_lanes.specs.Searches.{state_on};
ghost use Rattle.iox_lanes.specs.Incomings.{IsFirstAt, on_pipe_by, with_pipe_by};

use crate::incoming::Incoming;
use crate::pipe::{Left, Next};
use iox_model::way::RequestState;

impl Incoming {
    /// The request state of that lane, beside the pipe from this sender; closed where there is
    /// none.
    #[inline(always)]
    pub fn state_at(&self, sender: u64, hint: usize, lane: u64) -> RequestState
        requires once { IsFirstAt self.now.pipes hint }
        ensures { result ≡ on_pipe_by (λ p. state_on p.states lane) Closed self.now sender }
    {
        match self.rank_at(sender, hint) {
            Some(rank) => self.pipes[rank].state(lane),
            None => RequestState::Closed,
        }
    }

    /// What is left to get back by this sender, whose pipe is looked for at the hint alone. Any
    /// answer is right: it tells which way is short.
    #[inline(always)]
    pub fn left_at(&self, sender: u64, hint: usize) -> Left {
        if self.is_from(hint, sender) {
            return self.pipes[hint].left();
        }
        Left::Other
    }

    /// Gets back the oldest message of those that were given back on the lowest lane from this
    /// sender on which something is left to get back, if there is one.
    #[inline(always)]
    pub fn get_next_at(&mut self, sender: u64, hint: usize) -> Option<Next>
        requires once { IsFirstAt self.old.pipes hint }
        ensures lowest { option_map (λ n. n.lane) result
            ≡ on_pipe_by lane_to_get None self.old sender }
        ensures oldest { IfSome result (λ n.
            on_pipe_by (λ p. on_lane (λ l. slice_get l.returned 0) None p n.lane)
            None self.old sender
            ≡ Some n.place) }
        ensures got_back { IfSome result (λ n.
            self.new ≡ with_pipe_by (λ p. with_lane without_returned p n.lane) self.old sender) }
        ensures more { IfSome result (λ n.
            n.more ≡ is_some (on_pipe_by lane_to_get None self.new sender)) }
        ensures unchanged { result ≡ None → self.new ≡ self.old }
    {
        match self.rank_at(sender, hint) {
            Some(rank) => self.pipes[rank].get_next(),
            None => None,
        }
    }
}
