//! The pipe from a sender, which is looked for at a hint first: a wrong hint is only slower.
ghost use Rattle.std.specs.Option.{option_map};
ghost use Rattle.std.specs.Prelude.{◌≡◌, ◌==◌, [], IfSome, None, Some, is_some, length, slice_get};
ghost use Rattle.iox_tables.specs.Incomings.{IsFirstAt};
ghost use Rattle.iox_tables.specs.Lanes.{without_returned};
ghost use Rattle.iox_tables.specs.HubStates.Tables.{pipes_of};
ghost use Rattle.iox_tables.specs.HubStates.Ways.{with_pipe_of};
ghost use Rattle.iox_hub_ports.specs.InPlace.{on_pipe_from};
ghost use Rattle.iox_hub_ports.specs.Ports.{lane_to_get_on, on_lane_from, state_from, with_lane_from};

use crate::port::Port;
use iox_model::way::RequestState;
use iox_tables::pipe::{Left, Next};
use iox_tables::steps::PipeStep;

impl Port {
    /// Where the pipes from it likely stand among those that lead to others.
    #[inline(always)]
    pub fn rank(&self) -> usize {
        self.rank
    }

    /// They likely stand there.
    #[inline]
    pub fn set_rank(&mut self, rank: usize)
        ensures { self.new ≡ self.old }
    {
        self.rank = rank;
    }

    /// Whether it keeps no pipe of a sender that is gone.
    #[inline(always)]
    pub fn keeps_none(&self) -> bool
        ensures { result ≡ (length self.now.expired.pipes == 0) }
    {
        self.expired.len() == 0
    }

    /// Takes a step on the pipe from this sender, which is looked for at the hint first.
    #[inline(always)]
    pub fn on_pipe_at<S: PipeStep>(&mut self, sender: u64, hint: usize, step: &S) -> S::Answer
        requires { IsFirstAt self.old.incoming.pipes hint }
        ensures told { result ≡ on_pipe_from (S.told step.now) (S.none step.now) self.old sender }
        ensures changed { self.new ≡ with_pipe_of (S.changed step.now) self.old sender }
    {
        if self.keeps_none() {
            return self.incoming.on_pipe_at(sender, hint, step);
        }
        self.on_pipe_far(sender, step)
    }

    /// The same, where there may be senders that are gone. A call of its own, so that the other is
    /// short.
    #[inline(never)]
    #[cold]
    fn on_pipe_far<S: PipeStep>(&mut self, sender: u64, step: &S) -> S::Answer
        ensures told { result ≡ on_pipe_from (S.told step.now) (S.none step.now) self.old sender }
        ensures changed { self.new ≡ with_pipe_of (S.changed step.now) self.old sender }
    {
        match self.expired.rank(sender) {
            Some(rank) => self.expired.on_pipe(rank, step),
            None => self.incoming.on_pipe(sender, step),
        }
    }

    /// The request state of that lane, beside the pipe from this sender, which is looked for at the
    /// hint first; closed where there is none.
    #[inline(always)]
    pub fn state_at(&self, sender: u64, hint: usize, lane: u64) -> RequestState
        requires { IsFirstAt self.now.incoming.pipes hint }
        ensures { result ≡ state_from self.now sender lane }
    {
        if self.keeps_none() {
            return self.incoming.state_at(sender, hint, lane);
        }
        self.state_far(sender, lane)
    }

    /// The same, where there may be senders that are gone. A call of its own, so that the other is
    /// short.
    #[inline(never)]
    #[cold]
    fn state_far(&self, sender: u64, lane: u64) -> RequestState
        ensures { result ≡ state_from self.now sender lane }
    {
        self.state(sender, lane)
    }

    /// What is left to get back by this sender, whose pipe is looked for at the hint alone. Any
    /// answer is right: it tells which way is short.
    #[inline(always)]
    pub fn left_at(&self, sender: u64, hint: usize) -> Left {
        if self.keeps_none() {
            return self.incoming.left_at(sender, hint);
        }
        Left::Other
    }

    /// Gets back the oldest message of those that were given back on the lowest lane from this
    /// sender on which something is left to get back, if there is one. The pipe is looked for at
    /// the hint first.
    #[inline(always)]
    pub fn get_next_at(&mut self, sender: u64, hint: usize) -> Option<Next>
        requires { IsFirstAt self.old.incoming.pipes hint }
        ensures lowest { option_map (λ n. n.lane) result
            ≡ lane_to_get_on (pipes_of self.old) sender }
        ensures oldest { IfSome result (λ n.
            on_lane_from (λ l. slice_get l.returned 0) None self.old sender n.lane
            ≡ Some n.place) }
        ensures got_back { IfSome result (λ n.
            self.new ≡ with_lane_from without_returned self.old sender n.lane) }
        ensures more { IfSome result (λ n.
            n.more ≡ is_some (lane_to_get_on (pipes_of self.new) sender)) }
        ensures number { self.new.number ≡ self.old.number }
        ensures role { self.new.role ≡ self.old.role }
        ensures unchanged { result ≡ None → self.new ≡ self.old }
    {
        if self.keeps_none() {
            return self.incoming.get_next_at(sender, hint);
        }
        self.get_next_other(sender)
    }

    /// The same, where there may be senders that are gone. What the call tells is put together
    /// anew, so that it stays in registers where it is not called.
    #[inline(always)]
    fn get_next_other(&mut self, sender: u64) -> Option<Next>
        ensures lowest { option_map (λ n. n.lane) result
            ≡ lane_to_get_on (pipes_of self.old) sender }
        ensures oldest { IfSome result (λ n.
            on_lane_from (λ l. slice_get l.returned 0) None self.old sender n.lane
            ≡ Some n.place) }
        ensures got_back { IfSome result (λ n.
            self.new ≡ with_lane_from without_returned self.old sender n.lane) }
        ensures more { IfSome result (λ n.
            n.more ≡ is_some (lane_to_get_on (pipes_of self.new) sender)) }
        ensures number { self.new.number ≡ self.old.number }
        ensures role { self.new.role ≡ self.old.role }
        ensures unchanged { result ≡ None → self.new ≡ self.old }
    {
        let Next { lane, place, more } = self.get_next_far(sender)?;
        Some(Next { lane, place, more })
    }

    /// The same. A call of its own, so that the others are short.
    #[inline(never)]
    #[cold]
    fn get_next_far(&mut self, sender: u64) -> Option<Next>
        ensures lowest { option_map (λ n. n.lane) result
            ≡ lane_to_get_on (pipes_of self.old) sender }
        ensures oldest { IfSome result (λ n.
            on_lane_from (λ l. slice_get l.returned 0) None self.old sender n.lane
            ≡ Some n.place) }
        ensures got_back { IfSome result (λ n.
            self.new ≡ with_lane_from without_returned self.old sender n.lane) }
        ensures more { IfSome result (λ n.
            n.more ≡ is_some (lane_to_get_on (pipes_of self.new) sender)) }
        ensures number { self.new.number ≡ self.old.number }
        ensures role { self.new.role ≡ self.old.role }
        ensures unchanged { result ≡ None → self.new ≡ self.old }
    {
        self.get_next(sender)
    }
}
