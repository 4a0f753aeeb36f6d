//! The pipe of a rank, where it is known from whom it is.
ghost use Rattle.std.specs.Prelude.{◌≡◌, ◌==◌, false, slice_get, true};
ghost use Rattle.std.specs.Option.{option_map_or};
ghost use Rattle.iox_lanes.specs.Incomings.{IsFirstAt, on_pipe_by, with_pipe_by};

use crate::incoming::Incoming;
use crate::steps::PipeStep;

impl Incoming {
    /// Whether the pipe of that rank is there, and from this sender.
    #[inline(always)]
    pub fn is_from(&self, rank: usize, sender: u64) -> bool
        ensures { result
            ≡ option_map_or (λ p. p.sender == sender) (slice_get self.now.pipes rank) false }
    {
        if rank < self.pipes.len() {
            return self.pipes[rank].sender() == sender;
        }
        false
    }

    /// Takes a step on the pipe of that rank, which is there, and from this sender.
    #[inline(always)]
    pub fn on_known_pipe<S: PipeStep>(&mut self, _sender: u64, rank: usize, step: &S) -> S::Answer
        requires once { IsFirstAt self.old.pipes rank }
        requires there { option_map_or (λ p. p.sender == _sender)
            (slice_get self.old.pipes rank) false ≡ true }
        ensures told { result ≡ on_pipe_by (S.told step.now) (S.none step.now) self.old _sender }
        ensures changed { self.new ≡ with_pipe_by (S.changed step.now) self.old _sender }
    {
        let pipe = &mut self.pipes[rank];
        step.step(pipe)
    }
}
