//! What is done to a pipe, to one of its lanes, or to one of its request states.
ghost use Rattle.std.specs.Prelude.{◌≡◌};
ghost use Rattle.iox_model.specs.declared.way.RequestState.{RequestState};
ghost use Rattle.iox_lanes.specs.Lanes.{LaneState};
ghost use Rattle.iox_lanes.specs.Pipes.{PipeState, on_lane, with_lane, with_state};

use crate::pipe::Pipe;

/// A step of a sender or a receiver on one lane, and what it is told.
pub trait LaneStep {
    /// What it is told.
    type Answer: Drop;

    ghost changed: { Self → LaneState → LaneState };

    ghost told: { Self → LaneState → Self.Answer };
    // what is told where there is no such lane
    ghost none: { Self → Self.Answer };

    /// What is told where there is no such lane.
    fn nothing(&self) -> Self::Answer
        ensures { result ≡ none self.now };

    /// Takes the step on that lane of the pipe.
    fn step(&self, pipe: &mut Pipe, lane: usize) -> Self::Answer
        ensures told { result ≡ on_lane (told self.now) (none self.now) pipe.old lane }
        ensures changed { pipe.new ≡ with_lane (changed self.now) pipe.old lane };
}

/// A step of a client or a server on one request state.
pub trait StateStep {
    ghost changed: { Self → RequestState → RequestState };

    /// Takes the step on the request state of that lane.
    fn step(&self, pipe: &mut Pipe, lane: usize)
        ensures { pipe.new ≡ with_state (changed self.now) pipe.old lane };
}

/// A step of a sender or a receiver on one pipe, and what it is told.
pub trait PipeStep {
    /// What it is told.
    type Answer: Drop;

    ghost changed: { Self → PipeState → PipeState };

    ghost told: { Self → PipeState → Self.Answer };
    // what is told where there is no such pipe
    ghost none: { Self → Self.Answer };

    /// What is told where there is no such pipe.
    fn nothing(&self) -> Self::Answer
        ensures { result ≡ none self.now };

    /// Takes the step on the pipe.
    fn step(&self, pipe: &mut Pipe) -> Self::Answer
        ensures told { result ≡ told self.now pipe.old }
        ensures changed { pipe.new ≡ changed self.now pipe.old };
}
