//! What senders and receivers do to one pipe.
ghost use Rattle.std.specs.Prelude.{None, false};
ghost use Rattle.iox_model.specs.declared.way.RequestState.TheVariants.{Closed};
ghost use Rattle.iox_tables.specs.Lanes.{is_taken, released};
ghost use Rattle.iox_tables.specs.Pipes.{closed, on_lane, with_lane};
ghost use Rattle.iox_tables.specs.PipeSteps.{pushed, pushed_out};
ghost use Rattle.iox_tables.specs.Searches.{state_on};

use iox_model::way::RequestState;
use iox_tables::pipe::Pipe;
use iox_tables::steps::PipeStep;

/// The receiver gives the message in this place of a lane back, if it has it.
#[derive(Clone, Copy, Drop)]
pub struct GiveBack {
    /// The place of the message in its sender's pool.
    pub place: u64,
    /// The lane on which it came.
    pub lane: usize,
}

impl PipeStep for GiveBack {
    type Answer = bool;

    ghost changed = { λ s p. with_lane (λ l. released l s.place) p s.lane };

    ghost told = { λ s p. on_lane (λ l. is_taken l s.place) false p s.lane };

    ghost none = { λ s. false };

    #[inline]
    fn nothing(&self) -> bool {
        false
    }

    #[inline]
    fn step(&self, pipe: &mut Pipe) -> bool {
        pipe.release(self.lane, self.place)
    }
}

/// The message in this place is put last in line on a lane. Where as many wait as may, the oldest
/// is pushed out first.
#[derive(Clone, Copy, Drop)]
pub struct PushOn {
    /// The place of the message in its sender's pool.
    pub place: u64,
    /// The lane on which it goes.
    pub lane: usize,
}

impl PipeStep for PushOn {
    type Answer = Option<u64>;

    ghost changed = { λ s p. with_lane (λ l. pushed l s.place) p s.lane };

    ghost told = { λ s p. on_lane pushed_out None p s.lane };

    ghost none = { λ s. None };

    #[inline]
    fn nothing(&self) -> Option<u64> {
        None
    }

    #[inline]
    fn step(&self, pipe: &mut Pipe) -> Option<u64> {
        pipe.push(self.lane, self.place)
    }
}

/// The request of that number is closed whose responses go on that lane, if it is the open one. It
/// tells which state it had.
#[derive(Clone, Copy, Drop)]
pub struct CloseOn {
    /// The lane of the request's responses.
    pub lane: u64,
    /// The number of the request.
    pub id: u64,
}

impl PipeStep for CloseOn {
    type Answer = RequestState;

    ghost changed = { λ s p. closed p s.lane s.id };

    ghost told = { λ s p. state_on p.states s.lane };

    ghost none = { λ s. Closed };

    #[inline]
    fn nothing(&self) -> RequestState {
        RequestState::Closed
    }

    #[inline]
    fn step(&self, pipe: &mut Pipe) -> RequestState {
        let state = pipe.state(self.lane);
        pipe.close_request(self.lane as usize, self.id);
        state
    }
}

/// Which state the request has whose responses go on that lane.
#[derive(Clone, Copy, Drop)]
pub struct AskState {
    /// The lane of the request's responses.
    pub lane: u64,
}

impl PipeStep for AskState {
    type Answer = RequestState;

    ghost changed = { λ s p. p };

    ghost told = { λ s p. state_on p.states s.lane };

    ghost none = { λ s. Closed };

    #[inline]
    fn nothing(&self) -> RequestState {
        RequestState::Closed
    }

    #[inline]
    fn step(&self, pipe: &mut Pipe) -> RequestState {
        pipe.state(self.lane)
    }
}
