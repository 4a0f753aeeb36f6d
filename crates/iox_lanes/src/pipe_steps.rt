//! Steps that do two things to one pipe.
ghost use Rattle.std.specs.Prelude.{None, false};
ghost use Rattle.iox_lanes.specs.PipeSteps.{given_back_and_closed, has_on_first, opened_and_pushed, pushed_out_of_first};

use crate::pipe::Pipe;
use crate::steps::PipeStep;

/// The receiver gives the message in this place of the first lane back, if it has it. The request
/// of that number is closed whose responses go on that lane, if it is the open one.
#[derive(Clone, Copy, Drop)]
pub struct GiveBackAndClose {
    /// The place of the message in its sender's pool.
    pub place: u64,
    /// The lane of the request's responses.
    pub lane: usize,
    /// The number of the request.
    pub id: u64,
}

impl PipeStep for GiveBackAndClose {
    type Answer = bool;

    ghost changed = { λ s p. given_back_and_closed p s.place s.lane s.id };

    ghost told = { λ s p. has_on_first p s.place };

    ghost none = { λ s. false };

    #[inline]
    fn nothing(&self) -> bool {
        false
    }

    #[inline]
    fn step(&self, pipe: &mut Pipe) -> bool {
        let had = pipe.release(0, self.place);
        pipe.close_request(self.lane, self.id);
        had
    }
}

/// The request of that number is open, and its responses go on that lane. Its message is put last
/// in line on the first lane. Where as many wait there as may, the oldest is pushed out first.
#[derive(Clone, Copy, Drop)]
pub struct OpenAndPush {
    /// The place of the message in its sender's pool.
    pub place: u64,
    /// The lane of the request's responses.
    pub lane: usize,
    /// The number of the request.
    pub id: u64,
}

impl PipeStep for OpenAndPush {
    type Answer = Option<u64>;

    ghost changed = { λ s p. opened_and_pushed p s.place s.lane s.id };

    ghost told = { λ s p. pushed_out_of_first p };

    ghost none = { λ s. None };

    #[inline]
    fn nothing(&self) -> Option<u64> {
        None
    }

    #[inline(always)]
    fn step(&self, pipe: &mut Pipe) -> Option<u64> {
        pipe.open_request(self.lane, self.id);
        pipe.push(0, self.place)
    }
}
