//! A step that closes a request where it is the open one. Where it is not, nothing is written.
ghost use Rattle.std.specs.Prelude.{◌≡◌};
ghost use Rattle.iox_model.specs.declared.way.RequestState.TheVariants.{Closed};
ghost use Rattle.iox_lanes.specs.Pipes.{closed};
ghost use Rattle.iox_lanes.specs.Searches.{state_on};

use iox_lanes::pipe::Pipe;
use iox_lanes::steps::PipeStep;
use iox_lanes::wanted::Label;
use iox_model::way::RequestState;

/// Closes the request of that label, if it is the open one.
#[inline(always)]
fn close_open(pipe: &mut Pipe, label: Label)
    ensures { pipe.new ≡ closed pipe.old label.lane label.request }
{
    match pipe.state(label.lane) {
        RequestState::Named { id, hinted: _ } => {
            if id == label.request {
                pipe.close_request(label.lane as usize, label.request);
            }
        }
        RequestState::Closed => {}
    }
}

/// The request of that label is closed, if it is the open one. It tells which state it had.
#[derive(Clone, Copy, Drop)]
pub(crate) struct CloseOpen {
    pub label: Label,
}

impl PipeStep for CloseOpen {
    type Answer = RequestState;

    ghost changed = { λ s p. closed p s.label.lane s.label.request };

    ghost told = { λ s p. state_on p.states s.label.lane };

    ghost none = { λ s. Closed };

    #[inline]
    fn nothing(&self) -> RequestState {
        RequestState::Closed
    }

    #[inline]
    fn step(&self, pipe: &mut Pipe) -> RequestState {
        let state = pipe.state(self.label.lane);
        close_open(pipe, self.label);
        state
    }
}
