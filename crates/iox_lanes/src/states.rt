//! What looks and hints do to the state of a request.
ghost use Rattle.std.specs.Prelude.{◌≡◌};
ghost use Rattle.iox_model.specs.Messages.{hinted_for, names};
ghost use Rattle.iox_lanes.specs.Searches.{state_on};

use iox_model::way::RequestState;

/// The request state of that lane; closed where there is no such lane.
#[inline]
pub fn state_of(states: &[RequestState], lane: u64) -> RequestState
    ensures { result ≡ state_on states.now lane }
{
    let lane = lane as usize;
    if lane < states.len() {
        return states[lane];
    }
    RequestState::Closed
}

/// Whether the state names the request.
#[inline]
pub fn is_named(state: RequestState, request: u64) -> bool
    ensures { result ≡ names state request }
{
    match state {
        RequestState::Named { id, hinted: _ } => id == request,
        RequestState::Closed => false,
    }
}

/// The state after a hint to the request.
#[inline]
pub fn after_hint(state: RequestState, request: u64) -> RequestState
    ensures { result ≡ hinted_for state request }
{
    if is_named(state, request) {
        return RequestState::Named {
            id: request,
            hinted: true,
        };
    }
    state
}
