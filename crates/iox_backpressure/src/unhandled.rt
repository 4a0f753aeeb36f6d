//! The handler of a hub whose ports have none.
ghost use Rattle.iox_backpressure.specs.Answers.{following};

use crate::backpressure::{Backpressure, BackpressureInfo};
use iox_model::backpressure::BackpressureAction;

/// It follows the port's strategy, so a port that has it does what a port without any does.
impl Backpressure for () {
    ghost action = { following };

    fn act(&self, _info: &BackpressureInfo) -> BackpressureAction {
        BackpressureAction::FollowBackpressureStrategy
    }
}
