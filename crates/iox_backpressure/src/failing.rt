//! Whether a send fails where a receiver is full.
ghost use Rattle.std.specs.Prelude.{◌≡◌};
ghost use Rattle.std.specs.Option.{option_map};
ghost use Rattle.iox_model.specs.Settings as settings;
ghost use Rattle.iox_backpressure.specs.Answers.{shown_by};
ghost use Rattle.iox_backpressure.specs.Failing.{fails_with};

use crate::backpressure::{Backpressure, BackpressureInfo};
use iox_model::backpressure::BackpressureAction;
use iox_types::backpressure::BackpressureStrategy;

/// Whether a send fails under this strategy where a receiver is full.
fn fails_by_strategy(strategy: BackpressureStrategy) -> bool
    ensures { result ≡ settings.fails_by_strategy strategy }
{
    match strategy {
        BackpressureStrategy::DiscardData => false,
        BackpressureStrategy::RetryUntilDelivered => true,
    }
}

/// Whether a send from that sender fails where that receiver is full: the sender's handler says so,
/// if it has one, and else its strategy.
pub fn fails<H: Backpressure>(
    handler: Option<H>,
    strategy: BackpressureStrategy,
    sender: u64,
    receiver: u64,
) -> bool
    ensures { result ≡ fails_with (option_map (shown_by H.action) handler) strategy
        sender receiver }
{
    let Some(handler) = handler else {
        return fails_by_strategy(strategy);
    };
    let info = BackpressureInfo { sender, receiver };
    match handler.act(&info) {
        BackpressureAction::FollowBackpressureStrategy => fails_by_strategy(strategy),
        BackpressureAction::DiscardData => false,
        BackpressureAction::DiscardDataAndFail => true,
    }
}
