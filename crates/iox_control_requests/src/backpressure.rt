//! What a full receiver means for a send.
ghost use Rattle.std.specs.Prelude.{◌≡◌, Bool};
ghost use Rattle.iox_model.specs.Settings.{fails_by_strategy};
ghost use Rattle.iox_model.specs.declared.way.Way.{Way};

use iox_model::way::Way;
use iox_types::backpressure::BackpressureStrategy;

/// Whether a send fails where the receiver of a way is full.
pub trait WhenFull {
    ghost fails: { Self → Way → Bool };

    /// Whether the receiver of this way, which is full, makes the send fail.
    fn fails(&self, way: Way) -> bool
        ensures { result ≡ fails self.now way };
}

/// No handler is set: only the strategy decides.
#[derive(Clone, Copy, Drop)]
pub struct ByStrategy {
    /// What the sender does at each full receiver.
    pub strategy: BackpressureStrategy,
}

impl WhenFull for ByStrategy {
    ghost fails = { λ s way. fails_by_strategy s.strategy };

    fn fails(&self, way: Way) -> bool {
        match self.strategy {
            BackpressureStrategy::DiscardData => false,
            BackpressureStrategy::RetryUntilDelivered => true,
        }
    }
}
