//! What a handler is, and what it is asked.
ghost use Rattle.std.specs.Prelude.{◌≡◌, ℕ};
ghost use Rattle.iox_model.specs.declared.backpressure.BackpressureAction.{BackpressureAction};

use iox_model::backpressure::BackpressureAction;
use iox_words::Words;

/// Whose send met whose full queue: the numbers of the two ports.
#[derive(Clone, Copy, Debug, PartialEq, Eq)]
pub struct BackpressureInfo {
    /// The number of the port that sends.
    pub sender: u64,
    /// The number of the port whose queue is full.
    pub receiver: u64,
}

/// A handler: it says what a port does where a receiver is full. A port that has none follows its
/// strategy.
///
/// What it answers follows only from its value and from the two ports. So it answers the same
/// however often it is asked, and a state shows it by its answers.
pub trait Backpressure: Words {
    /// What it answers, for this sender and this receiver.
    ghost action: { Self → ℕ → ℕ → BackpressureAction };

    /// What becomes of a message for this receiver, which is full.
    fn act(&self, info: &BackpressureInfo) -> BackpressureAction
        ensures { result ≡ action self.now info.now.sender info.now.receiver };
}
