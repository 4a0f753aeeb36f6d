//! What the words of a handler say.
ghost use Rattle.std.specs.Prelude.{◌≡◌};
ghost use Rattle.iox_backpressure.specs.Answers.{action_in, shown_by};

use crate::backpressure::Backpressure;

/// The words by which a state has a handler say what it answers, for each two ports. The function
/// has nothing to do: it is there for its contract.
pub fn words_tell_answers<H: Backpressure>(handler: &H, sender: u64, receiver: u64)
    ensures { action_in (shown_by H.action handler.now) sender receiver
        ≡ H.action handler.now sender receiver }
{}
