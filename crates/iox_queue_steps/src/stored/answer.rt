//! What a step says.
ghost use Rattle.std.specs.Prelude.{◌≡◌};
ghost use Rattle.iox_queue_steps.specs.Stored.{seen_says};

/// What a step of a stored party says. It fits two registers.
#[derive(Clone, Copy, Debug, PartialEq, Eq)]
pub enum StepAnswer {
    /// the call continues
    Going,
    /// it is done, and gives no value
    Done,
    /// it is done, and gives this value
    Gives(u64),
    /// it is a push that is refused, and gives its own value back
    Refuses(u64),
    /// it is a look, is done, and answers yes
    Yes,
    /// it is a look, is done, and answers no
    No,
}

/// What the last step of a look says.
#[inline]
pub(crate) fn look_answer(seen: bool) -> StepAnswer
    ensures { result ≡ seen_says seen }
{
    if seen {
        StepAnswer::Yes
    } else {
        StepAnswer::No
    }
}
