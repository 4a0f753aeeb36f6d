//! What happens to a queue of values, and what its calls answer.
ghost use Rattle.std.specs.Prelude.{◌≡◌};
ghost use Rattle.iox_cell_queues.specs.CellEventLists.{told as told_of};

/// What an access does to the queue, or sees there.
#[derive(Clone, Copy, Debug, PartialEq, Eq)]
pub enum CellEvent<T> {
    /// neither
    Quiet,
    /// a value joins those that wait
    Publish(T),
    /// the oldest value leaves
    HandOut(T),
    /// no value waits
    SeesEmpty,
    /// a value waits
    SeesWaiting,
    /// as many values wait as may
    SeesFull,
    /// one more value may wait
    SeesRoom,
    /// the write position is the last one
    SeesEnd,
}

/// What a call on a queue answers.
#[derive(Clone, Copy, Debug, PartialEq, Eq)]
pub enum CellReply<T> {
    /// of a push: was there room?
    Pushed(bool),
    /// of a look at fullness: was it full?
    Full(bool),
    /// of a pop: the oldest value, if one was there
    Popped(Option<T>),
    /// of a look at emptiness: was it empty?
    Empty(bool),
}

/// The event, if it is one.
#[inline]
pub(crate) fn told<T: Copy>(event: CellEvent<T>) -> Option<CellEvent<T>>
    ensures { result ≡ told_of event }
{
    match event {
        CellEvent::Quiet => None,
        event => Some(event),
    }
}
