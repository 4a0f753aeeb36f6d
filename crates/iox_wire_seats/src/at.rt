//! Where a node is in its call, and what it answers as that is over.
use iox_wire_locals::CallRefusal;

/// Where a node is in its call, without what belongs to it.
#[derive(Clone, Copy)]
pub enum At {
    /// No call is under way.
    Idle,
    /// The call ends: the entry is dropped, which was received.
    Drops,
    /// The call ends: the entry is dropped, whose message is the port's own.
    DropsOwn,
    /// The call ends: the loan is filled.
    Fills,
    /// The call ends: it is refused.
    Refuses,
    /// The call ends: it is done.
    TellsDone,
    /// The call ends: a question is answered.
    TellsAnswer,
    /// The call ends: the words that were loaded are told.
    TellsWords,
    /// The release of what was received pushes its slot back.
    ReleaseReturns,
    /// The release of a request looks at its request state.
    ReleaseLooks,
    /// The release of a request closes its request state.
    ReleaseExchanges,
    /// The release of a pending response closes a request state.
    ReleaseCloses,
    /// A word of a message is loaded.
    Reads,
    /// A word of a payload is stored.
    Writes,
    /// A request state is loaded, to see whether it names the request.
    Checks,
    /// A request state is loaded, to see whether it wants the hint.
    Hints,
    /// The hint is put into a request state.
    HintExchanges,
    /// A queue is looked at, to see whether a message waits.
    Seeks,
}

/// What a call answers that is over.
#[derive(Clone, Copy)]
pub enum SeatReply {
    /// It is done.
    Done,
    /// The answer to a question.
    Answer(bool),
    /// The words that were loaded, as `StoredSeat::words` tells them.
    Words,
    /// It is refused, for this cause.
    Refused(CallRefusal),
}
