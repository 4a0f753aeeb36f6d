//! The ways that messages go, and the state of a request.

/// From one port to another, on one lane.
#[derive(Clone, Copy, Debug, PartialEq, Eq)]
pub struct Way {
    /// The number of the port that sends.
    pub sender: u64,
    /// The number of the port that receives.
    pub receiver: u64,
    /// The lane: 0 for requests, and for responses that of their request, which is below the
    /// client's pool.
    pub lane: u64,
}

/// What a client and a server share about the request on a lane.
#[derive(Clone, Copy, Debug, PartialEq, Eq)]
pub enum RequestState {
    /// No request is open.
    Closed,
    /// It names the open request; `hinted` says whether its client lost interest.
    Named { id: u64, hinted: bool },
}
