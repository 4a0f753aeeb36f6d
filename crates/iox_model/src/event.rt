//! The moments of which calls are made, as far as the code of a wire can name them.
use crate::way::{RequestState, Way};

/// One change, or one look, by one node. Messages are named by their serials.
#[derive(Clone, Copy, Debug, PartialEq, Eq)]
pub enum Event {
    /// The message waits, as the last.
    Deliver { way: Way, serial: u64 },
    /// The first that waits is pushed out by its sender, since one too many waits.
    Evict { way: Way },
    /// The first that waits goes to the receiver.
    Take { way: Way, serial: u64 },
    /// The receiver has it no longer.
    GiveBack { way: Way, serial: u64 },
    /// It is no longer outstanding.
    GetBack { way: Way, serial: u64 },
    /// Nothing waits.
    SeesEmpty { way: Way },
    /// Something waits.
    SeesWaiting { way: Way },
    /// As many wait as there is room for.
    SeesFull { way: Way },
    /// There is room for one more.
    SeesRoom { way: Way },
    /// Nothing waits to be got back.
    SeesNoneBack { way: Way },
    /// The request state names the request.
    Open { way: Way, id: u64 },
    /// The request state is closed, if it named this request.
    Close { way: Way, id: u64 },
    /// The request state has a hint, if it named this request.
    Hint { way: Way, id: u64 },
    /// The request state is this.
    Look { way: Way, shown: RequestState },
}
