//! What is asked of a loan, and what a loan comes to.

use iox_hub_ports::info::PortInfo;

/// What is asked of a loan.
#[derive(Clone, Copy)]
pub struct Asked {
    /// How many elements its message is to have.
    pub elements: u64,
    /// Whether it is to be handed out unfilled.
    pub uninit: bool,
    /// Whether a message of its shape may have so many elements.
    pub is_count: bool,
    /// Whether a message of so many elements can be addressed.
    pub has_layout: bool,
}

/// A port that lends, and what its loan is for: the client, lane and id of a request. The loan of a
/// client takes another lane.
#[derive(Clone, Copy)]
pub struct Lending {
    /// The port that lends.
    pub port: PortInfo,
    /// The number of the client of the request: that port, or the one that asked.
    pub client: u64,
    /// The lane of the request; 0 for the loan of a client, which takes a lane of its own.
    pub lane: u64,
    /// The id of the request.
    pub request: u64,
}

/// A loan that was made.
#[derive(Clone, Copy, Debug, PartialEq, Eq)]
pub struct Loaned {
    /// The number of its handle.
    pub number: u64,
    /// The place of the pool of its message among the pools.
    pub pool: usize,
    /// The slot of the message in that pool.
    pub slot: u64,
}

/// Why no loan is made, but for the pool. Memory is for those who keep the words of messages: the
/// tables take none.
#[derive(Clone, Copy, Debug, PartialEq, Eq)]
pub enum LoanRefusal {
    /// As many calls as may be were counted.
    CallsSpent,
    /// No message of the shape has so many elements.
    WrongLength,
    /// No message of the port has so many elements.
    ExceedsMaxLoanSize,
    /// The port has as many loans as it may.
    ExceedsMaxLoans,
    /// There is no memory for a message of so many elements.
    WantOfMemory,
}

/// What a loan came to.
#[derive(Clone, Copy, Debug, PartialEq, Eq)]
pub enum Lent {
    /// It is made.
    Handle(Loaned),
    /// It is refused.
    Refused(LoanRefusal),
    /// Somebody has each slot of the port's pool.
    OutOfMemory,
}

/// Where the words of a message lie: the place of a pool, and the slot there.
#[derive(Clone, Copy, Debug, PartialEq, Eq)]
pub struct Place {
    /// The place of the pool among the pools.
    pub pool: usize,
    /// The slot of the message in that pool.
    pub slot: u64,
}

/// What a write came to.
#[derive(Clone, Copy, Debug, PartialEq, Eq)]
pub enum Written {
    /// The loan is filled, and its words lie there.
    Done(Place),
    /// The payload is not of as many whole elements as the loan.
    WrongLength,
}
