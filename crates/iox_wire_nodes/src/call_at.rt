//! Which call of a node is under way, and what it answers as that is over.
use iox_wire_begins::{
    CopyReply, LendReply, ReceiveReply, RequestReply, RespondReply, ResponseCopyReply, SeatReply,
};

/// Which call of a node began last. It is under way until it answers.
#[derive(Clone, Copy)]
pub enum CallAt {
    /// One that the node's seat keeps: a release, a read or write, a question, a hint, or a look.
    Seats,
    /// A receive, of a server or of a pending response.
    Receives,
    /// A loan, of a request or of a response.
    Lends,
    /// The send of a loaned request.
    SendsRequest,
    /// The send of a loaned response.
    SendsResponse,
    /// Loan, write and send of a request in one.
    CopiesRequest,
    /// Loan, write and send of a response in one.
    CopiesResponse,
}

/// What a call answers.
#[derive(Clone, Copy)]
pub enum NodeReply {
    /// Of a call that the node's seat keeps.
    OfSeat(SeatReply),
    /// Of a receive.
    OfReceive(ReceiveReply),
    /// Of a loan.
    OfLoan(LendReply),
    /// Of the send of a loaned request.
    OfRequest(RequestReply),
    /// Of the send of a loaned response.
    OfResponse(RespondReply),
    /// Of loan, write and send of a request in one.
    OfRequestCopy(CopyReply),
    /// Of loan, write and send of a response in one.
    OfResponseCopy(ResponseCopyReply),
}
