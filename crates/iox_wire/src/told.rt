//! Calls and replies as a wire tells them, by the machine's names.
ghost use Rattle.std.specs.Prelude.{◌≡◌};
ghost use Rattle.iox_wire_weaves.specs.Loans as loans;
ghost use Rattle.iox_wire_weaves.specs.Nodes.{reply_in};
ghost use Rattle.iox_wire_weaves.specs.Receipts as receipts;
ghost use Rattle.iox_wire_weaves.specs.RequestDispatches as requests;
ghost use Rattle.iox_wire_weaves.specs.Dispatches as responses;
ghost use Rattle.iox_wire_weaves.specs.Seats.{reply_with};
ghost use Rattle.iox_wire_copies.specs.CopyCalls as request_copies;
ghost use Rattle.iox_wire_copies.specs.ResponseCopies as response_copies;
ghost use Rattle.iox_wire.specs.Replies.{told_call, told_reply, words_call};

use iox_wire_locals::CallRefusal;
use iox_wire_weaves::{
    CopyReply, HandleCall, LendReply, NodeCall, NodeReply, ReceiveReply, RequestReply,
    RespondReply, ResponseCopyReply, SeatReply,
};

/// A call of the port or the handle of that number. Whose payload its words are the number tells.
#[derive(Clone, Copy, Debug)]
pub enum ToldCall<'a> {
    /// Of a client or an active request: a message of so many elements. Its payload may be any
    /// words.
    Loan { number: u64, elements: u64 },
    /// Of a loan: these words are its payload now.
    Write { number: u64, words: &'a [u64] },
    /// Of a loan: a request goes to the servers, a response to the client that asked.
    Send { number: u64 },
    /// Loan, write and send in one.
    SendCopy { number: u64, words: &'a [u64] },
    /// Of a server or a pending response.
    Receive { number: u64 },
    /// Of a server: whether a request waits, also one that a receive would skip.
    HasRequests { number: u64 },
    /// Of a handle: what brings no payload.
    Handle { number: u64, call: HandleCall },
}

/// What a call answered.
#[derive(Clone, Copy)]
pub enum ToldReply<'a> {
    /// The handle of that number.
    Handle(u64),
    /// A loaned request was sent to so many servers.
    Sent(u64),
    /// It was done.
    Done,
    /// Nothing was there to receive.
    Nothing,
    /// The answer to a question.
    Answer(bool),
    /// What a read loaded.
    Words(&'a [u64]),
    /// It was refused, for this cause.
    Refused(CallRefusal),
}

/// The call, as it is told.
pub(crate) fn call_told<'a>(call: NodeCall<'a>) -> ToldCall<'a>
    ensures { told_call result ≡ words_call call.entry }
{
    match call {
        NodeCall::Loan { number, elements } => ToldCall::Loan { number, elements },
        NodeCall::Write { number, payload } => {
            let words = payload.words;
            ToldCall::Write { number, words }
        }
        NodeCall::Send { number } => ToldCall::Send { number },
        NodeCall::SendCopy { number, payload } => {
            let words = payload.words;
            ToldCall::SendCopy { number, words }
        }
        NodeCall::Receive { number } => ToldCall::Receive { number },
        NodeCall::HasRequests { number } => ToldCall::HasRequests { number },
        NodeCall::Handle { number, call } => ToldCall::Handle { number, call },
    }
}

/// A reply of what the seat keeps.
fn of_seat<'a>(reply: SeatReply, words: &'a [u64]) -> ToldReply<'a>
    ensures { told_reply result ≡ reply_with words.now reply }
{
    match reply {
        SeatReply::Done => ToldReply::Done,
        SeatReply::Answer(told) => ToldReply::Answer(told),
        SeatReply::Words => ToldReply::Words(words),
        SeatReply::Refused(refusal) => ToldReply::Refused(refusal),
    }
}

/// Of a receive.
fn of_receive<'a>(reply: ReceiveReply) -> ToldReply<'a>
    ensures { told_reply result ≡ receipts.reply_in reply }
{
    match reply {
        ReceiveReply::Nothing => ToldReply::Nothing,
        ReceiveReply::ExceedsMaxBorrows => ToldReply::Refused(CallRefusal::ExceedsMaxBorrows),
        ReceiveReply::Handle(number) => ToldReply::Handle(number),
    }
}

/// Of a loan.
fn of_loan<'a>(reply: LendReply) -> ToldReply<'a>
    ensures { told_reply result ≡ loans.reply_in reply }
{
    match reply {
        LendReply::Handle(number) => ToldReply::Handle(number),
        LendReply::Refused(refusal) => ToldReply::Refused(refusal),
    }
}

/// Of the send of a request.
fn of_request<'a>(reply: RequestReply) -> ToldReply<'a>
    ensures { told_reply result ≡ requests.reply_in reply }
{
    match reply {
        RequestReply::Sent(count) => ToldReply::Sent(count),
        RequestReply::Handle(number) => ToldReply::Handle(number),
        RequestReply::ExceedsMaxActiveRequests => {
            ToldReply::Refused(CallRefusal::ExceedsMaxActiveRequests)
        }
        RequestReply::UnableToDeliver => ToldReply::Refused(CallRefusal::UnableToDeliver),
    }
}

/// Of the send of a response.
fn of_response<'a>(reply: RespondReply) -> ToldReply<'a>
    ensures { told_reply result ≡ responses.reply_in reply }
{
    match reply {
        RespondReply::Done => ToldReply::Done,
        RespondReply::UnableToDeliver => ToldReply::Refused(CallRefusal::UnableToDeliver),
    }
}

/// Of the copy of a request.
fn of_request_copy<'a>(reply: CopyReply) -> ToldReply<'a>
    ensures { told_reply result ≡ request_copies.reply_in reply }
{
    match reply {
        CopyReply::Handle(number) => ToldReply::Handle(number),
        CopyReply::Refused(refusal) => ToldReply::Refused(refusal),
    }
}

/// Of the copy of a response.
fn of_response_copy<'a>(reply: ResponseCopyReply) -> ToldReply<'a>
    ensures { told_reply result ≡ response_copies.reply_in reply }
{
    match reply {
        ResponseCopyReply::Done => ToldReply::Done,
        ResponseCopyReply::Refused(refusal) => ToldReply::Refused(refusal),
    }
}

/// The reply, as it is told, with the words that a read loaded.
pub(crate) fn reply_told<'a>(reply: NodeReply, words: &'a [u64]) -> ToldReply<'a>
    ensures { told_reply result ≡ reply_in words.now reply }
{
    match reply {
        NodeReply::OfSeat(reply) => of_seat(reply, words),
        NodeReply::OfReceive(reply) => of_receive(reply),
        NodeReply::OfLoan(reply) => of_loan(reply),
        NodeReply::OfRequest(reply) => of_request(reply),
        NodeReply::OfResponse(reply) => of_response(reply),
        NodeReply::OfRequestCopy(reply) => of_request_copy(reply),
        NodeReply::OfResponseCopy(reply) => of_response_copy(reply),
    }
}
