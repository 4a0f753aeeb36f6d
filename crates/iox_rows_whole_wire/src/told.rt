//! What calls answer.
use iox_wire::{
    CopyReply, LendReply, NodeReply, ReceiveReply, RequestReply, RespondReply, ResponseCopyReply,
    SeatReply, ToldReply, Wire,
};
use iox_wire_locals::CallRefusal;

/// What a call answered.
#[derive(Clone, Copy)]
pub(super) enum Told {
    Done,
    Handle(u64),
    Sent(u64),
    Nothing,
    Answer(bool),
    /// No word was read.
    NoWord,
    /// One word was read.
    Word(u64),
    /// So many were read.
    Three(u64, u64, u64),
    Four(u64, u64, u64, u64),
    OtherWords,
    WrongLength,
    ExceedsMaxLoanSize,
    ExceedsMaxLoans,
    OutOfMemory,
    ExceedsMaxActiveRequests,
    ExceedsMaxBorrows,
    UnableToDeliver,
    OtherRefusal,
}

/// The name of an answer, and its numbers. Two answers are one if these are.
pub(super) type Shown = (&'static str, [u64; 4]);

/// An answer without numbers.
fn named(name: &'static str) -> Shown {
    (name, [0; 4])
}

/// The name of a refusal.
fn refusal_name(told: Told) -> &'static str {
    match told {
        Told::WrongLength => "WrongLength",
        Told::ExceedsMaxLoanSize => "ExceedsMaxLoanSize",
        Told::ExceedsMaxLoans => "ExceedsMaxLoans",
        Told::OutOfMemory => "OutOfMemory",
        Told::ExceedsMaxActiveRequests => "ExceedsMaxActiveRequests",
        Told::ExceedsMaxBorrows => "ExceedsMaxBorrows",
        Told::UnableToDeliver => "UnableToDeliver",
        _ => "OtherRefusal",
    }
}

/// The name and the numbers of that answer.
pub(super) fn shown(told: Told) -> Shown {
    match told {
        Told::Done => named("Done"),
        Told::Handle(number) => ("Handle", [number, 0, 0, 0]),
        Told::Sent(count) => ("Sent", [count, 0, 0, 0]),
        Told::Nothing => named("Nothing"),
        Told::Answer(true) => named("Yes"),
        Told::Answer(false) => named("No"),
        Told::NoWord => named("NoWord"),
        Told::Word(word) => ("Word", [word, 0, 0, 0]),
        Told::Three(a, b, c) => ("Three", [a, b, c, 0]),
        Told::Four(a, b, c, d) => ("Four", [a, b, c, d]),
        Told::OtherWords => named("OtherWords"),
        refused => named(refusal_name(refused)),
    }
}

/// What a call that is refused answers.
fn refusal(refusal: CallRefusal) -> Told {
    match refusal {
        CallRefusal::WrongLength => Told::WrongLength,
        CallRefusal::ExceedsMaxLoanSize => Told::ExceedsMaxLoanSize,
        CallRefusal::ExceedsMaxLoans => Told::ExceedsMaxLoans,
        CallRefusal::OutOfMemory => Told::OutOfMemory,
        CallRefusal::ExceedsMaxActiveRequests => Told::ExceedsMaxActiveRequests,
        CallRefusal::ExceedsMaxBorrows => Told::ExceedsMaxBorrows,
        CallRefusal::UnableToDeliver => Told::UnableToDeliver,
        CallRefusal::UnknownNumber | CallRefusal::WrongKind => Told::OtherRefusal,
    }
}

/// What a loan answers.
fn lent(reply: LendReply) -> Told {
    match reply {
        LendReply::Handle(number) => Told::Handle(number),
        LendReply::Refused(refused) => refusal(refused),
    }
}

/// What the send of a request answers.
fn requested(reply: RequestReply) -> Told {
    match reply {
        RequestReply::Sent(count) => Told::Sent(count),
        RequestReply::Handle(number) => Told::Handle(number),
        RequestReply::ExceedsMaxActiveRequests => Told::ExceedsMaxActiveRequests,
        RequestReply::UnableToDeliver => Told::UnableToDeliver,
    }
}

/// What the send of a response answers.
fn responded(reply: RespondReply) -> Told {
    match reply {
        RespondReply::Done => Told::Done,
        RespondReply::UnableToDeliver => Told::UnableToDeliver,
    }
}

/// What was read last.
pub(super) fn word_read(words: Option<&[u64]>) -> Told {
    match words {
        Some([]) => Told::NoWord,
        Some([word]) => Told::Word(*word),
        Some([a, b, c]) => Told::Three(*a, *b, *c),
        Some([a, b, c, d]) => Told::Four(*a, *b, *c, *d),
        _ => Told::OtherWords,
    }
}

/// What a call that was asked of one port or handle answers.
fn answered(reply: SeatReply, words: Option<&[u64]>) -> Told {
    match reply {
        SeatReply::Done => Told::Done,
        SeatReply::Answer(answer) => Told::Answer(answer),
        SeatReply::Words => word_read(words),
        SeatReply::Refused(refused) => refusal(refused),
    }
}

/// What that reply says, where a read has these words.
fn what_is_told(reply: NodeReply, words: Option<&[u64]>) -> Told {
    match reply {
        NodeReply::OfSeat(reply) => answered(reply, words),
        NodeReply::OfReceive(ReceiveReply::Nothing) => Told::Nothing,
        NodeReply::OfReceive(ReceiveReply::ExceedsMaxBorrows) => Told::ExceedsMaxBorrows,
        NodeReply::OfReceive(ReceiveReply::Handle(number)) => Told::Handle(number),
        NodeReply::OfLoan(reply) => lent(reply),
        NodeReply::OfRequest(reply) => requested(reply),
        NodeReply::OfResponse(reply) => responded(reply),
        NodeReply::OfRequestCopy(CopyReply::Handle(number)) => Told::Handle(number),
        NodeReply::OfRequestCopy(CopyReply::Refused(refused)) => refusal(refused),
        NodeReply::OfResponseCopy(ResponseCopyReply::Done) => Told::Done,
        NodeReply::OfResponseCopy(ResponseCopyReply::Refused(refused)) => refusal(refused),
    }
}

/// What that reply of a finished call says.
pub(super) fn replied(reply: ToldReply<'_>) -> Told {
    match reply {
        ToldReply::Handle(number) => Told::Handle(number),
        ToldReply::Sent(count) => Told::Sent(count),
        ToldReply::Done => Told::Done,
        ToldReply::Nothing => Told::Nothing,
        ToldReply::Answer(answer) => Told::Answer(answer),
        ToldReply::Words(words) => word_read(Some(words)),
        ToldReply::Refused(refused) => refusal(refused),
    }
}

/// What that reply of the node says.
pub(super) fn answer(wire: &Wire, node: u64, reply: NodeReply) -> Told {
    what_is_told(reply, wire.words_read(node))
}
