//! What a call of a game may be answered.
use super::chances::{Call, Kind, Owned};
use super::games::Game;
use super::play::Ask;
use super::told::Told;

/// The part of a response's word that is the word of its request, but for the lowest bit.
const OF_REQUEST: u64 = (1 << 32) - 1;

impl Game {
    /// Whether the node may lend nothing more, each limit being 1, and two for all requests of a
    /// server.
    fn lends_no_more(&self, of: Owned) -> bool {
        if of.kind == Kind::Client {
            return self.count(of.node, Kind::Request) > 0
                || self.count(of.node, Kind::WrittenRequest) > 0;
        }
        self.count(of.node, Kind::Response(of.number)) > 0
            || self.count(of.node, Kind::WrittenResponse(of.number)) > 0
            || self.lent(of.node) > 1
    }

    /// Whether a full queue may refuse a request, or a response.
    fn may_be_full(&self, kind: Kind) -> bool {
        match kind {
            Kind::Client | Kind::WrittenRequest => !self.service.request_overflow,
            _ => !self.service.response_overflow,
        }
    }

    /// Whether a send may be answered so.
    fn may_send(&self, of: Owned, told: Told) -> bool {
        let requests = matches!(of.kind, Kind::Client | Kind::WrittenRequest);
        if requests && self.count(of.node, Kind::Pending) > 0 {
            return matches!(told, Told::ExceedsMaxActiveRequests);
        }
        match told {
            Told::UnableToDeliver => self.may_be_full(of.kind),
            Told::Sent(count) => of.kind == Kind::WrittenRequest && count == 2,
            Told::Handle(number) => of.kind == Kind::Client && self.is_new(of.node, number),
            Told::Done => !requests,
            _ => false,
        }
    }

    /// Whether the receive may be answered so. A response came to its own request.
    fn may_receive(&self, call: Call, told: Told) -> bool {
        let of = call.of;
        match (of.kind, told) {
            (Kind::Server, Told::Handle(number)) => self.is_new(of.node, number),
            (_, Told::Handle(number)) => {
                self.is_new(of.node, number) && call.came & OF_REQUEST == of.word | 1
            }
            (_, Told::Nothing) => true,
            (Kind::Server, Told::ExceedsMaxBorrows) => self.count(of.node, Kind::Active) > 0,
            (_, Told::ExceedsMaxBorrows) => self.count(of.node, Kind::Received) > 0,
            _ => false,
        }
    }

    /// Whether the call may be answered so.
    pub(super) fn may(&self, call: Call, told: Told) -> bool {
        let of = call.of;
        match call.ask {
            Ask::Loan(_) if self.lends_no_more(of) => matches!(told, Told::ExceedsMaxLoans),
            Ask::Loan(_) => matches!(told, Told::Handle(number) if self.is_new(of.node, number)),
            Ask::CopyRequest(_, _) | Ask::CopyResponse(_, _) if self.lends_no_more(of) => {
                matches!(told, Told::ExceedsMaxLoans)
            }
            Ask::CopyRequest(_, _) | Ask::CopyResponse(_, _) | Ask::Send(_) => {
                self.may_send(of, told)
            }
            Ask::Receive(_) => self.may_receive(call, told),
            Ask::Read(_) => matches!(told, Told::Word(word) if word == of.word),
            Ask::Release(_) | Ask::SetHint(_) => matches!(told, Told::Done),
            Ask::WriteRequest(_, _) | Ask::WriteResponse(_, _) => matches!(told, Told::Done),
            _ => matches!(told, Told::Answer(_)),
        }
    }
}
