//! What nodes are asked by chance on a wire of four ports, where each limit is 1.
use super::play::Ask;

/// Numbers by chance, the same ones from each seed.
#[derive(Clone, Copy)]
pub(super) struct Chance {
    state: u64,
}

impl Chance {
    /// Those of that seed.
    pub(super) fn new(seed: u64) -> Chance {
        Chance { state: seed }
    }

    /// A number below another one.
    pub(super) fn below(&mut self, most: usize) -> usize {
        self.state = self
            .state
            .wrapping_mul(6_364_136_223_846_793_005)
            .wrapping_add(1_442_695_040_888_963_407);
        let bits = (self.state >> 33) as usize;
        bits.checked_rem(most).unwrap_or(0)
    }
}

/// What a number stands for.
#[derive(Clone, Copy, PartialEq, Eq)]
pub(super) enum Kind {
    Client,
    Server,
    /// A request on loan, before and after it is written.
    Request,
    WrittenRequest,
    Pending,
    Active,
    /// A response on loan for the active request of that number, before and after it is written.
    Response(u64),
    WrittenResponse(u64),
    Received,
}

/// A port or a handle of a node.
#[derive(Clone, Copy)]
pub(super) struct Owned {
    pub(super) node: u64,
    pub(super) number: u64,
    pub(super) kind: Kind,
    /// The word of its message. Of a response that is not written a game keeps that of the request.
    pub(super) word: u64,
}

/// A call under way.
#[derive(Clone, Copy)]
pub(super) struct Call {
    pub(super) of: Owned,
    pub(super) ask: Ask,
    pub(super) made: u64,
    /// The word of the message that it took last.
    pub(super) came: u64,
}

/// The ports of a wire of four.
pub(super) const PORTS: [Owned; 4] = [
    Owned {
        node: 0,
        number: 0,
        kind: Kind::Client,
        word: 0,
    },
    Owned {
        node: 1,
        number: 1,
        kind: Kind::Server,
        word: 0,
    },
    Owned {
        node: 2,
        number: 2,
        kind: Kind::Server,
        word: 0,
    },
    Owned {
        node: 2,
        number: 3,
        kind: Kind::Client,
        word: 0,
    },
];

/// What is asked of a client.
fn of_client(number: u64, word: u64, chance: u64) -> Ask {
    match chance {
        0 => Ask::Loan(number),
        _ => Ask::CopyRequest(number, word),
    }
}

/// What is asked of a server.
fn of_server(number: u64, chance: u64) -> Ask {
    match chance {
        0 => Ask::HasRequests(number),
        _ => Ask::Receive(number),
    }
}

/// What is asked of a loan that was written.
fn of_written(number: u64, chance: u64) -> Ask {
    match chance {
        0 => Ask::Release(number),
        1 => Ask::Read(number),
        _ => Ask::Send(number),
    }
}

/// What is asked of a pending response.
fn of_pending(number: u64, chance: u64) -> Ask {
    match chance {
        0 => Ask::Release(number),
        1 => Ask::HasResponse(number),
        2 => Ask::SetHint(number),
        3 => Ask::IsConnected(number),
        4 => Ask::Read(number),
        _ => Ask::Receive(number),
    }
}

/// What is asked of an active request.
fn of_active(number: u64, word: u64, chance: u64) -> Ask {
    match chance {
        0 => Ask::Release(number),
        1 => Ask::HasHint(number),
        2 => Ask::IsConnected(number),
        3 => Ask::Read(number),
        4 => Ask::Loan(number),
        _ => Ask::CopyResponse(number, word),
    }
}

/// What is asked of a number of that kind. Requests bring even words, and responses odd ones.
pub(super) fn ask(kind: Kind, number: u64, chance: u64) -> Ask {
    let even = (chance >> 8) & !1;
    let few = chance % 8;
    match kind {
        Kind::Client => of_client(number, even, few),
        Kind::Server => of_server(number, few),
        Kind::Request => match few {
            0 => Ask::Release(number),
            _ => Ask::WriteRequest(number, even),
        },
        Kind::Response(_) => match few {
            0 => Ask::Release(number),
            _ => Ask::WriteResponse(number, even | 1),
        },
        Kind::WrittenRequest | Kind::WrittenResponse(_) => of_written(number, few),
        Kind::Pending => of_pending(number, few),
        Kind::Active => of_active(number, even | 1, few),
        Kind::Received => match few {
            0 => Ask::Read(number),
            _ => Ask::Release(number),
        },
    }
}

/// What a loan of a port or an active request is.
pub(super) fn lent_by(kind: Kind, number: u64) -> Kind {
    match kind {
        Kind::Client => Kind::Request,
        _ => Kind::Response(number),
    }
}

/// What a server or a pending response receives.
pub(super) fn received_by(kind: Kind) -> Kind {
    match kind {
        Kind::Server => Kind::Active,
        _ => Kind::Received,
    }
}

/// What a loan is once it is written.
pub(super) fn written(kind: Kind) -> Kind {
    match kind {
        Kind::Response(of) => Kind::WrittenResponse(of),
        _ => Kind::WrittenRequest,
    }
}

/// How many steps the call may take at most, where that does not depend on what others do. There
/// are two others, and a queue gives back three messages at most.
pub(super) fn bound(kind: Kind, ask: Ask) -> u64 {
    match (kind, ask) {
        (Kind::Client, Ask::Loan(_)) => 35,
        (Kind::Client, Ask::CopyRequest(_, _)) => 78,
        (Kind::Active, Ask::Loan(_)) => 174,
        (Kind::Active, Ask::CopyResponse(_, _)) => 196,
        (Kind::WrittenRequest, Ask::Send(_)) => 42,
        (Kind::WrittenResponse(_), Ask::Send(_)) => 21,
        (Kind::Active, Ask::Release(_)) => 7,
        (Kind::Received, Ask::Release(_)) => 4,
        (Kind::Pending, Ask::Release(_) | Ask::IsConnected(_)) => 2,
        (_, Ask::SetHint(_) | Ask::HasRequests(_) | Ask::HasResponse(_)) => 4,
        (_, Ask::Receive(_)) => 1000,
        _ => 1,
    }
}
