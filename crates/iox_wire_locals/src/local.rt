//! Where a node of a wire is in its call, as clauses see it.
use crate::table::{Entry, NewLoan};
use iox_model::kind::Role;
use iox_model::way::Way;
use iox_steps::{Popping, Pushing};
use std::collections::LinkedList;

/// A send: its loan, whether the same call made it, and the ports that it goes to.
pub struct Delivery {
    /// The loan that is sent.
    pub loan: Entry,
    /// Whether the same call made the loan, so that it is no handle yet.
    pub copied: bool,
    /// The numbers of the ports that it goes to.
    pub to: LinkedList<u64>,
}

/// A receive: a server, or a pending response by its lane and its request.
#[derive(Clone, Copy)]
pub struct Visit {
    /// The number of the client or server that receives.
    pub port: u64,
    /// Whether that is a client or a server.
    pub role: Role,
    /// Of a pending response its lane; of a server 0.
    pub lane: u64,
    /// Of a pending response the id of its request; of a server 0.
    pub request: u64,
}

/// Why a call that began is refused.
#[derive(Clone, Copy)]
pub enum CallRefusal {
    /// The node has no port or handle of that number.
    UnknownNumber,
    /// The call is not one of such a port or handle.
    WrongKind,
    /// No message has so many elements, or the payload is not of as many as the loan.
    WrongLength,
    /// The message would be longer than the port's greatest length, or could not be addressed.
    ExceedsMaxLoanSize,
    /// As many messages are loaned as may be.
    ExceedsMaxLoans,
    /// Each slot of the port is in use.
    OutOfMemory,
    /// The client has as many pending responses as it may.
    ExceedsMaxActiveRequests,
    /// A receiver was seen full, and the sender's strategy makes the send fail there.
    UnableToDeliver,
    /// Nothing was got, and a message was seen where as many are held as may be.
    ExceedsMaxBorrows,
}

/// How a call ends.
pub enum Ending {
    /// It is refused.
    Refuses {
        refusal: CallRefusal,
    },
    /// A receive found nothing.
    Nothing,
    /// It is done, and of the node's own part nothing changes.
    Done,
    /// A question is answered.
    Answers {
        told: bool,
    },
    /// The words of a message are told, those of the user header first.
    Words {
        words: LinkedList<u64>,
    },
    /// A loan is made, with its message in that slot.
    Lends {
        loan: NewLoan,
        slot: u64,
    },
    /// The loan is filled with these words.
    Fills {
        loan: Entry,
        words: LinkedList<u64>,
    },
    /// The loan was sent, to so many; `copied` says that the same call made it.
    Sends {
        loan: Entry,
        copied: bool,
        count: u64,
    },
    /// The send is refused, and the loan is given up.
    FailsToSend {
        loan: Entry,
        copied: bool,
        refusal: CallRefusal,
    },
    /// The message in that slot of the way's sender, with these header words.
    Receives {
        visit: Visit,
        way: Way,
        slot: u64,
        header: LinkedList<u64>,
    },
    /// The handle is released.
    Drops {
        entry: Entry,
    },
    /// The dead node of that number is forgotten.
    Forgets {
        dead: u64,
    },
}

/// Where a node is in its call. `way` is visited now, in whose queue it is at `place`, and those of
/// `left` follow. A send delivered `count` messages so far.
pub enum Local {
    /// No call is under way.
    Idle,
    /// No word is left to access: the call ends so.
    Ends {
        ending: Ending,
    },
    /// A loan gets back what it can.
    LendEmpties {
        loan: NewLoan,
        way: Way,
        place: Popping,
        left: LinkedList<Way>,
    },
    /// It has a slot, whose words are stored, `next` first.
    LendStores {
        loan: NewLoan,
        slot: u64,
        next: u64,
    },
    /// The payload of a loan is stored, `next` first.
    Writes {
        loan: Entry,
        words: LinkedList<u64>,
        next: u64,
    },
    /// A response asks for its request state.
    SendAsks {
        send: Delivery,
    },
    /// A send gets back what it can.
    SendEmpties {
        send: Delivery,
        way: Way,
        place: Popping,
        left: LinkedList<Way>,
    },
    /// A send looks who is full; `full` were.
    SendLooks {
        send: Delivery,
        way: Way,
        place: Pushing,
        left: LinkedList<Way>,
        full: LinkedList<Way>,
    },
    /// A request opens its states; `full` were seen full.
    SendOpens {
        send: Delivery,
        way: Way,
        left: LinkedList<Way>,
        full: LinkedList<Way>,
    },
    /// A send delivers; `last` is the way of its last delivery, if nothing was evicted there though
    /// it may have been.
    SendPushes {
        send: Delivery,
        last: Option<Way>,
        way: Way,
        place: Pushing,
        left: LinkedList<Way>,
        count: u64,
    },
    /// It delivered on the way, and evicts there.
    SendEvicts {
        send: Delivery,
        way: Way,
        place: Pushing,
        left: LinkedList<Way>,
        count: u64,
    },
    /// It evicted on the way, and learns which message that was.
    SendGetsBack {
        send: Delivery,
        way: Way,
        place: Pushing,
        left: LinkedList<Way>,
        count: u64,
    },
    /// All is delivered, to so many: the call ends.
    SendEnds {
        send: Delivery,
        last: Option<Way>,
        count: u64,
    },
    /// At the borrow limit a receive looks; `waiting` says that it saw a message where it may have
    /// no more.
    ReceiveLooks {
        visit: Visit,
        way: Way,
        place: Popping,
        left: LinkedList<Way>,
        waiting: bool,
    },
    /// Below that limit it pops; `again` says that what it took on this way before did not fit.
    ReceivePops {
        visit: Visit,
        way: Way,
        again: bool,
        place: Popping,
        left: LinkedList<Way>,
        waiting: bool,
    },
    /// It has the message of that slot, and loads its header; these words are loaded.
    ReceiveLoads {
        visit: Visit,
        way: Way,
        slot: u64,
        header: LinkedList<u64>,
        left: LinkedList<Way>,
        waiting: bool,
    },
    /// It asks whether the request that it took is still named.
    ReceiveAsks {
        visit: Visit,
        way: Way,
        slot: u64,
        header: LinkedList<u64>,
        left: LinkedList<Way>,
        waiting: bool,
    },
    /// It gives back what does not fit.
    ReceiveReturns {
        visit: Visit,
        way: Way,
        slot: u64,
        place: Pushing,
        left: LinkedList<Way>,
        waiting: bool,
    },
    /// The words of a message are loaded; these are.
    Reads {
        entry: Entry,
        words: LinkedList<u64>,
    },
    /// The release of a pending response closes its request states.
    ReleaseCloses {
        entry: Entry,
        way: Way,
        left: LinkedList<Way>,
    },
    /// The release of what was received gives it back.
    ReleaseReturns {
        entry: Entry,
        place: Pushing,
    },
    /// The release of a request then looks at its request state.
    ReleaseLooks {
        entry: Entry,
    },
    /// It closes the request state, if that is still `old`, which names the request.
    ReleaseExchanges {
        entry: Entry,
        old: u64,
    },
    /// A look for a request state that names the request, with a hint if that is asked.
    Checks {
        entry: Entry,
        hinted: bool,
        way: Way,
        left: LinkedList<Way>,
    },
    /// It looks at a request state, to give a hint where the request is named without one.
    Hints {
        entry: Entry,
        way: Way,
        left: LinkedList<Way>,
    },
    /// It gives the hint there, if the state is unchanged.
    HintExchanges {
        entry: Entry,
        way: Way,
        left: LinkedList<Way>,
    },
    /// A look for a message that waits.
    Seeks {
        way: Way,
        place: Popping,
        left: LinkedList<Way>,
    },
}
