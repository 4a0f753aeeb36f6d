//! What holds of a hub between calls: who has which messages, and how many. The functions have
//! nothing to do: each is there for its contract.
ghost use Rattle.iox_tables.specs.HubKeeping.Connected.{KeepsNone};
ghost use Rattle.iox_hub.specs.Hubs.{IsReached};
ghost use Rattle.iox_hub_laws.specs.Gone.{KeepsFewGone, KeepsNoGone};
ghost use Rattle.iox_hub_laws.specs.Limits.{BorrowsHold, BuffersHold};
ghost use Rattle.iox_hub_laws.specs.Loans.{LoansSucceed};
ghost use Rattle.iox_hub_laws.specs.Slots.{SlotsAreOfHolders};

use iox_hub::{Backpressure, Hub};
use iox_store::Payload;
use iox_words::Words;

/// On each way at most the buffer waits, even if its sender is gone.
pub fn buffers_hold<Q: Payload, QH: Words, P: Payload, PH: Words, H: Backpressure>(
    hub: &Hub<Q, QH, P, PH, H>,
)
    ensures { BuffersHold hub.now.control.tables }
{
    hub.is_in_order();
}

/// A receiver has at most as many messages of each way as it may borrow.
pub fn borrows_hold<Q: Payload, QH: Words, P: Payload, PH: Words, H: Backpressure>(
    hub: &Hub<Q, QH, P, PH, H>,
)
    ensures { BorrowsHold hub.now }
{
    hub.is_in_order();
}

/// A loan within its limits is made, or finds no memory, where no pool of its node was reduced.
/// Then no call of the node runs out of messages.
pub fn loans_succeed<Q: Payload, QH: Words, P: Payload, PH: Words, H: Backpressure>(
    hub: &Hub<Q, QH, P, PH, H>,
)
    ensures reached { IsReached hub.now }
    ensures made { LoansSucceed hub.now }
{
    hub.is_in_order();
}

/// A slot of a pool is free exactly if nobody has its message.
pub fn slots_are_of_holders<Q: Payload, QH: Words, P: Payload, PH: Words, H: Backpressure>(
    hub: &Hub<Q, QH, P, PH, H>,
)
    ensures { SlotsAreOfHolders hub.now.control.tables }
{
    hub.is_in_order();
}

/// Each lane leads to a connected port, from another one or from one that is gone and that the port
/// keeps. A port keeps no more of these than its service says. Each handle is of a connected port.
pub fn few_are_kept_of_the_gone<Q: Payload, QH: Words, P: Payload, PH: Words, H: Backpressure>(
    hub: &Hub<Q, QH, P, PH, H>,
)
    ensures { KeepsFewGone hub.now.control.tables }
{
    hub.is_in_order();
}

/// Where the service keeps nothing of ports that are gone, each lane is between connected ports,
/// and each handle is of a connected port.
pub fn nothing_is_kept_of_the_gone<Q: Payload, QH: Words, P: Payload, PH: Words, H: Backpressure>(
    hub: &Hub<Q, QH, P, PH, H>,
)
    ensures { KeepsNone hub.now.control.tables.settings → KeepsNoGone hub.now.control.tables }
{
    hub.is_in_order();
}
