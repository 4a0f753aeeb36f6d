//! What holds of all messages of a hub, whatever history led to its state. The functions have
//! nothing to do: each is there for its contract.
ghost use Rattle.iox_hub.specs.Hubs.{IsReached};
ghost use Rattle.iox_hub_laws.specs.Histories.{AreAsDelivered, ComeAtMostOnce, ComeInOrder};
ghost use Rattle.iox_hub_laws.specs.Histories.{ComeAtTheirRequest};
ghost use Rattle.iox_hub_laws.specs.Histories.{WereSent};

use iox_hub::{Backpressure, Hub};
use iox_store::Payload;
use iox_words::Words;

/// On each way no message was delivered twice, and none was taken twice.
pub fn messages_come_at_most_once<Q: Payload, QH: Words, P: Payload, PH: Words, H: Backpressure>(
    hub: &Hub<Q, QH, P, PH, H>,
)
    ensures reached { IsReached hub.now }
    ensures once { ComeAtMostOnce hub.now }
{
    hub.is_in_order();
}

/// On each way, what was taken and what still waits comes in the order of delivery, whole.
pub fn messages_come_in_order<Q: Payload, QH: Words, P: Payload, PH: Words, H: Backpressure>(
    hub: &Hub<Q, QH, P, PH, H>,
)
    ensures reached { IsReached hub.now }
    ensures order { ComeInOrder hub.now }
{
    hub.is_in_order();
}

/// What a handle has that was received was delivered to it, word by word.
pub fn messages_are_as_delivered<Q: Payload, QH: Words, P: Payload, PH: Words, H: Backpressure>(
    hub: &Hub<Q, QH, P, PH, H>,
)
    ensures reached { IsReached hub.now }
    ensures delivered { AreAsDelivered hub.now }
{
    hub.is_in_order();
}

/// Each message that was delivered was sent, by some step of the same history.
pub fn messages_were_sent<Q: Payload, QH: Words, P: Payload, PH: Words, H: Backpressure>(
    hub: &Hub<Q, QH, P, PH, H>,
)
    ensures reached { IsReached hub.now }
    ensures sent { WereSent hub.now }
{
    hub.is_in_order();
}

/// A response is received only at its own request. Without fire-and-forget, a server receives only
/// requests that their clients did not give up.
pub fn messages_come_at_their_request<
    Q: Payload,
    QH: Words,
    P: Payload,
    PH: Words,
    H: Backpressure,
>(hub: &Hub<Q, QH, P, PH, H>)
    ensures reached { IsReached hub.now }
    ensures request { ComeAtTheirRequest hub.now }
{
    hub.is_in_order();
}
