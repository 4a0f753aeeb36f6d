//! What holds of all messages of a service, whatever history led to its state. The functions have
//! nothing to do: each is there for its contract.
ghost use Rattle.iox_model.specs.Runs.{IsReachableState};
ghost use Rattle.iox_nodes.specs.Shown.{service_of};
ghost use Rattle.iox_service_laws.specs.Messages.{AreAsDelivered, ComeAtMostOnce};
ghost use Rattle.iox_service_laws.specs.Messages.{ComeAtTheirRequest, ComeInOrder, WereSent};

use iox_nodes::{Backpressure, Service};
use iox_store::Payload;
use iox_words::Words;

/// On each way no message was delivered twice, and none was taken twice.
pub fn messages_come_at_most_once<Q: Payload, QH: Words, P: Payload, PH: Words, H: Backpressure>(
    service: &Service<Q, QH, P, PH, H>,
)
    ensures reached { IsReachableState (service_of service.now) }
    ensures once { ComeAtMostOnce (service_of service.now) }
{
    service.is_served();
}

/// On each way, what was taken and what still waits comes in the order of delivery, whole.
pub fn messages_come_in_order<Q: Payload, QH: Words, P: Payload, PH: Words, H: Backpressure>(
    service: &Service<Q, QH, P, PH, H>,
)
    ensures reached { IsReachableState (service_of service.now) }
    ensures order { ComeInOrder (service_of service.now) }
{
    service.is_served();
}

/// What a handle has that was received was delivered to it, whole, and is what a read answers.
pub fn messages_are_as_delivered<Q: Payload, QH: Words, P: Payload, PH: Words, H: Backpressure>(
    service: &Service<Q, QH, P, PH, H>,
)
    ensures reached { IsReachableState (service_of service.now) }
    ensures delivered { AreAsDelivered (service_of service.now) }
{
    service.is_served();
}

/// Each message that was delivered was sent, by some step of the same history.
pub fn messages_were_sent<Q: Payload, QH: Words, P: Payload, PH: Words, H: Backpressure>(
    service: &Service<Q, QH, P, PH, H>,
)
    ensures reached { IsReachableState (service_of service.now) }
    ensures sent { WereSent (service_of service.now) }
{
    service.is_served();
}

/// A response is received only at its own request. Without fire-and-forget, a server receives only
/// requests that their clients did not give up.
pub fn messages_come_at_their_request<
    Q: Payload,
    QH: Words,
    P: Payload,
    PH: Words,
    H: Backpressure,
>(service: &Service<Q, QH, P, PH, H>)
    ensures { ComeAtTheirRequest (service_of service.now) }
{
    service.is_served();
}
