//! What holds of a service between calls: how many messages there are. The functions have nothing
//! to do: each is there for its contract.
ghost use Rattle.iox_nodes.specs.Shown.{service_of};
ghost use Rattle.iox_service_laws.specs.Limits.{LimitsHold, LoansSucceed, PoolsSuffice};

use iox_nodes::{Backpressure, Service};
use iox_store::Payload;
use iox_words::Words;

/// At most the buffer waits on each way, and nobody has more messages of a way than it may borrow.
pub fn limits_hold<Q: Payload, QH: Words, P: Payload, PH: Words, H: Backpressure>(
    service: &Service<Q, QH, P, PH, H>,
)
    ensures { LimitsHold (service_of service.now) }
{
    service.is_served();
}

/// No command of a node whose pools were not reduced runs out of messages.
pub fn pools_suffice<Q: Payload, QH: Words, P: Payload, PH: Words, H: Backpressure>(
    service: &Service<Q, QH, P, PH, H>,
)
    ensures { PoolsSuffice (service_of service.now) }
{
    service.is_served();
}

/// A loan within its limits is made, or finds no memory, where no pool of its node was reduced.
pub fn loans_succeed<Q: Payload, QH: Words, P: Payload, PH: Words, H: Backpressure>(
    service: &Service<Q, QH, P, PH, H>,
)
    ensures { LoansSucceed (service_of service.now) }
{
    service.is_served();
}
