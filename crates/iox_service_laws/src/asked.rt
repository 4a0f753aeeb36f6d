//! What commands of a service come to. The functions have nothing to do: each is there for its
//! contract.
ghost use Rattle.iox_nodes.specs.Shown.{service_of};
ghost use Rattle.iox_service_laws.specs.Asked.{CleanupsAreReleases, ListingsAreExact};
ghost use Rattle.iox_service_laws.specs.Asked.{RefusalsLeave};

use iox_nodes::{Backpressure, Service};
use iox_store::Payload;
use iox_words::Words;

/// A cleanup does what the dead node would do if it lived: it releases its values in ascending
/// order, and leaves.
pub fn cleanups_are_releases<Q: Payload, QH: Words, P: Payload, PH: Words, H: Backpressure>(
    service: &Service<Q, QH, P, PH, H>,
)
    ensures { CleanupsAreReleases (service_of service.now) }
{
    service.is_served();
}

/// A listing names exactly the nodes, clients or servers that there are, each once, ascending.
pub fn listings_are_exact<Q: Payload, QH: Words, P: Payload, PH: Words, H: Backpressure>(
    service: &Service<Q, QH, P, PH, H>,
)
    ensures { ListingsAreExact (service_of service.now) }
{
    service.is_served();
}

/// A refused command leaves the state unchanged, but for three cases of ports and handles.
pub fn refusals_leave_the_state<Q: Payload, QH: Words, P: Payload, PH: Words, H: Backpressure>(
    service: &Service<Q, QH, P, PH, H>,
)
    ensures { RefusalsLeave (service_of service.now) }
{
    service.is_served();
}
