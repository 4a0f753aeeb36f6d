//! What a service has of nodes and ports that are gone. The functions have nothing to do: each is
//! there for its contract.
ghost use Rattle.iox_nodes.specs.Shown.{service_of};
ghost use Rattle.iox_service_laws.specs.Gone.{ClosesWithTheLastNode, KeepsNothingForTheGone};
ghost use Rattle.iox_service_laws.specs.Gone.{TheDeadDoNothing};

use iox_nodes::{Backpressure, Service};
use iox_store::Payload;
use iox_words::Words;

/// Nothing waits for a port that is gone, and nothing is outstanding to it or of it.
pub fn keeps_nothing_for_the_gone<Q: Payload, QH: Words, P: Payload, PH: Words, H: Backpressure>(
    service: &Service<Q, QH, P, PH, H>,
)
    ensures { KeepsNothingForTheGone (service_of service.now) }
{
    service.is_served();
}

/// A service is closed exactly if it has no node, and then it has no port, handle or message. It
/// stays closed, and nobody joins it.
pub fn closes_with_the_last_node<Q: Payload, QH: Words, P: Payload, PH: Words, H: Backpressure>(
    service: &Service<Q, QH, P, PH, H>,
)
    ensures { ClosesWithTheLastNode (service_of service.now) }
{
    service.is_served();
}

/// Each later command of a node that died or left, also one to leave or to die, is refused, and
/// changes nothing.
pub fn the_dead_do_nothing<Q: Payload, QH: Words, P: Payload, PH: Words, H: Backpressure>(
    service: &Service<Q, QH, P, PH, H>,
)
    ensures { TheDeadDoNothing (service_of service.now) }
{
    service.is_served();
}
