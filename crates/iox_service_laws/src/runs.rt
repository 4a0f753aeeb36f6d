//! What commands one after another come to. The function has nothing to do: it is there for its
//! contract.
ghost use Rattle.iox_nodes.specs.Shown.{service_of};
ghost use Rattle.iox_service_laws.specs.Histories.{RunsAreHistories};

use iox_nodes::{Backpressure, Service};
use iox_store::Payload;
use iox_words::Words;

/// A run of commands is a history, and what it leads to can be reached.
pub fn runs_are_histories<Q: Payload, QH: Words, P: Payload, PH: Words, H: Backpressure>(
    service: &Service<Q, QH, P, PH, H>,
)
    ensures { RunsAreHistories (service_of service.now) }
{
    service.is_served();
}
