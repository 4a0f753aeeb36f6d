//! Callers of the laws, with no proof of their own.
ghost use Rattle.std.specs.Prelude.{◌≡◌, true};
ghost use Rattle.iox_laws.specs.ServiceLaws.Closing.{IsBare};
ghost use Rattle.iox_nodes.specs.Shown.{service_of};
ghost use Rattle.iox_service_laws.specs.Limits.{LimitsHold};

use crate::{closes_with_the_last_node, limits_hold};
use iox_nodes::Service;
use iox_store::{Many, One};

/// Requests of bytes, and responses that are a number each.
type Bytes = Service<Many<u8>, (), One<u64>, ()>;

/// Whether the service is closed. If so, nothing is left in it.
pub fn is_over(service: &Bytes) -> bool
    ensures told { result ≡ (service_of service.now).members.closed }
    ensures bare { result ≡ true → IsBare (service_of service.now) }
    ensures limits { LimitsHold (service_of service.now) }
{
    closes_with_the_last_node(service);
    limits_hold(service);
    service.is_closed()
}
