//! Pools that closures choose for the ports that factories make.
ghost use Rattle.iceoryx2_ports.specs.Overrides.{HaveItsPool};

use iox_hub_laws::{
    Backpressure, Hub, Options, PreallocatedRequestsOverride, PreallocatedResponseOverride,
};
use iox_model::kind::Role;
use iox_store::Payload;
use iox_words::Words;

/// These options, with the pool that the closure chooses for a port of that role.
pub(crate) fn with_pool<
    Q: Payload,
    QH: Words,
    P: Payload,
    PH: Words,
    H: Backpressure,
    F: Fn(usize) -> usize + Drop,
>(hub: &Hub<Q, QH, P, PH, H>, role: Role, options: Options, callback: F) -> Options
    requires { F.IsAlwaysCallable callback }
    ensures { HaveItsPool hub.now role (F.post callback) options result }
{
    let Some(needed) = hub.worst_pool(role, options) else {
        return options;
    };
    let pool = match role {
        Role::Client => PreallocatedRequestsOverride::new(callback).pool(needed),
        Role::Server => PreallocatedResponseOverride::new(callback).pool(needed),
    };
    Options {
        pool: Some(pool as u64),
        ..options
    }
}
