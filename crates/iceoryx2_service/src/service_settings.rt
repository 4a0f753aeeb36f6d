//! What a request-response service is asked to be.
use iox_configs::config::RequestResonse;
use iox_names::ServiceName;

/// The name of a service and its limits.
#[derive(Clone, Copy, Debug, PartialEq, Eq)]
pub struct ServiceSettings {
    /// The name of the service.
    pub name: ServiceName,
    /// How many ports, nodes and messages it has room for, and what happens at a full receiver.
    pub limits: RequestResonse,
}
