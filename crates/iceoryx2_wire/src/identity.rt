//! Which service it is.
use iox_names::ServiceName;

/// Which service it is: its name, and the number that its creator gave it. A service tells both,
/// and compares neither: who has the service has found it.
#[derive(Clone, Copy, Debug, PartialEq, Eq)]
pub struct ServiceIdentity {
    /// The name of the service. Another service may have the same.
    pub name: ServiceName,
    /// The number that its creator chose. Another service may have the same.
    pub number: u64,
}
