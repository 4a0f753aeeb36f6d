//! A node of a service, as it is kept.
use iox_registry::RegistryHandle;
use iox_types::identifiers::UniqueNodeId;

/// A node that did not leave.
#[derive(Clone, Copy, Debug)]
pub(crate) struct Member {
    /// How many nodes joined before it.
    pub(crate) number: u64,
    pub(crate) id: UniqueNodeId,
    pub(crate) alive: bool,
    /// What tells its registration.
    pub(crate) registration: RegistryHandle,
}
