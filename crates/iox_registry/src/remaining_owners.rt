//! Whether a service has owners.

/// Whether nodes keep a service, or the last of them went.
#[derive(Clone, Copy, Debug, PartialEq, Eq)]
pub enum RemainingOwners {
    /// Nodes may still come.
    HasOwners,
    /// The last node went, and none comes any more.
    NoMoreOwners,
}
