//! What is registered with a service: its nodes and, by kinds, its ports, each with details and
//! under a handle that is never given twice.
#![tactic(auto)]

pub mod details;
pub mod dynamic_config;
mod handle;
mod has_node;
pub mod laws;
mod refusals;
mod register;
mod registered;
mod remaining_owners;
mod roles;

pub use handle::RegistryHandle;
pub use has_node::HasNode;
pub use refusals::{RegisterNodeError, RegistryNewError, ReleaseError};
pub use register::room;
pub use remaining_owners::RemainingOwners;
pub use roles::Role;
