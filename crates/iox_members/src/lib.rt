//! The nodes of a service: who joined, who lives, who left, and what is registered of them. Each
//! call is a command of the machine, or the part of one that concerns nodes.
#![tactic(auto)]

mod ids;
mod lists;
mod member;
mod members;
pub mod uses;

pub use iox_registry::dynamic_config::Nodes;
pub use iox_registry::{RegistryNewError, RemainingOwners};
pub use members::Members;
