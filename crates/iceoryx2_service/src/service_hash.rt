//! The hash by which a service is found.
pub use iox_names::ServiceHash;
