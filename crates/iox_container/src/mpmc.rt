//! Containers that many may change, in the form for one thread.
pub mod container;
