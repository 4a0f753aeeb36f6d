//! Tests and callers of `iox_handles`.
mod callers;
mod tables;
