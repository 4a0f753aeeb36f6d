//! Tests and callers of `iox_store`.
mod callers;
mod lengths;
mod stores;
