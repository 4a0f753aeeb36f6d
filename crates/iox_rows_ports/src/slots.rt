//! Tests and callers of `iox_slots`.
mod callers;
mod pools;
