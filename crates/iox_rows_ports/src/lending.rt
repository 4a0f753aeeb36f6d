//! Tests and callers of `iox_control_lending`.
mod refusals;
