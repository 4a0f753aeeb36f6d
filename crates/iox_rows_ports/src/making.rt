//! Tests and callers of `iox_control_making`.
mod makes;
