//! Tests of services over a hub, by what their crate makes public. And a law that ties their first
//! limits together.
#![tactic(auto)]

#[cfg(test)]
mod expected;
pub mod first_limits;
#[cfg(test)]
mod nodes;
