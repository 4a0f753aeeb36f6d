//! Tests of services with their descriptions, by what their crate makes public.
#![tactic(auto)]

#[cfg(test)]
mod expected;
#[cfg(test)]
mod service;
