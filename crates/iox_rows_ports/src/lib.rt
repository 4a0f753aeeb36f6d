//! Tests and callers of the parts of ports, by what their crates make public.
#![tactic(auto)]

#[cfg(test)]
mod commands;
#[cfg(test)]
mod control;
#[cfg(test)]
mod expected;
#[cfg(test)]
mod handles;
#[cfg(test)]
mod hub;
#[cfg(test)]
mod hub_ports;
#[cfg(test)]
mod lanes;
#[cfg(test)]
mod lending;
#[cfg(test)]
mod making;
#[cfg(test)]
mod slots;
#[cfg(test)]
mod store;
