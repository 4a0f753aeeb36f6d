//! Tests of typed ports, by what `iceoryx2_ports` makes public.
#![tactic(auto)]

#[cfg(test)]
mod always;
#[cfg(test)]
mod causes;
#[cfg(test)]
mod contents;
#[cfg(test)]
mod copies;
#[cfg(test)]
mod defaults;
#[cfg(test)]
mod errors;
#[cfg(test)]
mod exchange;
#[cfg(test)]
mod expected;
#[cfg(test)]
mod expired;
#[cfg(test)]
mod fillings;
#[cfg(test)]
mod growing;
#[cfg(test)]
mod handlers;
#[cfg(test)]
mod headers;
#[cfg(test)]
mod limits;
#[cfg(test)]
mod long_requests;
#[cfg(test)]
mod numbers;
#[cfg(test)]
mod overrides;
#[cfg(test)]
mod questions;
#[cfg(test)]
mod refusals;
#[cfg(test)]
mod rounds;
#[cfg(test)]
mod signals;
#[cfg(test)]
mod trips;
#[cfg(test)]
mod uses_own_type;
