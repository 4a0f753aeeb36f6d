//! Tests and callers of the descriptions of services, of what an opener is refused, of the script
//! language and of reads and writes, by what their crates make public. So the gate proves each of
//! those crates once.
#![tactic(auto)]

#[cfg(test)]
mod attributes;
#[cfg(test)]
mod configs;
#[cfg(test)]
mod expected;
#[cfg(test)]
mod names;
#[cfg(test)]
mod openers;
#[cfg(test)]
mod registry;
#[cfg(test)]
mod script;
#[cfg(test)]
mod service;
#[cfg(test)]
mod streams;
#[cfg(test)]
mod types;
