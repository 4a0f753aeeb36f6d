//! Tests and callers of words, queues, sets and containers for one thread, by what their crates
//! make public. So the gate proves each of those crates once, and the tests cost only their own
//! proofs.
#![tactic(auto)]

#[cfg(test)]
mod container;
#[cfg(test)]
mod expected;
#[cfg(test)]
mod names;
#[cfg(test)]
mod queues;
#[cfg(test)]
mod rows;
#[cfg(test)]
mod sets;
#[cfg(test)]
mod words;
