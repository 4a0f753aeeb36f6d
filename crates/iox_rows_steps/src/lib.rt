//! Tests and callers of calls as single accesses, and of the paths at which users reach the queues
//! and sets, by what their crates make public. So the gate proves each of those crates once.
#![tactic(auto)]

#[cfg(test)]
mod cell_queues;
#[cfg(test)]
mod expected;
#[cfg(test)]
mod lock_free;
#[cfg(test)]
mod queue_calls;
#[cfg(test)]
mod queue_steps;
#[cfg(test)]
mod rows;
#[cfg(test)]
mod set_steps;
#[cfg(test)]
mod steps;
