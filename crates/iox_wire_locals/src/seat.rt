//! A node's own part of a wire, as clauses see it.
use crate::local::Local;
use crate::table::{Borrowed, Desk, Entry};
use std::collections::LinkedList;

/// What a node of a wire keeps for itself, and where it is in its call.
pub struct Seat {
    /// The number of the node.
    pub node: u64,
    /// How many accesses it made.
    pub accesses: u64,
    /// How many handles it made. The next one's number follows from this.
    pub handles_made: u64,
    /// Its handles, oldest first.
    pub table: LinkedList<Entry>,
    /// One for each of its ports.
    pub desks: LinkedList<Desk>,
    /// One for each way to its ports.
    pub borrowed: LinkedList<Borrowed>,
    /// The dead nodes that it forgot.
    pub forgot: LinkedList<u64>,
    /// Where it is in its call.
    pub local: Local,
}
