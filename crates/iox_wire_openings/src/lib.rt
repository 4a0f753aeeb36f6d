//! The nodes of a wire as it opens.
#![tactic(auto)]

mod nodes;
mod ways;

pub use nodes::open_node;
