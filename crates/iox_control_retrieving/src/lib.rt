//! What a sender of a hub gets back.
#![tactic(auto)]

mod alone;
mod one_way;
mod port;

pub use alone::{has_one_out, retrieve_all_unless, retrieve_unless};
pub use one_way::retrieve;
pub use port::{retrieve_all, retrieve_all_in, retrieve_all_of};
