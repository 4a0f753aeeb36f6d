//! Where each thing of a wire stands, computed: a map is made from a plan of the wire, and tells
//! each place without a search.
#![tactic(auto)]

mod counting;
mod laws;
mod new_error;
mod part_words;
mod plan;
mod uses;
mod way_index;
mod way_sizes;
mod word_map;

pub use laws::plans_are_layouts;
pub use new_error::WordMapNewError;
pub use plan::{PlanLimits, PlanPort, WirePlan};
pub use way_index::WayIndex;
pub use word_map::WordMap;
