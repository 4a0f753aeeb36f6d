//! The sends of loaned requests, over the tables of a hub.
#![tactic(auto)]

mod alone;
mod attempts;
mod backpressure;
mod counts;
mod deliveries;
mod offering;
mod over;
mod pushes;
mod requested;
mod sending;
mod sends;
mod servers;
pub mod uses;
mod usual;

pub use attempts::attempt;
pub use backpressure::{ByStrategy, WhenFull};
pub use counts::is_spent;
pub use deliveries::deliver_to_all;
pub use iox_control_retrieving::retrieve_all;
pub use offering::offer_request;
pub use over::send_over_oldest;
pub use requested::Requested;
pub use sending::send_request;
pub use sends::{send_to_all, send_to_only};
pub use servers::is_refused;
pub use usual::send_request_usual;
