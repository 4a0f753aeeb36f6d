//! The send of a response.
#![tactic(auto)]

mod failing;
mod handing;
mod near;
mod offering;
mod responded;
mod sending;
mod targets;
pub mod uses;
mod usual;

pub use failing::fails_when_full;
pub use iox_control_retrieving::{retrieve_all, retrieve_all_in};
pub use offering::{is_shut, offer_response};
pub use responded::Responded;
pub use sending::send_response;
pub use targets::{Target, find_awaiting};
pub use usual::send_response_usual;
