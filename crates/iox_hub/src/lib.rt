//! A hub: its tables, and the words of its messages. Each call is one whole call of the machine,
//! and a service and its hub can reach the state that a hub shows.
#![tactic(auto)]

mod all_words;
mod asking;
mod backpressure;
mod cleaning;
mod contents;
mod copies;
mod copying;
mod filled;
mod filling;
mod growing;
mod headers;
mod hub;
mod invariant;
mod known_shape;
mod layouts;
mod lending;
mod lending_responses;
mod listings;
mod loan_reads;
mod making;
mod options;
mod overrides;
mod pools;
mod port_settings;
mod questions;
mod reads;
mod receives;
mod releasing;
mod sending;
mod settings;
mod shape;
mod sizes;
pub mod uses;
pub mod uses_copying;
pub mod uses_filling;
pub mod uses_growing;
pub mod uses_headers;
pub mod uses_keeping;
pub mod uses_lending;
pub mod uses_listings;
pub mod uses_making;
pub mod uses_sending;
mod values;
mod words;
mod writing;

pub use headers::MessageHeader;
pub use hub::Hub;
pub use iox_backpressure::{
    Always, Backpressure, BackpressureAction, BackpressureInfo, words_tell_answers,
};
pub use iox_control::{Received, Settings};
pub use iox_control_making::NotMade;
pub use iox_control_questions::{Asked, NotBegun, may_be_asked};
pub use iox_control_request_copies::{
    Answered, Copied, Lent, LoanRefusal, Place, Requested, Responded, Written,
};
pub use options::Options;
pub use overrides::{PreallocatedRequestsOverride, PreallocatedResponseOverride};
pub use settings::default_settings;
pub use shape::{MessageShape, Part};
pub use writing::Filled;
