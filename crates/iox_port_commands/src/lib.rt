//! The commands of a hub: a port is made, or a port or a handle is called by a bare number. Each is
//! one command of the machine that copies messages.
#![tactic(auto)]

mod answers;
mod applying;
mod begins;
mod copies;
mod elements;
mod lending;
mod makings;
mod methods;
mod questions;
mod reading;
mod receives;
mod releases;
mod sends;
pub mod uses;
mod word_lists;
mod writing;

pub use applying::{apply, try_apply};
pub use copies::{copy_request, copy_response};
pub use elements::Elements;
pub use iox_hub::{
    Always, Backpressure, BackpressureAction, BackpressureInfo, Hub, MessageShape, Options, Part,
    PreallocatedRequestsOverride, PreallocatedResponseOverride, Settings, default_settings,
    words_tell_answers,
};
pub use makings::make_port;
pub use methods::ApplyCommand;
pub use reading::read;
pub use receives::receive;
