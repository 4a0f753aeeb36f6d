//! The laws of the machine as laws about any service, for those who have one. A service shows a
//! state that the machine can reach by what its own nodes asked, so each law of its runs holds
//! there.
#![tactic(auto)]

mod asked;
mod gone;
mod limits;
mod messages;
mod runs;
pub mod uses;

pub use asked::{cleanups_are_releases, listings_are_exact, refusals_leave_the_state};
pub use gone::{closes_with_the_last_node, keeps_nothing_for_the_gone, the_dead_do_nothing};
pub use iox_nodes::{
    Always, Backpressure, BackpressureAction, BackpressureInfo, Elements, MessageShape, Service,
    Settings, default_settings, words_tell_answers,
};
pub use limits::{limits_hold, loans_succeed, pools_suffice};
pub use messages::{
    messages_are_as_delivered, messages_come_at_most_once, messages_come_at_their_request,
    messages_come_in_order, messages_were_sent,
};
pub use runs::runs_are_histories;
