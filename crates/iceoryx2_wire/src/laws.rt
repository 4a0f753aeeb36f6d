//! The laws of the machine as laws about any service: each takes `service.nodes()`. And what the
//! words by which a service shows a handler say.
pub use iox_service_laws::{
    cleanups_are_releases, closes_with_the_last_node, keeps_nothing_for_the_gone, limits_hold,
    listings_are_exact, loans_succeed, messages_are_as_delivered, messages_come_at_most_once,
    messages_come_at_their_request, messages_come_in_order, messages_were_sent, pools_suffice,
    refusals_leave_the_state, runs_are_histories, the_dead_do_nothing, words_tell_answers,
};
