//! The laws of the machine as laws about any hub.
pub use iox_hub_laws::{
    borrows_hold, buffers_hold, few_are_kept_of_the_gone, loans_succeed, messages_are_as_delivered,
    messages_come_at_most_once, messages_come_at_their_request, messages_come_in_order,
    messages_were_sent, nothing_is_kept_of_the_gone, slots_are_of_holders, words_tell_answers,
};
