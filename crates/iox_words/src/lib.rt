//! Values as lists of words of 64 bits. What a message carries is of a type with `Words`.
//! Beside it what a callback answers that visits values.
#![tactic(auto)]

mod callback_progression;
mod plain;
mod signed;
mod unsigned;
mod wide;
mod word_list;
mod zero_copy_send;

pub use callback_progression::CallbackProgression;
pub use word_list::Words;
pub use zero_copy_send::ZeroCopySend;
