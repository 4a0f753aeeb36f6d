//! The handles of a hub: a table that is searched by number, whose places are taken again. Callers
//! see the list of handles, oldest first.
#![tactic(auto)]

mod entry;
mod entry_test;
mod kind_change;
mod least;
mod node_list;
mod numbered;
mod places;
mod table;
mod tally;
mod vacant;

pub use entry::{Entry, kept_place};
pub use entry_test::EntryTest;
pub use kind_change::KindChange;
pub use least::lesser;
pub use numbered::Numbered;
pub use table::Table;
