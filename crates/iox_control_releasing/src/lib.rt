//! How handles and ports' own values are released, and how a port goes of which nothing is left.
#![tactic(auto)]

mod cutting;
mod disconnect;
mod ending;
mod handle;
mod leaving;
mod letting_go;
mod port_value;
mod unused;
pub mod uses;
mod usual;

pub use disconnect::{disconnect_if_unused, drop_pool};
pub use ending::Ending;
pub use handle::{release, release_usual};
pub use port_value::release_port;
