//! The making of a port.
#![tactic(auto)]

ghost use Rattle.iox_control_making.specs.Bounds.{LanesAreCounted, NoMoreMayCome};

mod asked;
mod joining;
mod making;
mod pipes;
mod places;
mod room;
mod sizes;
pub mod uses;

pub use asked::{Asked, NotMade};
pub use making::make_port;

/// How many lanes there are, and how many handles may come with the ports that there are.
pub fn bounds()
    ensures lanes { LanesAreCounted }
    ensures handles { NoMoreMayCome }
{}
