//! Laws of nodes on a wire: each access is one beat of the machine or none, and what words and
//! seats show stays so. Each module is there for the contracts of its functions, which have nothing
//! to do.
#![tactic(auto)]

pub mod wire_holding;
pub mod wire_keeping;
pub mod wire_owners;
pub mod wire_regions;
pub mod wire_shows;
pub mod wire_slots;
