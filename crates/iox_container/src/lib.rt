//! Values that come and go under handles, each with an owner, for one thread.
//! The capacity is fixed, and no handle is given twice.
#![tactic(auto)]

pub mod mpmc;
