//! What no clause says, and each function once.
mod expired;
mod lanes;
mod marks;
mod visits;
