//! A value that one stores and that anyone loads, in the form for one thread.
pub use iox_queues::spmc::unrestricted_atomic;
