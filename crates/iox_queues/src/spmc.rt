//! One producer and any number of readers.

pub mod unrestricted_atomic;
