//! Worked runs of parties at bits, counts and values.
mod bit_set;
mod counting_bit_set;
mod unrestricted_atomic;
mod values;
