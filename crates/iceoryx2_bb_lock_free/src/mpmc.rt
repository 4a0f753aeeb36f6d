//! Sets that many may change, in the form for one thread.
pub use iox_container::mpmc::container;
pub use iox_sets::mpmc::{
    bit_set, counting_bit_set, robust_unique_index_set, unique_index_set, unique_index_set_enums,
};
