//! The queues of one thread.
mod atomic;
mod index_queue;
mod overflowing;
mod values;
