//! Numbers of events.
pub use iox_configs::event_id::EventId;
