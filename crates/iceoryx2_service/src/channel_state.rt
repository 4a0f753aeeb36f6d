//! Which request a channel serves.
pub use iox_types::{ChannelState, RequestId};
