//! The settings of services where nobody sets others.
pub use iox_configs::config::{
    Blackboard, Config, Defaults, Event, Global, PublishSubscribe, RequestResonse,
};
pub use iox_configs::path::{Path, PathError};
pub use iox_types::{AllocationStrategy, BackpressureStrategy};
