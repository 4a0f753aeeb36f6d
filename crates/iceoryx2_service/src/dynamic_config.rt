//! What is registered with a service: its nodes, and the ports of its messaging pattern.
pub use iox_registry::details::DataSegmentType;
pub use iox_registry::dynamic_config::{
    DynamicConfig, MessagingPattern, Nodes, blackboard, event, publish_subscribe, request_response,
};
pub use iox_registry::{
    HasNode, RegisterNodeError, RegistryHandle, RegistryNewError, ReleaseError, RemainingOwners,
    Role,
};
