//! Identifiers of nodes, ports and services.
pub use iox_types::identifiers::{
    Time, UniqueClientId, UniqueId, UniqueListenerId, UniqueNodeId, UniqueNodeIdError,
    UniqueNotifierId, UniquePortId, UniquePublisherId, UniqueReaderId, UniqueServerId,
    UniqueServiceId, UniqueSubscriberId, UniqueSystemId, UniqueWriterId, kind,
};
