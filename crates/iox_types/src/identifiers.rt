//! Identifiers of nodes, ports and services.
pub use node_id::{UniqueNodeId, UniqueNodeIdError};
pub use port_id::{
    UniqueClientId, UniqueId, UniqueListenerId, UniqueNotifierId, UniquePortId, UniquePublisherId,
    UniqueReaderId, UniqueServerId, UniqueServiceId, UniqueSubscriberId, UniqueWriterId,
};
pub use system_id::{Time, UniqueSystemId};

pub mod kind;
mod node_id;
mod port_id;
mod system_id;
