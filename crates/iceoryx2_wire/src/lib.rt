//! A service with its description: who creates or opens it is compared with what it says of itself.
//! Each call is one command of the machine that copies messages.
#![tactic(auto)]

mod asks;
mod creating;
mod defaults;
mod identity;
pub mod laws;
mod listings;
mod opener;
mod opening;
mod own_types;
mod service;
mod serving;
pub mod uses;
pub mod uses_laws;

pub use defaults::Defaults;
pub use identity::ServiceIdentity;
pub use iox_attributes::{
    AttributeDefinitionError, AttributeSet, AttributeSpecifier, AttributeVerificationError,
    AttributeVerifier, DefinitionRefusal,
};
pub use iox_members::Nodes;
pub use iox_model::command::{Command, PortCommand, PortOptions};
pub use iox_model::reply::{Refusal, Reply};
pub use iox_names::attribute::{Attribute, AttributeKey, AttributeValue};
pub use iox_names::{ServiceName, ServiceNameError};
pub use iox_openers::{MessageTypes, ServiceDescription};
pub use iox_service_laws::{
    Always, Backpressure, BackpressureAction, BackpressureInfo, Elements, Settings,
    default_settings,
};
pub use iox_store::{Many, One, Payload};
pub use iox_types::identifiers::{
    Time, UniqueClientId, UniqueNodeId, UniqueNodeIdError, UniqueServerId, UniqueSystemId,
};
pub use iox_types::{
    AllocationStrategy, BackpressureStrategy, MessageTypeDetails, SampleLayout, TypeDetail,
    TypeDetailError, TypeVariant,
};
pub use iox_words::{CallbackProgression, Words, ZeroCopySend};
pub use opener::Opener;
pub use service::Service;
