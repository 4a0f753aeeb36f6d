//! Clients and servers: the typed ports of a hub, and the handles of their messages. Each call of a
//! port or a handle is one whole call of the machine that copies messages, and each making is one
//! command of it. A release is one whole call, unless a command let the value go before: then
//! nothing changes. A filling writes to a loan what its holder says, and changes nothing else.
#![tactic(auto)]

mod active_request;
mod client;
mod copies;
mod errors;
mod headers;
pub mod laws;
mod loans;
mod overrides;
mod pending_response;
mod port_factory_client;
mod port_factory_server;
mod releases;
mod request_mut;
mod response;
mod response_mut;
mod server;
pub mod uses;
pub mod uses_answering;
pub mod uses_arrivals;
pub mod uses_commands;
pub mod uses_copied_trip;
pub mod uses_copying;
pub mod uses_exchange;
pub mod uses_filled_trip;
pub mod uses_filling;
pub mod uses_handlers;
pub mod uses_headers;
pub mod uses_keeping;
pub mod uses_laws;
pub mod uses_limits;
pub mod uses_loops;
pub mod uses_making;
pub mod uses_reaching;
pub mod uses_reading;
pub mod uses_round_trip;
pub mod uses_serving;
pub mod uses_slice_trip;
pub mod uses_slices;
pub mod uses_streams;

/// What a hub's calls by number take and answer.
pub mod by_number {
    pub use iox_hub_laws::{
        Answered, Copied, Lent, LoanRefusal, MessageHeader, NotMade, Options, Received, Requested,
        Responded, Written,
    };
}

pub use active_request::ActiveRequest;
pub use client::Client;
pub use errors::{
    ClientCreateError, ConnectionFailure, LoanError, ReceiveError, RequestSendError, SendError,
    ServerCreateError,
};
pub use iox_hub_laws::{
    Always, Backpressure, BackpressureAction, BackpressureInfo, Hub, MessageShape, Part,
    PreallocatedRequestsOverride, PreallocatedResponseOverride, Settings, default_settings,
};
pub use iox_model::command::{PortCommand, PortOptions};
pub use iox_model::kind::{Kind, Role};
pub use iox_model::reply::{PortReply, Refusal};
pub use iox_port_commands::{ApplyCommand, Elements};
pub use iox_store::{Many, One, Payload};
pub use iox_types::identifiers::{
    Time, UniqueClientId, UniqueId, UniqueNodeId, UniqueNodeIdError, UniqueServerId, UniqueSystemId,
};
pub use iox_types::{
    AllocationStrategy, BackpressureStrategy, ChannelState, RequestHeader, RequestId,
    ResponseHeader, TypeDetailError,
};
pub use iox_words::{CallbackProgression, Words, ZeroCopySend};
pub use pending_response::PendingResponse;
pub use port_factory_client::{PortFactoryClient, PreallocatedClient};
pub use port_factory_server::{PortFactoryServer, PreallocatedServer};
pub use request_mut::{RequestMut, RequestMutUninit};
pub use response::Response;
pub use response_mut::{ResponseMut, ResponseMutUninit};
pub use server::Server;
