//! A server that is registered, listed and released.
ghost use Rattle.std.specs.Prelude.{◌≡◌, IfSome, IsSome, None, Some, ◌↔◌};
ghost use Rattle.iceoryx2_service.specs.Registers.{add_refusal, details_of};

use iceoryx2_service::attribute::CallbackProgression;
use iceoryx2_service::dynamic_config::request_response::{DynamicConfig, ServerDetails};
use iceoryx2_service::dynamic_config::{DataSegmentType, RegistryHandle};
use iceoryx2_service::identifiers::{UniqueId, UniqueNodeId, UniqueNodeIdError, UniqueSystemId};

/// What was seen of a server while it was there.
#[derive(Clone, Copy, Debug)]
pub struct Visit {
    pub handle: RegistryHandle,
    /// What its handle told.
    pub told: Option<ServerDetails>,
    /// How many servers were listed.
    pub listed: u64,
}

/// A server of the first node of a process.
pub fn server_of(process: u32) -> Result<ServerDetails, UniqueNodeIdError> {
    let id = UniqueSystemId {
        process,
        seconds: 0,
        nanoseconds: 0,
        counter: 0,
    };
    Ok(ServerDetails {
        server_id: UniqueId::new(id),
        node_id: UniqueNodeId::new(id)?,
        request_buffer_size: 4,
        number_of_responses: 8,
        max_slice_len: 16,
        data_segment_type: DataSegmentType::Static,
        max_number_of_segments: 1,
    })
}

/// Registers a server where there is room, lists all, and releases it. Its handle tells it while it
/// is there, and nothing afterwards.
pub fn come_and_go(ports: &mut DynamicConfig, server: ServerDetails) -> Option<Visit>
    ensures comes { IsSome result ↔ add_refusal ports.old.servers ≡ None }
    ensures told { IfSome result (λ visit. visit.told ≡ Some server) }
    ensures gone { IfSome result (λ visit. details_of ports.new.servers visit.handle ≡ None) }
    ensures clients { ports.new.clients ≡ ports.old.clients }
{
    let handle = ports.add_server_id(server)?;
    let told = ports.server_details(handle);
    let mut listed = 0u64;
    ports.list_servers(|_| {
        listed = listed.saturating_add(1);
        CallbackProgression::Continue
    });
    ports.release_server_handle(handle).unwrap();
    Some(Visit {
        handle,
        told,
        listed,
    })
}
