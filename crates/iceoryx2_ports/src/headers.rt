//! The headers of requests and responses.
ghost use Rattle.std.specs.Prelude.{◌≡◌, ◌%◌, ◌^◌};
ghost use Rattle.iceoryx2_ports.specs.Headers.{request_header_of, response_header_of};

use iox_hub_laws::MessageHeader;
use iox_types::identifiers::{UniqueClientId, UniqueNodeId, UniqueNodeIdError, UniqueServerId};
use iox_types::{RequestHeader, RequestId, ResponseHeader};

/// The request of that number, counted modulo 2^62.
fn request_id(request: u64) -> RequestId
    ensures { result ≡ request % 2 ^ 62 }
{
    let Some(id) = RequestId::new(request % (1 << 62)) else {
        unreachable!();
    };
    id
}

/// The header of a request that has this one. It fails where its sender's node is none.
pub(crate) fn request_header(header: MessageHeader) -> Result<RequestHeader, UniqueNodeIdError>
    ensures { result ≡ request_header_of header }
{
    Ok(RequestHeader {
        node_id: UniqueNodeId::new(header.node_id)?,
        client_id: UniqueClientId::new(header.port_id),
        channel_id: header.lane,
        request_id: request_id(header.request),
        number_of_elements: header.elements,
    })
}

/// The header of a response that has this one. It fails where its sender's node is none.
pub(crate) fn response_header(header: MessageHeader) -> Result<ResponseHeader, UniqueNodeIdError>
    ensures { result ≡ response_header_of header }
{
    Ok(ResponseHeader {
        node_id: UniqueNodeId::new(header.node_id)?,
        server_id: UniqueServerId::new(header.port_id),
        request_id: request_id(header.request),
        number_of_elements: header.elements,
    })
}
