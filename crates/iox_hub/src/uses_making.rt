//! Callers that make ports, proved only from the clauses.
ghost use Rattle.std.specs.Prelude.{◌≡◌, ◌<◌, ◌^◌, IfOk, OnErr, false, true};
ghost use Rattle.iox_model.specs.declared.kind.Kind.TheVariants.{Client, Server};
ghost use Rattle.iox_model.specs.declared.kind.Role.TheVariants as roles;
ghost use Rattle.iox_hub.specs.Hubs.{HasValue, IsReached};
ghost use Rattle.iox_hub.specs.Making.{StaysAs};

use crate::{Hub, MessageShape, Options, Part, default_settings};
use iox_control::Received;
use iox_control_making::NotMade;
use iox_model::kind::{Kind, Role};
use iox_store::{Many, One};
use iox_types::TypeDetailError;
use iox_types::identifiers::UniqueSystemId;
use std::alloc::{AllocError, Global};

/// Requests are one number, responses are any number of bytes.
pub type Bytes = Hub<One<u64>, (), Many<u8>, ()>;

/// A hub is made of the types of its messages, with the settings where nobody sets others.
pub fn makes_bytes(alloc: Global) -> Result<Bytes, AllocError>
    ensures one { IfOk result (λ hub. hub.request.many ≡ false) }
    ensures any { IfOk result (λ hub. hub.response.many ≡ true) }
    ensures clients { IfOk result (λ hub. hub.control.tables.settings.clients ≡ 8) }
{
    let request = MessageShape::of_requests(None, ());
    let response = MessageShape::of_responses(None, ());
    Hub::new(alloc, default_settings(), request, response)
}

/// In such a hub no node has anything, and a client may be made.
pub fn makes_bytes_with_a_client(
    alloc: Global,
    node: u64,
    id: UniqueSystemId,
    options: Options,
) -> Result<Option<u64>, AllocError> {
    let mut hub = makes_bytes(alloc)?;
    match hub.make_port(alloc, node, Role::Client, id, options, None) {
        Ok(client) => {
            prove!(hub.has(node, client, Kind::Client, 0));
            Ok(Some(client))
        }
        Err(_) => Ok(None),
    }
}

/// A hub of messages whose parts in memory are chosen is made once these were tested.
pub fn makes_of_parts(
    alloc: Global,
    header: Part,
    element: Part,
) -> Result<Option<Bytes>, TypeDetailError> {
    let request = MessageShape {
        default: Some(1),
        user_header: (),
        header_part: header,
        user_part: Part::of::<()>(),
        element_part: element,
    };
    let response = MessageShape::of_responses(None, ());
    Ok(Hub::new(alloc, default_settings(), request.checked()?, response).ok())
}

/// A message of one of these hubs has one element, or any number.
pub fn has_one_or_any(hub: &Bytes)
    ensures one { hub.now.request.many ≡ false }
    ensures any { hub.now.response.many ≡ true }
{
    hub.is_of_its_types();
}

/// A node that has a client makes a server, and has both.
pub fn makes_server_beside(
    hub: &mut Hub<Many<u64>, u32, One<u64>, ()>,
    alloc: Global,
    node: u64,
    client: u64,
    id: UniqueSystemId,
    options: Options,
) -> Result<u64, NotMade>
    requires client { HasValue hub.old node client Client }
    ensures client { HasValue hub.new node client Client }
    ensures server { IfOk result (λ server. HasValue hub.new node server Server) }
    ensures reached { IsReached hub.new }
{
    let server = hub.make_port(alloc, node, Role::Server, id, options, None);
    hub.calls();
    server
}

/// A node makes a client and then a server, and has both.
pub fn makes_both(
    hub: &mut Hub<Many<u64>, u32, One<u64>, ()>,
    alloc: Global,
    node: u64,
    id: UniqueSystemId,
    options: Options,
) -> Result<(u64, u64), NotMade>
    ensures client { IfOk result (λ both. HasValue hub.new node both.0 Client) }
    ensures server { IfOk result (λ both. HasValue hub.new node both.1 Server) }
    ensures reached { IsReached hub.new }
{
    let client = match hub.make_port(alloc, node, Role::Client, id, options, None) {
        Ok(number) => number,
        Err(reason) => {
            hub.calls();
            return Err(reason);
        }
    };
    match makes_server_beside(hub, alloc, node, client, id, options) {
        Ok(server) => Ok((client, server)),
        Err(reason) => Err(reason),
    }
}

/// A node receives with a server that it has just made.
pub fn receives_with_a_new_server(
    hub: &mut Hub<Many<u64>, u32, One<u64>, ()>,
    alloc: Global,
    node: u64,
    id: UniqueSystemId,
    options: Options,
) -> Result<Received, NotMade>
    ensures { OnErr result (StaysAs hub.old hub.new) }
{
    match hub.make_port(alloc, node, Role::Server, id, options, None) {
        Ok(server) => {
            if hub.calls() < 1 << 56 && hub.has(node, server, Kind::Server, 0) {
                return Ok(hub.receive_request(node, server, 0));
            }
            Ok(Received::Nothing)
        }
        Err(reason) => Err(reason),
    }
}
