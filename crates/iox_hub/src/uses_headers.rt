//! Callers that read headers and ids of a hub, proved only from its clauses.
ghost use Rattle.std.specs.Prelude.{◌≡◌, true};
ghost use Rattle.iox_model.specs.declared.kind.Kind.TheVariants.{ActiveRequest, Client, RequestMut};
ghost use Rattle.iox_hub.specs.Headers.{header_in, sender_in};
ghost use Rattle.iox_hub.specs.Hubs.{HasValue};
ghost use Rattle.iox_hub.specs.Reads.{message_in};

use crate::Hub;
use iox_backpressure::Backpressure;
use iox_store::Payload;
use iox_types::identifiers::UniqueSystemId;
use iox_words::Words;

/// A request names the client that sent it by its id.
pub fn names_its_client<Q: Payload, QH: Words, P: Payload, PH: Words, H: Backpressure>(
    hub: &Hub<Q, QH, P, PH, H>,
    node: u64,
    client: u64,
    other: u64,
    request: u64,
) -> bool
    requires client { HasValue hub.now node client Client }
    requires request { HasValue hub.now other request ActiveRequest }
    ensures { sender_in hub.now other request ≡ client → result ≡ true }
{
    hub.message_header(other, request, 0).port_id == hub.port_id(node, client)
}

/// The same header is told wherever the handle is looked for first.
pub fn is_the_same_from_each_hint<Q: Payload, QH: Words, P: Payload, PH: Words, H: Backpressure>(
    hub: &Hub<Q, QH, P, PH, H>,
    node: u64,
    loan: u64,
) -> bool
    requires { HasValue hub.now node loan RequestMut }
    ensures { result ≡ true }
{
    hub.message_header(node, loan, 0) == hub.message_header(node, loan, 7)
}

/// How many elements a loaned request has, and which client has it loaned.
pub fn tells_a_loan<Q: Payload, QH: Words, P: Payload, PH: Words, H: Backpressure>(
    hub: &Hub<Q, QH, P, PH, H>,
    node: u64,
    loan: u64,
) -> (u64, UniqueSystemId)
    requires { HasValue hub.now node loan RequestMut }
    ensures elements { result.0 ≡ (message_in hub.now node loan).elements }
    ensures client { result.1 ≡ (header_in hub.now node loan).port_id }
{
    let header = hub.message_header(node, loan, 0);
    (header.elements, header.port_id)
}
