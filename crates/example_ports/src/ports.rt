//! A client and a server: requests are one number, responses are as many bytes.
ghost use Rattle.std.specs.Prelude.{◌≡◌, ◌∷◌, ℕ, []};
ghost use Rattle.iceoryx2_ports.specs.Hubs.{HasValue};
ghost use Rattle.iceoryx2_ports.specs.Kind.TheVariants as kinds;
ghost use Rattle.iceoryx2_ports.specs.Reads.{message_in};
ghost use Rattle.iceoryx2_ports.specs.Sends.{BringsOnly};

use iceoryx2_ports::{
    ActiveRequest, BackpressureStrategy, Client, Hub, LoanError, Many, MessageShape, One,
    PendingResponse, PortFactoryClient, PortFactoryServer, RequestSendError, SendError, Server,
    Settings, UniqueSystemId, default_settings,
};
use std::alloc::{AllocError, Global};

/// Requests of one number, responses of any number of bytes, and no user headers.
pub type Bytes = Hub<One<u64>, (), Many<u8>, ()>;

/// A client of this service.
pub type Asker = Client<One<u64>, (), Many<u8>, ()>;

/// A server of this service.
pub type Answerer = Server<One<u64>, (), Many<u8>, ()>;

type Pending = PendingResponse<One<u64>, (), Many<u8>, ()>;

type Active = ActiveRequest<One<u64>, (), Many<u8>, ()>;

/// The node that has both ports.
const NODE: u64 = 0;

/// Who the node is.
const NODE_ID: UniqueSystemId = UniqueSystemId {
    process: 1,
    seconds: 2,
    nanoseconds: 3,
    counter: 0,
};

/// A hub in which no port was made. A full receiver is passed over.
pub fn service(alloc: Global) -> Result<Bytes, AllocError> {
    let settings = Settings {
        client_strategy: BackpressureStrategy::DiscardData,
        server_strategy: BackpressureStrategy::DiscardData,
        ..default_settings()
    };
    let request = MessageShape::of_requests(None, ());
    let response = MessageShape::of_responses(None, ());
    Hub::new(alloc, settings, request, response)
}

/// A client, and a server whose responses have at most eight bytes.
pub fn ports(alloc: Global, hub: &mut Bytes) -> Option<(Asker, Answerer)> {
    let Ok(client) = PortFactoryClient::new(NODE, NODE_ID).create(alloc, hub) else {
        return None;
    };
    let server = PortFactoryServer::new(NODE, NODE_ID).initial_max_slice_len(8);
    match server.create(alloc, hub) {
        Ok(server) => Some((client, server)),
        Err(_) => {
            client.release(hub);
            None
        }
    }
}

/// Asks for that many bytes, and tells the sum of those that come back.
pub fn round_trip(hub: &mut Bytes, client: &Asker, server: &Answerer, number: u64) -> Option<u64> {
    if !client.exists(hub) {
        return None;
    }
    let Ok(pending) = ask(hub, client, number) else {
        return None;
    };
    serve(hub, server);
    let sum = hear(hub, &pending);
    pending.release(hub);
    sum
}

/// A client asks for that many bytes. For whom nothing waited, nothing but this number waits then.
fn ask(hub: &mut Bytes, client: &Asker, number: u64) -> Result<Pending, RequestSendError>
    requires { HasValue hub.old client.now.node client.now.number kinds.Client }
    ensures { BringsOnly hub.old (number ∷ []) hub.new }
{
    client.send_copy(hub, number)
}

/// Answers the next request, and says whether it was answered.
fn serve(hub: &mut Bytes, server: &Answerer) -> bool {
    if hub.calls() >= 1 << 56 || !server.exists(hub) {
        return false;
    }
    match server.receive(hub) {
        Ok(Some(request)) => {
            let answered = answer(hub, &request).is_ok();
            request.release(hub);
            answered
        }
        Ok(None) => false,
        Err(_) => false,
    }
}

/// How many bytes the request asks for: the number that it carries.
fn wanted(hub: &Bytes, request: &Active) -> u64
    requires { HasValue hub.now request.now.node request.now.number kinds.ActiveRequest }
    ensures { (number : ℕ) → (message_in hub.now request.now.node request.now.number).payload
        ≡ number ∷ [] → result ≡ number }
{
    request.first(hub).copied().unwrap_or(0)
}

/// A server answers with as many bytes as were asked for: 0, 1, 2 ..
fn answer(hub: &mut Bytes, request: &Active) -> Result<(), SendError>
    requires { HasValue hub.old request.now.node request.now.number kinds.ActiveRequest }
{
    let wanted = wanted(hub, request);
    let loan = request.loan_slice_uninit(hub, wanted as usize)?;
    let response = loan.write_from_fn(hub, |index| (index % 256) as u8);
    if hub.calls() < 1 << 56 {
        return response.send(hub);
    }
    response.release(hub);
    Err(SendError::from(LoanError::CallsSpent))
}

/// The sum of the bytes of the next response.
fn hear(hub: &mut Bytes, pending: &Pending) -> Option<u64> {
    if hub.calls() >= 1 << 56 || !pending.exists(hub) {
        return None;
    }
    match pending.receive(hub) {
        Ok(Some(response)) => {
            let mut sum = 0u64;
            for byte in response.payload(hub) {
                sum = sum.wrapping_add(u64::from(*byte));
            }
            response.release(hub);
            Some(sum)
        }
        Ok(None) => None,
        Err(_) => None,
    }
}
