//! An exchange of typed ports: a client asks, a server answers. Two functions own its hub, and lend
//! it to what a test names. All others make one call or two of it, and promise nothing.

use crate::expected::equal;
use iceoryx2_ports::{
    ActiveRequest, AllocationStrategy, BackpressureStrategy, Client, Hub, LoanError, Many,
    MessageShape, One, Part, PendingResponse, PortFactoryClient, PortFactoryServer, RequestMut,
    RequestMutUninit, RequestSendError, Response, ResponseMut, ResponseMutUninit, SendError,
    Server, Settings,
};
use iox_types::identifiers::UniqueSystemId;
use std::alloc::{AllocError, Global};
use std::fmt::Debug;
use std::process::Abort;

/// Requests of one number, responses of any number of bytes.
pub type Exchange = Hub<One<u64>, (), Many<u8>, u32>;

/// A client of an exchange.
pub type Asker = Client<One<u64>, (), Many<u8>, u32>;

/// A server of an exchange.
pub type Answerer = Server<One<u64>, (), Many<u8>, u32>;

/// What a client has of a request until it is over.
pub type Pending = PendingResponse<One<u64>, (), Many<u8>, u32>;

/// A request that a server received.
pub type Active = ActiveRequest<One<u64>, (), Many<u8>, u32>;

/// A loaned request that is not filled yet.
pub type Unasked = RequestMutUninit<One<u64>, (), Many<u8>, u32>;

/// A loaned request that is filled.
pub type Asking = RequestMut<One<u64>, (), Many<u8>, u32>;

/// A loaned response that is not filled yet.
pub type Unanswered = ResponseMutUninit<One<u64>, (), Many<u8>, u32>;

/// A loaned response that is filled.
pub type Answering = ResponseMut<One<u64>, (), Many<u8>, u32>;

/// A response that a client received.
pub type Heard = Response<One<u64>, (), Many<u8>, u32>;

/// To how many servers a request went, or why it did not.
pub type Told = Option<Result<u64, RequestSendError>>;

/// Who the one node is.
pub const NODE: UniqueSystemId = UniqueSystemId {
    process: 1,
    seconds: 2,
    nanoseconds: 3,
    counter: 0,
};

/// How large an element of a request is.
pub const PART: Part = Part {
    size: 8,
    alignment: 8,
};

/// A client may have one request under way, and at most two responses wait for it. The oldest
/// request is pushed out at a full server.
pub const SETTINGS: Settings = Settings {
    clients: 1,
    servers: 2,
    nodes: 2,
    active_requests: 1,
    loaned_requests: 2,
    response_buffer: 2,
    borrowed_responses: 2,
    loaned_responses: 2,
    client_expired: 0,
    server_expired: 0,
    request_overflow: true,
    response_overflow: true,
    fire_and_forget: true,
    client_strategy: BackpressureStrategy::DiscardData,
    server_strategy: BackpressureStrategy::DiscardData,
    client_allocation: AllocationStrategy::Static,
    server_allocation: AllocationStrategy::Static,
};

/// The same, where no request is pushed out.
pub const KEEPING: Settings = Settings {
    request_overflow: false,
    ..SETTINGS
};

/// The same, where a message for a full port is not sent.
pub const RETRYING: Settings = Settings {
    client_strategy: BackpressureStrategy::RetryUntilDelivered,
    server_strategy: BackpressureStrategy::RetryUntilDelivered,
    ..KEEPING
};

/// A hub of these settings, in which no port was made.
fn hub(alloc: Global, settings: &Settings) -> Result<Exchange, AllocError> {
    let request: MessageShape<u64, ()> = MessageShape {
        default: Some(7),
        user_header: (),
        header_part: PART,
        user_part: PART,
        element_part: PART,
    };
    let response: MessageShape<u8, u32> = MessageShape {
        default: None,
        user_header: 3,
        header_part: PART,
        user_part: PART,
        element_part: PART,
    };
    Hub::new(alloc, *settings, request, response)
}

/// What that tells of a new hub of these settings, in which no port was made.
fn in_hub<T, F: FnOnce(&mut Exchange, Global) -> T + Drop>(
    alloc: Global,
    settings: &Settings,
    told: F,
) -> Result<T, AllocError>
    requires { F.IsAlwaysCallable told }
{
    let mut hub = hub(alloc, settings)?;
    Ok(told(&mut hub, alloc))
}

/// What that tells of a client and a server of a new hub of these settings.
fn in_ports<T, F: FnOnce(&mut Exchange, &Asker, &Answerer) -> T + Drop>(
    alloc: Global,
    settings: &Settings,
    told: F,
) -> Result<T, AllocError>
    requires { F.IsAlwaysCallable told }
{
    let mut hub = hub(alloc, settings)?;
    at_ports(&mut hub, alloc, told)
}

/// What that tells of a client and a server of this hub, which are given up then.
pub fn at_ports<T, F: FnOnce(&mut Exchange, &Asker, &Answerer) -> T + Drop>(
    hub: &mut Exchange,
    alloc: Global,
    told: F,
) -> Result<T, AllocError>
    requires { F.IsAlwaysCallable told }
{
    let (client, server) = ports(alloc, hub)?;
    let told = told(hub, &client, &server);
    client.release(hub);
    server.release(hub);
    Ok(told)
}

/// Ends the test if that tells something else of a new hub.
pub fn hub_tells<T: PartialEq + Debug + Drop, F: FnOnce(&mut Exchange, Global) -> T + Drop>(
    rt: &impl Abort,
    alloc: Global,
    settings: &Settings,
    told: F,
    wanted: T,
)
    requires { F.IsAlwaysCallable told }
{
    let told = in_hub(alloc, settings, told).expect(rt, "a hub");
    equal(rt, told, wanted);
}

/// Ends the test if that tells something else of a client and a server of a new hub.
pub fn ports_tell<
    T: PartialEq + Debug + Drop,
    F: FnOnce(&mut Exchange, &Asker, &Answerer) -> T + Drop,
>(rt: &impl Abort, alloc: Global, settings: &Settings, told: F, wanted: T)
    requires { F.IsAlwaysCallable told }
{
    let told = in_ports(alloc, settings, told).expect(rt, "a hub with ports");
    equal(rt, told, wanted);
}

/// A client of node 0.
pub fn asker(alloc: Global, hub: &mut Exchange) -> Option<Asker> {
    PortFactoryClient::new(0, NODE).create(alloc, hub).ok()
}

/// A server of node 1, whose responses have at most four bytes.
pub fn answerer(alloc: Global, hub: &mut Exchange) -> Option<Answerer> {
    let factory = PortFactoryServer::new(1, NODE).initial_max_slice_len(4);
    factory.create(alloc, hub).ok()
}

/// Such a client and such a server.
pub fn ports(alloc: Global, hub: &mut Exchange) -> Result<(Asker, Answerer), AllocError> {
    let Some(client) = asker(alloc, hub) else {
        return Err(AllocError);
    };
    match answerer(alloc, hub) {
        Some(server) => Ok((client, server)),
        None => {
            client.release(hub);
            Err(AllocError)
        }
    }
}

// ---- requests

/// A loaned request that is not filled yet, or why there is none.
pub fn lent(hub: &mut Exchange, client: &Asker) -> Option<Result<Unasked, LoanError>> {
    if client.exists(hub) {
        return Some(client.loan_uninit(hub));
    }
    None
}

/// The loan, filled with that number.
pub fn written(hub: &mut Exchange, loan: Unasked, value: u64) -> Option<Asking> {
    if loan.exists(hub) {
        return Some(loan.write_payload(hub, value));
    }
    loan.release(hub);
    None
}

/// The loan is sent.
pub fn sent(hub: &mut Exchange, request: Asking) -> Option<Result<Pending, RequestSendError>> {
    if hub.calls() < 1 << 56 && request.exists(hub) {
        return Some(request.send(hub));
    }
    request.release(hub);
    None
}

/// Sends that number.
pub fn ask(
    hub: &mut Exchange,
    client: &Asker,
    value: u64,
) -> Option<Result<Pending, RequestSendError>> {
    match lent(hub, client)? {
        Ok(loan) => {
            let request = written(hub, loan, value)?;
            sent(hub, request)
        }
        Err(error) => Some(Err(RequestSendError::from(error))),
    }
}

/// Sends that number, and gives the answer up.
pub fn tell(hub: &mut Exchange, client: &Asker, value: u64) -> Told {
    match ask(hub, client, value)? {
        Ok(pending) => {
            let servers = pending.number_of_server_connections();
            pending.release(hub);
            Some(Ok(servers))
        }
        Err(error) => Some(Err(error)),
    }
}

/// The next request.
pub fn receive(hub: &mut Exchange, server: &Answerer) -> Option<Active> {
    if hub.calls() < 1 << 56 && server.exists(hub) {
        return server.receive(hub).ok()?;
    }
    None
}

/// What the next request says.
pub fn heard(hub: &mut Exchange, server: &Answerer) -> Option<u64> {
    let request = receive(hub, server)?;
    let value = asked(hub, &request);
    request.release(hub);
    value
}

/// What the request says.
pub fn asked(hub: &Exchange, request: &Active) -> Option<u64> {
    if request.exists(hub) {
        return request.first(hub).copied();
    }
    None
}

// ---- responses

/// A loaned response of so many bytes, of which none is filled yet, or why there is none.
pub fn lent_response(
    hub: &mut Exchange,
    request: &Active,
    length: usize,
) -> Option<Result<Unanswered, LoanError>> {
    if request.exists(hub) {
        return Some(request.loan_slice_uninit(hub, length));
    }
    None
}

/// The loan, filled with these bytes. It is given up where they are not as many.
pub fn written_response(hub: &mut Exchange, loan: Unanswered, bytes: &[u8]) -> Option<Answering> {
    if !loan.exists(hub) {
        loan.release(hub);
        return None;
    }
    match loan.write_from_slice(hub, bytes) {
        Ok(response) => Some(response),
        Err(loan) => {
            loan.release(hub);
            None
        }
    }
}

/// The loan is sent.
pub fn sent_response(hub: &mut Exchange, response: Answering) -> Option<Result<(), SendError>> {
    if hub.calls() < 1 << 56 && response.exists(hub) {
        return Some(response.send(hub));
    }
    response.release(hub);
    None
}

/// Answers the request with these bytes.
pub fn answer(hub: &mut Exchange, request: &Active, bytes: &[u8]) -> Option<Result<(), SendError>> {
    match lent_response(hub, request, bytes.len())? {
        Ok(loan) => {
            let response = written_response(hub, loan, bytes)?;
            sent_response(hub, response)
        }
        Err(error) => Some(Err(SendError::from(error))),
    }
}

/// The next response.
pub fn next(hub: &mut Exchange, pending: &Pending) -> Option<Heard> {
    if hub.calls() < 1 << 56 && pending.exists(hub) {
        return pending.receive(hub).ok()?;
    }
    None
}

/// How many bytes the response has, and their sum.
fn summed(hub: &Exchange, response: &Heard) -> Option<(usize, u64)> {
    if !response.exists(hub) {
        return None;
    }
    let mut sum = 0u64;
    let bytes = response.payload(hub);
    for byte in bytes {
        sum = sum.wrapping_add(u64::from(*byte));
    }
    Some((bytes.len(), sum))
}

/// How many bytes the next response has, and their sum.
pub fn answered(hub: &mut Exchange, pending: &Pending) -> Option<(usize, u64)> {
    let response = next(hub, pending)?;
    let told = summed(hub, &response);
    response.release(hub);
    told
}
