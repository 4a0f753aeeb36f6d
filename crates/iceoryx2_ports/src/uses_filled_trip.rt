//! A client asks and a server answers with loans that are filled piece by piece, proved only
//! from the clauses of typed ports.
ghost use Rattle.std.specs.Bool.{OnTrue};
ghost use Rattle.std.specs.Prelude.{◌≡◌, ◌∷◌, IfOk, IfSome, OnOk, OnSome, [], true};
ghost use Rattle.iceoryx2_ports.specs.Asking.{AllAsk, IsQuiet, is_open_at};
ghost use Rattle.iceoryx2_ports.specs.Calls.{HasCallsLeft};
ghost use Rattle.iceoryx2_ports.specs.Hubs.{HasValue};
ghost use Rattle.iceoryx2_ports.specs.Idling.{IsIdle};
ghost use Rattle.iceoryx2_ports.specs.Kind.TheVariants as kinds;
ghost use Rattle.iceoryx2_ports.specs.Reaching.{SomeCanCome};
ghost use Rattle.iceoryx2_ports.specs.Reads.{message_in};
ghost use Rattle.iceoryx2_ports.specs.Responses.{answerer_in, asker_in, is_open};
ghost use Rattle.iceoryx2_ports.specs.Waiting.{AllCarry, client_in, server_of};

use crate::{
    ActiveRequest, Client, Hub, LoanError, One, PendingResponse, PortFactoryClient,
    PortFactoryServer, RequestMut, RequestSendError, ResponseMut, Server, UniqueSystemId,
};
use std::alloc::Global;

/// A client loans a request and fills its one element with 1234. A server that was idle still is,
/// and so is the client for this request, if it was for each.
pub fn fills_1234(
    client: &Client<One<u64>, (), One<u64>, ()>,
    server: &Server<One<u64>, (), One<u64>, ()>,
    hub: &mut Hub<One<u64>, (), One<u64>, ()>,
) -> Result<RequestMut<One<u64>, (), One<u64>, ()>, LoanError>
    requires client { HasValue hub.old client.now.node client.now.number kinds.Client }
    requires idle { IsIdle hub.old (server_of server.now.number) }
    requires quiet { IsQuiet hub.old client.now.number }
    ensures has { IfOk result (λ request.
        HasValue hub.new request.node request.number kinds.RequestMut) }
    ensures carries { IfOk result (λ request.
        (message_in hub.new request.node request.number).payload ≡ 1234 ∷ []) }
    ensures idle { OnOk result (IsIdle hub.new (server_of server.now.number)) }
    ensures waits { IfOk result (λ request.
        IsIdle hub.new (client_in hub.new request.node request.number)) }
{
    let loan = client.loan_uninit(hub)?;
    loan.write_next(hub, 1234);
    match loan.assume_init(hub) {
        Ok(request) => Ok(request),
        Err(loan) => {
            loan.release(hub);
            unreachable!();
        }
    }
}

/// A client fills a request with 1234 and sends it. A server that was idle can receive just that,
/// and the client, which was idle for each request, can wait for its response.
pub fn asks_1234(
    client: &Client<One<u64>, (), One<u64>, ()>,
    server: &Server<One<u64>, (), One<u64>, ()>,
    hub: &mut Hub<One<u64>, (), One<u64>, ()>,
) -> Result<PendingResponse<One<u64>, (), One<u64>, ()>, RequestSendError>
    requires client { HasValue hub.old client.now.node client.now.number kinds.Client }
    requires idle { IsIdle hub.old (server_of server.now.number) }
    requires quiet { IsQuiet hub.old client.now.number }
    ensures has { IfOk result (λ pending.
        HasValue hub.new pending.node pending.number kinds.PendingResponse) }
    ensures carries { OnOk result (AllCarry hub.new (server_of server.now.number) (1234 ∷ [])) }
    ensures comes { OnOk result (SomeCanCome hub.new (server_of server.now.number)) }
    ensures asks { IfOk result (λ pending. AllAsk hub.new (server_of server.now.number)
        (client_in hub.new pending.node pending.number)) }
    ensures opened { IfOk result (λ pending. is_open_at hub.new
        (client_in hub.new pending.node pending.number) server.now.number ≡ true) }
    ensures waits { IfOk result (λ pending.
        IsIdle hub.new (client_in hub.new pending.node pending.number)) }
{
    let request = fills_1234(client, server, hub)?;
    if hub.calls() >= 1 << 56 || !server.exists(hub) {
        request.release(hub);
        return Err(RequestSendError::from(LoanError::CallsSpent));
    }
    let pending = request.send(hub)?;
    Ok(pending)
}

/// A server that can receive only that request receives it, and reads 1234. It is open, and its
/// client still waits for the response.
pub fn serves_1234(
    server: &Server<One<u64>, (), One<u64>, ()>,
    pending: &PendingResponse<One<u64>, (), One<u64>, ()>,
    hub: &mut Hub<One<u64>, (), One<u64>, ()>,
) -> (u64, ActiveRequest<One<u64>, (), One<u64>, ()>)
    requires server { HasValue hub.old server.now.node server.now.number kinds.Server }
    requires pending { HasValue hub.old pending.now.node pending.now.number kinds.PendingResponse }
    requires calls { HasCallsLeft hub.old }
    requires carries { AllCarry hub.old (server_of server.now.number) (1234 ∷ []) }
    requires comes { SomeCanCome hub.old (server_of server.now.number) }
    requires asks { AllAsk hub.old (server_of server.now.number)
        (client_in hub.old pending.now.node pending.now.number) }
    requires opened { is_open_at hub.old (client_in hub.old pending.now.node pending.now.number)
        server.now.number ≡ true }
    requires waits { IsIdle hub.old (client_in hub.old pending.now.node pending.now.number) }
    ensures read { result.0 ≡ 1234 }
    ensures has { HasValue hub.new result.1.node result.1.number kinds.ActiveRequest }
    ensures asker { asker_in hub.new result.1.node result.1.number
        ≡ client_in hub.new pending.now.node pending.now.number }
    ensures answerer { answerer_in hub.new result.1.node result.1.number ≡ server.now.number }
    ensures opened { is_open hub.new result.1.node result.1.number ≡ true }
    ensures waits { IsIdle hub.new (client_in hub.new pending.now.node pending.now.number) }
    ensures pending { HasValue hub.new pending.now.node pending.now.number kinds.PendingResponse }
{
    let Ok(Some(request)) = server.receive(hub) else {
        unreachable!();
    };
    let Some(value) = request.first(hub).copied() else {
        unreachable!();
    };
    (value, request)
}

/// The server of an open request loans a response, fills it with 1234, and writes 456 over that.
/// The response is for the request, which is open still, and the client, which was idle, still is.
pub fn fills_456_over_1234(
    request: &ActiveRequest<One<u64>, (), One<u64>, ()>,
    pending: &PendingResponse<One<u64>, (), One<u64>, ()>,
    hub: &mut Hub<One<u64>, (), One<u64>, ()>,
) -> Option<ResponseMut<One<u64>, (), One<u64>, ()>>
    requires request { HasValue hub.old request.now.node request.now.number kinds.ActiveRequest }
    requires pending { HasValue hub.old pending.now.node pending.now.number kinds.PendingResponse }
    requires asker { asker_in hub.old request.now.node request.now.number
        ≡ client_in hub.old pending.now.node pending.now.number }
    requires opened { is_open hub.old request.now.node request.now.number ≡ true }
    requires waits { IsIdle hub.old (client_in hub.old pending.now.node pending.now.number) }
    ensures has { IfSome result (λ response.
        HasValue hub.new response.node response.number kinds.ResponseMut) }
    ensures carries { IfSome result (λ response.
        (message_in hub.new response.node response.number).payload ≡ 456 ∷ []) }
    ensures asker { IfSome result (λ response. asker_in hub.new response.node response.number
        ≡ client_in hub.old pending.now.node pending.now.number) }
    ensures answerer { IfSome result (λ response. answerer_in hub.new response.node response.number
        ≡ answerer_in hub.old request.now.node request.now.number) }
    ensures opened { IfSome result (λ response.
        is_open hub.new response.node response.number ≡ true) }
    ensures waits { OnSome result
        (IsIdle hub.new (client_in hub.old pending.now.node pending.now.number)) }
    ensures asks { OnSome result (client_in hub.new pending.now.node pending.now.number
        ≡ client_in hub.old pending.now.node pending.now.number) }
{
    let loan = request.loan_uninit(hub).ok()?;
    loan.write_next(hub, 1234);
    Some(loan.write_payload(hub, 456))
}

/// The server of an open request fills a response with 1234, writes 456 over that, and sends it.
/// The client, which was idle, can receive just 456.
pub fn answers_456_over_1234(
    request: &ActiveRequest<One<u64>, (), One<u64>, ()>,
    server: &Server<One<u64>, (), One<u64>, ()>,
    pending: &PendingResponse<One<u64>, (), One<u64>, ()>,
    hub: &mut Hub<One<u64>, (), One<u64>, ()>,
) -> bool
    requires request { HasValue hub.old request.now.node request.now.number kinds.ActiveRequest }
    requires pending { HasValue hub.old pending.now.node pending.now.number kinds.PendingResponse }
    requires asker { asker_in hub.old request.now.node request.now.number
        ≡ client_in hub.old pending.now.node pending.now.number }
    requires answerer { answerer_in hub.old request.now.node request.now.number
        ≡ server.now.number }
    requires opened { is_open hub.old request.now.node request.now.number ≡ true }
    requires waits { IsIdle hub.old (client_in hub.old pending.now.node pending.now.number) }
    ensures carries { OnTrue result (AllCarry hub.new
        (client_in hub.new pending.now.node pending.now.number) (456 ∷ [])) }
    ensures comes { OnTrue result (SomeCanCome hub.new
        (client_in hub.new pending.now.node pending.now.number)) }
{
    let Some(response) = fills_456_over_1234(request, pending, hub) else {
        return false;
    };
    if hub.calls() < 1 << 56 && server.exists(hub) && pending.exists(hub) {
        return response.send(hub).is_ok();
    }
    response.release(hub);
    false
}

/// A client that can receive only 456 reads 456.
pub fn hears_456(
    pending: &PendingResponse<One<u64>, (), One<u64>, ()>,
    hub: &mut Hub<One<u64>, (), One<u64>, ()>,
) -> u64
    requires has { HasValue hub.old pending.now.node pending.now.number kinds.PendingResponse }
    requires calls { HasCallsLeft hub.old }
    requires carries { AllCarry hub.old (client_in hub.old pending.now.node pending.now.number)
        (456 ∷ []) }
    requires comes { SomeCanCome hub.old
        (client_in hub.old pending.now.node pending.now.number) }
    ensures { result ≡ 456 }
{
    let Ok(Some(response)) = pending.receive(hub) else {
        unreachable!();
    };
    let Some(value) = response.first(hub).copied() else {
        unreachable!();
    };
    response.release(hub);
    value
}

/// The whole way by fillings: a client and a server are made, the client fills a request with 1234
/// and sends it, the server reads that, fills a response with 1234, writes 456 over it and sends
/// it, the client reads 456, and all is released.
pub fn goes_by_fillings(
    hub: &mut Hub<One<u64>, (), One<u64>, ()>,
    alloc: Global,
    node: u64,
    id: UniqueSystemId,
) -> Option<(u64, u64)>
    ensures { IfSome result (λ both. both ≡ (1234, 456)) }
{
    let client = PortFactoryClient::new(node, id).create(alloc, hub).ok()?;
    let Ok(server) = PortFactoryServer::new(node, id).create(alloc, hub) else {
        client.release(hub);
        return None;
    };
    let mut both = None;
    if let Ok(pending) = asks_1234(&client, &server, hub) {
        if hub.calls() < 1 << 56 && server.exists(hub) {
            let (read, request) = serves_1234(&server, &pending, hub);
            if answers_456_over_1234(&request, &server, &pending, hub) {
                if hub.calls() < 1 << 56 && pending.exists(hub) {
                    both = Some((read, hears_456(&pending, hub)));
                }
            }
            request.release(hub);
        }
        pending.release(hub);
    }
    client.release(hub);
    server.release(hub);
    both
}
