//! A client asks and a server answers by copies, with other calls in between, proved only
//! from the clauses of typed ports.
ghost use Rattle.std.specs.Bool.{OnTrue};
ghost use Rattle.std.specs.Prelude.{◌≡◌, ◌∷◌, IfOk, IfSome, OnOk, [], true};
ghost use Rattle.iceoryx2_ports.specs.Asking.{AllAsk, IsQuiet, is_open_at};
ghost use Rattle.iceoryx2_ports.specs.Calls.{HasCallsLeft};
ghost use Rattle.iceoryx2_ports.specs.Hubs.{HasValue};
ghost use Rattle.iceoryx2_ports.specs.Idling.{IsIdle};
ghost use Rattle.iceoryx2_ports.specs.Kind.TheVariants as kinds;
ghost use Rattle.iceoryx2_ports.specs.Reaching.{SomeCanCome};
ghost use Rattle.iceoryx2_ports.specs.Responses.{answerer_in, asker_in, is_open};
ghost use Rattle.iceoryx2_ports.specs.Waiting.{AllCarry, client_in, server_of};

use crate::uses_round_trip::{hears_789, serves_456};
use crate::{
    ActiveRequest, Client, Hub, One, PendingResponse, PortFactoryClient, PortFactoryServer,
    RequestSendError, Response, Server, UniqueSystemId,
};
use std::alloc::Global;

/// A client sends a copy of 456. A server that was idle can receive just that, and the client,
/// which was idle for each request, can wait for its response.
pub fn copies_456(
    client: &Client<One<u64>, (), One<u64>, ()>,
    server: &Server<One<u64>, (), One<u64>, ()>,
    hub: &mut Hub<One<u64>, (), One<u64>, ()>,
) -> Result<PendingResponse<One<u64>, (), One<u64>, ()>, RequestSendError>
    requires client { HasValue hub.old client.now.node client.now.number kinds.Client }
    requires server { HasValue hub.old server.now.node server.now.number kinds.Server }
    requires idle { IsIdle hub.old (server_of server.now.number) }
    requires quiet { IsQuiet hub.old client.now.number }
    ensures has { IfOk result (λ pending.
        HasValue hub.new pending.node pending.number kinds.PendingResponse) }
    ensures server { HasValue hub.new server.now.node server.now.number kinds.Server }
    ensures carries { OnOk result (AllCarry hub.new (server_of server.now.number) (456 ∷ [])) }
    ensures comes { OnOk result (SomeCanCome hub.new (server_of server.now.number)) }
    ensures asks { IfOk result (λ pending. AllAsk hub.new (server_of server.now.number)
        (client_in hub.new pending.node pending.number)) }
    ensures opened { IfOk result (λ pending. is_open_at hub.new
        (client_in hub.new pending.node pending.number) server.now.number ≡ true) }
    ensures waits { IfOk result (λ pending.
        IsIdle hub.new (client_in hub.new pending.node pending.number)) }
{
    let pending = client.send_copy(hub, 456)?;
    Ok(pending)
}

/// The server of an open request sends a copy of 789. The client, which was idle, can receive just
/// that.
pub fn copies_789(
    request: &ActiveRequest<One<u64>, (), One<u64>, ()>,
    pending: &PendingResponse<One<u64>, (), One<u64>, ()>,
    hub: &mut Hub<One<u64>, (), One<u64>, ()>,
) -> bool
    requires request { HasValue hub.old request.now.node request.now.number kinds.ActiveRequest }
    requires pending { HasValue hub.old pending.now.node pending.now.number kinds.PendingResponse }
    requires asker { asker_in hub.old request.now.node request.now.number
        ≡ client_in hub.old pending.now.node pending.now.number }
    requires opened { is_open hub.old request.now.node request.now.number ≡ true }
    requires waits { IsIdle hub.old (client_in hub.old pending.now.node pending.now.number) }
    ensures has { HasValue hub.new pending.now.node pending.now.number kinds.PendingResponse }
    ensures carries { OnTrue result (AllCarry hub.new
        (client_in hub.new pending.now.node pending.now.number) (789 ∷ [])) }
    ensures comes { OnTrue result (SomeCanCome hub.new
        (client_in hub.new pending.now.node pending.now.number)) }
{
    request.send_copy(hub, 789).is_ok()
}

/// The whole way by copies: a client and a server are made, the client asks with 456, the server
/// reads that and answers with 789, the client reads that, and all is released. What either side
/// reads is what the other sent.
pub fn goes_by_copies(
    hub: &mut Hub<One<u64>, (), One<u64>, ()>,
    alloc: Global,
    node: u64,
    id: UniqueSystemId,
) -> Option<(u64, u64)>
    ensures { IfSome result (λ both. both ≡ (456, 789)) }
{
    let client = PortFactoryClient::new(node, id).create(alloc, hub).ok()?;
    let Ok(server) = PortFactoryServer::new(node, id).create(alloc, hub) else {
        client.release(hub);
        return None;
    };
    let mut both = None;
    if let Ok(pending) = copies_456(&client, &server, hub) {
        if hub.calls() < 1 << 56 {
            let (read, request) = serves_456(&server, &pending, hub);
            if copies_789(&request, &pending, hub) && hub.calls() < 1 << 56 {
                both = Some((read, hears_789(&pending, hub)));
            }
            request.release(hub);
        }
        pending.release(hub);
    }
    client.release(hub);
    server.release(hub);
    both
}

/// A server of an open request receives another one, if one is there, and sends a first response.
/// The request is open still, and of the same client.
pub fn does_other_calls(
    server: &Server<One<u64>, (), One<u64>, ()>,
    request: &ActiveRequest<One<u64>, (), One<u64>, ()>,
    pending: &PendingResponse<One<u64>, (), One<u64>, ()>,
    hub: &mut Hub<One<u64>, (), One<u64>, ()>,
) -> Option<ActiveRequest<One<u64>, (), One<u64>, ()>>
    requires server { HasValue hub.old server.now.node server.now.number kinds.Server }
    requires request { HasValue hub.old request.now.node request.now.number kinds.ActiveRequest }
    requires pending { HasValue hub.old pending.now.node pending.now.number kinds.PendingResponse }
    requires calls { HasCallsLeft hub.old }
    requires asker { asker_in hub.old request.now.node request.now.number
        ≡ client_in hub.old pending.now.node pending.now.number }
    requires answerer { answerer_in hub.old request.now.node request.now.number
        ≡ server.now.number }
    requires opened { is_open hub.old request.now.node request.now.number ≡ true }
    ensures request { HasValue hub.new request.now.node request.now.number kinds.ActiveRequest }
    ensures pending { HasValue hub.new pending.now.node pending.now.number kinds.PendingResponse }
    ensures asker { asker_in hub.new request.now.node request.now.number
        ≡ client_in hub.new pending.now.node pending.now.number }
    ensures opened { is_open hub.new request.now.node request.now.number ≡ true }
{
    let other = server.receive(hub).ok()?;
    let _ = request.send_copy(hub, 1);
    other
}

/// A client gives up a response to another request. An open request is open still, where its client
/// still waits and its server is there.
pub fn gives_up_another(
    response: Response<One<u64>, (), One<u64>, ()>,
    request: &ActiveRequest<One<u64>, (), One<u64>, ()>,
    pending: &PendingResponse<One<u64>, (), One<u64>, ()>,
    server: &Server<One<u64>, (), One<u64>, ()>,
    hub: &mut Hub<One<u64>, (), One<u64>, ()>,
) -> bool
    requires request { HasValue hub.old request.now.node request.now.number kinds.ActiveRequest }
    requires pending { HasValue hub.old pending.now.node pending.now.number kinds.PendingResponse }
    requires asker { asker_in hub.old request.now.node request.now.number
        ≡ client_in hub.old pending.now.node pending.now.number }
    requires answerer { answerer_in hub.old request.now.node request.now.number
        ≡ server.now.number }
    requires opened { is_open hub.old request.now.node request.now.number ≡ true }
    ensures { OnTrue result
        (is_open hub.new request.now.node request.now.number ≡ true) }
{
    response.release(hub);
    request.exists(hub) && pending.exists(hub) && server.exists(hub)
}
