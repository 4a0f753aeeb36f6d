//! What is sent is received, proved only from the clauses of typed ports.
ghost use Rattle.std.specs.Prelude.{◌≡◌, ◌∷◌, ℕ, IfOk, IfSome, OnOk, []};
ghost use Rattle.iceoryx2_ports.specs.Calls.{HasCallsLeft};
ghost use Rattle.iceoryx2_ports.specs.Kind.TheVariants as kinds;
ghost use Rattle.iceoryx2_ports.specs.Hubs.{HasValue};
ghost use Rattle.iceoryx2_ports.specs.Idling.{AwaitsOne, IsIdle};
ghost use Rattle.iceoryx2_ports.specs.Reads.{message_in};
ghost use Rattle.iceoryx2_ports.specs.Reaching.{HasRoomForEach, SomeCanCome};
ghost use Rattle.iceoryx2_ports.specs.Waiting.{AllCarry, NothingWaits, server_of};

use crate::{
    Client, Hub, LoanError, One, PendingResponse, PortFactoryClient, PortFactoryServer, RequestMut,
    RequestSendError, Server, UniqueSystemId,
};
use std::alloc::Global;

/// A client sends a copy of 456. A server that has room for it, and for which nothing waited,
/// receives it, and reads just that.
pub fn copies_456(
    client: &Client<One<u64>, (), One<u64>, ()>,
    server: &Server<One<u64>, (), One<u64>, ()>,
    hub: &mut Hub<One<u64>, (), One<u64>, ()>,
) -> Result<u64, RequestSendError>
    requires client { HasValue hub.old client.now.node client.now.number kinds.Client }
    requires server { HasValue hub.old server.now.node server.now.number kinds.Server }
    requires none { NothingWaits hub.old (server_of server.now.number) }
    requires room { HasRoomForEach hub.old (server_of server.now.number) }
    ensures { IfOk result (λ value. value ≡ 456) }
{
    let pending = client.send_copy(hub, 456)?;
    if hub.calls() >= 1 << 56 {
        pending.release(hub);
        return Err(RequestSendError::from(LoanError::CallsSpent));
    }
    let Ok(Some(request)) = server.receive(hub) else {
        unreachable!();
    };
    let Some(value) = request.first(hub).copied() else {
        unreachable!();
    };
    request.release(hub);
    pending.release(hub);
    Ok(value)
}

/// A request that carries 456 is sent. A server that has room for it, and for which nothing waited,
/// can receive something then, and nothing but 456.
pub fn sends_456(
    request: RequestMut<One<u64>, (), One<u64>, ()>,
    server: &Server<One<u64>, (), One<u64>, ()>,
    hub: &mut Hub<One<u64>, (), One<u64>, ()>,
) -> Result<PendingResponse<One<u64>, (), One<u64>, ()>, RequestSendError>
    requires has { HasValue hub.old request.node request.number kinds.RequestMut }
    requires carries { (message_in hub.old request.node request.number).payload ≡ 456 ∷ [] }
    requires calls { HasCallsLeft hub.old }
    requires server { HasValue hub.old server.now.node server.now.number kinds.Server }
    requires none { NothingWaits hub.old (server_of server.now.number) }
    requires room { HasRoomForEach hub.old (server_of server.now.number) }
    ensures carries { OnOk result (AllCarry hub.new (server_of server.now.number) (456 ∷ [])) }
    ensures comes { OnOk result (SomeCanCome hub.new (server_of server.now.number)) }
{
    let pending = request.send(hub)?;
    Ok(pending)
}

/// A server that can receive something, and nothing but 456, reads 456.
pub fn receives_456(
    server: &Server<One<u64>, (), One<u64>, ()>,
    hub: &mut Hub<One<u64>, (), One<u64>, ()>,
) -> u64
    requires has { HasValue hub.old server.now.node server.now.number kinds.Server }
    requires calls { HasCallsLeft hub.old }
    requires all { AllCarry hub.old (server_of server.now.number) (456 ∷ []) }
    requires some { SomeCanCome hub.old (server_of server.now.number) }
    ensures { result ≡ 456 }
{
    let Ok(Some(request)) = server.receive(hub) else {
        unreachable!();
    };
    let Some(value) = request.first(hub).copied() else {
        unreachable!();
    };
    request.release(hub);
    value
}

/// A server for which one message waits reads what that carries, and is idle then.
pub fn reads_the_one(
    server: &Server<One<u64>, (), One<u64>, ()>,
    hub: &mut Hub<One<u64>, (), One<u64>, ()>,
) -> u64
    requires has { HasValue hub.old server.now.node server.now.number kinds.Server }
    requires calls { HasCallsLeft hub.old }
    requires one { AwaitsOne hub.old (server_of server.now.number) }
    requires some { SomeCanCome hub.old (server_of server.now.number) }
    requires all { (value : ℕ) × AllCarry hub.old (server_of server.now.number) (value ∷ []) }
    ensures read { (value : ℕ) → AllCarry hub.old (server_of server.now.number) (value ∷ [])
        → result ≡ value }
    ensures idle { IsIdle hub.new (server_of server.now.number) }
{
    let Ok(Some(request)) = server.receive(hub) else {
        unreachable!();
    };
    let Some(value) = request.first(hub).copied() else {
        unreachable!();
    };
    request.release(hub);
    value
}

/// A client sends a copy of that value. A server that is idle receives it, reads just that, and is
/// idle again.
pub fn copies(
    client: &Client<One<u64>, (), One<u64>, ()>,
    server: &Server<One<u64>, (), One<u64>, ()>,
    hub: &mut Hub<One<u64>, (), One<u64>, ()>,
    value: u64,
) -> Result<u64, RequestSendError>
    requires client { HasValue hub.old client.now.node client.now.number kinds.Client }
    requires server { HasValue hub.old server.now.node server.now.number kinds.Server }
    requires idle { IsIdle hub.old (server_of server.now.number) }
    ensures read { IfOk result (λ read. read ≡ value) }
    ensures again { OnOk result (IsIdle hub.new (server_of server.now.number)) }
{
    let pending = client.send_copy(hub, value)?;
    if hub.calls() >= 1 << 56 {
        pending.release(hub);
        return Err(RequestSendError::from(LoanError::CallsSpent));
    }
    let read = reads_the_one(server, hub);
    pending.release(hub);
    Ok(read)
}

/// A client and a server are made. Two copies are sent, and the server reads just what was sent.
pub fn makes_and_copies_twice(
    hub: &mut Hub<One<u64>, (), One<u64>, ()>,
    alloc: Global,
    node: u64,
    id: UniqueSystemId,
) -> Option<(u64, u64)>
    ensures { IfSome result (λ both. both ≡ (456, 789)) }
{
    let client = PortFactoryClient::new(node, id).create(alloc, hub).ok()?;
    let Ok(server) = PortFactoryServer::new(node, id).create(alloc, hub) else {
        client.release(hub);
        return None;
    };
    let mut both = None;
    if let Ok(first) = copies(&client, &server, hub, 456) {
        if client.exists(hub) && server.exists(hub) {
            if let Ok(second) = copies(&client, &server, hub, 789) {
                both = Some((first, second));
            }
        }
    }
    client.release(hub);
    server.release(hub);
    both
}
