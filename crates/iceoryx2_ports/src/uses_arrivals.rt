//! What is sent is what is read, proved only from the clauses of typed ports.
ghost use Rattle.std.specs.Prelude.{◌≡◌, ◌∷◌, IfSome, OnOk, []};
ghost use Rattle.iceoryx2_ports.specs.Calls.{HasCallsLeft};
ghost use Rattle.iceoryx2_ports.specs.Kind.TheVariants as kinds;
ghost use Rattle.iceoryx2_ports.specs.Hubs.{HasValue};
ghost use Rattle.iceoryx2_ports.specs.Sends.{BringsOnly};
ghost use Rattle.iceoryx2_ports.specs.Waiting.{AllCarry, NothingWaits, client_in, server_of};

use crate::{
    ActiveRequest, Client, Hub, LoanError, One, PendingResponse, RequestSendError, SendError,
    Server,
};

/// A client loans a request, writes 456 and sends it. For a server for which nothing waited,
/// nothing but 456 waits then.
pub fn sends_456(
    client: &Client<One<u64>, (), One<u64>, ()>,
    server: &Server<One<u64>, (), One<u64>, ()>,
    hub: &mut Hub<One<u64>, (), One<u64>, ()>,
) -> Result<PendingResponse<One<u64>, (), One<u64>, ()>, RequestSendError>
    requires has { HasValue hub.old client.now.node client.now.number kinds.Client }
    requires none { NothingWaits hub.old (server_of server.now.number) }
    ensures { OnOk result (AllCarry hub.new (server_of server.now.number) (456 ∷ [])) }
{
    let loan = client.loan_uninit(hub)?;
    let request = loan.write_payload(hub, 456);
    if hub.calls() < 1 << 56 {
        return request.send(hub);
    }
    request.release(hub);
    Err(RequestSendError::from(LoanError::CallsSpent))
}

/// A server for which nothing but 456 waits reads 456, if it receives a request.
pub fn reads_456(
    server: &Server<One<u64>, (), One<u64>, ()>,
    hub: &mut Hub<One<u64>, (), One<u64>, ()>,
) -> Option<u64>
    requires has { HasValue hub.old server.now.node server.now.number kinds.Server }
    requires calls { HasCallsLeft hub.old }
    requires all { AllCarry hub.old (server_of server.now.number) (456 ∷ []) }
    ensures { IfSome result (λ value. value ≡ 456) }
{
    let Ok(Some(request)) = server.receive(hub) else {
        return None;
    };
    let Some(value) = request.first(hub).copied() else {
        unreachable!();
    };
    request.release(hub);
    Some(value)
}

/// A client sends 456, and a server for which nothing waited reads just that.
pub fn exchanges_456(
    client: &Client<One<u64>, (), One<u64>, ()>,
    server: &Server<One<u64>, (), One<u64>, ()>,
    hub: &mut Hub<One<u64>, (), One<u64>, ()>,
) -> Option<u64>
    requires client { HasValue hub.old client.now.node client.now.number kinds.Client }
    requires none { NothingWaits hub.old (server_of server.now.number) }
    ensures { IfSome result (λ value. value ≡ 456) }
{
    let Ok(pending) = sends_456(client, server, hub) else {
        return None;
    };
    let mut read = None;
    if hub.calls() < 1 << 56 && server.exists(hub) {
        read = reads_456(server, hub);
    }
    pending.release(hub);
    read
}

/// A server loans a response, writes 789 and sends it.
pub fn answers_789(
    request: &ActiveRequest<One<u64>, (), One<u64>, ()>,
    hub: &mut Hub<One<u64>, (), One<u64>, ()>,
) -> Result<(), SendError>
    requires { HasValue hub.old request.now.node request.now.number kinds.ActiveRequest }
    ensures { OnOk result (BringsOnly hub.old (789 ∷ []) hub.new) }
{
    let loan = request.loan_uninit(hub)?;
    let response = loan.write_payload(hub, 789);
    if hub.calls() < 1 << 56 {
        return response.send(hub);
    }
    response.release(hub);
    Err(SendError::from(LoanError::CallsSpent))
}

/// A client for which nothing but 789 waits reads 789, if it receives a response.
pub fn hears_789(
    pending: &PendingResponse<One<u64>, (), One<u64>, ()>,
    hub: &mut Hub<One<u64>, (), One<u64>, ()>,
) -> Option<u64>
    requires has { HasValue hub.old pending.now.node pending.now.number kinds.PendingResponse }
    requires calls { HasCallsLeft hub.old }
    requires all { AllCarry hub.old (client_in hub.old pending.now.node pending.now.number)
        (789 ∷ []) }
    ensures { IfSome result (λ value. value ≡ 789) }
{
    let Ok(Some(response)) = pending.receive(hub) else {
        return None;
    };
    let Some(value) = response.first(hub).copied() else {
        unreachable!();
    };
    response.release(hub);
    Some(value)
}

/// A server receives a request and answers with a copy of 789. The client for which nothing waited
/// reads just that.
pub fn exchanges_789(
    server: &Server<One<u64>, (), One<u64>, ()>,
    pending: &PendingResponse<One<u64>, (), One<u64>, ()>,
    hub: &mut Hub<One<u64>, (), One<u64>, ()>,
) -> Option<u64>
    requires server { HasValue hub.old server.now.node server.now.number kinds.Server }
    requires pending { HasValue hub.old pending.now.node pending.now.number kinds.PendingResponse }
    requires calls { HasCallsLeft hub.old }
    requires none { NothingWaits hub.old (client_in hub.old pending.now.node pending.now.number) }
    ensures { IfSome result (λ value. value ≡ 789) }
{
    let Ok(Some(request)) = server.receive(hub) else {
        return None;
    };
    let mut heard = None;
    if request.send_copy(hub, 789).is_ok() && hub.calls() < 1 << 56 {
        heard = hears_789(pending, hub);
    }
    request.release(hub);
    heard
}
