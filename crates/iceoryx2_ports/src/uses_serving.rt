//! A server answers what it receives, proved only from the clauses of typed ports.
ghost use Rattle.std.specs.Bool.{OnTrue};
ghost use Rattle.std.specs.Prelude.{◌≡◌, ◌∷◌, IfSome, OnOk, OnSome, [], true};
ghost use Rattle.iceoryx2_ports.specs.Asking.{AllAsk, is_open_at};
ghost use Rattle.iceoryx2_ports.specs.Call.TheVariants.{HasRequests};
ghost use Rattle.iceoryx2_ports.specs.Calls.{HasCallsLeft};
ghost use Rattle.iceoryx2_ports.specs.Hubs.{HasValue, state_of_hub};
ghost use Rattle.iceoryx2_ports.specs.Idling.{IsIdle};
ghost use Rattle.iceoryx2_ports.specs.Kind.TheVariants as kinds;
ghost use Rattle.iceoryx2_ports.specs.Reaching.{SomeCanCome};
ghost use Rattle.iceoryx2_ports.specs.Reply.TheVariants.{Answer};
ghost use Rattle.iceoryx2_ports.specs.Responses.{answerer_in, asker_in, is_open};
ghost use Rattle.iceoryx2_ports.specs.Sends.{BringsOnly};
ghost use Rattle.iceoryx2_ports.specs.States.{Given};
ghost use Rattle.iceoryx2_ports.specs.Waiting.{AllCarry, client_in, server_of};
ghost use Rattle.iceoryx2_ports.specs.WholeCalls.{IsWholeCall};

use crate::{ActiveRequest, Hub, LoanError, One, PendingResponse, SendError, Server};

/// A server receives the one request that it can receive, which is open. Its client still waits for
/// the response.
pub fn takes(
    server: &Server<One<u64>, (), One<u64>, ()>,
    pending: &PendingResponse<One<u64>, (), One<u64>, ()>,
    hub: &mut Hub<One<u64>, (), One<u64>, ()>,
) -> ActiveRequest<One<u64>, (), One<u64>, ()>
    requires server { HasValue hub.old server.now.node server.now.number kinds.Server }
    requires pending { HasValue hub.old pending.now.node pending.now.number kinds.PendingResponse }
    requires calls { HasCallsLeft hub.old }
    requires comes { SomeCanCome hub.old (server_of server.now.number) }
    requires asks { AllAsk hub.old (server_of server.now.number)
        (client_in hub.old pending.now.node pending.now.number) }
    requires opened { is_open_at hub.old (client_in hub.old pending.now.node pending.now.number)
        server.now.number ≡ true }
    requires waits { IsIdle hub.old (client_in hub.old pending.now.node pending.now.number) }
    ensures has { HasValue hub.new result.node result.number kinds.ActiveRequest }
    ensures asker { asker_in hub.new result.node result.number
        ≡ client_in hub.new pending.now.node pending.now.number }
    ensures answerer { answerer_in hub.new result.node result.number ≡ server.now.number }
    ensures opened { is_open hub.new result.node result.number ≡ true }
    ensures waits { IsIdle hub.new (client_in hub.new pending.now.node pending.now.number) }
    ensures pending { HasValue hub.new pending.now.node pending.now.number kinds.PendingResponse }
{
    let Ok(Some(request)) = server.receive(hub) else {
        unreachable!();
    };
    request
}

/// The server of an open request loans a response, writes 871238 and sends it. The client, which
/// was idle, can receive just that.
pub fn answers_871238(
    request: &ActiveRequest<One<u64>, (), One<u64>, ()>,
    server: &Server<One<u64>, (), One<u64>, ()>,
    pending: &PendingResponse<One<u64>, (), One<u64>, ()>,
    hub: &mut Hub<One<u64>, (), One<u64>, ()>,
) -> bool
    requires request { HasValue hub.old request.now.node request.now.number kinds.ActiveRequest }
    requires pending { HasValue hub.old pending.now.node pending.now.number kinds.PendingResponse }
    requires asker { asker_in hub.old request.now.node request.now.number
        ≡ client_in hub.old pending.now.node pending.now.number }
    requires answerer { answerer_in hub.old request.now.node request.now.number
        ≡ server.now.number }
    requires opened { is_open hub.old request.now.node request.now.number ≡ true }
    requires waits { IsIdle hub.old (client_in hub.old pending.now.node pending.now.number) }
    ensures carries { OnTrue result (AllCarry hub.new
        (client_in hub.new pending.now.node pending.now.number) (871238 ∷ [])) }
    ensures comes { OnTrue result (SomeCanCome hub.new
        (client_in hub.new pending.now.node pending.now.number)) }
{
    let Ok(loan) = request.loan_uninit(hub) else {
        return false;
    };
    let response = loan.write_payload(hub, 871238);
    if hub.calls() < 1 << 56 && server.exists(hub) && pending.exists(hub) {
        return response.send(hub).is_ok();
    }
    response.release(hub);
    false
}

/// A server receives the one request that it can receive, answers it with 871238, and hands it out.
/// Its client can receive just that.
pub fn serves_871238(
    server: &Server<One<u64>, (), One<u64>, ()>,
    pending: &PendingResponse<One<u64>, (), One<u64>, ()>,
    hub: &mut Hub<One<u64>, (), One<u64>, ()>,
) -> Option<ActiveRequest<One<u64>, (), One<u64>, ()>>
    requires server { HasValue hub.old server.now.node server.now.number kinds.Server }
    requires pending { HasValue hub.old pending.now.node pending.now.number kinds.PendingResponse }
    requires calls { HasCallsLeft hub.old }
    requires comes { SomeCanCome hub.old (server_of server.now.number) }
    requires asks { AllAsk hub.old (server_of server.now.number)
        (client_in hub.old pending.now.node pending.now.number) }
    requires opened { is_open_at hub.old (client_in hub.old pending.now.node pending.now.number)
        server.now.number ≡ true }
    requires waits { IsIdle hub.old (client_in hub.old pending.now.node pending.now.number) }
    ensures carries { OnSome result (AllCarry hub.new
        (client_in hub.new pending.now.node pending.now.number) (871238 ∷ [])) }
    ensures comes { OnSome result (SomeCanCome hub.new
        (client_in hub.new pending.now.node pending.now.number)) }
{
    let request = takes(server, pending, hub);
    if answers_871238(&request, server, pending, hub) {
        return Some(request);
    }
    request.release(hub);
    None
}

/// A server answers a request with 871238.
pub fn answers(
    request: &ActiveRequest<One<u64>, (), One<u64>, ()>,
    hub: &mut Hub<One<u64>, (), One<u64>, ()>,
) -> Result<(), SendError>
    requires { HasValue hub.old request.now.node request.now.number kinds.ActiveRequest }
    ensures { OnOk result (BringsOnly hub.old (871238 ∷ []) hub.new) }
{
    let loan = request.loan_uninit(hub)?;
    let response = loan.write_payload(hub, 871238);
    if hub.calls() < 1 << 56 {
        return response.send(hub);
    }
    response.release(hub);
    Err(SendError::from(LoanError::CallsSpent))
}

/// A server answers what is waiting with 871238, one request after the other, at most so many. It
/// says whether one is left, as the machine tells, unless the server is gone.
pub fn serves_what_waits(
    server: &Server<One<u64>, (), One<u64>, ()>,
    hub: &mut Hub<One<u64>, (), One<u64>, ()>,
    most: usize,
) -> Option<bool>
    ensures told { IfSome result (λ waits. (x : Given) → IsWholeCall (state_of_hub x hub.new)
        server.now.node (HasRequests server.now.number) (Answer waits) (state_of_hub x hub.new)) }
{
    for _ in 0..most {
        if hub.calls() >= 1 << 56 || !server.exists(hub) {
            break;
        }
        let Ok(Some(request)) = server.receive(hub) else {
            break;
        };
        let _answered = answers(&request, hub).is_ok();
        request.release(hub);
    }
    if !server.exists(hub) {
        return None;
    }
    let Ok(waits) = server.has_requests(hub) else {
        return None;
    };
    Some(waits)
}
