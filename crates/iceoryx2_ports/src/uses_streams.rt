//! Several responses to one request, and loans that are filled element by element or put anew,
//! proved only from the clauses of typed ports.
ghost use Rattle.std.specs.Prelude.{◌≡◌, ◌∷◌, IfOk, IsSome, OnOk, [], true};
ghost use Rattle.std.specs.Bool.{OnTrue};
ghost use Rattle.iceoryx2_ports.specs.Call.TheVariants.{HasHint, Send};
ghost use Rattle.iceoryx2_ports.specs.Calls.{HasCallsLeft};
ghost use Rattle.iceoryx2_ports.specs.Kind.TheVariants as kinds;
ghost use Rattle.iceoryx2_ports.specs.Hubs.{HasValue, state_of_hub};
ghost use Rattle.iceoryx2_ports.specs.Idling.{IsIdle};
ghost use Rattle.iceoryx2_ports.specs.Reaching.{SomeCanCome};
ghost use Rattle.iceoryx2_ports.specs.Reads.{message_in};
ghost use Rattle.iceoryx2_ports.specs.Reply.TheVariants.{Answer, Sent};
ghost use Rattle.iceoryx2_ports.specs.Responses.{answerer_in, asker_in, is_open};
ghost use Rattle.iceoryx2_ports.specs.States.{Given};
ghost use Rattle.iceoryx2_ports.specs.Waiting.{AllCarry, NothingWaits, client_in, server_of};
ghost use Rattle.iceoryx2_ports.specs.WholeCalls.{IsWholeCall};

use crate::{
    ActiveRequest, Client, Hub, LoanError, Many, One, PendingResponse, RequestMut,
    RequestSendError, SendError, Server,
};

/// A server sends three copies as responses to a request, and still has the request.
pub fn answers_thrice(
    request: &ActiveRequest<One<u64>, (), One<u64>, ()>,
    hub: &mut Hub<One<u64>, (), One<u64>, ()>,
) -> Result<(), SendError>
    requires { HasValue hub.old request.now.node request.now.number kinds.ActiveRequest }
    ensures { HasValue hub.new request.now.node request.now.number kinds.ActiveRequest }
{
    answers_with(request, hub, 4)?;
    answers_with(request, hub, 5)?;
    answers_with(request, hub, 6)
}

/// A server sends a copy as a response to a request, and still has the request.
fn answers_with(
    request: &ActiveRequest<One<u64>, (), One<u64>, ()>,
    hub: &mut Hub<One<u64>, (), One<u64>, ()>,
    value: u64,
) -> Result<(), SendError>
    requires { HasValue hub.old request.now.node request.now.number kinds.ActiveRequest }
    ensures { HasValue hub.new request.now.node request.now.number kinds.ActiveRequest }
{
    request.send_copy(hub, value)
}

/// A server answers as long as its client wants more, at most five times. It says whether the
/// client wants no more: only where the machine tells a hint.
pub fn answers_until_told(
    request: &ActiveRequest<One<u64>, (), One<u64>, ()>,
    hub: &mut Hub<One<u64>, (), One<u64>, ()>,
) -> bool
    ensures told { OnTrue result ((x : Given) → IsWholeCall (state_of_hub x hub.new)
        request.now.node (HasHint request.now.number) (Answer true) (state_of_hub x hub.new)) }
{
    for _ in 0..5 {
        if !request.exists(hub) || !request.is_connected(hub) {
            return false;
        }
        if request.has_disconnect_hint(hub) {
            return true;
        }
        if request.send_copy(hub, 456).is_err() {
            return false;
        }
    }
    false
}

/// Elements that are written one after another are what the request carries.
pub fn writes_three(
    client: &Client<Many<u64>, (), One<u64>, ()>,
    hub: &mut Hub<Many<u64>, (), One<u64>, ()>,
) -> Result<RequestMut<Many<u64>, (), One<u64>, ()>, LoanError>
    requires { HasValue hub.old client.now.node client.now.number kinds.Client }
    ensures has { IfOk result (λ request.
        HasValue hub.new request.node request.number kinds.RequestMut) }
    ensures carries { IfOk result (λ request.
        (message_in hub.new request.node request.number).payload ≡ 1 ∷ 3 ∷ 5 ∷ []) }
{
    let loan = client.loan_slice_uninit(hub, 3)?;
    loan.write_next(hub, 1);
    loan.write_next(hub, 3);
    loan.write_next(hub, 5);
    match loan.assume_init(hub) {
        Ok(request) => Ok(request),
        Err(loan) => {
            loan.release(hub);
            unreachable!();
        }
    }
}

/// A client loans a request with the default, puts 456 in place of that, and sends it. For a server
/// for which nothing waited, nothing but 456 waits then.
pub fn puts_456_and_asks(
    client: &Client<One<u64>, (), One<u64>, ()>,
    server: &Server<One<u64>, (), One<u64>, ()>,
    hub: &mut Hub<One<u64>, (), One<u64>, ()>,
) -> Result<PendingResponse<One<u64>, (), One<u64>, ()>, RequestSendError>
    requires has { HasValue hub.old client.now.node client.now.number kinds.Client }
    requires default { IsSome hub.old.request.default }
    requires none { NothingWaits hub.old (server_of server.now.number) }
    ensures has { IfOk result (λ pending.
        HasValue hub.new pending.node pending.number kinds.PendingResponse) }
    ensures carries { OnOk result (AllCarry hub.new (server_of server.now.number) (456 ∷ [])) }
{
    let request = client.loan(hub)?;
    request.set_payload(hub, 456);
    if hub.calls() < 1 << 56 {
        return request.send(hub);
    }
    request.release(hub);
    Err(RequestSendError::from(LoanError::CallsSpent))
}

/// A server loans a response with the default, puts 456 in place of that, and sends it. The client
/// that asked, if it was idle, can receive just that.
pub fn puts_456_and_answers(
    request: &ActiveRequest<One<u64>, (), One<u64>, ()>,
    server: &Server<One<u64>, (), One<u64>, ()>,
    pending: &PendingResponse<One<u64>, (), One<u64>, ()>,
    hub: &mut Hub<One<u64>, (), One<u64>, ()>,
) -> bool
    requires request { HasValue hub.old request.now.node request.now.number kinds.ActiveRequest }
    requires server { HasValue hub.old server.now.node server.now.number kinds.Server }
    requires pending { HasValue hub.old pending.now.node pending.now.number kinds.PendingResponse }
    requires default { IsSome hub.old.response.default }
    requires asker { asker_in hub.old request.now.node request.now.number
        ≡ client_in hub.old pending.now.node pending.now.number }
    requires answerer { answerer_in hub.old request.now.node request.now.number
        ≡ server.now.number }
    requires opened { is_open hub.old request.now.node request.now.number ≡ true }
    requires waits { IsIdle hub.old (client_in hub.old pending.now.node pending.now.number) }
    ensures carries { OnTrue result (AllCarry hub.new
        (client_in hub.new pending.now.node pending.now.number) (456 ∷ [])) }
    ensures comes { OnTrue result (SomeCanCome hub.new
        (client_in hub.new pending.now.node pending.now.number)) }
{
    let Ok(response) = request.loan(hub) else {
        return false;
    };
    response.set_payload(hub, 456);
    if hub.calls() < 1 << 56 && server.exists(hub) && pending.exists(hub) {
        return response.send(hub).is_ok();
    }
    response.release(hub);
    false
}

/// A client asks with what it loaned, and says to how many servers that went: as many as the
/// machine tells.
pub fn counts_its_servers(
    request: RequestMut<One<u64>, (), One<u64>, ()>,
    hub: &mut Hub<One<u64>, (), One<u64>, ()>,
) -> Result<(u64, PendingResponse<One<u64>, (), One<u64>, ()>), RequestSendError>
    requires has { HasValue hub.old request.node request.number kinds.RequestMut }
    requires calls { HasCallsLeft hub.old }
    ensures has { IfOk result (λ both.
        HasValue hub.new both.1.node both.1.number kinds.PendingResponse) }
    ensures told { IfOk result (λ both. (x : Given) → IsWholeCall (state_of_hub x hub.old)
        request.node (Send request.number) (Sent both.0) (state_of_hub x hub.new)) }
{
    let pending = request.send(hub)?;
    let servers = pending.number_of_server_connections();
    Ok((servers, pending))
}
