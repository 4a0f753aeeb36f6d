//! What is answered is received, proved only from the clauses of typed ports.
ghost use Rattle.std.specs.Prelude.{◌≡◌, ◌∷◌, IfOk, IfSome, OnOk, [], true};
ghost use Rattle.iceoryx2_ports.specs.Calls.{HasCallsLeft};
ghost use Rattle.iceoryx2_ports.specs.Kind.TheVariants as kinds;
ghost use Rattle.iceoryx2_ports.specs.Hubs.{HasValue};
ghost use Rattle.iceoryx2_ports.specs.Reaching.{HasRoomForEach, SomeCanCome};
ghost use Rattle.iceoryx2_ports.specs.Reads.{message_in};
ghost use Rattle.iceoryx2_ports.specs.Responses.{answerer_in, asker_in, is_open};
ghost use Rattle.iceoryx2_ports.specs.Waiting.{AllCarry, NothingWaits, client_in};

use crate::{ActiveRequest, Hub, LoanError, One, PendingResponse, ResponseMut, SendError, Server};

/// A server answers an open request with a copy of 456. The client that asked, which has room for
/// it, and for which nothing waited, receives it, and reads just that.
pub fn answers_456(
    request: &ActiveRequest<One<u64>, (), One<u64>, ()>,
    pending: &PendingResponse<One<u64>, (), One<u64>, ()>,
    hub: &mut Hub<One<u64>, (), One<u64>, ()>,
) -> Result<u64, SendError>
    requires request { HasValue hub.old request.now.node request.now.number kinds.ActiveRequest }
    requires pending { HasValue hub.old pending.now.node pending.now.number kinds.PendingResponse }
    requires asked { client_in hub.old pending.now.node pending.now.number
        ≡ asker_in hub.old request.now.node request.now.number }
    requires connected { is_open hub.old request.now.node request.now.number ≡ true }
    requires none { NothingWaits hub.old
        (client_in hub.old pending.now.node pending.now.number) }
    requires room { HasRoomForEach hub.old (client_in hub.old pending.now.node pending.now.number) }
    ensures { IfOk result (λ value. value ≡ 456) }
{
    request.send_copy(hub, 456)?;
    if hub.calls() >= 1 << 56 {
        return Err(SendError::from(LoanError::CallsSpent));
    }
    let Ok(Some(response)) = pending.receive(hub) else {
        unreachable!();
    };
    let Some(value) = response.first(hub).copied() else {
        unreachable!();
    };
    response.release(hub);
    Ok(value)
}

/// The same, where the server asks whether the request is open.
pub fn answers_if_connected(
    request: &ActiveRequest<One<u64>, (), One<u64>, ()>,
    pending: &PendingResponse<One<u64>, (), One<u64>, ()>,
    hub: &mut Hub<One<u64>, (), One<u64>, ()>,
) -> Option<u64>
    requires request { HasValue hub.old request.now.node request.now.number kinds.ActiveRequest }
    requires pending { HasValue hub.old pending.now.node pending.now.number kinds.PendingResponse }
    requires asked { client_in hub.old pending.now.node pending.now.number
        ≡ asker_in hub.old request.now.node request.now.number }
    requires none { NothingWaits hub.old
        (client_in hub.old pending.now.node pending.now.number) }
    requires room { HasRoomForEach hub.old (client_in hub.old pending.now.node pending.now.number) }
    ensures { IfSome result (λ value. value ≡ 456) }
{
    if !request.is_connected(hub) {
        return None;
    }
    answers_456(request, pending, hub).ok()
}

/// A response that carries 456 is sent. The client that asked, which has room for it, and for which
/// nothing waited, can receive something then, and nothing but 456.
pub fn sends_456(
    response: ResponseMut<One<u64>, (), One<u64>, ()>,
    server: &Server<One<u64>, (), One<u64>, ()>,
    pending: &PendingResponse<One<u64>, (), One<u64>, ()>,
    hub: &mut Hub<One<u64>, (), One<u64>, ()>,
) -> Result<(), SendError>
    requires has { HasValue hub.old response.node response.number kinds.ResponseMut }
    requires carries { (message_in hub.old response.node response.number).payload ≡ 456 ∷ [] }
    requires calls { HasCallsLeft hub.old }
    requires server { HasValue hub.old server.now.node server.now.number kinds.Server }
    requires answers { answerer_in hub.old response.node response.number ≡ server.now.number }
    requires asked { asker_in hub.old response.node response.number
        ≡ client_in hub.old pending.now.node pending.now.number }
    requires connected { is_open hub.old response.node response.number ≡ true }
    requires none { NothingWaits hub.old
        (client_in hub.old pending.now.node pending.now.number) }
    requires room { HasRoomForEach hub.old (client_in hub.old pending.now.node pending.now.number) }
    ensures carries { OnOk result (AllCarry hub.new
        (client_in hub.old pending.now.node pending.now.number) (456 ∷ [])) }
    ensures comes { OnOk result (SomeCanCome hub.new
        (client_in hub.old pending.now.node pending.now.number)) }
{
    response.send(hub)
}
