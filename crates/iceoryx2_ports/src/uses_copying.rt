//! A client and a server exchange copies, proved only from the clauses of typed ports.
ghost use Rattle.std.specs.Prelude.{◌≡◌, ◌∷◌, IfErr, IfOk, []};
ghost use Rattle.iceoryx2_ports.specs.Kind.TheVariants as kinds;
ghost use Rattle.iceoryx2_ports.specs.Hubs.{HasValue, IsReached};
ghost use Rattle.iceoryx2_ports.specs.Reads.{message_in};
ghost use Rattle.iceoryx2_ports.specs.declared.errors.LoanError.TheVariants as loan_errors;
ghost use Rattle.iceoryx2_ports.specs.declared.errors.SendError.TheVariants as send_errors;

use crate::{
    ActiveRequest, Client, Hub, One, Payload, PendingResponse, RequestSendError, SendError, Server,
    Words,
};

/// A client sends a copy of 123, and its pending response carries 123.
pub fn asks_123(
    client: &Client<One<u64>, (), One<u64>, ()>,
    hub: &mut Hub<One<u64>, (), One<u64>, ()>,
) -> Result<PendingResponse<One<u64>, (), One<u64>, ()>, RequestSendError>
    requires { HasValue hub.old client.now.node client.now.number kinds.Client }
    ensures has { IfOk result (λ pending.
        HasValue hub.new pending.node pending.number kinds.PendingResponse) }
    ensures carries { IfOk result (λ pending.
        (message_in hub.new pending.node pending.number).payload ≡ 123 ∷ []) }
{
    client.send_copy(hub, 123)
}

/// A client asks twice, whatever comes of the second copy, and still has the first pending
/// response.
pub fn asks_twice<QH: Words, P: Payload, PH: Words>(
    client: &Client<One<u64>, QH, P, PH>,
    hub: &mut Hub<One<u64>, QH, P, PH>,
) -> Result<
    (
        PendingResponse<One<u64>, QH, P, PH>,
        Result<PendingResponse<One<u64>, QH, P, PH>, RequestSendError>,
    ),
    RequestSendError,
>
    requires { HasValue hub.old client.now.node client.now.number kinds.Client }
    ensures { IfOk result (λ both.
        HasValue hub.new both.0.node both.0.number kinds.PendingResponse) }
{
    let first = client.send_copy(hub, 1)?;
    Ok((first, client.send_copy(hub, 2)))
}

/// A server reads a request, and answers it with a copy of one more.
pub fn answers(
    request: &ActiveRequest<One<u64>, (), One<u64>, ()>,
    hub: &mut Hub<One<u64>, (), One<u64>, ()>,
) -> Result<(), SendError>
    requires { HasValue hub.old request.now.node request.now.number kinds.ActiveRequest }
    ensures still { HasValue hub.new request.now.node request.now.number kinds.ActiveRequest }
    ensures reached { IsReached hub.new }
{
    let value = request.payload(hub).first().copied().unwrap_or(0);
    let answered = request.send_copy(hub, value.wrapping_add(1));
    hub.calls();
    answered
}

/// The server receives the next request, and answers it with a copy.
pub fn serves(
    server: &Server<One<u64>, (), One<u64>, ()>,
    hub: &mut Hub<One<u64>, (), One<u64>, ()>,
) -> bool
    requires { HasValue hub.old server.now.node server.now.number kinds.Server }
{
    if hub.calls() >= 1 << 56 {
        return false;
    }
    match server.receive(hub) {
        Ok(Some(request)) => {
            let answered = answers(&request, hub).is_ok();
            request.release(hub);
            answered
        }
        Ok(None) => false,
        Err(_) => false,
    }
}

/// A response for which the server has too many loans changes nothing.
pub fn answers_or_leaves<Q: Payload, QH: Words, PH: Words>(
    request: &ActiveRequest<Q, QH, One<u64>, PH>,
    hub: &mut Hub<Q, QH, One<u64>, PH>,
) -> Result<(), SendError>
    requires { HasValue hub.old request.now.node request.now.number kinds.ActiveRequest }
    ensures { IfErr result (λ error.
        error ≡ send_errors.LoanError loan_errors.ExceedsMaxLoans → hub.new ≡ hub.old) }
{
    request.send_copy(hub, 7)
}
