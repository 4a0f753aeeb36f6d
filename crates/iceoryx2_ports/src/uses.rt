//! Callers of typed ports, proved only from their clauses.
ghost use Rattle.std.specs.Prelude.{◌≡◌, IfErr, IfOk, IfSome, IsOk, flat_map};
ghost use Rattle.iceoryx2_ports.specs.Calls.{HasCallsLeft};
ghost use Rattle.iceoryx2_ports.specs.Kind.TheVariants as kinds;
ghost use Rattle.iceoryx2_ports.specs.Hubs.{HasValue};
ghost use Rattle.iceoryx2_ports.specs.Reads.{message_in};
ghost use Rattle.iceoryx2_ports.specs.Holding.{KeepsValues};
ghost use Rattle.iceoryx2_ports.specs.declared.errors.ReceiveError.TheVariants.{ExceedsMaxBorrows};
ghost use Rattle.iceoryx2_ports.specs.declared.errors.RequestSendError.TheVariants as request_send_errors;
ghost use Rattle.iceoryx2_ports.specs.declared.errors.SendError.TheVariants as send_errors;

use crate::{
    ActiveRequest, Client, ConnectionFailure, Hub, LoanError, Many, One, Payload, PendingResponse,
    ReceiveError, RequestMut, RequestSendError, Response, ResponseMut, SendError, Server, Words,
};

/// A server may read what it receives, and the handle is its node's.
pub fn reads_what_it_receives(
    server: &Server<Many<u64>, u32, One<u64>, ()>,
    hub: &mut Hub<Many<u64>, u32, One<u64>, ()>,
) -> Result<Option<ActiveRequest<Many<u64>, u32, One<u64>, ()>>, ReceiveError>
    requires has { HasValue hub.old server.now.node server.now.number kinds.Server }
    requires calls { HasCallsLeft hub.old }
    ensures has { IfOk result (λ got. IfSome got (λ request.
        HasValue hub.new server.now.node request.number kinds.ActiveRequest)) }
    ensures refused { IfErr result (λ error. error ≡ ExceedsMaxBorrows) }
{
    let Some(request) = server.receive(hub)? else {
        return Ok(None);
    };
    let _length = request.payload(hub).len();
    let _header = *request.user_header(hub);
    Ok(Some(request))
}

/// Where a request waits, a server receives, and may receive again: it still has what it had.
pub fn receives_again<Q: Payload, QH: Words, P: Payload, PH: Words>(
    server: &Server<Q, QH, P, PH>,
    hub: &mut Hub<Q, QH, P, PH>,
) -> Result<Option<ActiveRequest<Q, QH, P, PH>>, ReceiveError>
    requires has { HasValue hub.old server.now.node server.now.number kinds.Server }
    ensures has { IfOk result (λ got. IfSome got (λ request.
        HasValue hub.new server.now.node request.number kinds.ActiveRequest)) }
    ensures still { HasValue hub.new server.now.node server.now.number kinds.Server }
    ensures keeps { KeepsValues hub.old hub.new }
{
    if hub.calls() >= 1 << 56 || !server.has_requests(hub)? {
        return Ok(None);
    }
    match server.receive(hub)? {
        None if hub.calls() < 1 << 56 => server.receive(hub),
        first => Ok(first),
    }
}

/// A request that got its last response: its client says so, and takes one more that waits.
pub fn takes_the_last<Q: Payload, QH: Words, P: Payload, PH: Words>(
    pending: &PendingResponse<Q, QH, P, PH>,
    hub: &mut Hub<Q, QH, P, PH>,
) -> Result<Option<Response<Q, QH, P, PH>>, ReceiveError>
    requires has { HasValue hub.old pending.now.node pending.now.number kinds.PendingResponse }
    ensures has { IfOk result (λ got. IfSome got (λ response.
        HasValue hub.new pending.now.node response.number kinds.Response)) }
    ensures still { HasValue hub.new pending.now.node pending.now.number kinds.PendingResponse }
{
    pending.set_disconnect_hint(hub);
    if hub.calls() < 1 << 56 && pending.has_response(hub) {
        pending.receive(hub)
    } else {
        Ok(None)
    }
}

/// A server may read a request after it received another.
pub fn reads_the_earlier<Q: Payload, QH: Words, P: Payload, PH: Words>(
    server: &Server<Q, QH, P, PH>,
    earlier: &ActiveRequest<Q, QH, P, PH>,
    hub: &mut Hub<Q, QH, P, PH>,
) -> Result<Option<ActiveRequest<Q, QH, P, PH>>, ReceiveError>
    requires has { HasValue hub.old server.now.node server.now.number kinds.Server }
    requires earlier { HasValue hub.old earlier.now.node earlier.now.number kinds.ActiveRequest }
    requires calls { HasCallsLeft hub.old }
{
    let got = server.receive(hub)?;
    let _length = earlier.payload(hub).len();
    Ok(got)
}

/// Nothing has to be done to connect ports.
pub fn connects(
    client: &Client<One<u64>, (), One<u64>, ()>,
    server: &Server<One<u64>, (), One<u64>, ()>,
    hub: &Hub<One<u64>, (), One<u64>, ()>,
) -> Result<(), ConnectionFailure>
    requires client { HasValue hub.now client.now.node client.now.number kinds.Client }
    requires server { HasValue hub.now server.now.node server.now.number kinds.Server }
    ensures { IsOk result }
{
    client.update_connections(hub)?;
    server.update_connections(hub)
}

/// What a response carries.
pub fn reads_response<'a, E: Words>(
    response: &Response<One<u64>, (), Many<E>, u32>,
    hub: &'a Hub<One<u64>, (), Many<E>, u32>,
) -> (&'a [E], u32)
    requires { HasValue hub.now response.now.node response.now.number kinds.Response }
    ensures { flat_map E.words result.0.now
        ≡ (message_in hub.now response.now.node response.now.number).payload }
{
    (response.payload(hub), *response.user_header(hub))
}

/// Whether a loaned request carries what the pending one does, in length.
pub fn are_as_long<Q: Payload, QH: Words, P: Payload, PH: Words>(
    loan: &RequestMut<Q, QH, P, PH>,
    pending: &PendingResponse<Q, QH, P, PH>,
    answer: &ResponseMut<Q, QH, P, PH>,
    hub: &Hub<Q, QH, P, PH>,
) -> bool
    requires loan { HasValue hub.now loan.now.node loan.now.number kinds.RequestMut }
    requires pending { HasValue hub.now pending.now.node pending.now.number kinds.PendingResponse }
    requires answer { HasValue hub.now answer.now.node answer.now.number kinds.ResponseMut }
{
    loan.payload(hub).len() == pending.payload(hub).len() && !answer.payload(hub).is_empty()
}

/// A refused loan is a refused send.
pub fn sends_what_it_loans(loan: Result<u64, LoanError>) -> Result<u64, RequestSendError>
    ensures { IfErr result (λ error. IfErr loan (λ cause.
        error ≡ request_send_errors.SendError (send_errors.LoanError cause))) }
{
    Ok(loan?)
}

/// So is a connection that fails.
pub fn sends_on(connection: Result<u64, ConnectionFailure>) -> Result<u64, SendError>
    ensures { IfErr result (λ error. IfErr connection (λ cause.
        error ≡ send_errors.ConnectionError cause)) }
{
    Ok(connection?)
}
