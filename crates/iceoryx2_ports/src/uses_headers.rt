//! Callers that read headers and ids, proved only from the clauses of typed ports.
ghost use Rattle.std.specs.Prelude.{◌≡◌, ◌∷◌, IfOk, IfSome, IsSome, Some, [], true};
ghost use Rattle.std.specs.Bool.{OnTrue};
ghost use Rattle.iceoryx2_ports.specs.Calls.{HasCallsLeft};
ghost use Rattle.iceoryx2_ports.specs.Kind.TheVariants as kinds;
ghost use Rattle.iceoryx2_ports.specs.Hubs.{HasValue};
ghost use Rattle.iceoryx2_ports.specs.Reads.{message_in};
ghost use Rattle.iceoryx2_ports.specs.Responses.{answerer_in};
ghost use Rattle.iceoryx2_ports.specs.Senders.{AllFrom};
ghost use Rattle.iceoryx2_ports.specs.Waiting.{NothingWaits, client_in, server_of};
ghost use Rattle.iceoryx2_ports.specs.HubHeaders.{sender_in};

use crate::{
    ActiveRequest, Client, Hub, LoanError, One, Payload, PendingResponse, Response, Server,
    UniqueNodeIdError, UniqueServerId, Words,
};

/// The header of a request names the client that its server is told.
pub fn names_its_origin<Q: Payload, QH: Words, P: Payload, PH: Words>(
    request: &ActiveRequest<Q, QH, P, PH>,
    hub: &Hub<Q, QH, P, PH>,
) -> Result<bool, UniqueNodeIdError>
    requires { HasValue hub.now request.now.node request.now.number kinds.ActiveRequest }
    ensures { IfOk result (λ same. same ≡ true) }
{
    Ok(request.header(hub)?.client_id() == request.origin(hub))
}

/// The origin of a request that a client sent is that client, by its id.
pub fn came_from<Q: Payload, QH: Words, P: Payload, PH: Words>(
    request: &ActiveRequest<Q, QH, P, PH>,
    client: &Client<Q, QH, P, PH>,
    hub: &Hub<Q, QH, P, PH>,
) -> bool
    requires request { HasValue hub.now request.now.node request.now.number kinds.ActiveRequest }
    requires client { HasValue hub.now client.now.node client.now.number kinds.Client }
    ensures { sender_in hub.now request.now.node request.now.number ≡ client.now.number
        → result ≡ true }
{
    request.origin(hub) == client.id(hub)
}

/// The origin of a response that a server sent is that server, by its id.
pub fn was_sent_by<Q: Payload, QH: Words, P: Payload, PH: Words>(
    response: &Response<Q, QH, P, PH>,
    server: &Server<Q, QH, P, PH>,
    hub: &Hub<Q, QH, P, PH>,
) -> bool
    requires response { HasValue hub.now response.now.node response.now.number kinds.Response }
    requires server { HasValue hub.now server.now.node server.now.number kinds.Server }
    ensures { sender_in hub.now response.now.node response.now.number ≡ server.now.number
        → result ≡ true }
{
    let origin: UniqueServerId = response.origin(hub);
    origin == server.id(hub)
}

/// The header of a pending response tells how many elements its request has.
pub fn counts_elements<Q: Payload, QH: Words, P: Payload, PH: Words>(
    pending: &PendingResponse<Q, QH, P, PH>,
    hub: &Hub<Q, QH, P, PH>,
) -> Result<u64, UniqueNodeIdError>
    requires { HasValue hub.now pending.now.node pending.now.number kinds.PendingResponse }
    ensures { IfOk result (λ count.
        count ≡ (message_in hub.now pending.now.node pending.now.number).elements) }
{
    Ok(pending.header(hub)?.number_of_elements())
}

/// A client loans a request. Its header names the client.
pub fn names_its_client<QH: Words, P: Payload, PH: Words>(
    client: &Client<One<u64>, QH, P, PH>,
    hub: &mut Hub<One<u64>, QH, P, PH>,
) -> Option<bool>
    requires { HasValue hub.old client.now.node client.now.number kinds.Client }
    ensures { IfSome result (λ same. same ≡ true) }
{
    let loan = client.loan_uninit(hub).ok()?;
    let Ok(header) = loan.header(hub) else {
        loan.release(hub);
        return None;
    };
    let same = header.client_id() == client.id(hub);
    loan.release(hub);
    Some(same)
}

/// So it does once 9219 is written.
pub fn names_its_client_once_written<QH: Words, P: Payload, PH: Words>(
    client: &Client<One<u64>, QH, P, PH>,
    hub: &mut Hub<One<u64>, QH, P, PH>,
) -> Option<bool>
    requires { HasValue hub.old client.now.node client.now.number kinds.Client }
    ensures { IfSome result (λ same. same ≡ true) }
{
    let loan = client.loan_uninit(hub).ok()?;
    let request = loan.write_payload(hub, 9219);
    let Ok(header) = request.header(hub) else {
        request.release(hub);
        return None;
    };
    if !client.exists(hub) {
        request.release(hub);
        return None;
    }
    let same = header.client_id() == client.id(hub);
    request.release(hub);
    Some(same)
}

/// A server loans a response to a request that it received. Its header names the server.
pub fn names_its_server<Q: Payload, QH: Words, PH: Words>(
    request: &ActiveRequest<Q, QH, One<u64>, PH>,
    server: &Server<Q, QH, One<u64>, PH>,
    hub: &mut Hub<Q, QH, One<u64>, PH>,
) -> Option<bool>
    requires request { HasValue hub.old request.now.node request.now.number kinds.ActiveRequest }
    requires server { HasValue hub.old server.now.node server.now.number kinds.Server }
    requires answerer { answerer_in hub.old request.now.node request.now.number
        ≡ server.now.number }
    ensures { IfSome result (λ same. same ≡ true) }
{
    let loan = request.loan_uninit(hub).ok()?;
    let Ok(header) = loan.header(hub) else {
        loan.release(hub);
        return None;
    };
    let same = header.server_id() == server.id(hub);
    loan.release(hub);
    Some(same)
}

/// So it does once 456 is written.
pub fn names_its_server_once_written<Q: Payload, QH: Words, PH: Words>(
    request: &ActiveRequest<Q, QH, One<u64>, PH>,
    server: &Server<Q, QH, One<u64>, PH>,
    hub: &mut Hub<Q, QH, One<u64>, PH>,
) -> Option<bool>
    requires request { HasValue hub.old request.now.node request.now.number kinds.ActiveRequest }
    requires answerer { answerer_in hub.old request.now.node request.now.number
        ≡ server.now.number }
    ensures { IfSome result (λ same. same ≡ true) }
{
    let loan = request.loan_uninit(hub).ok()?;
    let response = loan.write_payload(hub, 456);
    let Ok(header) = response.header(hub) else {
        response.release(hub);
        return None;
    };
    if !server.exists(hub) {
        response.release(hub);
        return None;
    }
    let same = header.server_id() == server.id(hub);
    response.release(hub);
    Some(same)
}

/// A server loans a response, writes 456 and sends it. For a client for which nothing waited, only
/// what that server sent waits then.
pub fn answers_as_itself<Q: Payload, QH: Words, PH: Words>(
    request: &ActiveRequest<Q, QH, One<u64>, PH>,
    server: &Server<Q, QH, One<u64>, PH>,
    pending: &PendingResponse<Q, QH, One<u64>, PH>,
    hub: &mut Hub<Q, QH, One<u64>, PH>,
) -> bool
    requires request { HasValue hub.old request.now.node request.now.number kinds.ActiveRequest }
    requires pending { HasValue hub.old pending.now.node pending.now.number kinds.PendingResponse }
    requires answerer { answerer_in hub.old request.now.node request.now.number
        ≡ server.now.number }
    requires none { NothingWaits hub.old (client_in hub.old pending.now.node pending.now.number) }
    ensures { OnTrue result (AllFrom hub.new
        (client_in hub.old pending.now.node pending.now.number) server.now.number) }
{
    let Ok(loan) = request.loan_uninit(hub) else {
        return false;
    };
    let response = loan.write_payload(hub, 456);
    if hub.calls() < 1 << 56 {
        return response.send(hub).is_ok();
    }
    response.release(hub);
    false
}

/// The header of a response names the server that sent it.
pub fn header_names<Q: Payload, QH: Words, P: Payload, PH: Words>(
    response: &Response<Q, QH, P, PH>,
    server: &Server<Q, QH, P, PH>,
    hub: &Hub<Q, QH, P, PH>,
) -> Option<bool>
    requires response { HasValue hub.now response.now.node response.now.number kinds.Response }
    requires server { HasValue hub.now server.now.node server.now.number kinds.Server }
    ensures { sender_in hub.now response.now.node response.now.number ≡ server.now.number
        → IfSome result (λ same. same ≡ true) }
{
    let header = response.header(hub).ok()?;
    Some(header.server_id() == server.id(hub))
}

/// So it does of what a client receives, where all that waited for it is from one server.
pub fn hears_from<Q: Payload, QH: Words, P: Payload, PH: Words>(
    pending: &PendingResponse<Q, QH, P, PH>,
    server: &Server<Q, QH, P, PH>,
    hub: &mut Hub<Q, QH, P, PH>,
) -> Option<bool>
    requires pending { HasValue hub.old pending.now.node pending.now.number kinds.PendingResponse }
    requires server { HasValue hub.old server.now.node server.now.number kinds.Server }
    requires calls { HasCallsLeft hub.old }
    requires from { AllFrom hub.old (client_in hub.old pending.now.node pending.now.number)
        server.now.number }
    ensures { IfSome result (λ same. same ≡ true) }
{
    let Ok(Some(response)) = pending.receive(hub) else {
        return None;
    };
    let same = header_names(&response, server, hub);
    response.release(hub);
    same
}

/// The origin of what a server receives is the client that sent all that waited.
pub fn hears_its_client<Q: Payload, QH: Words, P: Payload, PH: Words>(
    server: &Server<Q, QH, P, PH>,
    client: &Client<Q, QH, P, PH>,
    hub: &mut Hub<Q, QH, P, PH>,
) -> Option<bool>
    requires server { HasValue hub.old server.now.node server.now.number kinds.Server }
    requires client { HasValue hub.old client.now.node client.now.number kinds.Client }
    requires calls { HasCallsLeft hub.old }
    requires from { AllFrom hub.old (server_of server.now.number) client.now.number }
    ensures { IfSome result (λ same. same ≡ true) }
{
    let Ok(Some(request)) = server.receive(hub) else {
        return None;
    };
    let same = came_from(&request, client, hub);
    request.release(hub);
    Some(same)
}

/// A client sends a copy of 123. A server for which nothing waited hears that client, if it
/// receives something then.
pub fn hears_who_copies<QH: Words, P: Payload, PH: Words>(
    client: &Client<One<u64>, QH, P, PH>,
    server: &Server<One<u64>, QH, P, PH>,
    hub: &mut Hub<One<u64>, QH, P, PH>,
) -> Option<bool>
    requires client { HasValue hub.old client.now.node client.now.number kinds.Client }
    requires server { HasValue hub.old server.now.node server.now.number kinds.Server }
    requires none { NothingWaits hub.old (server_of server.now.number) }
    ensures { IfSome result (λ same. same ≡ true) }
{
    let pending = client.send_copy(hub, 123).ok()?;
    let mut same = None;
    if hub.calls() < 1 << 56 {
        same = hears_its_client(server, client, hub);
    }
    pending.release(hub);
    same
}

/// A server answers with a copy of 456. A client for which nothing waited hears that server, if it
/// receives something then.
pub fn hears_who_answers<Q: Payload, QH: Words, PH: Words>(
    request: &ActiveRequest<Q, QH, One<u64>, PH>,
    server: &Server<Q, QH, One<u64>, PH>,
    pending: &PendingResponse<Q, QH, One<u64>, PH>,
    hub: &mut Hub<Q, QH, One<u64>, PH>,
) -> Option<bool>
    requires request { HasValue hub.old request.now.node request.now.number kinds.ActiveRequest }
    requires server { HasValue hub.old server.now.node server.now.number kinds.Server }
    requires pending { HasValue hub.old pending.now.node pending.now.number kinds.PendingResponse }
    requires answerer { answerer_in hub.old request.now.node request.now.number
        ≡ server.now.number }
    requires none { NothingWaits hub.old (client_in hub.old pending.now.node pending.now.number) }
    ensures { IfSome result (λ same. same ≡ true) }
{
    request.send_copy(hub, 456).ok()?;
    if hub.calls() >= 1 << 56 {
        return None;
    }
    hears_from(pending, server, hub)
}

/// A loaned response has the default user header and the default payload.
pub fn reads_the_defaults<Q: Payload, QH: Words>(
    request: &ActiveRequest<Q, QH, One<u64>, u64>,
    hub: &mut Hub<Q, QH, One<u64>, u64>,
    header: u64,
    value: u64,
) -> Result<(u64, u64), LoanError>
    requires has { HasValue hub.old request.now.node request.now.number kinds.ActiveRequest }
    requires header { hub.old.response.user ≡ header ∷ [] }
    requires default { hub.old.response.default ≡ Some (value ∷ []) }
    ensures { IfOk result (λ read. read ≡ (header, value)) }
{
    let response = request.loan(hub)?;
    let user = *response.user_header(hub);
    let Some(first) = response.payload(hub).first().copied() else {
        unreachable!();
    };
    response.release(hub);
    Ok((user, first))
}

/// A loaned response that is not filled has the default user header.
pub fn reads_the_default_header<Q: Payload, QH: Words>(
    request: &ActiveRequest<Q, QH, One<u64>, u64>,
    hub: &mut Hub<Q, QH, One<u64>, u64>,
) -> Result<u64, LoanError>
    requires { HasValue hub.old request.now.node request.now.number kinds.ActiveRequest }
    ensures { IfOk result (λ user. user ∷ [] ≡ hub.old.response.user) }
{
    let loan = request.loan_uninit(hub)?;
    let user = *loan.user_header(hub);
    loan.release(hub);
    Ok(user)
}

/// What is set as the user header of a loaned response is what is read there.
pub fn sets_the_header<Q: Payload, QH: Words>(
    request: &ActiveRequest<Q, QH, One<u64>, u64>,
    hub: &mut Hub<Q, QH, One<u64>, u64>,
) -> Result<u64, LoanError>
    requires has { HasValue hub.old request.now.node request.now.number kinds.ActiveRequest }
    requires default { IsSome hub.old.response.default }
    ensures { IfOk result (λ user. user ≡ 123) }
{
    let response = request.loan(hub)?;
    response.set_user_header(hub, 123);
    let user = *response.user_header(hub);
    response.release(hub);
    Ok(user)
}

/// So it is of one that is not filled, and it stays as the payload is written.
pub fn sets_the_header_first<Q: Payload, QH: Words>(
    request: &ActiveRequest<Q, QH, One<u64>, u64>,
    hub: &mut Hub<Q, QH, One<u64>, u64>,
) -> Result<(u64, u64), LoanError>
    requires { HasValue hub.old request.now.node request.now.number kinds.ActiveRequest }
    ensures { IfOk result (λ user. user ≡ (123, 123)) }
{
    let loan = request.loan_uninit(hub)?;
    loan.set_user_header(hub, 123);
    let before = *loan.user_header(hub);
    let response = loan.write_payload(hub, 456);
    let after = *response.user_header(hub);
    response.release(hub);
    Ok((before, after))
}
