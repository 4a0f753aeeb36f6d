//! Messages of many elements, proved only from the clauses of typed ports.
ghost use Rattle.std.specs.Prelude.{◌≡◌, ◌∷◌, IfOk, IsSome, List, OnOk, Some, [], flat_map};
ghost use Rattle.std.specs.Prelude.{length};
ghost use Rattle.iceoryx2_ports.specs.Answering.{GivesInTurn};
ghost use Rattle.iceoryx2_ports.specs.Kind.TheVariants as kinds;
ghost use Rattle.iceoryx2_ports.specs.Hubs.{HasValue};
ghost use Rattle.iceoryx2_ports.specs.Reads.{message_in};
ghost use Rattle.iceoryx2_ports.specs.Stored.{copies};
ghost use Rattle.iceoryx2_ports.specs.Waiting.{AllCarry, NothingWaits, client_in, server_of};

use crate::{
    ActiveRequest, Client, Hub, LoanError, Many, One, PendingResponse, RequestMut,
    RequestSendError, SendError, Server, Words,
};

/// A client loans so many elements, and fills each with twice its index and one.
pub fn writes_odd_numbers(
    client: &Client<Many<u64>, (), One<u64>, ()>,
    hub: &mut Hub<Many<u64>, (), One<u64>, ()>,
    elements: usize,
) -> Result<RequestMut<Many<u64>, (), One<u64>, ()>, LoanError>
    requires { HasValue hub.old client.now.node client.now.number kinds.Client }
    ensures has { IfOk result (λ request.
        HasValue hub.new request.node request.number kinds.RequestMut) }
    ensures elements { IfOk result (λ request.
        (message_in hub.new request.node request.number).elements ≡ elements) }
    ensures filled { IfOk result (λ request.
        (message_in hub.new request.node request.number).filled ≡ elements) }
{
    let loan = client.loan_slice_uninit(hub, elements)?;
    Ok(loan.write_from_fn(hub, |index| (index as u64).wrapping_mul(2).wrapping_add(1)))
}

/// A client loans two elements, and a closure fills them with 1 and 3. The request carries these.
pub fn writes_1_and_3(
    client: &Client<Many<u64>, (), One<u64>, ()>,
    hub: &mut Hub<Many<u64>, (), One<u64>, ()>,
) -> Result<RequestMut<Many<u64>, (), One<u64>, ()>, LoanError>
    requires { HasValue hub.old client.now.node client.now.number kinds.Client }
    ensures has { IfOk result (λ request.
        HasValue hub.new request.node request.number kinds.RequestMut) }
    ensures carries { IfOk result (λ request.
        (message_in hub.new request.node request.number).payload ≡ 1 ∷ 3 ∷ []) }
{
    let loan = client.loan_slice_uninit(hub, 2)?;
    Ok(loan.write_from_fn(hub, |index| (index as u64).wrapping_mul(2).wrapping_add(1)))
}

/// A client asks with 1 and 3, which a closure answers. For a server for which nothing waited,
/// nothing else waits then.
pub fn asks_with_1_and_3(
    client: &Client<Many<u64>, (), One<u64>, ()>,
    server: &Server<Many<u64>, (), One<u64>, ()>,
    hub: &mut Hub<Many<u64>, (), One<u64>, ()>,
) -> Result<PendingResponse<Many<u64>, (), One<u64>, ()>, RequestSendError>
    requires has { HasValue hub.old client.now.node client.now.number kinds.Client }
    requires none { NothingWaits hub.old (server_of server.now.number) }
    ensures { OnOk result (AllCarry hub.new (server_of server.now.number) (1 ∷ 3 ∷ [])) }
{
    let loan = client.loan_slice_uninit(hub, 2)?;
    let request = loan.write_from_fn(hub, |index| (index as u64).wrapping_mul(2).wrapping_add(1));
    if hub.calls() < 1 << 56 {
        return request.send(hub);
    }
    request.release(hub);
    Err(RequestSendError::from(LoanError::CallsSpent))
}

/// A client asks with so many elements.
pub fn asks_with_odd_numbers(
    client: &Client<Many<u64>, (), One<u64>, ()>,
    hub: &mut Hub<Many<u64>, (), One<u64>, ()>,
    elements: usize,
) -> Result<PendingResponse<Many<u64>, (), One<u64>, ()>, RequestSendError>
    requires { HasValue hub.old client.now.node client.now.number kinds.Client }
    ensures { IfOk result (λ pending.
        HasValue hub.new pending.node pending.number kinds.PendingResponse) }
{
    let request = writes_odd_numbers(client, hub, elements)?;
    if hub.calls() < 1 << 56 {
        return request.send(hub);
    }
    request.release(hub);
    Err(RequestSendError::from(LoanError::CallsSpent))
}

/// A client asks with 1, 3 and 5. For a server for which nothing waited, nothing else waits then.
pub fn asks_with_1_3_5(
    client: &Client<Many<u64>, (), One<u64>, ()>,
    server: &Server<Many<u64>, (), One<u64>, ()>,
    hub: &mut Hub<Many<u64>, (), One<u64>, ()>,
) -> Result<PendingResponse<Many<u64>, (), One<u64>, ()>, RequestSendError>
    requires has { HasValue hub.old client.now.node client.now.number kinds.Client }
    requires none { NothingWaits hub.old (server_of server.now.number) }
    ensures has { IfOk result (λ pending.
        HasValue hub.new pending.node pending.number kinds.PendingResponse) }
    ensures carries { OnOk result
        (AllCarry hub.new (server_of server.now.number) (1 ∷ 3 ∷ 5 ∷ [])) }
{
    let loan = client.loan_slice_uninit(hub, 3)?;
    let request = match loan.write_from_slice(hub, &[1, 3, 5]) {
        Ok(request) => request,
        Err(loan) => {
            loan.release(hub);
            unreachable!();
        }
    };
    if hub.calls() < 1 << 56 {
        return request.send(hub);
    }
    request.release(hub);
    Err(RequestSendError::from(LoanError::CallsSpent))
}

/// A server answers with so many elements, each three times its index and four, and still has the
/// request.
pub fn answers_with_numbers(
    request: &ActiveRequest<One<u64>, (), Many<u64>, ()>,
    hub: &mut Hub<One<u64>, (), Many<u64>, ()>,
    elements: usize,
) -> Result<(), SendError>
    requires { HasValue hub.old request.now.node request.now.number kinds.ActiveRequest }
    ensures { HasValue hub.new request.now.node request.now.number kinds.ActiveRequest }
{
    let loan = request.loan_slice_uninit(hub, elements)?;
    let response = loan.write_from_fn(hub, |index| (index as u64).wrapping_mul(3).wrapping_add(4));
    if hub.calls() < 1 << 56 {
        return response.send(hub);
    }
    response.release(hub);
    Err(SendError::from(LoanError::CallsSpent))
}

/// A client loans three elements, each with the default, puts 1, 3 and 5 in place of these, and
/// asks with them. For a server for which nothing waited, nothing else waits then.
pub fn puts_1_3_5_and_asks(
    client: &Client<Many<u64>, (), One<u64>, ()>,
    server: &Server<Many<u64>, (), One<u64>, ()>,
    hub: &mut Hub<Many<u64>, (), One<u64>, ()>,
) -> Result<PendingResponse<Many<u64>, (), One<u64>, ()>, RequestSendError>
    requires has { HasValue hub.old client.now.node client.now.number kinds.Client }
    requires default { IsSome hub.old.request.default }
    requires none { NothingWaits hub.old (server_of server.now.number) }
    ensures has { IfOk result (λ pending.
        HasValue hub.new pending.node pending.number kinds.PendingResponse) }
    ensures carries { OnOk result
        (AllCarry hub.new (server_of server.now.number) (1 ∷ 3 ∷ 5 ∷ [])) }
{
    let request = client.loan_slice(hub, 3)?;
    if !request.set_payload_from_slice(hub, &[1, 3, 5]) {
        unreachable!();
    }
    if hub.calls() < 1 << 56 {
        return request.send(hub);
    }
    request.release(hub);
    Err(RequestSendError::from(LoanError::CallsSpent))
}

/// A client asks with so many elements as it loaned them: each is the default.
pub fn asks_with_defaults(
    client: &Client<Many<u64>, (), One<u64>, ()>,
    server: &Server<Many<u64>, (), One<u64>, ()>,
    hub: &mut Hub<Many<u64>, (), One<u64>, ()>,
    elements: usize,
    value: u64,
) -> Result<PendingResponse<Many<u64>, (), One<u64>, ()>, RequestSendError>
    requires has { HasValue hub.old client.now.node client.now.number kinds.Client }
    requires default { hub.old.request.default ≡ Some (value ∷ []) }
    requires none { NothingWaits hub.old (server_of server.now.number) }
    ensures carries { OnOk result
        (AllCarry hub.new (server_of server.now.number) (copies (value ∷ []) elements)) }
{
    let request = client.loan_slice(hub, elements)?;
    if hub.calls() < 1 << 56 {
        return request.send(hub);
    }
    request.release(hub);
    Err(RequestSendError::from(LoanError::CallsSpent))
}

/// A server loans four elements, each with the default, puts 1 to 4 in place of these, and answers
/// with them. For a client for which nothing waited, nothing else waits then.
pub fn puts_1_2_3_4_and_answers(
    request: &ActiveRequest<One<u64>, (), Many<u64>, ()>,
    pending: &PendingResponse<One<u64>, (), Many<u64>, ()>,
    hub: &mut Hub<One<u64>, (), Many<u64>, ()>,
) -> Result<(), SendError>
    requires has { HasValue hub.old request.now.node request.now.number kinds.ActiveRequest }
    requires default { IsSome hub.old.response.default }
    requires none { NothingWaits hub.old (client_in hub.old pending.now.node pending.now.number) }
    ensures { OnOk result (AllCarry hub.new
        (client_in hub.old pending.now.node pending.now.number) (1 ∷ 2 ∷ 3 ∷ 4 ∷ [])) }
{
    let response = request.loan_slice(hub, 4)?;
    if !response.set_payload_from_slice(hub, &[1, 2, 3, 4]) {
        unreachable!();
    }
    if hub.calls() < 1 << 56 {
        return response.send(hub);
    }
    response.release(hub);
    Err(SendError::from(LoanError::CallsSpent))
}

/// A client loans so many elements, and a closure fills them: the request carries what it answered
/// for 0, 1 and so on, in that order.
pub fn writes_what_is_answered<E: Words, F: FnMut(usize) -> E>(
    client: &Client<Many<E>, (), One<u64>, ()>,
    hub: &mut Hub<Many<E>, (), One<u64>, ()>,
    elements: usize,
    f: F,
) -> Result<RequestMut<Many<E>, (), One<u64>, ()>, LoanError>
    requires has { HasValue hub.old client.now.node client.now.number kinds.Client }
    requires callable { F.IsAlwaysCallable f }
    ensures { IfOk result (λ request. (values : List E) × (last : F)
        × GivesInTurn F.step f 0 values last × (length values ≡ elements)
        × ((message_in hub.new request.node request.number).payload
        ≡ flat_map E.words values)) }
{
    let loan = client.loan_slice_uninit(hub, elements)?;
    Ok(loan.write_from_fn(hub, f))
}
