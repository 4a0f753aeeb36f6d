//! Slices are filled and sent, and who receives them, proved only from the clauses of typed ports.
ghost use Rattle.std.specs.Prelude.{◌≡◌, ◌∷◌, IfOk, IsSome, List, OnOk, Some, [], flat_map};
ghost use Rattle.std.specs.Prelude.{length, replicate};
ghost use Rattle.iceoryx2_ports.specs.Answering.{GivesInTurn};
ghost use Rattle.iceoryx2_ports.specs.Hubs.{HasValue};
ghost use Rattle.iceoryx2_ports.specs.Kind.TheVariants as kinds;
ghost use Rattle.iceoryx2_ports.specs.Reads.{message_in};
ghost use Rattle.iceoryx2_ports.specs.Stored.{copies};
ghost use Rattle.iceoryx2_ports.specs.Waiting.{AllCarry, NothingWaits, client_in, server_of};

use crate::{
    ActiveRequest, Client, Hub, LoanError, Many, One, PendingResponse, RequestMut,
    RequestSendError, SendError, Server, Words,
};

/// A client loans so many elements, a closure fills them, and the client asks with them. For a
/// server for which nothing waited, all that waits then is what the closure answered for 0, 1 and
/// so on, in that order.
pub fn asks_with_what_is_answered<E: Words, F: FnMut(usize) -> E>(
    client: &Client<Many<E>, (), One<u64>, ()>,
    server: &Server<Many<E>, (), One<u64>, ()>,
    hub: &mut Hub<Many<E>, (), One<u64>, ()>,
    elements: usize,
    f: F,
) -> Result<PendingResponse<Many<E>, (), One<u64>, ()>, RequestSendError>
    requires has { HasValue hub.old client.now.node client.now.number kinds.Client }
    requires callable { F.IsAlwaysCallable f }
    requires none { NothingWaits hub.old (server_of server.now.number) }
    ensures has { IfOk result (λ pending.
        HasValue hub.new pending.node pending.number kinds.PendingResponse) }
    ensures carries { OnOk result ((values : List E) × (last : F)
        × GivesInTurn F.step f 0 values last × (length values ≡ elements)
        × AllCarry hub.new (server_of server.now.number) (flat_map E.words values)) }
{
    let loan = client.loan_slice_uninit(hub, elements)?;
    let request = loan.write_from_fn(hub, f);
    if hub.calls() >= 1 << 56 {
        request.release(hub);
        return Err(RequestSendError::from(LoanError::CallsSpent));
    }
    let pending = request.send(hub)?;
    Ok(pending)
}

/// A server loans so many elements, a closure fills them, and the server answers with them. For a
/// client for which nothing waited, all that waits then is what the closure answered for 0, 1 and
/// so on, in that order.
pub fn answers_with_what_is_answered<E: Words, F: FnMut(usize) -> E>(
    request: &ActiveRequest<One<u64>, (), Many<E>, ()>,
    pending: &PendingResponse<One<u64>, (), Many<E>, ()>,
    hub: &mut Hub<One<u64>, (), Many<E>, ()>,
    elements: usize,
    f: F,
) -> Result<(), SendError>
    requires has { HasValue hub.old request.now.node request.now.number kinds.ActiveRequest }
    requires callable { F.IsAlwaysCallable f }
    requires none { NothingWaits hub.old (client_in hub.old pending.now.node pending.now.number) }
    ensures carries { OnOk result ((values : List E) × (last : F)
        × GivesInTurn F.step f 0 values last × (length values ≡ elements)
        × AllCarry hub.new (client_in hub.old pending.now.node pending.now.number)
        (flat_map E.words values)) }
{
    let loan = request.loan_slice_uninit(hub, elements)?;
    let response = loan.write_from_fn(hub, f);
    if hub.calls() < 1 << 56 {
        return response.send(hub);
    }
    response.release(hub);
    Err(SendError::from(LoanError::CallsSpent))
}

/// A client loans three elements and fills them, one after another, with 1, 3 and 5.
pub fn writes_1_3_5(
    client: &Client<Many<u64>, (), One<u64>, ()>,
    server: &Server<Many<u64>, (), One<u64>, ()>,
    hub: &mut Hub<Many<u64>, (), One<u64>, ()>,
) -> Result<RequestMut<Many<u64>, (), One<u64>, ()>, LoanError>
    requires has { HasValue hub.old client.now.node client.now.number kinds.Client }
    requires none { NothingWaits hub.old (server_of server.now.number) }
    ensures has { IfOk result (λ request.
        HasValue hub.new request.node request.number kinds.RequestMut) }
    ensures carries { IfOk result (λ request.
        (message_in hub.new request.node request.number).payload ≡ 1 ∷ 3 ∷ 5 ∷ []) }
    ensures none { OnOk result (NothingWaits hub.new (server_of server.now.number)) }
{
    let loan = client.loan_slice_uninit(hub, 3)?;
    loan.write_next(hub, 1);
    loan.write_next(hub, 3);
    loan.write_next(hub, 5);
    match loan.assume_init(hub) {
        Ok(request) => Ok(request),
        Err(loan) => {
            loan.release(hub);
            unreachable!();
        }
    }
}

/// A client asks with three elements that it wrote one after another. For a server for which
/// nothing waited, nothing else waits then.
pub fn writes_and_asks_with_1_3_5(
    client: &Client<Many<u64>, (), One<u64>, ()>,
    server: &Server<Many<u64>, (), One<u64>, ()>,
    hub: &mut Hub<Many<u64>, (), One<u64>, ()>,
) -> Result<PendingResponse<Many<u64>, (), One<u64>, ()>, RequestSendError>
    requires has { HasValue hub.old client.now.node client.now.number kinds.Client }
    requires none { NothingWaits hub.old (server_of server.now.number) }
    ensures { OnOk result
        (AllCarry hub.new (server_of server.now.number) (1 ∷ 3 ∷ 5 ∷ [])) }
{
    let request = writes_1_3_5(client, server, hub)?;
    if hub.calls() < 1 << 56 {
        return request.send(hub);
    }
    request.release(hub);
    Err(RequestSendError::from(LoanError::CallsSpent))
}

/// A client asks with 13 elements, each of which is 1234. For a server for which nothing waited,
/// nothing else waits then.
pub fn asks_with_13_times_1234(
    client: &Client<Many<u64>, (), One<u64>, ()>,
    server: &Server<Many<u64>, (), One<u64>, ()>,
    hub: &mut Hub<Many<u64>, (), One<u64>, ()>,
) -> Result<PendingResponse<Many<u64>, (), One<u64>, ()>, RequestSendError>
    requires has { HasValue hub.old client.now.node client.now.number kinds.Client }
    requires none { NothingWaits hub.old (server_of server.now.number) }
    ensures { OnOk result
        (AllCarry hub.new (server_of server.now.number) (replicate 13 1234)) }
{
    let loan = client.loan_slice_uninit(hub, 13)?;
    let request = match loan.write_from_slice(hub, &[1234; 13]) {
        Ok(request) => request,
        Err(loan) => {
            loan.release(hub);
            unreachable!();
        }
    };
    if hub.calls() < 1 << 56 {
        return request.send(hub);
    }
    request.release(hub);
    Err(RequestSendError::from(LoanError::CallsSpent))
}

/// A server answers with 13 elements, each of which is 1234. For a client for which nothing waited,
/// nothing else waits then.
pub fn answers_with_13_times_1234(
    request: &ActiveRequest<One<u64>, (), Many<u64>, ()>,
    pending: &PendingResponse<One<u64>, (), Many<u64>, ()>,
    hub: &mut Hub<One<u64>, (), Many<u64>, ()>,
) -> Result<(), SendError>
    requires has { HasValue hub.old request.now.node request.now.number kinds.ActiveRequest }
    requires none { NothingWaits hub.old (client_in hub.old pending.now.node pending.now.number) }
    ensures { OnOk result (AllCarry hub.new
        (client_in hub.old pending.now.node pending.now.number) (replicate 13 1234)) }
{
    let loan = request.loan_slice_uninit(hub, 13)?;
    let response = match loan.write_from_slice(hub, &[1234; 13]) {
        Ok(response) => response,
        Err(loan) => {
            loan.release(hub);
            unreachable!();
        }
    };
    if hub.calls() < 1 << 56 {
        return response.send(hub);
    }
    response.release(hub);
    Err(SendError::from(LoanError::CallsSpent))
}

/// A server answers with 13 elements as it loaned them: each is the default. For a client for which
/// nothing waited, nothing else waits then.
pub fn answers_with_13_defaults(
    request: &ActiveRequest<One<u64>, (), Many<u64>, ()>,
    pending: &PendingResponse<One<u64>, (), Many<u64>, ()>,
    hub: &mut Hub<One<u64>, (), Many<u64>, ()>,
    value: u64,
) -> Result<(), SendError>
    requires has { HasValue hub.old request.now.node request.now.number kinds.ActiveRequest }
    requires default { hub.old.response.default ≡ Some (value ∷ []) }
    requires none { NothingWaits hub.old (client_in hub.old pending.now.node pending.now.number) }
    ensures { OnOk result (AllCarry hub.new
        (client_in hub.old pending.now.node pending.now.number) (copies (value ∷ []) 13)) }
{
    let response = request.loan_slice(hub, 13)?;
    if hub.calls() < 1 << 56 {
        return response.send(hub);
    }
    response.release(hub);
    Err(SendError::from(LoanError::CallsSpent))
}
