//! Loans are filled piece by piece, proved only from the clauses of typed ports.
ghost use Rattle.std.specs.Prelude.{◌≡◌, ◌∷◌, IfOk, []};
ghost use Rattle.iceoryx2_ports.specs.Kind.TheVariants as kinds;
ghost use Rattle.iceoryx2_ports.specs.Hubs.{HasValue};
ghost use Rattle.iceoryx2_ports.specs.Reads.{message_in};

use crate::{
    Client, Hub, LoanError, Many, One, Payload, PendingResponse, RequestMut, RequestMutUninit,
    RequestSendError, ResponseMut, ResponseMutUninit, Words,
};

/// A write replaces what was filled before.
pub fn writes_over(
    client: &Client<One<u64>, (), One<u64>, ()>,
    hub: &mut Hub<One<u64>, (), One<u64>, ()>,
) -> Result<RequestMut<One<u64>, (), One<u64>, ()>, LoanError>
    requires { HasValue hub.old client.now.node client.now.number kinds.Client }
    ensures { IfOk result (λ request.
        (message_in hub.new request.node request.number).payload ≡ 456 ∷ []) }
{
    let loan = client.loan_uninit(hub)?;
    loan.write_next(hub, 1234);
    Ok(loan.write_payload(hub, 456))
}

/// A loan of one element is filled once that is written, and has the header that was set.
pub fn fills_one<QH: Words>(
    client: &Client<One<u64>, QH, One<u64>, ()>,
    hub: &mut Hub<One<u64>, QH, One<u64>, ()>,
    user_header: QH,
) -> Result<RequestMut<One<u64>, QH, One<u64>, ()>, LoanError>
    requires { HasValue hub.old client.now.node client.now.number kinds.Client }
    ensures payload { IfOk result (λ request.
        (message_in hub.new request.node request.number).payload ≡ 7 ∷ []) }
    ensures header { IfOk result (λ request.
        (message_in hub.new request.node request.number).user ≡ QH.words user_header) }
{
    let loan = client.loan_uninit(hub)?;
    loan.set_user_header(hub, user_header);
    loan.write_next(hub, 7);
    match loan.assume_init(hub) {
        Ok(request) => Ok(request),
        Err(loan) => {
            loan.release(hub);
            unreachable!();
        }
    }
}

/// A loan, a value and a send, one after another. That the loan has one element is no question:
/// its type says so.
pub fn sends_one<QH: Words, P: Payload, PH: Words>(
    client: &Client<One<u64>, QH, P, PH>,
    hub: &mut Hub<One<u64>, QH, P, PH>,
    value: u64,
) -> Result<PendingResponse<One<u64>, QH, P, PH>, RequestSendError>
    requires { HasValue hub.old client.now.node client.now.number kinds.Client }
    ensures { IfOk result (λ pending.
        HasValue hub.new pending.node pending.number kinds.PendingResponse) }
{
    let request = client.loan_uninit(hub)?.write_payload(hub, value);
    if hub.calls() < 1 << 56 {
        return request.send(hub);
    }
    request.release(hub);
    Err(RequestSendError::from(LoanError::CallsSpent))
}

/// A request that somebody else loaned is filled with one value: how it was loaned need not be
/// known, and it has one element.
pub fn fills_what_was_loaned<QH: Words, P: Payload, PH: Words>(
    loan: RequestMutUninit<One<u64>, QH, P, PH>,
    hub: &mut Hub<One<u64>, QH, P, PH>,
    value: u64,
) -> RequestMut<One<u64>, QH, P, PH>
    requires { HasValue hub.old loan.node loan.number kinds.RequestMutUninit }
    ensures carries { (message_in hub.new result.node result.number).payload ≡ value ∷ [] }
    ensures one { (message_in hub.old loan.node loan.number).elements ≡ 1 }
{
    loan.write_payload(hub, value)
}

/// The same of a response, whose value is then replaced.
pub fn refills_what_was_loaned<Q: Payload, QH: Words, PH: Words>(
    loan: ResponseMutUninit<Q, QH, One<u64>, PH>,
    hub: &mut Hub<Q, QH, One<u64>, PH>,
    first: u64,
    second: u64,
) -> ResponseMut<Q, QH, One<u64>, PH>
    requires { HasValue hub.old loan.node loan.number kinds.ResponseMutUninit }
    ensures { (message_in hub.new result.node result.number).payload ≡ second ∷ [] }
{
    let response = loan.write_payload(hub, first);
    response.set_payload(hub, second);
    response
}

/// A closure fills a response of any length.
pub fn fills_all(
    loan: ResponseMutUninit<One<u64>, (), Many<u64>, ()>,
    hub: &mut Hub<One<u64>, (), Many<u64>, ()>,
) -> ResponseMut<One<u64>, (), Many<u64>, ()>
    requires { HasValue hub.old loan.node loan.number kinds.ResponseMutUninit }
    ensures has { HasValue hub.new result.node result.number kinds.ResponseMut }
    ensures filled { (message_in hub.new result.node result.number).filled
        ≡ (message_in hub.old result.node result.number).elements }
{
    loan.write_from_fn(hub, |index| index as u64)
}

/// Elements are written as long as one is missing.
pub fn fills_two_at_most<E: Words>(
    loan: &ResponseMutUninit<One<u64>, (), Many<E>, ()>,
    hub: &mut Hub<One<u64>, (), Many<E>, ()>,
    first: E,
    second: E,
)
    requires { HasValue hub.old loan.now.node loan.now.number kinds.ResponseMutUninit }
    ensures { HasValue hub.new loan.now.node loan.now.number kinds.ResponseMutUninit }
{
    if !loan.is_filled(hub) {
        loan.write_next(hub, first);
    }
    if !loan.is_filled(hub) {
        loan.write_next(hub, second);
    }
}
