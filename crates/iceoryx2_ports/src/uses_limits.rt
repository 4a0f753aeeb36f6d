//! Loans within the limits succeed, and those past them are refused as such, proved only
//! from the clauses of typed ports.
ghost use Rattle.std.specs.Prelude.{◌≡◌, IfSome};
ghost use Rattle.iceoryx2_ports.specs.Counts.{requests_on_loan};
ghost use Rattle.iceoryx2_ports.specs.Kind.TheVariants as kinds;
ghost use Rattle.iceoryx2_ports.specs.Hubs.{HasValue};
ghost use Rattle.iceoryx2_ports.specs.LoanLimits.{CanLend, CanRespond, LendsAtMostLongest};
ghost use Rattle.iceoryx2_ports.specs.LoanLimits.{most_responses, responses_lent};
ghost use Rattle.iceoryx2_ports.specs.declared.errors.LoanError.TheVariants.{ExceedsMaxLoans};

use crate::{
    ActiveRequest, Client, Hub, LoanError, Many, MessageShape, One, Payload, PortFactoryClient,
    RequestMutUninit, ResponseMutUninit, Settings, UniqueSystemId, Words, default_settings,
};
use std::alloc::{AllocError, Global};

/// Of a client that may have one loan, the second is refused.
pub fn second_loan<E: Words, QH: Words, P: Payload, PH: Words>(
    client: &Client<One<E>, QH, P, PH>,
    hub: &mut Hub<One<E>, QH, P, PH>,
) -> Option<LoanError>
    requires has { HasValue hub.old client.now.node client.now.number kinds.Client }
    requires limit { hub.old.control.tables.settings.loaned_requests ≡ 1 }
    requires none { requests_on_loan hub.old.control.tables client.now.number ≡ 0 }
    ensures { IfSome result (λ error. error ≡ ExceedsMaxLoans) }
{
    let first = client.loan_uninit(hub).ok()?;
    if hub.calls() >= 1 << 56 {
        first.release(hub);
        return None;
    }
    let told = match client.loan_uninit(hub) {
        Ok(second) => {
            second.release(hub);
            unreachable!();
        }
        Err(error) => error,
    };
    first.release(hub);
    Some(told)
}

/// So it is of a client that is made where each may have one loan.
pub fn second_loan_of_a_new_client<E: Words, QH: Words, P: Payload, PH: Words>(
    hub: &mut Hub<One<E>, QH, P, PH>,
    alloc: Global,
    id: UniqueSystemId,
) -> Option<LoanError>
    requires { hub.old.control.tables.settings.loaned_requests ≡ 1 }
    ensures { IfSome result (λ error. error ≡ ExceedsMaxLoans) }
{
    let client = PortFactoryClient::new(0, id).create(alloc, hub).ok()?;
    let told = second_loan(&client, hub);
    client.release(hub);
    told
}

/// And so it is in a hub that is made so: nothing is asked.
pub fn second_loan_in_a_new_hub(alloc: Global, id: UniqueSystemId) -> Option<LoanError>
    ensures { IfSome result (λ error. error ≡ ExceedsMaxLoans) }
{
    let settings = Settings {
        loaned_requests: 1,
        ..default_settings()
    };
    let request = MessageShape::of_requests(None, ());
    let response = MessageShape::of_responses(None, ());
    let made: Result<Hub<One<u64>, (), One<u64>, ()>, AllocError> = Hub::new(
        alloc, settings, request, response,
    );
    let mut hub = made.ok()?;
    second_loan_of_a_new_client(&mut hub, alloc, id)
}

/// Of a client that may have two loans, the third is refused.
pub fn third_loan<E: Words, QH: Words, P: Payload, PH: Words>(
    client: &Client<One<E>, QH, P, PH>,
    hub: &mut Hub<One<E>, QH, P, PH>,
) -> Option<LoanError>
    requires has { HasValue hub.old client.now.node client.now.number kinds.Client }
    requires limit { hub.old.control.tables.settings.loaned_requests ≡ 2 }
    requires none { requests_on_loan hub.old.control.tables client.now.number ≡ 0 }
    ensures { IfSome result (λ error. error ≡ ExceedsMaxLoans) }
{
    let first = client.loan_uninit(hub).ok()?;
    let Ok(second) = client.loan_uninit(hub) else {
        first.release(hub);
        return None;
    };
    let mut told = None;
    if hub.calls() < 1 << 56 {
        match client.loan_uninit(hub) {
            Ok(third) => {
                third.release(hub);
                unreachable!();
            }
            Err(error) => told = Some(error),
        }
    }
    give_up(first, second, hub);
    told
}

/// Gives up both loans.
fn give_up<E: Words, QH: Words, P: Payload, PH: Words>(
    first: RequestMutUninit<One<E>, QH, P, PH>,
    second: RequestMutUninit<One<E>, QH, P, PH>,
    hub: &mut Hub<One<E>, QH, P, PH>,
) {
    first.release(hub);
    second.release(hub);
}

/// Of a server that may have one response to a request on loan, the second is refused.
pub fn second_response<Q: Payload, QH: Words, E: Words, PH: Words>(
    request: &ActiveRequest<Q, QH, One<E>, PH>,
    hub: &mut Hub<Q, QH, One<E>, PH>,
) -> Option<LoanError>
    requires has { HasValue hub.old request.now.node request.now.number kinds.ActiveRequest }
    requires limit { most_responses hub.old request.now.node request.now.number ≡ 1 }
    requires none { responses_lent hub.old request.now.node request.now.number ≡ 0 }
    ensures { IfSome result (λ error. error ≡ ExceedsMaxLoans) }
{
    let first = request.loan_uninit(hub).ok()?;
    if hub.calls() >= 1 << 56 {
        first.release(hub);
        return None;
    }
    let told = match request.loan_uninit(hub) {
        Ok(second) => {
            second.release(hub);
            unreachable!();
        }
        Err(error) => error,
    };
    first.release(hub);
    Some(told)
}

/// Within its limits a client lends, where its node has full pools.
pub fn lends_within_limits<E: Words, QH: Words, P: Payload, PH: Words>(
    client: &Client<Many<E>, QH, P, PH>,
    hub: &mut Hub<Many<E>, QH, P, PH>,
    elements: usize,
) -> RequestMutUninit<Many<E>, QH, P, PH>
    requires has { HasValue hub.old client.now.node client.now.number kinds.Client }
    requires within { CanLend hub.old client.now.node client.now.number elements }
{
    let Ok(loan) = client.loan_slice_uninit(hub, elements) else {
        unreachable!();
    };
    loan
}

/// So does a server that answers a request.
pub fn responds_within_limits<Q: Payload, QH: Words, E: Words, PH: Words>(
    request: &ActiveRequest<Q, QH, One<E>, PH>,
    hub: &mut Hub<Q, QH, One<E>, PH>,
) -> ResponseMutUninit<Q, QH, One<E>, PH>
    requires has { HasValue hub.old request.now.node request.now.number kinds.ActiveRequest }
    requires within { CanRespond hub.old request.now.node request.now.number 1 }
{
    let Ok(loan) = request.loan_uninit(hub) else {
        unreachable!();
    };
    loan
}

/// No loan that is as long as the client's messages wants memory.
pub fn never_wants_memory<E: Words, QH: Words, P: Payload, PH: Words>(
    client: &Client<One<E>, QH, P, PH>,
    hub: &mut Hub<One<E>, QH, P, PH>,
) -> Option<RequestMutUninit<One<E>, QH, P, PH>>
    requires has { HasValue hub.old client.now.node client.now.number kinds.Client }
    requires longest { LendsAtMostLongest hub.old client.now.number 1 }
{
    match client.loan_uninit(hub) {
        Ok(loan) => Some(loan),
        Err(LoanError::WantOfMemory) => unreachable!(),
        Err(_) => None,
    }
}
