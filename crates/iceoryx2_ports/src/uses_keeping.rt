//! What stays over other calls, proved only from the clauses of typed ports.
ghost use Rattle.std.specs.Prelude.{◌≡◌, ◌∷◌, IfOk, IsSome, []};
ghost use Rattle.iceoryx2_ports.specs.Calls.{HasCallsLeft};
ghost use Rattle.iceoryx2_ports.specs.Hubs.{HasValue};
ghost use Rattle.iceoryx2_ports.specs.Kind.TheVariants as kinds;
ghost use Rattle.iceoryx2_ports.specs.Reads.{message_in};
ghost use Rattle.iceoryx2_ports.specs.Sending.{HasNothing};

use crate::{
    ActiveRequest, Client, Hub, LoanError, Many, One, Payload, ReceiveError, RequestMut,
    RequestMutUninit, Server, Words,
};

/// A request that is filled carries the same after another loan.
pub fn loans_beside<QH: Words, P: Payload, PH: Words>(
    client: &Client<One<u64>, QH, P, PH>,
    hub: &mut Hub<One<u64>, QH, P, PH>,
) -> Result<
    (
        RequestMut<One<u64>, QH, P, PH>,
        RequestMutUninit<One<u64>, QH, P, PH>,
    ),
    LoanError,
>
    requires { HasValue hub.old client.now.node client.now.number kinds.Client }
    ensures { IfOk result (λ both.
        (message_in hub.new both.0.node both.0.number).payload ≡ 456 ∷ []) }
{
    let loan = client.loan_uninit(hub)?;
    let filled = loan.write_payload(hub, 456);
    match client.loan_uninit(hub) {
        Ok(other) => Ok((filled, other)),
        Err(error) => {
            filled.release(hub);
            Err(error)
        }
    }
}

/// Where requests have a default, they have it still once a server received one.
pub fn receives_and_loans<E: Words, QH: Words, P: Payload, PH: Words>(
    client: &Client<Many<E>, QH, P, PH>,
    server: &Server<Many<E>, QH, P, PH>,
    hub: &mut Hub<Many<E>, QH, P, PH>,
) -> Result<
    (
        Option<ActiveRequest<Many<E>, QH, P, PH>>,
        Result<RequestMut<Many<E>, QH, P, PH>, LoanError>,
    ),
    ReceiveError,
>
    requires client { HasValue hub.old client.now.node client.now.number kinds.Client }
    requires server { HasValue hub.old server.now.node server.now.number kinds.Server }
    requires calls { HasCallsLeft hub.old }
    requires default { IsSome hub.old.request.default }
{
    let got = server.receive(hub)?;
    Ok((got, client.loan_slice(hub, 3)))
}

/// An unfilled loan that a command filled meanwhile is given up by its holder all the same.
pub fn gives_up_what_a_command_filled<Q: Payload, QH: Words, P: Payload, PH: Words>(
    loan: RequestMutUninit<Q, QH, P, PH>,
    hub: &mut Hub<Q, QH, P, PH>,
)
    requires { HasValue hub.old loan.node loan.number kinds.RequestMut }
    ensures { HasNothing hub.new loan.node loan.number }
{
    loan.release(hub);
}
