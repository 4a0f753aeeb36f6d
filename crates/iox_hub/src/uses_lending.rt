//! Callers of loans and writes, proved only from the clauses of a hub.
ghost use Rattle.std.specs.Prelude.{◌≡◌, ◌∷◌, IfSome, IsSome, [], flat_map, length};
ghost use Rattle.iox_model.specs.declared.kind.Kind.TheVariants.{ActiveRequest, Client};
ghost use Rattle.iox_model.specs.WholeCalls.{default_payload};
ghost use Rattle.iox_hub.specs.Hubs.{HasValue, IsReached};

use crate::Hub;
use iox_control_request_copies::{Lent, Written};
use iox_store::{Many, One};
use iox_words::Words;

/// A client that lends a request and writes elements into it reads these.
pub fn writes_and_reads_request<'a, E: Words>(
    hub: &'a mut Hub<Many<E>, u32, One<u64>, ()>,
    node: u64,
    client: u64,
    values: &[E],
) -> Option<&'a [E]>
    requires { HasValue hub.old node client Client }
    ensures { IfSome result (λ read. flat_map E.words read.now ≡ flat_map E.words values.now) }
{
    let Lent::Handle(loan) = hub.lend_request(node, client, 0, values.len(), true) else {
        return None;
    };
    let Written::Done(_) = hub.write_request(node, loan.number, 0, values) else {
        return None;
    };
    Some(hub.request(node, loan.number, 0))
}

/// A loan that is handed out filled with its default reads as that.
pub fn reads_default(
    hub: &mut Hub<One<u64>, (), One<u64>, ()>,
    node: u64,
    number: u64,
) -> Option<&[u64]>
    requires has { HasValue hub.old node number ActiveRequest }
    requires default { IsSome hub.old.response.default }
    ensures { IfSome result (λ read. flat_map (λ n. n ∷ []) read.now
        ≡ default_payload hub.old.response 1) }
{
    let Lent::Handle(loan) = hub.lend_response(node, number, 0, 1, false) else {
        return None;
    };
    Some(hub.response(node, loan.number, 0))
}

/// A client that lends a request and writes 456 into it reads 456.
pub fn writes_456(
    hub: &mut Hub<One<u64>, (), One<u64>, ()>,
    node: u64,
    client: u64,
) -> Option<&[u64]>
    requires { HasValue hub.old node client Client }
    ensures { IfSome result (λ read. flat_map (λ n. n ∷ []) read.now ≡ 456 ∷ []) }
{
    let Lent::Handle(loan) = hub.lend_request(node, client, 0, 1, true) else {
        return None;
    };
    let Written::Done(_) = hub.write_request(node, loan.number, 0, &[456]) else {
        return None;
    };
    Some(hub.request(node, loan.number, 0))
}

/// What is written to a loan is as long as the loan, so the loan is filled, and may be written
/// again.
pub fn writes_twice<E: Words>(
    hub: &mut Hub<One<u64>, (), Many<E>, u32>,
    node: u64,
    number: u64,
    first: &[E],
    second: &[E],
) -> Written
    requires has { HasValue hub.old node number ActiveRequest }
    requires same { length first.now ≡ length second.now }
    ensures reached { IsReached hub.new }
{
    let lent = hub.lend_response(node, number, 0, first.len(), true);
    hub.calls();
    let Lent::Handle(loan) = lent else {
        return Written::WrongLength;
    };
    let Written::Done(_) = hub.write_response(node, loan.number, 0, first) else {
        unreachable!();
    };
    let written = hub.write_response(node, loan.number, 0, second);
    hub.calls();
    written
}
