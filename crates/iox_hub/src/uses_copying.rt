//! Callers of copies, proved only from the clauses of a hub.
ghost use Rattle.std.specs.Prelude.{◌≡◌, ◌∷◌, IfSome, [], flat_map};
ghost use Rattle.iox_model.specs.declared.kind.Kind.TheVariants.{ActiveRequest, Client, PendingResponse};
ghost use Rattle.iox_hub.specs.Hubs.{HasValue, IsReached};

use crate::Hub;
use iox_control_request_copies::{Answered, Copied};
use iox_store::{Many, One};
use iox_words::Words;

/// A client that sends a copy of 123 has a pending response, and reads 123 there.
pub fn asks_123(hub: &mut Hub<One<u64>, (), One<u64>, ()>, node: u64, client: u64) -> Option<&[u64]>
    requires { HasValue hub.old node client Client }
    ensures { IfSome result (λ read. flat_map (λ n. n ∷ []) read.now ≡ 123 ∷ []) }
{
    match hub.copy_request(node, client, &[123]) {
        Copied::To { number, .. } => Some(hub.request(node, number, 0)),
        _ => None,
    }
}

/// What a client copies is what it reads, however many elements it has.
pub fn reads_what_it_copies<'a, E: Words>(
    hub: &'a mut Hub<Many<E>, u32, One<u64>, ()>,
    node: u64,
    client: u64,
    values: &[E],
) -> Option<&'a [E]>
    requires { HasValue hub.old node client Client }
    ensures { IfSome result (λ read. flat_map E.words read.now ≡ flat_map E.words values.now) }
{
    match hub.copy_request(node, client, values) {
        Copied::To { number, .. } => Some(hub.request(node, number, 0)),
        _ => None,
    }
}

/// Once its copy is sent, a node may ask whether a response waits.
pub fn waits_for_what_it_copied(
    hub: &mut Hub<One<u64>, (), One<u64>, ()>,
    node: u64,
    client: u64,
) -> bool
    requires { HasValue hub.old node client Client }
{
    match hub.copy_request(node, client, &[1]) {
        Copied::To { number, .. } => hub.has_response(node, number, 0),
        _ => false,
    }
}

/// A node that has an active request may answer it with copies, and the state that is left can be
/// reached.
pub fn answers_with<E: Words>(
    hub: &mut Hub<One<u64>, (), Many<E>, u32>,
    node: u64,
    number: u64,
    values: &[E],
) -> Answered
    requires { HasValue hub.old node number ActiveRequest }
    ensures { IsReached hub.new }
{
    let answered = hub.copy_response(node, number, 0, values);
    hub.calls();
    answered
}

/// A copy that a test refuses changes nothing: the node may copy fewer elements then.
pub fn answers_shorter<E: Words>(
    hub: &mut Hub<One<u64>, (), Many<E>, u32>,
    node: u64,
    number: u64,
    long: &[E],
    short: &[E],
) -> Answered
    requires { HasValue hub.old node number ActiveRequest }
{
    match hub.copy_response(node, number, 0, long) {
        Answered::Refused(_) => hub.copy_response(node, number, 0, short),
        told => told,
    }
}
