//! Callers that fill loans piece by piece, proved only from the clauses of a hub.
ghost use Rattle.std.specs.Prelude.{◌≡◌, ◌∷◌, IfSome, [], flat_map};
ghost use Rattle.iox_model.specs.declared.kind.Kind.TheVariants.{Client, RequestMut, ResponseMut, ResponseMutUninit};
ghost use Rattle.iox_hub.specs.Hubs.{HasValue, IsReached};
ghost use Rattle.iox_hub.specs.Reads.{message_in};

use crate::Hub;
use iox_control_request_copies::{Lent, Written};
use iox_store::{Many, One};

/// A user header that was set is the one that is read, and the payload is the one that was there.
pub fn reads_its_header(
    hub: &mut Hub<One<u64>, u32, One<u64>, ()>,
    node: u64,
    number: u64,
    user: u32,
) -> u32
    requires { HasValue hub.old node number RequestMut }
    ensures header { result ≡ user }
    ensures payload { (message_in hub.new node number).payload
        ≡ (message_in hub.old node number).payload }
    ensures reached { IsReached hub.new }
{
    hub.set_request_header(node, number, 0, user);
    hub.calls();
    *hub.request_header(node, number, 0)
}

/// A loan of one element is filled once that is written.
pub fn fills_one(
    hub: &mut Hub<One<u64>, (), One<u64>, ()>,
    node: u64,
    client: u64,
) -> Option<&[u64]>
    requires { HasValue hub.old node client Client }
    ensures { IfSome result (λ read. flat_map (λ n. n ∷ []) read.now ≡ 1234 ∷ []) }
{
    let Lent::Handle(loan) = hub.lend_request(node, client, 0, 1, true) else {
        return None;
    };
    hub.write_next_request(node, loan.number, 0, 1234);
    if !hub.assume_request_init(node, loan.number, 0) {
        unreachable!();
    }
    Some(hub.request(node, loan.number, 0))
}

/// A write replaces what was filled before.
pub fn writes_over(
    hub: &mut Hub<One<u64>, (), One<u64>, ()>,
    node: u64,
    client: u64,
) -> Option<&[u64]>
    requires { HasValue hub.old node client Client }
    ensures { IfSome result (λ read. flat_map (λ n. n ∷ []) read.now ≡ 456 ∷ []) }
{
    let Lent::Handle(loan) = hub.lend_request(node, client, 0, 1, true) else {
        return None;
    };
    hub.write_next_request(node, loan.number, 0, 1234);
    let Written::Done(_) = hub.write_request(node, loan.number, 0, &[456]) else {
        unreachable!();
    };
    Some(hub.request(node, loan.number, 0))
}

/// A closure fills a response of any length.
pub fn fills_all(hub: &mut Hub<One<u64>, (), Many<u64>, ()>, node: u64, number: u64)
    requires { HasValue hub.old node number ResponseMutUninit }
    ensures value { HasValue hub.new node number ResponseMut }
    ensures filled { (message_in hub.new node number).filled
        ≡ (message_in hub.old node number).elements }
{
    hub.write_response_from_fn(node, number, 0, |index| index as u64);
}
