//! Callers of the laws, with no proof of their own but for `dies`.
ghost use Rattle.std.specs.Prelude.{◌≡◌, [], IfOk, IfSome, if◌then◌else◌, true};
ghost use Rattle.iox_attributes.specs.declared.verification_error.AttributeVerificationError as causes;
ghost use Rattle.iox_model.specs.declared.command.Command.TheVariants.{DeclareDead, Port};
ghost use Rattle.iox_model.specs.declared.command.PortCommand.TheVariants.{HasRequests};
ghost use Rattle.iox_model.specs.declared.kind.Role.TheVariants.{Client};
ghost use Rattle.iox_model.specs.declared.reply.Refusal.TheVariants.{NodeIsDead, UnknownNode};
ghost use Rattle.iox_model.specs.declared.reply.Reply.TheVariants.{Done, Refused};
ghost use Rattle.iox_model.specs.Commands as machine;
ghost use Rattle.iox_model.specs.Services.{IsCommand};
ghost use Rattle.iox_model.specs.Peers.{ports_of_role};
ghost use Rattle.iox_model.specs.Runs.{IsReachableState, is_member};
ghost use Rattle.iox_service_laws.specs.Asked.{CleanupsAreReleases, ListingsAreExact};
ghost use Rattle.iox_service_laws.specs.Asked.{RefusalsLeave};
ghost use Rattle.iox_service_laws.specs.Gone.{ClosesWithTheLastNode, KeepsNothingForTheGone};
ghost use Rattle.iox_service_laws.specs.Gone.{IsRefusedToTheDead, LivesNoMore, TheDeadDoNothing};
ghost use Rattle.iox_service_laws.specs.Given.{reply_given};
ghost use Rattle.iox_service_laws.specs.Histories.{RunsAreHistories};
ghost use Rattle.iox_service_laws.specs.Limits.{LimitsHold, LoansSucceed, PoolsSuffice};
ghost use Rattle.iox_service_laws.specs.Messages.{AreAsDelivered, ComeAtMostOnce};
ghost use Rattle.iox_service_laws.specs.Messages.{ComeAtTheirRequest, ComeInOrder, WereSent};
ghost use Rattle.iceoryx2_wire.specs.Services.{service_of};

use crate::laws::{
    cleanups_are_releases, closes_with_the_last_node, keeps_nothing_for_the_gone, limits_hold,
    listings_are_exact, loans_succeed, messages_are_as_delivered, messages_come_at_most_once,
    messages_come_at_their_request, messages_come_in_order, messages_were_sent, pools_suffice,
    refusals_leave_the_state, runs_are_histories, the_dead_do_nothing,
};
use crate::opener::Opener;
use crate::service::Service;
use iox_attributes::AttributeVerificationError;
use iox_model::command::{Command, PortCommand};
use iox_model::reply::Reply;
use iox_service_laws::Elements;
use iox_store::{Many, One};
use std::alloc::{AllocError, Global};

/// Requests of bytes, and responses that are a number each.
type Bytes = Service<Many<u8>, (), One<u64>, ()>;

/// What holds of all messages of the service, whatever history led to its state.
pub fn knows_its_messages(service: &Bytes)
    ensures reached { IsReachableState (service_of service.now) }
    ensures once { ComeAtMostOnce (service_of service.now) }
    ensures order { ComeInOrder (service_of service.now) }
    ensures delivered { AreAsDelivered (service_of service.now) }
    ensures sent { WereSent (service_of service.now) }
    ensures request { ComeAtTheirRequest (service_of service.now) }
{
    let nodes = service.nodes();
    messages_come_at_most_once(nodes);
    messages_come_in_order(nodes);
    messages_are_as_delivered(nodes);
    messages_were_sent(nodes);
    messages_come_at_their_request(nodes);
}

/// How many messages there may be, and that they suffice.
pub fn knows_its_limits(service: &Bytes)
    ensures limits { LimitsHold (service_of service.now) }
    ensures pools { PoolsSuffice (service_of service.now) }
    ensures loans { LoansSucceed (service_of service.now) }
{
    let nodes = service.nodes();
    limits_hold(nodes);
    pools_suffice(nodes);
    loans_succeed(nodes);
}

/// What is left of those that are gone, and what commands come to.
pub fn knows_its_nodes(service: &Bytes)
    ensures gone { KeepsNothingForTheGone (service_of service.now) }
    ensures closes { ClosesWithTheLastNode (service_of service.now) }
    ensures dead { TheDeadDoNothing (service_of service.now) }
    ensures cleanups { CleanupsAreReleases (service_of service.now) }
    ensures listings { ListingsAreExact (service_of service.now) }
    ensures refusals { RefusalsLeave (service_of service.now) }
    ensures runs { RunsAreHistories (service_of service.now) }
{
    let nodes = service.nodes();
    keeps_nothing_for_the_gone(nodes);
    closes_with_the_last_node(nodes);
    the_dead_do_nothing(nodes);
    cleanups_are_releases(nodes);
    listings_are_exact(nodes);
    refusals_leave_the_state(nodes);
    runs_are_histories(nodes);
}

// ---- what follows from a law after a call

/// Whether the service is closed, and its clients. A closed service has none.
pub fn lists_clients(service: &Bytes, alloc: Global) -> Result<(bool, Vec<u64>), AllocError>
    ensures told { IfOk result (λ listed. listed.0 ≡ (service_of service.now).members.closed) }
    ensures clients { IfOk result (λ listed.
        (listed.1).items ≡ ports_of_role (service_of service.now).fixed Client) }
    ensures none { IfOk result (λ listed. listed.0 ≡ true → (listed.1).items ≡ []) }
{
    closes_with_the_last_node(service.nodes());
    let clients = service.list_clients(alloc)?;
    Ok((service.is_closed(), clients))
}

/// What is so of the dead, and that a run is a history.
fn knows_its_dead(service: &Bytes)
    ensures dead { TheDeadDoNothing (service_of service.now) }
    ensures runs { RunsAreHistories (service_of service.now) }
{
    let nodes = service.nodes();
    the_dead_do_nothing(nodes);
    runs_are_histories(nodes);
}

/// A node is declared dead, and whether that was done.
fn declares_dead(service: &mut Bytes, alloc: Global, node: u64) -> bool
    ensures { result ≡ true → (c : machine.Command) × (c ≡ DeclareDead node)
        × IsCommand (service_of service.old) c Done (service_of service.new) }
{
    let death: Command<Elements<u8, u64>, (), &Opener> = Command::DeclareDead { node };
    match service.serve(alloc, death) {
        Ok(Reply::Done) => true,
        _ => false,
    }
}

/// A node is declared dead. Where that is done it lives no more.
pub fn dies(service: &mut Bytes, alloc: Global, node: u64) -> bool
    ensures { result ≡ true → LivesNoMore (service_of service.new) node }
{
    knows_its_dead(service);
    declares_dead(service, alloc, node)
}

/// A node dies, and then commands are run. Where all this is done, whatever they were, the dead
/// node may ask a server for nothing.
pub fn goes_on_without<'a>(
    service: &mut Bytes,
    alloc: Global,
    node: u64,
    number: u64,
    commands: Vec<Command<Elements<u8, u64>, (), &'a Opener>>,
    replies: &mut Vec<Reply<Vec<u64>, AttributeVerificationError<'a>>>,
) -> bool
    ensures { result ≡ true →
        IsRefusedToTheDead (service_of service.new) node (Port (HasRequests node number)) }
{
    if dies(service, alloc, node) {
        knows_its_dead(service);
        service.run(alloc, commands, replies).is_ok()
    } else {
        false
    }
}

/// A node dies, commands are run, and then the dead node asks something. It is refused as dead, or
/// as unknown if it was cleaned up meanwhile.
pub fn asks_when_dead<'a>(
    service: &mut Bytes,
    alloc: Global,
    node: u64,
    number: u64,
    commands: Vec<Command<Elements<u8, u64>, (), &'a Opener>>,
    replies: &mut Vec<Reply<Vec<u64>, AttributeVerificationError<'a>>>,
) -> Option<Reply<Vec<u64>, AttributeVerificationError<'static>>>
    ensures { (cause : causes.AttributeVerificationError → machine.Cause) →
        IfSome result (λ reply. reply_given cause reply
        ≡ Refused (if is_member (service_of service.new) node then NodeIsDead else UnknownNode)) }
{
    let asks: PortCommand<Elements<u8, u64>, ()> = PortCommand::HasRequests { node, number };
    if goes_on_without(service, alloc, node, number, commands, replies) {
        Some(service.port(alloc, asks))
    } else {
        None
    }
}
