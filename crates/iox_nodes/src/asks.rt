//! What a service's nodes ask of its hub.
ghost use Rattle.std.specs.Prelude.{◌≡◌, IfOk, OnErr};
ghost use Rattle.iox_model.specs.declared.command.Command.TheVariants.{Port};
ghost use Rattle.iox_model.specs.Handles.{has};
ghost use Rattle.iox_nodes.specs.Memory.{IsAnsweredWithMemory, MayFindNoMemory, PortWantsRightly};
ghost use Rattle.iox_nodes.specs.Memory.{WantsToGrowFor, want_of};
ghost use Rattle.iox_port_commands.specs.HandlerWords.{shown_by};
ghost use Rattle.iox_nodes.specs.Served.{IsPortAnswered};
ghost use Rattle.iox_nodes.specs.Shown.{service_of};
ghost use Rattle.iox_port_commands.specs.Asking.{is_making};

use crate::asking::{asker, put_id};
use crate::replying::reply_of;
use crate::service::Service;
use iox_model::command::PortCommand;
use iox_model::kind::Kind;
use iox_model::reply::{Refusal, Reply};
use iox_port_commands::{Backpressure, Elements, apply, try_apply};
use iox_store::Payload;
use iox_words::Words;
use std::alloc::{AllocError, Global};

/// Whether the command makes a port.
pub(crate) fn is_making<P, H>(command: &PortCommand<P, H>) -> bool
    ensures { result ≡ is_making command.now }
{
    matches!(
        command,
        PortCommand::Client { .. } | PortCommand::Server { .. }
    )
}

/// How a command is refused where there is no memory for it: the making of a port, or another.
pub(crate) fn want_of<C>(making: bool) -> Refusal<C>
    ensures { result ≡ want_of making }
{
    if making {
        return Refusal::UnableToCreateDataSegment;
    }
    Refusal::WantOfMemory
}

impl<Q: Payload, QH: Words, P: Payload, PH: Words, H: Backpressure> Service<Q, QH, P, PH, H> {
    /// A node makes a port, or calls a port or a handle by its number. A port gets the id with
    /// which its node joined. It is refused as `UnknownNode` or `NodeIsDead` before all that the
    /// hub tests. Where there is no memory for a port, for what is read or for a message that must
    /// grow, that is a reply, too; no other command is told so.
    ///
    /// It stands in its callers, since a call would copy the command and the reply once more.
    #[inline(always)]
    pub fn port<C>(
        &mut self,
        alloc: Global,
        command: PortCommand<Elements<Q::Element, P::Element>, H>,
    ) -> Reply<Vec<u64>, C>
        ensures answered { IsPortAnswered Q.Element.words P.Element.words (shown_by H.action)
            (service_of self.old) command result (service_of self.new) }
        ensures want { PortWantsRightly command result }
        ensures grows { WantsToGrowFor {C = C} Q.Element.words P.Element.words (shown_by H.action)
            (service_of self.old) (Port command) result }
    {
        match self.members.living::<C>(asker(&command)) {
            Err(refusal) => Reply::Refused(refusal),
            Ok(id) => {
                let mut command = command;
                put_id(&mut command, id);
                reply_of(apply(&mut self.hub, alloc, command))
            }
        }
    }

    /// The same, where there is memory for a port, for what is read and for a message that grows.
    #[inline(always)]
    pub(crate) fn try_port<C>(
        &mut self,
        alloc: Global,
        command: PortCommand<Elements<Q::Element, P::Element>, H>,
    ) -> Result<Reply<Vec<u64>, C>, AllocError>
        ensures answered { IfOk result (λ reply. IsAnsweredWithMemory Q.Element.words
            P.Element.words (shown_by H.action) (service_of self.old) (Port command) reply
            (service_of self.new)) }
        ensures wanting { OnErr result (MayFindNoMemory {C = C} Q.Element.words P.Element.words
            (shown_by H.action) (service_of self.old) (Port command)) }
        ensures unchanged { OnErr result (self.new ≡ self.old) }
    {
        match self.members.living(asker(&command)) {
            Err(refusal) => Ok(Reply::Refused(refusal)),
            Ok(id) => {
                let mut command = command;
                put_id(&mut command, id);
                Ok(reply_of(try_apply(&mut self.hub, alloc, command)?))
            }
        }
    }

    /// Whether the node has a port or a handle of that number and kind, which is not released.
    #[inline(always)]
    pub fn has(&self, node: u64, number: u64, kind: Kind) -> bool
        ensures { result ≡ has (service_of self.now).fixed node number kind }
    {
        self.hub.has(node, number, kind, usize::MAX)
    }
}
