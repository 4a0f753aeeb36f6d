//! What a service's nodes ask of its ports.
ghost use Rattle.std.specs.Prelude.{◌≡◌};
ghost use Rattle.iox_attributes.specs.declared.verification_error.AttributeVerificationError.{AttributeVerificationError};
ghost use Rattle.iox_model.specs.declared.command.Command.TheVariants.{Port};
ghost use Rattle.iox_service_laws.specs.Memory.{PortWantsRightly, WantsToGrowFor};
ghost use Rattle.iox_service_laws.specs.Served.{IsPortAnswered};
ghost use Rattle.iox_service_laws.specs.HandlerWords.{shown_by};
ghost use Rattle.iceoryx2_wire.specs.Services.{service_of};

use crate::service::Service;
use iox_attributes::AttributeVerificationError;
use iox_model::command::PortCommand;
use iox_model::reply::Reply;
use iox_service_laws::{Backpressure, Elements};
use iox_store::Payload;
use iox_words::Words;
use std::alloc::Global;

impl<Q: Payload, QH: Words, P: Payload, PH: Words, H: Backpressure> Service<Q, QH, P, PH, H> {
    /// A node makes a port, or calls a port or a handle by its number. A port gets the id with
    /// which its node opened the service. It is refused as `UnknownNode` or `NodeIsDead` before all
    /// that the port tests. Where there is no memory for a port, for what is read or for a message
    /// that must grow, that is a reply, too; no other command is told so.
    ///
    /// It stands in its callers, since a call would copy the command and the reply once more.
    #[inline(always)]
    pub fn port(
        &mut self,
        alloc: Global,
        command: PortCommand<Elements<Q::Element, P::Element>, H>,
    ) -> Reply<Vec<u64>, AttributeVerificationError<'static>>
        ensures answered { IsPortAnswered Q.Element.words P.Element.words (shown_by H.action)
            (service_of self.old) command result (service_of self.new) }
        ensures want { PortWantsRightly command result }
        ensures grows { WantsToGrowFor {C = AttributeVerificationError} Q.Element.words
            P.Element.words (shown_by H.action) (service_of self.old) (Port command) result }
        ensures says { self.new.description ≡ self.old.description }
        ensures identity { self.new.identity ≡ self.old.identity }
    {
        self.nodes.port(alloc, command)
    }
}
