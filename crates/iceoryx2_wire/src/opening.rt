//! Nodes open the service, die and leave.
ghost use Rattle.std.specs.Prelude.{◌≡◌, OnErr};
ghost use Rattle.iox_model.specs.declared.command.Command.TheVariants.{Cleanup, DeclareDead, Leave};
ghost use Rattle.iox_service_laws.specs.Served.{IsDoneOrRefused};
ghost use Rattle.iceoryx2_wire.specs.Services.{IsOpened, service_of};

use crate::service::Service;
use iox_attributes::{AttributeVerificationError, AttributeVerifier};
use iox_model::reply::Refusal;
use iox_openers::MessageTypes;
use iox_service_laws::Backpressure;
use iox_store::Payload;
use iox_types::identifiers::UniqueSystemId;
use iox_words::Words;

impl<Q: Payload, QH: Words, P: Payload, PH: Words, H: Backpressure> Service<Q, QH, P, PH, H> {
    /// A node opens the service, with these four numbers as its id; its number is how many joined
    /// before it. `types` are those of its messages, and the verifier has what it requires. An
    /// attribute that is missing is lent from the verifier.
    ///
    /// It is refused as `MarkedForDestruction` once the service is closed, as `InvalidNodeId`, as
    /// `NodeIdInUse`, as `IncompatibleRequestTypes`, `IncompatibleResponseTypes` or
    /// `IncompatibleAttributes`, as `ExceedsMaxNumberOfNodes`, and as `WantOfMemory`, in this
    /// order. It is refused as `WantOfMemory` as well, once 2^64 - 1 nodes joined.
    pub fn open<'a>(
        &mut self,
        types: &MessageTypes,
        verifier: &'a AttributeVerifier,
        id: UniqueSystemId,
    ) -> Result<u64, Refusal<AttributeVerificationError<'a>>>
        ensures opened { IsOpened self.old types.now verifier.now id result self.new }
        ensures unchanged { OnErr result (self.new ≡ self.old) }
    {
        let asked = self.description.opener_refusal(types, verifier);
        self.nodes.join(id, asked)
    }

    /// A node is declared dead: it asks nothing more. Its ports stay connected, and its number and
    /// its id stay in use, until it is cleaned up. It is refused as `UnknownNode` or `NodeIsDead`.
    pub fn declare_dead(
        &mut self,
        node: u64,
    ) -> Result<(), Refusal<AttributeVerificationError<'static>>>
        ensures done { IsDoneOrRefused (service_of self.old) (DeclareDead node) result
            (service_of self.new) }
        ensures says { self.new.description ≡ self.old.description }
        ensures identity { self.new.identity ≡ self.old.identity }
        ensures unchanged { OnErr result (self.new ≡ self.old) }
    {
        self.nodes.declare_dead(node)
    }

    /// A node leaves; the last one closes the service for good. It is refused as `UnknownNode`,
    /// `NodeIsDead`, or `HasPorts` while a port or a handle of it is not released.
    pub fn leave(&mut self, node: u64) -> Result<(), Refusal<AttributeVerificationError<'static>>>
        ensures done { IsDoneOrRefused (service_of self.old) (Leave node) result
            (service_of self.new) }
        ensures says { self.new.description ≡ self.old.description }
        ensures identity { self.new.identity ≡ self.old.identity }
        ensures unchanged { OnErr result (self.new ≡ self.old) }
    {
        self.nodes.leave(node)
    }

    /// A dead node is cleaned up: its ports and handles are released, in the order of their
    /// numbers, and then it is gone. The last one closes the service for good. It is refused as
    /// `UnknownNode` or `NodeIsAlive`.
    pub fn cleanup(&mut self, node: u64) -> Result<(), Refusal<AttributeVerificationError<'static>>>
        ensures done { IsDoneOrRefused (service_of self.old) (Cleanup node) result
            (service_of self.new) }
        ensures says { self.new.description ≡ self.old.description }
        ensures identity { self.new.identity ≡ self.old.identity }
        ensures unchanged { OnErr result (self.new ≡ self.old) }
    {
        self.nodes.cleanup(node)
    }
}
