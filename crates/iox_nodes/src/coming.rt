//! Nodes join, die and leave.
ghost use Rattle.std.specs.Prelude.{◌≡◌, Err, IfOk, OnErr, false};
ghost use Rattle.iox_model.specs.declared.command.Command.TheVariants.{Cleanup, DeclareDead, Leave};
ghost use Rattle.iox_model.specs.declared.reply.Refusal.TheVariants.{WantOfMemory};
ghost use Rattle.iox_nodes.specs.Memory.{is_wanting};
ghost use Rattle.iox_nodes.specs.Served.{IsDoneOrRefused, IsJoin};
ghost use Rattle.iox_nodes.specs.Shown.{service_of};

use crate::service::Service;
use iox_model::reply::Refusal;
use iox_port_commands::Backpressure;
use iox_store::Payload;
use iox_types::identifiers::UniqueSystemId;
use iox_words::Words;
use std::alloc::AllocError;

/// Whether memory was wanted for a join.
fn is_wanting<C>(answer: &Result<u64, Refusal<C>>) -> bool
    ensures { result ≡ is_wanting answer.now }
{
    matches!(answer, Err(Refusal::WantOfMemory))
}

impl<Q: Payload, QH: Words, P: Payload, PH: Words, H: Backpressure> Service<Q, QH, P, PH, H> {
    /// A node joins, with these four numbers as its id; its number is how many joined before it.
    /// `asked` is the first of its tests of types and attributes that fails, if one does.
    ///
    /// It is refused as `MarkedForDestruction` once the service is closed, as `InvalidNodeId`, as
    /// `NodeIdInUse`, by what is asked, as `ExceedsMaxNumberOfNodes`, and as `WantOfMemory`, in
    /// this order. It is refused as `WantOfMemory` as well, once 2^64 - 1 nodes joined.
    pub fn join<C: Copy>(
        &mut self,
        id: UniqueSystemId,
        asked: Option<Refusal<C>>,
    ) -> Result<u64, Refusal<C>>
        ensures joined { IsJoin (service_of self.old) id asked result (service_of self.new) }
        ensures unchanged { OnErr result (self.new ≡ self.old) }
    {
        match self.try_join(id, asked) {
            Ok(answer) => answer,
            Err(_) => Err(Refusal::WantOfMemory),
        }
    }

    /// The same, where there is memory for it.
    pub(crate) fn try_join<C: Copy>(
        &mut self,
        id: UniqueSystemId,
        asked: Option<Refusal<C>>,
    ) -> Result<Result<u64, Refusal<C>>, AllocError>
        ensures joined { IfOk result (λ answer.
            IsJoin (service_of self.old) id asked answer (service_of self.new)) }
        ensures refused { IfOk result (λ answer. OnErr answer (self.new ≡ self.old)) }
        ensures memory { IfOk result (λ answer. is_wanting answer ≡ false) }
        ensures wanting { OnErr result
            (IsJoin (service_of self.old) id asked (Err WantOfMemory) (service_of self.old)) }
        ensures unchanged { OnErr result (self.new ≡ self.old) }
    {
        let answer = self.members.join(id, asked);
        if is_wanting(&answer) {
            return Err(AllocError);
        }
        Ok(answer)
    }

    /// A node is declared dead: it asks nothing more. Its ports stay connected, and its number and
    /// its id stay in use, until it is cleaned up. It is refused as `UnknownNode` or `NodeIsDead`.
    pub fn declare_dead<C>(&mut self, node: u64) -> Result<(), Refusal<C>>
        ensures done { IsDoneOrRefused (service_of self.old) (DeclareDead node) result
            (service_of self.new) }
        ensures unchanged { OnErr result (self.new ≡ self.old) }
    {
        self.members.declare_dead(node)
    }

    /// A node leaves; the last one closes the service for good. It is refused as `UnknownNode`,
    /// `NodeIsDead`, or `HasPorts` while a port or a handle of it is not released.
    pub fn leave<C>(&mut self, node: u64) -> Result<(), Refusal<C>>
        ensures done { IsDoneOrRefused (service_of self.old) (Leave node) result
            (service_of self.new) }
        ensures unchanged { OnErr result (self.new ≡ self.old) }
    {
        let has_values = self.hub.has_values(node);
        self.members.leave(node, has_values)
    }

    /// A dead node is cleaned up: its ports and handles are released, in the order of their
    /// numbers, and then it is gone. The last one closes the service for good. It is refused as
    /// `UnknownNode` or `NodeIsAlive`.
    pub fn cleanup<C>(&mut self, node: u64) -> Result<(), Refusal<C>>
        ensures done { IsDoneOrRefused (service_of self.old) (Cleanup node) result
            (service_of self.new) }
        ensures unchanged { OnErr result (self.new ≡ self.old) }
    {
        if let Err(refusal) = self.members.dead(node) {
            return Err(refusal);
        }
        self.hub.release_all(node);
        self.members.remove(node);
        Ok(())
    }
}
