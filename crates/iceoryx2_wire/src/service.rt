//! A service with its description.
ghost use Rattle.std.specs.Prelude.{◌≡◌};
ghost use Rattle.iox_members.specs.Registering.{AreRegistered};
ghost use Rattle.iox_model.specs.Runs.{IsServed};
ghost use Rattle.iceoryx2_wire.specs.Services.{service_of};

use crate::identity::ServiceIdentity;
use iox_members::Nodes;
use iox_names::ServiceName;
use iox_openers::ServiceDescription;
use iox_service_laws::Backpressure;
use iox_store::Payload;
use iox_words::Words;
use std::fmt;
use std::marker::Model;

/// A service: which one it is, what its creator and its openers are compared with, its nodes, and
/// all their ports, with requests of `Q` and user headers `QH`, and with responses of `P` and user
/// headers `PH`. Ports may have handlers of `H`; where they have none, it is the unit.
///
/// It shows a state of the machine that copies messages (`service_of`). Which one it is, and what
/// it says of itself, never changes.
#[derive(Drop)]
pub struct Service<Q: Payload, QH: Words, P: Payload, PH: Words, H: Backpressure = ()> {
    pub(crate) identity: ServiceIdentity,
    pub(crate) description: ServiceDescription,
    pub(crate) nodes: iox_service_laws::Service<Q, QH, P, PH, H>,
}

impl<Q: Payload, QH: Words, P: Payload, PH: Words, H: Backpressure> Model
    for Service<Q, QH, P, PH, H> {
    ghost use Rattle.iceoryx2_wire.specs.Services.{DescribedService};

    ghost Value = { DescribedService };

    ghost view = { λ s. record {
      identity = s.identity;
      description = s.description;
      nodes = s.nodes;
    } };
}

/// Only its name and its number, since its tables are long.
impl<Q: Payload, QH: Words, P: Payload, PH: Words, H: Backpressure> fmt::Debug
    for Service<Q, QH, P, PH, H> {
    fn fmt<W: fmt::Write>(&self, f: &mut fmt::Formatter<W>) -> fmt::Result {
        let ServiceIdentity { name, number } = &self.identity;
        write!(f, "Service {{ name: {name:?}, number: {number}, .. }}")
    }
}

impl<Q: Payload, QH: Words, P: Payload, PH: Words, H: Backpressure> Service<Q, QH, P, PH, H> {
    /// The name of the service.
    #[inline]
    pub fn name(&self) -> &ServiceName
        ensures { result.now ≡ self.now.identity.name }
    {
        &self.identity.name
    }

    /// The number that the creator gave the service.
    #[inline]
    pub fn number(&self) -> u64
        ensures { result ≡ self.now.identity.number }
    {
        self.identity.number
    }

    /// The nodes and ports of the service, with neither name nor description. Each of its `laws`
    /// holds of them.
    #[inline]
    pub fn nodes(&self) -> &iox_service_laws::Service<Q, QH, P, PH, H>
        ensures { result.now ≡ self.now.nodes }
    {
        &self.nodes
    }

    /// What the service says of itself.
    #[inline]
    pub fn description(&self) -> &ServiceDescription
        ensures { result.now ≡ self.now.description }
    {
        &self.description
    }

    /// The machine can reach the service's state by what its own nodes asked. This does nothing: it
    /// is there for its contract.
    #[inline]
    pub fn is_served(&self)
        ensures { IsServed (service_of self.now) }
    {
        self.nodes.is_served();
    }

    /// Whether the last node is gone, so that nobody may open the service any more.
    #[inline]
    pub fn is_closed(&self) -> bool
        ensures { result ≡ (service_of self.now).members.closed }
    {
        self.nodes.is_closed()
    }

    /// What is registered with the service: the id of each node, those of dead ones too. It tells
    /// how many there are, and lists them.
    #[inline]
    pub fn dynamic_config(&self) -> &Nodes
        ensures registry { result.now ≡ self.now.nodes.registry }
        ensures registered { AreRegistered (service_of self.now).members self.now.nodes.registry }
    {
        self.nodes.dynamic_config()
    }
}
