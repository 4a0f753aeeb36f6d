//! A service: its nodes, and the hub of its ports.
ghost use Rattle.std.specs.Prelude.{◌≡◌};
ghost use Rattle.iox_model.specs.Runs.{IsServed};
ghost use Rattle.iox_members.specs.Registering.{AreRegistered};
ghost use Rattle.iox_nodes.specs.Shown.{service_of};

use iox_members::{Members, Nodes};
use iox_port_commands::{Backpressure, Hub};
use iox_store::Payload;
use iox_words::Words;
use std::marker::Model;

/// A service: its nodes and all their ports, with requests of `Q` and user headers `QH`, and with
/// responses of `P` and user headers `PH`. Ports may have handlers of `H`; where they have none, it
/// is the unit.
///
/// It shows a state of the machine that copies messages (`service_of`). The machine can reach it by
/// what the service's own nodes asked, so each law of the machine holds of it.
#[derive(Drop)]
pub struct Service<Q: Payload, QH: Words, P: Payload, PH: Words, H: Backpressure = ()> {
    pub(crate) members: Members,
    pub(crate) hub: Hub<Q, QH, P, PH, H>,
}

impl<Q: Payload, QH: Words, P: Payload, PH: Words, H: Backpressure> Model
    for Service<Q, QH, P, PH, H> {
    ghost use Rattle.iox_nodes.specs.Shown.{IsServiceWithRoom, ServiceTables, tables_of};

    ghost Value = { ServiceTables };

    ghost view = { λ s. tables_of s.members s.hub };

    ghost invariant = { λ s. IsServiceWithRoom s.members s.hub };
}

impl<Q: Payload, QH: Words, P: Payload, PH: Words, H: Backpressure> Service<Q, QH, P, PH, H> {
    /// The machine can reach the service's state by what its own nodes asked. This does nothing: it
    /// is there for its contract.
    #[inline]
    pub fn is_served(&self)
        ensures { IsServed (service_of self.now) }
    {
        let _members = &self.members;
    }

    /// Whether the last node is gone, so that nobody may join any more.
    #[inline]
    pub fn is_closed(&self) -> bool
        ensures { result ≡ self.now.members.closed }
    {
        self.members.is_closed()
    }

    /// What is registered: the id of each node, those of dead ones too. It tells how many there
    /// are, and lists them.
    #[inline]
    pub fn dynamic_config(&self) -> &Nodes
        ensures registry { result.now ≡ self.now.registry }
        ensures registered { AreRegistered (service_of self.now).members self.now.registry }
    {
        self.members.dynamic_config()
    }
}
