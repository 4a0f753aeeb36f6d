//! What clients and servers share of the requests between them.
#![tactic(auto, using(crate::proofs::Keeping::kept))]

ghost use Rattle.std.specs.Prelude.{◌≡◌, false};
ghost use Rattle.iox_model.specs.declared.kind.Role.TheVariants.{Server};
ghost use Rattle.iox_model.specs.declared.way.RequestState.TheVariants.{Named};
ghost use Rattle.iox_model.specs.Messages.{closed_for, hinted_for};
ghost use Rattle.iox_tables.specs.HubStates.Ways.{with_state_on, with_states_on};
ghost use Rattle.iox_hub_ports.specs.Ports.{state_of_way, state_ways, with_ports};

use crate::ports::Ports;
use crate::steps::{Close, Hint, Open};
use crate::walks::on_each_state;
use iox_model::kind::Role;
use iox_model::way::{RequestState, Way};

impl Ports {
    /// The request state of the way; closed where there is none.
    pub fn state(&self, way: Way) -> RequestState
        ensures { result ≡ state_of_way self.now.ports way }
    {
        match self.place(way.sender) {
            Some(place) => self.ports[place].state(way.receiver, way.lane),
            None => RequestState::Closed,
        }
    }

    /// Opens the request on the way.
    pub fn open(&mut self, way: Way, id: u64)
        ensures { self.new
            ≡ with_ports self.old (with_state_on (λ r. Named id false) self.old.ports way) }
    {
        self.on_state_of(way, &Open { id });
    }

    /// Closes the request on the way, if it is the open one.
    #[inline(always)]
    pub fn close(&mut self, way: Way, id: u64)
        ensures { self.new
            ≡ with_ports self.old (with_state_on (λ r. closed_for r id) self.old.ports way) }
    {
        self.on_state_of(way, &Close { id });
    }

    /// Says of the request on the way that its client lost interest, if it is the open one.
    pub fn hint(&mut self, way: Way, id: u64)
        ensures { self.new
            ≡ with_ports self.old (with_state_on (λ r. hinted_for r id) self.old.ports way) }
    {
        self.on_state_of(way, &Hint { id });
    }

    /// Opens the request on that lane of the client with each server.
    pub fn open_all(&mut self, client: u64, lane: u64, id: u64)
        ensures { self.new ≡ with_ports self.old
            (with_states_on (λ r. Named id false) self.old.ports
            (state_ways client lane Server self.old.ports)) }
    {
        let open = Open { id };
        on_each_state(&mut self.ports, Role::Server, client, lane as usize, &open);
    }

    /// Closes the request on that lane of the client with each server where it is the open one.
    #[inline(always)]
    pub fn close_all(&mut self, client: u64, lane: u64, id: u64)
        ensures { self.new ≡ with_ports self.old
            (with_states_on (λ r. closed_for r id) self.old.ports
            (state_ways client lane Server self.old.ports)) }
    {
        let close = Close { id };
        on_each_state(&mut self.ports, Role::Server, client, lane as usize, &close);
    }

    /// Says to each server with which the request is open that its client lost interest.
    pub fn hint_all(&mut self, client: u64, lane: u64, id: u64)
        ensures { self.new ≡ with_ports self.old
            (with_states_on (λ r. hinted_for r id) self.old.ports
            (state_ways client lane Server self.old.ports)) }
    {
        let hint = Hint { id };
        on_each_state(&mut self.ports, Role::Server, client, lane as usize, &hint);
    }
}
