//! Changes of lanes and request states where the place of the port is known, and from whom its pipe
//! of a rank is. Each leaves what the change by numbers leaves.
ghost use Rattle.std.specs.Prelude.{◌≡◌, ◌∷◌, [], Some, false, map, true};
ghost use Rattle.iox_model.specs.declared.kind.Role.TheVariants.{Server};
ghost use Rattle.iox_model.specs.Messages.{closed_for, request_way, response_way};
ghost use Rattle.iox_lanes.specs.Lanes.{is_taken, released};
ghost use Rattle.iox_hub_ports.specs.HubStates.Changes.{with_lanes, with_states};
ghost use Rattle.iox_hub_ports.specs.HubStates.Ways.{with_states_on};
ghost use Rattle.iox_hub_ports.specs.HubStates.Wirings.{numbers_of_role};
ghost use Rattle.iox_hub_ports.specs.InPlace.{AllApart, in_place, only_of, places_of};
ghost use Rattle.iox_hub_ports.specs.Known.{is_from};
ghost use Rattle.iox_hub_ports.specs.Ports.{on_way, place_in, state_ways};
ghost use Rattle.iox_hub_ports.specs.Ports.{with_ports as ports_with};
ghost use Rattle.iox_control.specs.Controls.{with_tables};

use crate::control::Control;
use crate::open_steps::CloseOpen;
use iox_hub_ports::pipe_steps::GiveBack;
use iox_hub_ports::ports::Ports;
use iox_lanes::pipe_steps::GiveBackAndClose;
use iox_lanes::wanted::Label;
use iox_model::way::Way;

impl Control {
    /// Gives a message of the way back that its receiver has, which is in that place, and says
    /// whether it had it. Its slot stays as it is. The pipe of that rank is from the sender.
    #[inline(always)]
    pub fn give_back_on(&mut self, at: usize, rank: usize, way: Way, slot: u64) -> bool
        requires there { place_in self.old.tables.ports way.receiver ≡ Some at }
        requires apart { AllApart self.old.tables.ports }
        requires from { in_place (is_from rank way.sender) false self.old.tables.ports at ≡ true }
        ensures taken { result ≡ on_way (λ l. is_taken l slot) false self.old.tables.ports way }
        ensures released { self.new
            ≡ with_tables self.old (with_lanes (λ l. released l slot) self.old.tables (way ∷ [])) }
    {
        let back = GiveBack {
            place: slot,
            lane: way.lane as usize,
        };
        self.ports.on_known_pipe_in(at, way.sender, rank, &back)
    }

    /// Gives a request back that the server has, which is in that place, and says whether it had
    /// it. Its slot stays as it is. Then closes the request of that label with the server, if it is
    /// the open one. The pipe of that rank is from the client.
    #[inline(always)]
    pub fn give_back_and_close_on(
        &mut self,
        at: usize,
        rank: usize,
        client: u64,
        _server: u64,
        slot: u64,
        label: Label,
    ) -> bool
        requires there { place_in self.old.tables.ports _server ≡ Some at }
        requires apart { AllApart self.old.tables.ports }
        requires from { in_place (is_from rank client) false self.old.tables.ports at ≡ true }
        ensures taken { result ≡ on_way (λ l. is_taken l slot) false self.old.tables.ports
            (request_way client _server) }
        ensures left { self.new
            ≡ with_tables self.old (with_states (λ r. closed_for r label.request)
            (with_lanes (λ l. released l slot) self.old.tables (request_way client _server ∷ []))
            (response_way client label.lane _server ∷ [])) }
    {
        let both = GiveBackAndClose {
            place: slot,
            lane: label.lane as usize,
            id: label.request,
        };
        self.ports.on_known_pipe_in(at, client, rank, &both)
    }

    /// Closes the request of that label, of the client, with the only server, which is in that
    /// place, where it is the open one. The pipe of that rank is from the client.
    #[inline(always)]
    pub fn close_on(&mut self, at: usize, rank: usize, client: u64, label: Label)
        requires only { only_of (places_of Server self.old.tables.ports) ≡ Some at }
        requires apart { AllApart self.old.tables.ports }
        requires from { in_place (is_from rank client) false self.old.tables.ports at ≡ true }
        ensures { self.new ≡ with_tables self.old (with_states (λ r. closed_for r label.request)
            self.old.tables (map (response_way client label.lane)
            (numbers_of_role Server self.old.tables.ports))) }
    {
        close_with_server(&mut self.ports, at, rank, client, label);
    }
}

/// Closes the request of that label, of the client, with the only server, which is in that place,
/// where it is the open one. The pipe of that rank is from the client.
#[inline(always)]
fn close_with_server(ports: &mut Ports, at: usize, rank: usize, client: u64, label: Label)
    requires only { only_of (places_of Server ports.old.ports) ≡ Some at }
    requires apart { AllApart ports.old.ports }
    requires from { in_place (is_from rank client) false ports.old.ports at ≡ true }
    ensures { ports.new ≡ ports_with ports.old (with_states_on (λ r. closed_for r label.request)
        ports.old.ports (state_ways client label.lane Server ports.old.ports)) }
{
    ports.len();
    ports.on_known_pipe_in(at, client, rank, &CloseOpen { label });
}
