//! Changes of lanes and request states where the place of the port is known, and likely that of its
//! pipe, too. Each leaves what the change by numbers leaves; a wrong hint is only slower.
ghost use Rattle.std.specs.Prelude.{◌≡◌, ◌<◌, ◌∷◌, [], None, Some, false, length, map, slice_get};
ghost use Rattle.iox_model.specs.declared.kind.Role.TheVariants.{Server};
ghost use Rattle.iox_model.specs.declared.way.RequestState.TheVariants.{Named};
ghost use Rattle.iox_model.specs.Maps.{AreDistinct};
ghost use Rattle.iox_model.specs.Messages.{closed_for, request_way, response_way};
ghost use Rattle.iox_lanes.specs.Lanes.{is_taken, released};
ghost use Rattle.iox_hub_ports.specs.HubStates.Changes.{with_lanes, with_states};
ghost use Rattle.iox_hub_ports.specs.HubStates.Tables.{PortState, numbers_of};
ghost use Rattle.iox_hub_ports.specs.HubStates.Ways.{with_states_on};
ghost use Rattle.iox_hub_ports.specs.HubStates.Wirings.{numbers_of_role};
ghost use Rattle.iox_hub_ports.specs.InPlace.{AllApart, places_of};
ghost use Rattle.iox_hub_ports.specs.Ports.{on_way, place_in, pushed, pushed_out, state_of_way, state_ways};
ghost use Rattle.iox_hub_ports.specs.Ports.{with_ports as ports_with};
ghost use Rattle.iox_control.specs.Controls.{with_tables};

use crate::control::Control;
use iox_hub_ports::pipe_steps::{CloseOn, GiveBack, PushOn};
use iox_hub_ports::ports::Ports;
use iox_lanes::pipe_steps::{GiveBackAndClose, OpenAndPush};
use iox_lanes::wanted::Label;
use iox_model::way::{RequestState, Way};

impl Control {
    /// Gives a message of the way back that its receiver has, which is in that place, and says
    /// whether it had it. Its slot stays as it is. The pipe is looked for at the hint first.
    #[inline(always)]
    pub fn give_back_in(&mut self, at: usize, hint: usize, way: Way, slot: u64) -> bool
        requires there { place_in self.old.tables.ports way.receiver ≡ Some at }
        requires apart { AllApart self.old.tables.ports }
        ensures taken { result ≡ on_way (λ l. is_taken l slot) false self.old.tables.ports way }
        ensures released { self.new
            ≡ with_tables self.old (with_lanes (λ l. released l slot) self.old.tables (way ∷ [])) }
    {
        let back = GiveBack {
            place: slot,
            lane: way.lane as usize,
        };
        self.ports.on_pipe_in(at, way.sender, hint, &back)
    }

    /// Gives a request back that the server has, which is in that place, and says whether it had
    /// it. Its slot stays as it is. Then closes the request of that label with the server, if it
    /// is the open one. The pipe from the client is looked for at the hint first.
    #[inline(always)]
    pub fn give_back_and_close_in(
        &mut self,
        at: usize,
        hint: usize,
        client: u64,
        _server: u64,
        slot: u64,
        label: Label,
    ) -> bool
        requires there { place_in self.old.tables.ports _server ≡ Some at }
        requires apart { AllApart self.old.tables.ports }
        ensures taken { result ≡ on_way (λ l. is_taken l slot) false self.old.tables.ports
            (request_way client _server) }
        ensures left { self.new
            ≡ with_tables self.old (with_states (λ r. closed_for r label.request)
            (with_lanes (λ l. released l slot) self.old.tables (request_way client _server ∷ []))
            (response_way client label.lane _server ∷ [])) }
    {
        let both = GiveBackAndClose {
            place: slot,
            lane: label.lane as usize,
            id: label.request,
        };
        self.ports.on_pipe_in(at, client, hint, &both)
    }

    /// Puts a message last in line on the way, whose receiver is in that place. Where as many wait
    /// as may, the oldest is pushed out first: it is its sender's again. The pipe is looked for at
    /// the hint first.
    #[inline(always)]
    pub fn push_in(&mut self, at: usize, hint: usize, way: Way, slot: u64) -> Option<u64>
        requires there { place_in self.old.tables.ports way.receiver ≡ Some at }
        requires apart { AllApart self.old.tables.ports }
        ensures oldest { result ≡ on_way pushed_out None self.old.tables.ports way }
        ensures pushed { self.new
            ≡ with_tables self.old (with_lanes (λ l. pushed l slot) self.old.tables (way ∷ [])) }
    {
        let push = PushOn {
            place: slot,
            lane: way.lane as usize,
        };
        self.ports.on_pipe_in(at, way.sender, hint, &push)
    }

    /// Opens the request of that label with the server in that place, and puts its message last in
    /// line there. Where as many wait as may, the oldest is pushed out first: it is its sender's
    /// again. The pipe from the client is looked for at the hint first.
    #[inline(always)]
    pub fn open_and_push_in(
        &mut self,
        at: usize,
        hint: usize,
        client: u64,
        slot: u64,
        label: Label,
    ) -> Option<u64>
        requires there { at < length self.old.tables.ports }
        requires apart { AllApart self.old.tables.ports }
        ensures oldest { (p : PortState) → slice_get self.old.tables.ports at ≡ Some p → result
            ≡ on_way pushed_out None self.old.tables.ports (request_way client p.number) }
        ensures left { (p : PortState) → slice_get self.old.tables.ports at ≡ Some p → self.new
            ≡ with_tables self.old (with_lanes (λ l. pushed l slot)
            (with_states (λ r. Named label.request false) self.old.tables
            (response_way client label.lane p.number ∷ [])) (request_way client p.number ∷ [])) }
        ensures apart { AllApart self.new.tables.ports }
        ensures places { places_of Server self.new.tables.ports
            ≡ places_of Server self.old.tables.ports }
        ensures servers { numbers_of_role Server self.new.tables.ports
            ≡ numbers_of_role Server self.old.tables.ports }
    {
        self.ports_are_apart();
        let send = OpenAndPush {
            place: slot,
            lane: label.lane as usize,
            id: label.request,
        };
        self.ports.on_pipe_in(at, client, hint, &send)
    }

    /// Closes the request of that label, of the client, with each server where it is the open one.
    /// The pipe from the client to each is looked for at the hint first.
    #[inline(always)]
    pub fn close_all_in(&mut self, client: u64, hint: usize, label: Label)
        requires apart { AllApart self.old.tables.ports }
        ensures { self.new ≡ with_tables self.old (with_states (λ r. closed_for r label.request)
            self.old.tables (map (response_way client label.lane)
            (numbers_of_role Server self.old.tables.ports))) }
    {
        close_with_servers(&mut self.ports, client, hint, label);
    }

    /// The request state of the way, whose server is in that place; closed where there is none. The
    /// pipe from the client is looked for at the hint first.
    #[inline(always)]
    pub fn state_in(&mut self, at: usize, hint: usize, way: Way) -> RequestState
        requires there { place_in self.old.tables.ports way.sender ≡ Some at }
        requires apart { AllApart self.old.tables.ports }
        ensures state { result ≡ state_of_way self.old.tables.ports way }
        ensures unchanged { self.new ≡ self.old }
    {
        self.ports.state_in(at, way.receiver, hint, way.lane)
    }

    /// No two ports have one number. It has nothing to do: it is there for its contract.
    #[inline(always)]
    pub(crate) fn ports_are_apart(&self)
        ensures { AreDistinct (numbers_of self.now.tables.ports) }
    {
        self.ports.len();
    }
}

/// Closes the request of that label, of the client, with each server where it is the open one. The
/// pipe from the client to each is looked for at the hint first.
#[inline(always)]
fn close_with_servers(ports: &mut Ports, client: u64, hint: usize, label: Label)
    requires { AllApart ports.old.ports }
    ensures { ports.new ≡ ports_with ports.old (with_states_on (λ r. closed_for r label.request)
        ports.old.ports (state_ways client label.lane Server ports.old.ports)) }
{
    ports.len();
    let close = CloseOn {
        lane: label.lane,
        id: label.request,
    };
    for rank in 0..ports.servers_len() {
        let at = ports.server(rank);
        ports.on_pipe_in(at, client, hint, &close);
    }
}
