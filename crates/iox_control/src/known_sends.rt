//! Pushes, and looks at request states, where the place of the port is known, and from whom its
//! pipe of a rank is. Each leaves what the change by numbers leaves.
ghost use Rattle.std.specs.Prelude.{◌≡◌, ◌<◌, ◌∷◌, [], None, Some, false, length, slice_get, true};
ghost use Rattle.iox_model.specs.declared.way.RequestState.TheVariants.{Named};
ghost use Rattle.iox_model.specs.Messages.{request_way, response_way};
ghost use Rattle.iox_hub_ports.specs.HubStates.Changes.{with_lanes, with_states};
ghost use Rattle.iox_hub_ports.specs.HubStates.Tables.{PortState};
ghost use Rattle.iox_hub_ports.specs.InPlace.{AllApart, in_place};
ghost use Rattle.iox_hub_ports.specs.Known.{is_from};
ghost use Rattle.iox_hub_ports.specs.Ports.{on_way, place_in, pushed, pushed_out, state_of_way};
ghost use Rattle.iox_control.specs.Controls.{with_tables};

use crate::control::Control;
use iox_hub_ports::pipe_steps::{AskState, PushOn};
use iox_lanes::pipe_steps::OpenAndPush;
use iox_lanes::wanted::Label;
use iox_model::way::{RequestState, Way};

impl Control {
    /// The request state of the way, whose server is in that place; closed where there is none. The
    /// pipe of that rank is from the client.
    #[inline(always)]
    pub fn state_on(&mut self, at: usize, rank: usize, way: Way) -> RequestState
        requires there { place_in self.old.tables.ports way.sender ≡ Some at }
        requires apart { AllApart self.old.tables.ports }
        requires from { in_place (is_from rank way.receiver) false self.old.tables.ports at ≡ true }
        ensures state { result ≡ state_of_way self.old.tables.ports way }
        ensures unchanged { self.new ≡ self.old }
    {
        let ask = AskState { lane: way.lane };
        self.ports.on_known_pipe_in(at, way.receiver, rank, &ask)
    }

    /// Puts a message last in line on the way, whose receiver is in that place. Where as many wait
    /// as may, the oldest is pushed out first: it is its sender's again. The pipe of that rank is
    /// from the sender.
    #[inline(always)]
    pub fn push_on(&mut self, at: usize, rank: usize, way: Way, slot: u64) -> Option<u64>
        requires there { place_in self.old.tables.ports way.receiver ≡ Some at }
        requires apart { AllApart self.old.tables.ports }
        requires from { in_place (is_from rank way.sender) false self.old.tables.ports at ≡ true }
        ensures oldest { result ≡ on_way pushed_out None self.old.tables.ports way }
        ensures pushed { self.new
            ≡ with_tables self.old (with_lanes (λ l. pushed l slot) self.old.tables (way ∷ [])) }
    {
        let push = PushOn {
            place: slot,
            lane: way.lane as usize,
        };
        self.ports.on_known_pipe_in(at, way.sender, rank, &push)
    }

    /// Opens the request of that label with the server in that place, and puts its message last in
    /// line there. Where as many wait as may, the oldest is pushed out first: it is its sender's
    /// again. The pipe of that rank is from the client.
    #[inline(always)]
    pub fn open_and_push_on(
        &mut self,
        at: usize,
        rank: usize,
        client: u64,
        slot: u64,
        label: Label,
    ) -> Option<u64>
        requires there { at < length self.old.tables.ports }
        requires apart { AllApart self.old.tables.ports }
        requires from { in_place (is_from rank client) false self.old.tables.ports at ≡ true }
        ensures oldest { (p : PortState) → slice_get self.old.tables.ports at ≡ Some p → result
            ≡ on_way pushed_out None self.old.tables.ports (request_way client p.number) }
        ensures left { (p : PortState) → slice_get self.old.tables.ports at ≡ Some p → self.new
            ≡ with_tables self.old (with_lanes (λ l. pushed l slot)
            (with_states (λ r. Named label.request false) self.old.tables
            (response_way client label.lane p.number ∷ [])) (request_way client p.number ∷ [])) }
    {
        self.ports_are_apart();
        let send = OpenAndPush {
            place: slot,
            lane: label.lane as usize,
            id: label.request,
        };
        self.ports.on_known_pipe_in(at, client, rank, &send)
    }
}
