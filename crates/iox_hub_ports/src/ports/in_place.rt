//! Steps on the port in a place, and the places of all ports of a role.
#![tactic(auto, using(crate::proofs::Keeping::kept))]

ghost use Rattle.std.specs.Prelude.{◌≡◌, ◌<◌, ◌^◌, ◌-◌, [], IfSome, Some, length, slice_get};
ghost use Rattle.iox_model.specs.declared.kind.Role.TheVariants.{Client, Server};
ghost use Rattle.iox_model.specs.declared.way.RequestState.TheVariants.{Closed};
ghost use Rattle.iox_model.specs.Settings.{other_role};
ghost use Rattle.iox_tables.specs.HubStates.Ways.{with_pipe_of};
ghost use Rattle.iox_hub_ports.specs.InPlace.{IsFirstIn, in_place, on_pipe_from, only_of, places_of, with_place};
ghost use Rattle.iox_hub_ports.specs.Ports.{state_from, with_loan_counted, with_ports};

use crate::ports::Ports;
use iox_model::kind::Role;
use iox_model::way::RequestState;
use iox_tables::incoming::Visits;
use iox_tables::steps::PipeStep;

impl Ports {
    // ---- the port in a place

    /// Where the pipes from the port in that place likely stand among those that lead to others.
    #[inline(always)]
    pub fn rank(&self, place: usize) -> usize
        requires { place < length self.now.ports }
    {
        self.ports[place].rank()
    }

    /// Takes a step on the pipe from the sender to the port in that place. The pipe is looked for
    /// at the hint first.
    #[inline(always)]
    pub fn on_pipe_in<S: PipeStep>(
        &mut self,
        place: usize,
        sender: u64,
        hint: usize,
        step: &S,
    ) -> S::Answer
        requires there { place < length self.old.ports }
        requires once { IsFirstIn self.old.ports place hint }
        ensures told { result
            ≡ in_place (λ p. on_pipe_from (S.told step.now) (S.none step.now) p sender)
            (S.none step.now) self.old.ports place }
        ensures changed { self.new ≡ with_ports self.old
            (with_place (λ p. with_pipe_of (S.changed step.now) p sender) self.old.ports place) }
    {
        self.ports[place].on_pipe_at(sender, hint, step)
    }

    /// The request state of that lane, from the port in that place to the receiver. The pipe is
    /// looked for at the hint first.
    #[inline(always)]
    pub fn state_in(&self, place: usize, receiver: u64, hint: usize, lane: u64) -> RequestState
        requires there { place < length self.now.ports }
        requires once { IsFirstIn self.now.ports place hint }
        ensures state { result
            ≡ in_place (λ p. state_from p receiver lane) Closed self.now.ports place }
    {
        self.ports[place].state_at(receiver, hint, lane)
    }

    /// Counts one loan more of the port in that place.
    #[inline(always)]
    pub fn count_loan_in(&mut self, place: usize)
        requires there { place < length self.old.ports }
        requires loans { in_place (λ p. p.loans) 0 self.old.ports place < 2 ^ 64 - 1 }
        ensures { self.new ≡ with_ports self.old
            (with_place with_loan_counted self.old.ports place) }
    {
        self.ports[place].count_loan();
    }

    // ---- the ports of a role

    /// How many clients are connected.
    #[inline(always)]
    pub fn clients_len(&self) -> usize
        ensures { result ≡ length (places_of Client self.now.ports) }
    {
        self.lists.clients_len()
    }

    /// How many servers are connected.
    #[inline(always)]
    pub fn servers_len(&self) -> usize
        ensures { result ≡ length (places_of Server self.now.ports) }
    {
        self.lists.servers_len()
    }

    /// The place of the client of that rank among all.
    #[inline(always)]
    pub fn client(&self, rank: usize) -> usize
        requires { rank < length (places_of Client self.now.ports) }
        ensures place { slice_get (places_of Client self.now.ports) rank ≡ Some result }
        ensures within { result < length self.now.ports }
    {
        self.lists.client(rank)
    }

    /// The place of the server of that rank among all.
    #[inline(always)]
    pub fn server(&self, rank: usize) -> usize
        requires { rank < length (places_of Server self.now.ports) }
        ensures place { slice_get (places_of Server self.now.ports) rank ≡ Some result }
        ensures within { result < length self.now.ports }
    {
        self.lists.server(rank)
    }

    /// The place of the only server, if there is only one.
    #[inline(always)]
    pub fn only_server(&self) -> Option<usize>
        ensures only { result ≡ only_of (places_of Server self.now.ports) }
        ensures within { IfSome result (λ place. place < length self.now.ports) }
    {
        if self.servers_len() == 1 {
            return Some(self.server(0));
        }
        None
    }

    /// How many ports of the other role are connected.
    #[inline(always)]
    pub fn others_len(&self, role: Role) -> usize
        ensures { result ≡ length (places_of (other_role role) self.now.ports) }
    {
        match role {
            Role::Client => self.servers_len(),
            Role::Server => self.clients_len(),
        }
    }

    /// The place of the port of that rank among those of the other role.
    #[inline(always)]
    pub fn other(&self, role: Role, rank: usize) -> usize
        requires { rank < length (places_of (other_role role) self.now.ports) }
        ensures place { slice_get (places_of (other_role role) self.now.ports) rank ≡ Some result }
        ensures within { result < length self.now.ports }
    {
        match role {
            Role::Client => self.server(rank),
            Role::Server => self.client(rank),
        }
    }
}
