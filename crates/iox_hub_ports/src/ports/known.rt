//! The pipe of a rank to the port in a place, where it is known from whom it is.
#![tactic(auto, using(crate::proofs::Keeping::kept))]

ghost use Rattle.std.specs.Prelude.{◌≡◌, ◌<◌, false, length, true};
ghost use Rattle.iox_tables.specs.HubStates.Ways.{with_pipe_of};
ghost use Rattle.iox_hub_ports.specs.InPlace.{IsFirstIn, in_place, on_pipe_from, with_place};
ghost use Rattle.iox_hub_ports.specs.Known.{is_from};
ghost use Rattle.iox_hub_ports.specs.Ports.{with_ports};

use crate::ports::Ports;
use iox_tables::steps::PipeStep;

impl Ports {
    /// Whether the pipe of that rank to the port in that place is from this sender, which is
    /// connected, and no pipe is kept there of a sender that is gone.
    #[inline(always)]
    pub fn is_from(&self, place: usize, rank: usize, sender: u64) -> bool
        requires { place < length self.now.ports }
        ensures { result ≡ in_place (is_from rank sender) false self.now.ports place }
    {
        self.ports[place].is_from(rank, sender)
    }

    /// Takes a step on the pipe of that rank to the port in that place, which is known to be from
    /// this sender.
    #[inline(always)]
    pub fn on_known_pipe_in<S: PipeStep>(
        &mut self,
        place: usize,
        sender: u64,
        rank: usize,
        step: &S,
    ) -> S::Answer
        requires once { IsFirstIn self.old.ports place rank }
        requires from { in_place (is_from rank sender) false self.old.ports place ≡ true }
        ensures told { result
            ≡ in_place (λ p. on_pipe_from (S.told step.now) (S.none step.now) p sender)
            (S.none step.now) self.old.ports place }
        ensures changed { self.new ≡ with_ports self.old
            (with_place (λ p. with_pipe_of (S.changed step.now) p sender) self.old.ports place) }
    {
        self.ports[place].on_known_pipe(sender, rank, step)
    }
}
