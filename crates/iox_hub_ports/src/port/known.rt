//! The pipe of a rank, where it is known from whom it is.
ghost use Rattle.std.specs.Prelude.{◌≡◌, true};
ghost use Rattle.iox_tables.specs.Incomings.{IsFirstAt};
ghost use Rattle.iox_tables.specs.HubStates.Ways.{with_pipe_of};
ghost use Rattle.iox_hub_ports.specs.InPlace.{on_pipe_from};
ghost use Rattle.iox_hub_ports.specs.Known.{is_from};

use crate::port::Port;
use iox_tables::steps::PipeStep;

impl Port {
    /// Whether the pipe of that rank is from this sender, which is connected, and no pipe is kept
    /// of a sender that is gone.
    #[inline(always)]
    pub fn is_from(&self, rank: usize, sender: u64) -> bool
        ensures { result ≡ is_from rank sender self.now }
    {
        self.keeps_none() && self.incoming.is_from(rank, sender)
    }

    /// Takes a step on the pipe of that rank, which is known to be from this sender.
    #[inline(always)]
    pub fn on_known_pipe<S: PipeStep>(&mut self, sender: u64, rank: usize, step: &S) -> S::Answer
        requires once { IsFirstAt self.old.incoming.pipes rank }
        requires from { is_from rank sender self.old ≡ true }
        ensures told { result ≡ on_pipe_from (S.told step.now) (S.none step.now) self.old sender }
        ensures changed { self.new ≡ with_pipe_of (S.changed step.now) self.old sender }
    {
        self.incoming.on_known_pipe(sender, rank, step)
    }
}
