//! How a machine plays the parties of a queue of values.
ghost use Rattle.std.specs.Prelude.{◌≡◌, ◌+◌, ◌^◌, ◌<◌, IfOk};
ghost use Rattle.iox_cell_queues.specs.CellParties.{cell_asks, cell_happens, cell_rests, CellLeads, CellBegins};
ghost use Rattle.iox_cell_queues.specs.CellQueues.{AtRestAt, CellInvariant};
ghost use Rattle.iox_cell_queues.specs.Cells.{size};
ghost use Rattle.iox_cell_queues.specs.CellQueueLaws.{cell_stays_in, cell_keeps};
ghost use Rattle.iox_cell_queues.specs.CellBeginLaws.{cell_starts};

use crate::event::{CellEvent, CellReply, told};
use crate::pop::CellPop;
use crate::push::CellPush;
use crate::queue::{CellCall, CellParty, CellSide};
use crate::side::{CellPopping, CellPushing};
use crate::site::CellSite;
use iox_steps::{Access, EmptyLook, FullLook, MachineError, MachineParty, Party, Progress};
use iox_words::Words;
use std::alloc::{AllocError, Global};

impl<T: Words, const WIDTH: usize> Party for CellParty<T, WIDTH> {
    type Reply = CellReply<T>;

    ghost asks = { cell_asks T.Words };

    ghost leads = { CellLeads T.Words };

    #[inline]
    fn access(&self) -> Access {
        match self.side {
            CellSide::Pusher(pushes) => pushes.access(self.site),
            CellSide::Popper(pops) => pops.access(self.site),
        }
    }

    #[inline]
    fn advance(&mut self, seen: u64) -> Progress<CellReply<T>> {
        match self.side {
            CellSide::Pusher(mut pushes) => {
                let progress = pushes.advance(self.site, seen);
                self.side = CellSide::Pusher(pushes);
                progress
            }
            CellSide::Popper(mut pops) => {
                let progress = pops.advance(self.site, seen);
                self.side = CellSide::Popper(pops);
                progress
            }
        }
    }
}

impl<T: Words, const WIDTH: usize> MachineParty for CellParty<T, WIDTH> {
    type Call = CellCall<T>;

    type Event = CellEvent<T>;

    ghost Invariant = { CellInvariant T.Words };

    ghost at_rest = { cell_rests };

    ghost happens = { cell_happens T.Words };

    ghost begins = { CellBegins T.Words };

    fn is_at_rest(&self) -> bool {
        match self.side {
            CellSide::Pusher(CellPushing::AtRest) => true,
            CellSide::Popper(CellPopping::AtRest) => true,
            _ => false,
        }
    }

    fn event(&self, seen: u64) -> Option<CellEvent<T>> {
        match self.side {
            CellSide::Pusher(pushes) => told(pushes.event(self.site, seen)),
            CellSide::Popper(pops) => told(pops.event(self.site, seen)),
        }
    }

    fn begin(&mut self, call: CellCall<T>) -> Result<(), MachineError> {
        match (self.side, call) {
            (CellSide::Pusher(CellPushing::AtRest), CellCall::Push(value)) => {
                value.known();
                let push = CellPush::LoadsWrite(value);
                self.side = CellSide::Pusher(CellPushing::Pushes(push));
                Ok(())
            }
            (CellSide::Pusher(CellPushing::AtRest), CellCall::IsFull) => {
                self.side = CellSide::Pusher(CellPushing::Looks(FullLook::LoadsWrite));
                Ok(())
            }
            (CellSide::Popper(CellPopping::AtRest), CellCall::Pop) => {
                self.side = CellSide::Popper(CellPopping::Pops(CellPop::LoadsRead));
                Ok(())
            }
            (CellSide::Popper(CellPopping::AtRest), CellCall::IsEmpty) => {
                self.side = CellSide::Popper(CellPopping::Looks(EmptyLook::LoadsRead));
                Ok(())
            }
            (CellSide::Pusher(_), CellCall::Push(_)) => Err(MachineError::Busy),
            (CellSide::Pusher(_), CellCall::IsFull) => Err(MachineError::Busy),
            (CellSide::Popper(_), CellCall::Pop) => Err(MachineError::Busy),
            (CellSide::Popper(_), CellCall::IsEmpty) => Err(MachineError::Busy),
            (CellSide::Pusher(_), CellCall::Pop) => Err(MachineError::UnknownParty),
            (CellSide::Pusher(_), CellCall::IsEmpty) => Err(MachineError::UnknownParty),
            (CellSide::Popper(_), CellCall::Push(_)) => Err(MachineError::UnknownParty),
            (CellSide::Popper(_), CellCall::IsFull) => Err(MachineError::UnknownParty),
        }
    }

    #[inline]
    fn step(
        &mut self,
        words: &mut Vec<u64>,
        events: &mut Vec<CellEvent<T>>,
    ) -> Progress<CellReply<T>> {
        match &mut self.side {
            CellSide::Pusher(pushes) => pushes.step(self.site, words, events),
            CellSide::Popper(pops) => pops.step(self.site, words, events),
        }
    }

    ghost stays_in = { cell_stays_in ⟦<T as Words>⟧ };

    ghost keeps = { cell_keeps ⟦<T as Words>⟧ };

    ghost starts = { cell_starts ⟦<T as Words>⟧ };
}

/// The two parties of a queue, both at rest.
pub(crate) fn at_rest<T: Words, const WIDTH: usize>(
    alloc: Global,
    site: CellSite,
) -> Result<Vec<CellParty<T, WIDTH>>, AllocError>
    requires in_memory { site.base + size site < 2 ^ 64 }
    requires wide { site.width ≡ WIDTH }
    ensures { IfOk result (λ parties. AtRestAt site parties.items) }
{
    let pusher = CellParty {
        site,
        side: CellSide::Pusher(CellPushing::AtRest),
    };
    let popper = CellParty {
        site,
        side: CellSide::Popper(CellPopping::AtRest),
    };
    let mut parties = Vec::with_capacity(alloc, 2)?;
    parties.push(pusher)?;
    parties.push(popper)?;
    Ok(parties)
}
