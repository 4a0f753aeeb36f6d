//! The parties of a queue as a machine plays them: number 0 pushes and looks at fullness, number 1
//! pops and looks at emptiness. Each is kept in memory, and stepped where it lies.
ghost use Rattle.std.specs.Prelude.{◌≡◌, ◌+◌, ◌^◌, ◌<◌, IfOk};
ghost use Rattle.iox_steps.specs.Sites.{size};
ghost use Rattle.iox_queue_steps.specs.Queues.{queue_asks, queue_happens, queue_rests, QueueLeads, QueueBegins, QueueInvariant, at_rest_at};
ghost use Rattle.iox_queue_steps.specs.QueueLaws.{queue_stays_in, queue_keeps};
ghost use Rattle.iox_queue_steps.specs.BeginLaws.{queue_starts};
ghost use Rattle.iox_queue_steps.specs.StoredSides.{push_progress as pushing_progress_of, pop_progress as popping_progress_of};

use crate::queue::Call;
use crate::stored::{StepAnswer, StoredPopper, StoredPusher};
use iox_steps::{
    Access, MachineError, MachineParty, Party, Progress, QueueEvent, QueueKind, QueueReply, Site,
};
use std::alloc::{AllocError, Global};
use std::marker::Model;

/// Which of the two parties it is.
#[derive(Drop)]
enum StoredSide {
    Pusher(StoredPusher),
    Popper(StoredPopper),
}

/// A party of the queue that stands at a place among shared words.
#[derive(Drop)]
pub struct QueueParty {
    side: StoredSide,
}

impl Model for QueueParty {
    ghost use Rattle.iox_queue_steps.specs.Queues.{PartyView};

    ghost Value = { PartyView };

    ghost use Rattle.iox_queue_steps.specs.StoredSides.{party_view};

    ghost view = { λ p. party_view p.side };
}

impl QueueParty {
    ghost use Rattle.std.specs.Prelude.{◌≡◌, ◌+◌, ◌^◌, ◌<◌};
    ghost use Rattle.iox_steps.specs.declared.side.Pushing.TheVariants as pushing;
    ghost use Rattle.iox_steps.specs.declared.side.Popping.TheVariants as popping;
    ghost use Rattle.iox_steps.specs.Sites.{size};
    ghost use Rattle.std.specs.Prelude.{◌++◌, length, vec_len};
    ghost use Rattle.std.specs.Option.{option_to_list};
    ghost use Rattle.std.specs.Vec.{vec_capacity};
    ghost use Rattle.iox_steps.specs.Accesses.{IsWithin, seen_at, words_after};
    ghost use Rattle.iox_queue_steps.specs.declared.queue.Side.TheVariants.{Pusher, Popper};
    ghost use Rattle.iox_queue_steps.specs.Queues.{queue_asks, queue_happens, side_after};
    ghost use Rattle.iox_queue_steps.specs.StoredSides.{side_says};

    /// The party that pushes, at rest, which expects this write position first.
    pub fn pusher(site: Site, position: u64) -> QueueParty
        requires { site.base + size site < 2 ^ 64 }
        ensures { result ≡ record { site = site; side = Pusher pushing.AtRest } }
    {
        QueueParty {
            side: StoredSide::Pusher(StoredPusher::new(site, position)),
        }
    }

    /// The party that pops, at rest, which expects this read position first.
    pub fn popper(site: Site, position: u64) -> QueueParty
        requires { site.base + size site < 2 ^ 64 }
        ensures { result ≡ record { site = site; side = Popper popping.AtRest } }
    {
        QueueParty {
            side: StoredSide::Popper(StoredPopper::new(site, position)),
        }
    }

    /// Makes its next access, writes down its event, and continues. Its answer fits two registers.
    #[inline(never)]
    fn step_told(&mut self, words: &mut Vec<u64>, events: &mut Vec<QueueEvent>) -> StepAnswer
        requires within { IsWithin 0 (length words.old.items) (queue_asks self.old) }
        requires room { vec_len events.old < vec_capacity events.old }
        ensures words { words.new.items ≡ words_after (queue_asks self.old) words.old.items }
        ensures told { events.new.items ≡ events.old.items ++ option_to_list (queue_happens self.old
            (seen_at (queue_asks self.old) words.old.items)) }
        ensures site { self.new.site ≡ self.old.site }
        ensures side { self.new.side ≡ side_after self.old.site self.old.side
            (seen_at (queue_asks self.old) words.old.items) }
        ensures says { result ≡ side_says self.old.site self.old.side
            (seen_at (queue_asks self.old) words.old.items) }
    {
        match &mut self.side {
            StoredSide::Pusher(pusher) => pusher.step_heard(words, events),
            StoredSide::Popper(popper) => popper.step_heard(words, events),
        }
    }
}

impl Party for QueueParty {
    type Reply = QueueReply;

    ghost asks = { queue_asks };

    ghost leads = { QueueLeads };

    fn access(&self) -> Access {
        match &self.side {
            StoredSide::Pusher(pusher) => pusher.place().access(pusher.site()),
            StoredSide::Popper(popper) => popper.place().access(popper.site()),
        }
    }

    fn advance(&mut self, seen: u64) -> Progress<QueueReply> {
        match &mut self.side {
            StoredSide::Pusher(pusher) => {
                let mut place = pusher.place();
                let answer = place.advance(pusher.site(), seen);
                pusher.put(place);
                answer
            }
            StoredSide::Popper(popper) => {
                let mut place = popper.place();
                let answer = place.advance(popper.site(), seen);
                popper.put(place);
                answer
            }
        }
    }
}

impl MachineParty for QueueParty {
    type Call = Call;

    type Event = QueueEvent;

    ghost Invariant = { QueueInvariant };

    ghost at_rest = { queue_rests };

    ghost happens = { queue_happens };

    ghost begins = { QueueBegins };

    #[inline]
    fn is_at_rest(&self) -> bool {
        match &self.side {
            StoredSide::Pusher(pusher) => pusher.is_at_rest(),
            StoredSide::Popper(popper) => popper.is_at_rest(),
        }
    }

    fn event(&self, seen: u64) -> Option<QueueEvent> {
        let event = match &self.side {
            StoredSide::Pusher(pusher) => pusher.place().event(pusher.site(), seen),
            StoredSide::Popper(popper) => popper.place().event(popper.site(), seen),
        };
        match event {
            QueueEvent::Quiet => None,
            event => Some(event),
        }
    }

    fn begin(&mut self, call: Call) -> Result<(), MachineError> {
        let begun = match (&mut self.side, call) {
            (StoredSide::Pusher(pusher), Call::Push(value)) => pusher.begin_push(value),
            (StoredSide::Pusher(pusher), Call::IsFull) => pusher.begin_is_full(),
            (StoredSide::Popper(popper), Call::Pop) => popper.begin_pop(),
            (StoredSide::Popper(popper), Call::IsEmpty) => popper.begin_is_empty(),
            (StoredSide::Pusher(_), Call::Pop) => return Err(MachineError::UnknownParty),
            (StoredSide::Pusher(_), Call::IsEmpty) => return Err(MachineError::UnknownParty),
            (StoredSide::Popper(_), Call::Push(_)) => return Err(MachineError::UnknownParty),
            (StoredSide::Popper(_), Call::IsFull) => return Err(MachineError::UnknownParty),
        };
        if begun {
            Ok(())
        } else {
            Err(MachineError::Busy)
        }
    }

    #[inline]
    fn step(&mut self, words: &mut Vec<u64>, events: &mut Vec<QueueEvent>) -> Progress<QueueReply> {
        let says = self.step_told(words, events);
        match &self.side {
            StoredSide::Pusher(pusher) => push_progress(pusher.kind(), says),
            StoredSide::Popper(_) => pop_progress(says),
        }
    }

    ghost stays_in = { queue_stays_in };

    ghost keeps = { queue_keeps };

    ghost starts = { queue_starts };
}

/// What the machine answers where the pushing party of a queue of this kind says this.
#[inline]
fn push_progress(kind: QueueKind, says: StepAnswer) -> Progress<QueueReply>
    ensures { result ≡ pushing_progress_of kind says }
{
    match (kind, says) {
        (_, StepAnswer::Going) => Progress::Going,
        (_, StepAnswer::Yes) => Progress::Done(QueueReply::Full(true)),
        (_, StepAnswer::No) => Progress::Done(QueueReply::Full(false)),
        (QueueKind::Index, StepAnswer::Refuses(_)) => Progress::Done(QueueReply::Pushed(false)),
        (QueueKind::Index, StepAnswer::Done) => Progress::Done(QueueReply::Pushed(true)),
        (QueueKind::Index, StepAnswer::Gives(_)) => Progress::Done(QueueReply::Pushed(true)),
        (QueueKind::Overflowing, StepAnswer::Done) => Progress::Done(QueueReply::HandedBack(None)),
        (QueueKind::Overflowing, StepAnswer::Gives(value) | StepAnswer::Refuses(value)) => {
            Progress::Done(QueueReply::HandedBack(Some(value)))
        }
    }
}

/// What the machine answers where the popping party says this. A pop refuses nothing.
#[inline]
fn pop_progress(says: StepAnswer) -> Progress<QueueReply>
    ensures { result ≡ popping_progress_of says }
{
    match says {
        StepAnswer::Going => Progress::Going,
        StepAnswer::Yes => Progress::Done(QueueReply::Empty(true)),
        StepAnswer::No => Progress::Done(QueueReply::Empty(false)),
        StepAnswer::Done => Progress::Done(QueueReply::Popped(None)),
        StepAnswer::Gives(value) | StepAnswer::Refuses(value) => {
            Progress::Done(QueueReply::Popped(Some(value)))
        }
    }
}

/// The two parties of a queue at this position, both at rest.
pub(crate) fn at_rest(
    alloc: Global,
    site: Site,
    position: u64,
) -> Result<Vec<QueueParty>, AllocError>
    requires { site.base + size site < 2 ^ 64 }
    ensures { IfOk result (λ parties. parties.items ≡ at_rest_at site) }
{
    let mut parties = Vec::with_capacity(alloc, 2)?;
    parties.push(QueueParty::pusher(site, position))?;
    parties.push(QueueParty::popper(site, position))?;
    Ok(parties)
}
