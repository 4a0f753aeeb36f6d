//! The popping party of a queue of the wire, a bare name with its numbers beside it.
ghost use Rattle.std.specs.Prelude.{◌≡◌};
ghost use Rattle.iox_steps.specs.Pops.{is_taken, take_access, waiting_event};

mod event;
mod quiet;

use iox_steps::{Access, QueueEvent, QueueKind, Site};
use std::marker::Model;

/// Where a pop or a look at emptiness is, without its numbers.
#[derive(Clone, Copy)]
pub enum PopAt {
    /// no call is under way
    Rest,
    /// a pop that reads the read position next
    LoadsRead,
    /// a pop that reads the write position next
    LoadsWrite,
    /// a pop that reads the cell of its position next
    LoadsCell,
    /// a pop that raises the read position next
    Takes,
    /// a look at emptiness that reads the read position next
    LookLoadsRead,
    /// a look at emptiness that reads the write position next
    LookLoadsWrite,
}

/// The party of a queue that pops and looks at emptiness. It makes no access itself: it says which
/// comes next, and continues with what that found.
#[derive(Drop)]
pub struct Popper {
    at: PopAt,
    /// the read position that it saw
    position: u64,
    /// the value that it loaded
    value: u64,
    cell: usize,
}

impl Model for Popper {
    ghost use Rattle.iox_steps.specs.declared.side.Popping.{Popping};
    ghost use Rattle.iox_wire_seats.specs.Places.{popping_of};

    ghost Value = { Popping };

    ghost view = { λ p. popping_of p.at p.position p.value p.cell };
}

impl Popper {
    ghost use Rattle.std.specs.Prelude.{◌≡◌, ◌+◌, ◌^◌, ◌<◌};
    ghost use Rattle.iox_steps.specs.declared.side.Popping.TheVariants.{AtRest, Pops, Looks};
    ghost use Rattle.iox_steps.specs.declared.pop.Pop.TheVariants.{LoadsRead};
    ghost use Rattle.iox_steps.specs.declared.pop.EmptyLook.TheVariants as empty_look;
    ghost use Rattle.iox_steps.specs.Sites.{size};
    ghost use Rattle.iox_steps.specs.Sides.{popping_access, popping_after, popping_event};
    ghost use Rattle.iox_wire_seats.specs.Places.{IsTaking};

    /// A party at rest.
    pub fn new() -> Popper
        ensures { result ≡ AtRest }
    {
        Popper {
            at: PopAt::Rest,
            position: 0,
            value: 0,
            cell: 0,
        }
    }

    /// Begins a pop.
    #[inline(always)]
    pub fn pop(&mut self)
        ensures { self.new ≡ Pops LoadsRead }
    {
        self.at = PopAt::LoadsRead;
    }

    /// Begins a look at emptiness.
    #[inline(always)]
    pub fn look(&mut self)
        ensures { self.new ≡ Looks empty_look.LoadsRead }
    {
        self.at = PopAt::LookLoadsRead;
    }

    /// The access that it makes next.
    #[inline(always)]
    pub fn access(&self, site: Site) -> Access
        requires { site.base + size site < 2 ^ 64 }
        ensures { result ≡ popping_access site self.now }
    {
        match self.at {
            PopAt::Rest => Access::Local,
            PopAt::LoadsRead | PopAt::LookLoadsRead => Access::Load(site.base + 1),
            PopAt::LoadsWrite | PopAt::LookLoadsWrite => Access::Load(site.base),
            PopAt::LoadsCell => Access::Load(self.cell),
            PopAt::Takes => taking(site.kind, site.base + 1, self.position),
        }
    }

    /// Continues after its access, which found `seen`, and tells the event of it.
    #[inline(always)]
    pub fn advance(&mut self, site: Site, seen: u64) -> QueueEvent
        requires { site.base + size site < 2 ^ 64 }
        ensures place { self.new ≡ popping_after site self.old seen }
        ensures event { result ≡ popping_event site self.old seen }
    {
        match self.at {
            PopAt::Rest => {}
            PopAt::LoadsRead => {
                self.position = seen;
                self.at = PopAt::LoadsWrite;
            }
            PopAt::LoadsWrite => {
                let event = waiting_seen(site, self.position, seen);
                if site.is_empty(self.position, seen) {
                    self.at = PopAt::Rest;
                } else {
                    self.cell = site.cell_at(self.position);
                    self.at = PopAt::LoadsCell;
                }
                return event;
            }
            PopAt::LoadsCell => {
                self.value = seen;
                self.at = PopAt::Takes;
            }
            PopAt::Takes => return self.take(site, seen),
            PopAt::LookLoadsRead => {
                self.position = seen;
                self.at = PopAt::LookLoadsWrite;
            }
            PopAt::LookLoadsWrite => {
                self.at = PopAt::Rest;
                return waiting_seen(site, self.position, seen);
            }
        }
        QueueEvent::Quiet
    }

    /// The same, as it may have taken the oldest.
    #[inline(always)]
    fn take(&mut self, site: Site, seen: u64) -> QueueEvent
        requires memory { site.base + size site < 2 ^ 64 }
        requires there { IsTaking self.old }
        ensures place { self.new ≡ popping_after site self.old seen }
        ensures event { result ≡ popping_event site self.old seen }
    {
        if takes(site.kind, self.position, seen) {
            self.at = PopAt::Rest;
            return QueueEvent::HandOut(self.value);
        }
        self.position = seen;
        self.cell = site.cell_at(seen);
        self.at = PopAt::LoadsCell;
        QueueEvent::Quiet
    }
}

/// The access that takes the oldest.
#[inline(always)]
fn taking(kind: QueueKind, place: usize, read: u64) -> Access
    ensures { result ≡ take_access kind place read }
{
    let next = read.saturating_add(1);
    match kind {
        QueueKind::Index => Access::Store(place, next),
        QueueKind::Overflowing => Access::CompareExchange(place, read, next),
    }
}

/// Was the oldest taken by an access that found `seen`?
#[inline(always)]
fn takes(kind: QueueKind, read: u64, seen: u64) -> bool
    ensures { result ≡ is_taken kind read seen }
{
    match kind {
        QueueKind::Index => true,
        QueueKind::Overflowing => seen == read,
    }
}

/// What the write position tells about what is waiting in a queue.
#[inline(always)]
fn waiting_seen(site: Site, read: u64, write: u64) -> QueueEvent
    ensures { result ≡ waiting_event site read write }
{
    if site.is_empty(read, write) {
        QueueEvent::SeesEmpty
    } else {
        QueueEvent::SeesWaiting
    }
}
