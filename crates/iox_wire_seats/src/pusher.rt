//! The pushing party of a queue of the wire, a bare name with its numbers beside it.
ghost use Rattle.std.specs.Prelude.{◌≡◌, ◌==◌};
ghost use Rattle.iox_steps.specs.Pushes.{is_refused, room_event};
ghost use Rattle.iox_steps.specs.Sites.{last_position};

mod event;
mod quiet;

use iox_steps::{Access, QueueEvent, QueueKind, Site};
use std::marker::Model;

/// Where a push or a look at fullness is, without its numbers.
#[derive(Clone, Copy)]
pub enum PushAt {
    /// no call is under way
    Rest,
    /// a push that reads the write position next
    LoadsWrite,
    /// a push that reads the read position next
    LoadsRead,
    /// a push that puts its value in the cell next
    StoresCell,
    /// a push that raises the write position next
    StoresWrite,
    /// a push that raises the read position next, to push out the oldest value
    Evicts,
    /// a push that reads the value that it pushed out next
    TakesOld,
    /// a look at fullness that reads the write position next
    LookLoadsWrite,
    /// a look at fullness that reads the read position next
    LookLoadsRead,
}

/// The party of a queue that pushes and looks at fullness. It makes no access itself: it says which
/// comes next, and continues with what that found.
#[derive(Drop)]
pub struct Pusher {
    at: PushAt,
    value: u64,
    /// the write position that it saw, or the next one
    position: u64,
    /// was the queue full at the read position that it saw?
    full: bool,
    read: u64,
    cell: usize,
}

impl Model for Pusher {
    ghost use Rattle.iox_steps.specs.declared.side.Pushing.{Pushing};
    ghost use Rattle.iox_wire_seats.specs.Places.{pushing_of};

    ghost Value = { Pushing };

    ghost view = { λ p. pushing_of p.at p.value p.position p.full p.read p.cell };
}

impl Pusher {
    ghost use Rattle.std.specs.Prelude.{◌≡◌, ◌+◌, ◌^◌, ◌<◌};
    ghost use Rattle.iox_steps.specs.declared.side.Pushing.TheVariants.{AtRest, Pushes, Looks};
    ghost use Rattle.iox_steps.specs.declared.push.Push.TheVariants.{LoadsWrite};
    ghost use Rattle.iox_steps.specs.declared.push.FullLook.TheVariants as full_look;
    ghost use Rattle.iox_steps.specs.Sites.{size};
    ghost use Rattle.iox_steps.specs.Sides.{pushing_access, pushing_after, pushing_event};
    ghost use Rattle.iox_wire_seats.specs.Aims.{is_at_rest};
    ghost use Rattle.iox_wire_seats.specs.Places.{IsComparing, IsPushingOut};

    /// A party at rest.
    pub fn new() -> Pusher
        ensures { result ≡ AtRest }
    {
        Pusher {
            at: PushAt::Rest,
            value: 0,
            position: 0,
            full: false,
            read: 0,
            cell: 0,
        }
    }

    /// Begins a push.
    #[inline(always)]
    pub fn push(&mut self, value: u64)
        ensures { self.new ≡ Pushes (LoadsWrite value) }
    {
        self.value = value;
        self.at = PushAt::LoadsWrite;
    }

    /// Begins a look at fullness.
    #[inline(always)]
    pub fn look(&mut self)
        ensures { self.new ≡ Looks full_look.LoadsWrite }
    {
        self.at = PushAt::LookLoadsWrite;
    }

    /// Whether it is in no program.
    #[inline(always)]
    pub fn is_at_rest(&self) -> bool
        ensures { result ≡ is_at_rest self.now }
    {
        matches!(self.at, PushAt::Rest)
    }

    /// The access that it makes next.
    #[inline(always)]
    pub fn access(&self, site: Site) -> Access
        requires { site.base + size site < 2 ^ 64 }
        ensures { result ≡ pushing_access site self.now }
    {
        match self.at {
            PushAt::Rest => Access::Local,
            PushAt::LoadsWrite | PushAt::LookLoadsWrite => Access::Load(site.base),
            PushAt::LoadsRead | PushAt::LookLoadsRead => Access::Load(site.base + 1),
            PushAt::StoresCell => Access::Store(self.cell, self.value),
            PushAt::StoresWrite => Access::Store(site.base, self.position),
            PushAt::Evicts => {
                let next = self.read.saturating_add(1);
                Access::CompareExchange(site.base + 1, self.read, next)
            }
            PushAt::TakesOld => Access::Load(self.cell),
        }
    }

    /// Continues after its access, which found `seen`, and tells the event of it.
    #[inline(always)]
    pub fn advance(&mut self, site: Site, seen: u64) -> QueueEvent
        requires { site.base + size site < 2 ^ 64 }
        ensures place { self.new ≡ pushing_after site self.old seen }
        ensures event { result ≡ pushing_event site self.old seen }
    {
        match self.at {
            PushAt::Rest => {}
            PushAt::LoadsWrite => {
                self.position = seen;
                self.at = PushAt::LoadsRead;
            }
            PushAt::LoadsRead => return self.compare(site, seen),
            PushAt::StoresCell => self.at = PushAt::StoresWrite,
            PushAt::StoresWrite => {
                self.at = if self.full {
                    PushAt::Evicts
                } else {
                    PushAt::Rest
                };
                return QueueEvent::Publish(self.value);
            }
            PushAt::Evicts => return self.evict(site, seen),
            PushAt::TakesOld => {
                self.at = PushAt::Rest;
                return QueueEvent::Learn(seen);
            }
            PushAt::LookLoadsWrite => {
                self.position = seen;
                self.at = PushAt::LookLoadsRead;
            }
            PushAt::LookLoadsRead => {
                self.at = PushAt::Rest;
                return room_seen(site, seen, self.position);
            }
        }
        QueueEvent::Quiet
    }

    /// The same, as it sees the read position: is there room?
    #[inline(always)]
    fn compare(&mut self, site: Site, seen: u64) -> QueueEvent
        requires memory { site.base + size site < 2 ^ 64 }
        requires there { IsComparing self.old }
        ensures place { self.new ≡ pushing_after site self.old seen }
        ensures event { result ≡ pushing_event site self.old seen }
    {
        let write = self.position;
        let room = room_seen(site, seen, write);
        let full = site.is_full(seen, write);
        if refuses(site.kind, full, write) {
            self.at = PushAt::Rest;
        } else {
            self.full = full;
            self.read = seen;
            self.cell = site.cell_at(write);
            self.position = write + 1;
            self.at = PushAt::StoresCell;
        }
        if write == u64::MAX {
            return QueueEvent::SeesEnd;
        }
        room
    }

    /// The same, as it may have pushed the oldest out.
    #[inline(always)]
    fn evict(&mut self, site: Site, seen: u64) -> QueueEvent
        requires memory { site.base + size site < 2 ^ 64 }
        requires there { IsPushingOut self.old }
        ensures place { self.new ≡ pushing_after site self.old seen }
        ensures event { result ≡ pushing_event site self.old seen }
    {
        if seen != self.read {
            self.at = PushAt::Rest;
            return QueueEvent::Quiet;
        }
        self.cell = site.cell_at(seen);
        self.at = PushAt::TakesOld;
        QueueEvent::Evict
    }
}

/// Is a push refused at this write position, of a queue that is full or not?
#[inline(always)]
fn refuses(kind: QueueKind, full: bool, write: u64) -> bool
    ensures { result ≡ is_refused kind (write == last_position) full }
{
    if write == u64::MAX {
        return true;
    }
    if full {
        match kind {
            QueueKind::Index => return true,
            QueueKind::Overflowing => {}
        }
    }
    false
}

/// What the read position tells of the room in a queue.
#[inline(always)]
fn room_seen(site: Site, read: u64, write: u64) -> QueueEvent
    ensures { result ≡ room_event site read write }
{
    if site.is_full(read, write) {
        QueueEvent::SeesFull
    } else {
        QueueEvent::SeesRoom
    }
}
