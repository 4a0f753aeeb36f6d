//! The programs of the party that pushes: a push and a look at fullness.
ghost use Rattle.std.specs.Prelude.{◌≡◌, ◌+◌, ◌^◌, ◌<◌};
ghost use Rattle.iox_steps.specs.Sites.{size};
ghost use Rattle.iox_steps.specs.Pushes.{with_positions as after_positions, room_event as seen_room};

use crate::access::{Access, Next};
use crate::side::QueueEvent;
use crate::site::{QueueKind, Site};

/// Where a push is.
#[derive(Clone, Copy)]
pub enum Push {
    /// the value
    LoadsWrite(u64),
    /// the value, and the write position
    LoadsRead(u64, u64),
    /// the value, its cell, the next write position, and the read position if the queue is full
    /// there
    StoresCell(u64, usize, u64, Option<u64>),
    /// the value, the next write position, and the read position if the queue is full there
    StoresWrite(u64, u64, Option<u64>),
    /// the read position at which the queue was full
    Evicts(u64),
    /// the cell of the value that was pushed out
    TakesOld(usize),
}

/// How a push ended.
#[derive(Clone, Copy)]
pub enum PushReply {
    /// pushed, and no value was pushed out for it
    Pushed,
    /// pushed, and this value was pushed out for it
    PushedOut(u64),
    /// nothing was pushed: this value comes back
    Refused(u64),
}

/// Where a look at fullness is.
#[derive(Clone, Copy)]
pub enum FullLook {
    /// it reads the write position next
    LoadsWrite,
    /// the write position
    LoadsRead(u64),
}

impl Push {
    ghost use Rattle.std.specs.Prelude.{◌≡◌, ◌+◌, ◌^◌, ◌<◌};
    ghost use Rattle.iox_steps.specs.Sites.{size};
    ghost use Rattle.iox_steps.specs.Pushes.{push_access, push_next, push_event};

    /// The access that it makes next.
    #[inline]
    pub fn access(self, site: Site) -> Access
        requires { site.base + size site < 2 ^ 64 }
        ensures { result ≡ push_access site self }
    {
        match self {
            Push::LoadsWrite(_) => Access::Load(site.base),
            Push::LoadsRead(_, _) => Access::Load(site.base + 1),
            Push::StoresCell(value, cell, _, _) => Access::Store(cell, value),
            Push::StoresWrite(_, next, _) => Access::Store(site.base, next),
            Push::Evicts(read) => {
                Access::CompareExchange(site.base + 1, read, read.saturating_add(1))
            }
            Push::TakesOld(cell) => Access::Load(cell),
        }
    }

    /// Where it goes after an access that found `seen`.
    #[inline]
    pub fn next(self, site: Site, seen: u64) -> Next<Push, PushReply>
        requires { site.base + size site < 2 ^ 64 }
        ensures { result ≡ push_next site self seen }
    {
        match self {
            Push::LoadsWrite(value) => Next::Goes(Push::LoadsRead(value, seen)),
            Push::LoadsRead(value, write) => with_positions(site, value, write, seen),
            Push::StoresCell(value, _, next, full) => {
                Next::Goes(Push::StoresWrite(value, next, full))
            }
            Push::StoresWrite(_, _, Some(read)) => Next::Goes(Push::Evicts(read)),
            Push::StoresWrite(_, _, None) => Next::Ends(PushReply::Pushed),
            Push::Evicts(read) => {
                if seen == read {
                    Next::Goes(Push::TakesOld(site.cell_at(read)))
                } else {
                    Next::Ends(PushReply::Pushed)
                }
            }
            Push::TakesOld(_) => Next::Ends(PushReply::PushedOut(seen)),
        }
    }

    /// What an access that found `seen` does to the queue, or sees there.
    #[inline]
    pub fn event(self, site: Site, seen: u64) -> QueueEvent
        ensures { result ≡ push_event site self seen }
    {
        match self {
            Push::LoadsWrite(_) => QueueEvent::Quiet,
            Push::LoadsRead(_, write) => {
                if write == u64::MAX {
                    QueueEvent::SeesEnd
                } else {
                    room_event(site, seen, write)
                }
            }
            Push::StoresCell(_, _, _, _) => QueueEvent::Quiet,
            Push::StoresWrite(value, _, _) => QueueEvent::Publish(value),
            Push::Evicts(read) => {
                if seen == read {
                    QueueEvent::Evict
                } else {
                    QueueEvent::Quiet
                }
            }
            Push::TakesOld(_) => QueueEvent::Learn(seen),
        }
    }
}

impl FullLook {
    ghost use Rattle.std.specs.Prelude.{◌≡◌, ◌+◌, ◌^◌, ◌<◌};
    ghost use Rattle.iox_steps.specs.Sites.{size};
    ghost use Rattle.iox_steps.specs.Pushes.{full_look_access, full_look_next, full_look_event};

    /// The access that it makes next.
    #[inline]
    pub fn access(self, site: Site) -> Access
        requires { site.base + size site < 2 ^ 64 }
        ensures { result ≡ full_look_access site self }
    {
        match self {
            FullLook::LoadsWrite => Access::Load(site.base),
            FullLook::LoadsRead(_) => Access::Load(site.base + 1),
        }
    }

    /// Where it goes after an access that found `seen`.
    #[inline]
    pub fn next(self, site: Site, seen: u64) -> Next<FullLook, bool>
        ensures { result ≡ full_look_next site self seen }
    {
        match self {
            FullLook::LoadsWrite => Next::Goes(FullLook::LoadsRead(seen)),
            FullLook::LoadsRead(write) => Next::Ends(site.is_full(seen, write)),
        }
    }

    /// What an access that found `seen` sees.
    #[inline]
    pub fn event(self, site: Site, seen: u64) -> QueueEvent
        ensures { result ≡ full_look_event site self seen }
    {
        match self {
            FullLook::LoadsWrite => QueueEvent::Quiet,
            FullLook::LoadsRead(write) => room_event(site, seen, write),
        }
    }
}

/// Where a push goes that saw both positions.
#[inline]
fn with_positions(site: Site, value: u64, write: u64, read: u64) -> Next<Push, PushReply>
    requires { site.base + size site < 2 ^ 64 }
    ensures { result ≡ after_positions site value write read }
{
    let full = site.is_full(read, write);
    let refused = match site.kind {
        QueueKind::Index => write == u64::MAX || full,
        QueueKind::Overflowing => write == u64::MAX,
    };
    if refused {
        return Next::Ends(PushReply::Refused(value));
    }
    let full_at = if full { Some(read) } else { None };
    Next::Goes(Push::StoresCell(value, site.cell_at(write), write + 1, full_at))
}

/// What a look at the read position shows.
#[inline]
fn room_event(site: Site, read: u64, write: u64) -> QueueEvent
    ensures { result ≡ seen_room site read write }
{
    if site.is_full(read, write) {
        QueueEvent::SeesFull
    } else {
        QueueEvent::SeesRoom
    }
}
