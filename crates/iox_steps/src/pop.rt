//! The programs of the party that pops: a pop and a look at emptiness.
ghost use Rattle.std.specs.Prelude.{◌≡◌, ◌+◌, ◌^◌, ◌<◌};
ghost use Rattle.iox_steps.specs.Pops.{waiting_event as seen_waiting, is_taken as was_taken};

use crate::access::{Access, Next};
use crate::side::QueueEvent;
use crate::site::{QueueKind, Site};

/// Where a pop is.
#[derive(Clone, Copy)]
pub enum Pop {
    /// it reads the read position next
    LoadsRead,
    /// the read position
    LoadsWrite(u64),
    /// the read position, and its cell
    LoadsCell(u64, usize),
    /// the read position, and the value that stands there
    Takes(u64, u64),
}

/// Where a look at emptiness is.
#[derive(Clone, Copy)]
pub enum EmptyLook {
    /// it reads the read position next
    LoadsRead,
    /// the read position
    LoadsWrite(u64),
}

impl Pop {
    ghost use Rattle.std.specs.Prelude.{◌≡◌, ◌+◌, ◌^◌, ◌<◌};
    ghost use Rattle.iox_steps.specs.Sites.{size};
    ghost use Rattle.iox_steps.specs.Pops.{pop_access, pop_next, pop_event};

    /// The access that it makes next.
    #[inline]
    pub fn access(self, site: Site) -> Access
        requires { site.base + size site < 2 ^ 64 }
        ensures { result ≡ pop_access site self }
    {
        match self {
            Pop::LoadsRead => Access::Load(site.base + 1),
            Pop::LoadsWrite(_) => Access::Load(site.base),
            Pop::LoadsCell(_, cell) => Access::Load(cell),
            Pop::Takes(read, _) => {
                let next = read.saturating_add(1);
                match site.kind {
                    QueueKind::Index => Access::Store(site.base + 1, next),
                    QueueKind::Overflowing => { Access::CompareExchange(site.base + 1, read, next) }
                }
            }
        }
    }

    /// Where it goes after an access that found `seen`.
    #[inline]
    pub fn next(self, site: Site, seen: u64) -> Next<Pop, Option<u64>>
        requires { site.base + size site < 2 ^ 64 }
        ensures { result ≡ pop_next site self seen }
    {
        match self {
            Pop::LoadsRead => Next::Goes(Pop::LoadsWrite(seen)),
            Pop::LoadsWrite(read) => {
                if site.is_empty(read, seen) {
                    Next::Ends(None)
                } else {
                    Next::Goes(Pop::LoadsCell(read, site.cell_at(read)))
                }
            }
            Pop::LoadsCell(read, _) => Next::Goes(Pop::Takes(read, seen)),
            Pop::Takes(read, value) => {
                if is_taken(site.kind, read, seen) {
                    Next::Ends(Some(value))
                } else {
                    Next::Goes(Pop::LoadsCell(seen, site.cell_at(seen)))
                }
            }
        }
    }

    /// What an access that found `seen` does to the queue, or sees there.
    #[inline]
    pub fn event(self, site: Site, seen: u64) -> QueueEvent
        ensures { result ≡ pop_event site self seen }
    {
        match self {
            Pop::LoadsRead => QueueEvent::Quiet,
            Pop::LoadsWrite(read) => waiting_event(site, read, seen),
            Pop::LoadsCell(_, _) => QueueEvent::Quiet,
            Pop::Takes(read, value) => {
                if is_taken(site.kind, read, seen) {
                    QueueEvent::HandOut(value)
                } else {
                    QueueEvent::Quiet
                }
            }
        }
    }
}

impl EmptyLook {
    ghost use Rattle.std.specs.Prelude.{◌≡◌, ◌+◌, ◌^◌, ◌<◌};
    ghost use Rattle.iox_steps.specs.Sites.{size};
    ghost use Rattle.iox_steps.specs.Pops.{empty_look_access, empty_look_next, empty_look_event};

    /// The access that it makes next.
    #[inline]
    pub fn access(self, site: Site) -> Access
        requires { site.base + size site < 2 ^ 64 }
        ensures { result ≡ empty_look_access site self }
    {
        match self {
            EmptyLook::LoadsRead => Access::Load(site.base + 1),
            EmptyLook::LoadsWrite(_) => Access::Load(site.base),
        }
    }

    /// Where it goes after an access that found `seen`.
    #[inline]
    pub fn next(self, site: Site, seen: u64) -> Next<EmptyLook, bool>
        ensures { result ≡ empty_look_next site self seen }
    {
        match self {
            EmptyLook::LoadsRead => Next::Goes(EmptyLook::LoadsWrite(seen)),
            EmptyLook::LoadsWrite(read) => Next::Ends(site.is_empty(read, seen)),
        }
    }

    /// What an access that found `seen` sees.
    #[inline]
    pub fn event(self, site: Site, seen: u64) -> QueueEvent
        ensures { result ≡ empty_look_event site self seen }
    {
        match self {
            EmptyLook::LoadsRead => QueueEvent::Quiet,
            EmptyLook::LoadsWrite(read) => waiting_event(site, read, seen),
        }
    }
}

/// Was the value taken by an access that found `seen`?
#[inline]
fn is_taken(kind: QueueKind, read: u64, seen: u64) -> bool
    ensures { result ≡ was_taken kind read seen }
{
    match kind {
        QueueKind::Index => true,
        QueueKind::Overflowing => seen == read,
    }
}

/// What a look at the write position shows.
#[inline]
fn waiting_event(site: Site, read: u64, write: u64) -> QueueEvent
    ensures { result ≡ seen_waiting site read write }
{
    if site.is_empty(read, write) {
        QueueEvent::SeesEmpty
    } else {
        QueueEvent::SeesWaiting
    }
}
