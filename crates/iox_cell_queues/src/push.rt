//! The program of a push of a value of several words, and of a look at fullness.
ghost use Rattle.std.specs.Prelude.{◌≡◌, ◌+◌, ◌^◌, ◌<◌, slice_index};
ghost use Rattle.iox_cell_queues.specs.Cells.{size};
ghost use Rattle.iox_cell_queues.specs.CellPrograms.{store_from as words_from, full_look_access as look_access, full_look_next as look_next};
ghost use Rattle.iox_cell_queues.specs.CellReady.{IsPushReady};
ghost use Rattle.iox_cell_queues.specs.CellEvents.{full_look_event as look_moment, room_event as seen_room};

use crate::event::{CellEvent, told};
use crate::site::CellSite;
use iox_steps::{Access, FullLook, Next, perform, tell};
use iox_words::Words;

/// Where a push is.
#[derive(Clone, Copy)]
pub enum CellPush<T> {
    /// the value
    LoadsWrite(T),
    /// the value, and the write position
    LoadsRead(T, u64),
    /// the value, its cell, the next write position, and which of its words is stored next
    StoresWord(T, usize, u64, usize),
    /// the value, and the next write position
    StoresWrite(T, u64),
}

impl<T: Words> CellPush<T> {
    ghost use Rattle.std.specs.Prelude.{◌≡◌, ◌+◌, ◌^◌, ◌<◌, ◌++◌, length, vec_len};
    ghost use Rattle.std.specs.Option.{option_to_list};
    ghost use Rattle.std.specs.Vec.{vec_capacity};
    ghost use Rattle.iox_steps.specs.Accesses.{IsWithin, seen_at, words_after};
    ghost use Rattle.iox_cell_queues.specs.Cells.{size};
    ghost use Rattle.iox_cell_queues.specs.CellEventLists.{told as told_of};
    ghost use Rattle.iox_cell_queues.specs.CellPrograms.{push_access, push_next, goes_or_ends};
    ghost use Rattle.iox_cell_queues.specs.CellReady.{IsPushReady, IsPushReadyOn};
    ghost use Rattle.iox_cell_queues.specs.CellEvents.{push_event};

    /// The access that it makes next.
    #[inline]
    pub fn access(self, site: CellSite) -> Access
        requires in_memory { site.base + size site < 2 ^ 64 }
        requires ready { IsPushReady site self }
        ensures { result ≡ push_access T.words site self }
    {
        match self {
            CellPush::LoadsWrite(_) => Access::Load(site.base),
            CellPush::LoadsRead(_, _) => Access::Load(site.base + 1),
            CellPush::StoresWord(value, cell, _, stored) => {
                Access::Store(cell + stored, word_of(value, stored))
            }
            CellPush::StoresWrite(_, next) => Access::Store(site.base, next),
        }
    }

    /// Where it goes after an access that found `seen`.
    #[inline]
    pub fn next(self, site: CellSite, seen: u64) -> Next<CellPush<T>, bool>
        requires in_memory { site.base + size site < 2 ^ 64 }
        requires ready { IsPushReady site self }
        ensures next { result ≡ push_next site self seen }
        ensures ready { IsPushReadyOn site result }
    {
        match self {
            CellPush::LoadsWrite(value) => Next::Goes(CellPush::LoadsRead(value, seen)),
            CellPush::LoadsRead(value, write) => {
                if write == u64::MAX || site.is_full(seen, write) {
                    return Next::Ends(false);
                }
                Next::Goes(store_from(site, value, site.cell_at(write), write + 1, 0))
            }
            CellPush::StoresWord(value, cell, next, stored) => {
                Next::Goes(store_from(site, value, cell, next, stored + 1))
            }
            CellPush::StoresWrite(_, _) => Next::Ends(true),
        }
    }

    /// What an access that found `seen` does to the queue, or sees there.
    #[inline]
    pub fn event(self, site: CellSite, seen: u64) -> CellEvent<T>
        ensures { result ≡ push_event site self seen }
    {
        match self {
            CellPush::LoadsWrite(_) => CellEvent::Quiet,
            CellPush::LoadsRead(_, write) => {
                if write == u64::MAX {
                    CellEvent::SeesEnd
                } else {
                    room_event(site, seen, write)
                }
            }
            CellPush::StoresWord(_, _, _, _) => CellEvent::Quiet,
            CellPush::StoresWrite(value, _) => CellEvent::Publish(value),
        }
    }

    /// Makes its next access, writes down its event, and continues in place. It answers its
    /// reply once it ended.
    #[inline]
    pub(crate) fn step(
        &mut self,
        site: CellSite,
        words: &mut Vec<u64>,
        events: &mut Vec<CellEvent<T>>,
    ) -> Option<bool>
        requires in_memory { site.base + size site < 2 ^ 64 }
        requires ready { IsPushReady site self.old }
        requires within { IsWithin 0 (length words.old.items) (push_access T.words site self.old) }
        requires room { vec_len events.old < vec_capacity events.old }
        ensures words { words.new.items
            ≡ words_after (push_access T.words site self.old) words.old.items }
        ensures told { events.new.items ≡ events.old.items
            ++ option_to_list (told_of (push_event site self.old
            (seen_at (push_access T.words site self.old) words.old.items))) }
        ensures next { push_next site self.old
            (seen_at (push_access T.words site self.old) words.old.items)
            ≡ goes_or_ends result self.new }
        ensures ready { IsPushReady site self.new }
    {
        match self {
            CellPush::LoadsWrite(value) => {
                let value = *value;
                let write = perform(words, Access::Load(site.base));
                tell(events, None);
                *self = CellPush::LoadsRead(value, write);
                None
            }
            CellPush::LoadsRead(value, write) => {
                let (value, write) = (*value, *write);
                let place = CellPush::LoadsRead(value, write);
                let read = perform(words, Access::Load(site.base + 1));
                tell(events, told(place.event(site, read)));
                if write == u64::MAX || site.is_full(read, write) {
                    return Some(false);
                }
                *self = store_from(site, value, site.cell_at(write), write + 1, 0);
                None
            }
            CellPush::StoresWord(value, cell, next, stored) => {
                let place = *cell + *stored;
                perform(words, Access::Store(place, word_of(*value, *stored)));
                tell(events, None);
                *stored += 1;
                if *stored >= site.width {
                    let (value, next) = (*value, *next);
                    *self = CellPush::StoresWrite(value, next);
                }
                None
            }
            CellPush::StoresWrite(value, next) => {
                perform(words, Access::Store(site.base, *next));
                tell(events, Some(CellEvent::Publish(*value)));
                Some(true)
            }
        }
    }
}

/// A word of the value; 0 behind the last.
#[inline]
fn word_of<T: Words>(value: T, index: usize) -> u64
    ensures { result ≡ slice_index (T.words value) index }
{
    value.known();
    if index < T::WORDS {
        value.word(index)
    } else {
        0
    }
}

/// On to this word of the value, or to the write position if there is none.
#[inline]
fn store_from<T: Words>(
    site: CellSite,
    value: T,
    cell: usize,
    next: u64,
    word: usize,
) -> CellPush<T>
    requires { cell + site.width < 2 ^ 64 }
    ensures push { result ≡ words_from site value cell next word }
    ensures ready { IsPushReady site result }
{
    if word >= site.width {
        CellPush::StoresWrite(value, next)
    } else {
        CellPush::StoresWord(value, cell, next, word)
    }
}

/// What a look at the read position shows.
#[inline]
fn room_event<T: Words>(site: CellSite, read: u64, write: u64) -> CellEvent<T>
    ensures { result ≡ seen_room site read write }
{
    if site.is_full(read, write) {
        CellEvent::SeesFull
    } else {
        CellEvent::SeesRoom
    }
}

/// The access that a look at fullness makes next.
#[inline]
pub(crate) fn full_look_access(look: FullLook, site: CellSite) -> Access
    requires { site.base + size site < 2 ^ 64 }
    ensures { result ≡ look_access site look }
{
    match look {
        FullLook::LoadsWrite => Access::Load(site.base),
        FullLook::LoadsRead(_) => Access::Load(site.base + 1),
    }
}

/// Where it goes after an access that found `seen`.
#[inline]
pub(crate) fn full_look_next(look: FullLook, site: CellSite, seen: u64) -> Next<FullLook, bool>
    ensures { result ≡ look_next site look seen }
{
    match look {
        FullLook::LoadsWrite => Next::Goes(FullLook::LoadsRead(seen)),
        FullLook::LoadsRead(write) => Next::Ends(site.is_full(seen, write)),
    }
}

/// What an access that found `seen` sees.
#[inline]
pub(crate) fn full_look_event<T: Words>(look: FullLook, site: CellSite, seen: u64) -> CellEvent<T>
    ensures { result ≡ look_moment site look seen }
{
    match look {
        FullLook::LoadsWrite => CellEvent::Quiet,
        FullLook::LoadsRead(write) => room_event(site, seen, write),
    }
}
