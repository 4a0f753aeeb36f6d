//! The program of a pop of a value of several words, and of a look at emptiness.
ghost use Rattle.std.specs.Prelude.{◌≡◌, ◌+◌, ◌^◌, ◌<◌, slice_set};
ghost use Rattle.iox_cell_queues.specs.Cells.{size};
ghost use Rattle.iox_cell_queues.specs.CellPrograms.{load_from as words_from, empty_look_access as look_access, empty_look_next as look_next};
ghost use Rattle.iox_cell_queues.specs.CellReady.{IsPopReady};
ghost use Rattle.iox_cell_queues.specs.CellEvents.{empty_look_event as look_moment, waiting_event as seen_waiting, departed_as};

use crate::event::{CellEvent, told};
use crate::site::CellSite;
use iox_steps::{Access, EmptyLook, Next, perform, tell};
use iox_words::Words;

/// Where a pop is of a value of `WIDTH` words.
#[derive(Clone, Copy)]
pub enum CellPop<const WIDTH: usize> {
    /// it reads the read position next
    LoadsRead,
    /// the read position
    LoadsWrite(u64),
    /// the read position, its cell, the words, and how many of them are loaded
    LoadsWord(u64, usize, [u64; WIDTH], usize),
    /// the read position, and the words that stood in its cell
    StoresRead(u64, [u64; WIDTH]),
}

impl<const WIDTH: usize> CellPop<WIDTH> {
    ghost use Rattle.std.specs.Prelude.{◌≡◌, ◌+◌, ◌^◌, ◌<◌, ◌++◌, length, vec_len};
    ghost use Rattle.std.specs.Option.{option_to_list};
    ghost use Rattle.std.specs.Vec.{vec_capacity};
    ghost use Rattle.iox_steps.specs.Accesses.{IsWithin, seen_at, words_after};
    ghost use Rattle.iox_cell_queues.specs.Cells.{size};
    ghost use Rattle.iox_cell_queues.specs.CellEventLists.{told as told_of};
    ghost use Rattle.iox_cell_queues.specs.CellPrograms.{pop_access, pop_next, goes_or_ends};
    ghost use Rattle.iox_cell_queues.specs.CellReady.{IsPopReady, IsPopReadyOn};
    ghost use Rattle.iox_cell_queues.specs.CellEvents.{pop_event};

    /// The access that it makes next.
    #[inline]
    pub fn access(self, site: CellSite) -> Access
        requires in_memory { site.base + size site < 2 ^ 64 }
        requires ready { IsPopReady site self }
        ensures { result ≡ pop_access site self.entry }
    {
        match self {
            CellPop::LoadsRead => Access::Load(site.base + 1),
            CellPop::LoadsWrite(_) => Access::Load(site.base),
            CellPop::LoadsWord(_, cell, _, loaded) => Access::Load(cell + loaded),
            CellPop::StoresRead(read, _) => Access::Store(site.base + 1, read.saturating_add(1)),
        }
    }

    /// Where it goes after an access that found `seen`.
    #[inline]
    pub fn next<T: Words>(self, site: CellSite, seen: u64) -> Next<CellPop<WIDTH>, Option<T>>
        requires in_memory { site.base + size site < 2 ^ 64 }
        requires wide { WIDTH ≡ site.width }
        requires ready { IsPopReady site self }
        ensures next { result ≡ pop_next T.of_words site self.entry seen }
        ensures ready { IsPopReadyOn site result }
    {
        match self {
            CellPop::LoadsRead => Next::Goes(CellPop::LoadsWrite(seen)),
            CellPop::LoadsWrite(read) => {
                if site.is_empty(read, seen) {
                    return Next::Ends(None);
                }
                Next::Goes(load_from(site, read, site.cell_at(read), [0; WIDTH], 0))
            }
            CellPop::LoadsWord(read, cell, got, loaded) => {
                let mut got = got;
                got[loaded] = seen;
                Next::Goes(load_from(site, read, cell, got, loaded + 1))
            }
            CellPop::StoresRead(_, got) => Next::Ends(T::of_words(&got)),
        }
    }

    /// What an access that found `seen` does to the queue, or sees there.
    #[inline]
    pub fn event<T: Words>(self, site: CellSite, seen: u64) -> CellEvent<T>
        ensures { result ≡ pop_event T.of_words site self.entry seen }
    {
        match self {
            CellPop::LoadsRead => CellEvent::Quiet,
            CellPop::LoadsWrite(read) => waiting_event(site, read, seen),
            CellPop::LoadsWord(_, _, _, _) => CellEvent::Quiet,
            CellPop::StoresRead(_, got) => departed(T::of_words(&got)),
        }
    }

    /// Makes its next access, writes down its event, and continues in place. It answers its
    /// reply once it ended.
    #[inline]
    pub(crate) fn step<T: Words>(
        &mut self,
        site: CellSite,
        words: &mut Vec<u64>,
        events: &mut Vec<CellEvent<T>>,
    ) -> Option<Option<T>>
        requires in_memory { site.base + size site < 2 ^ 64 }
        requires wide { WIDTH ≡ site.width }
        requires ready { IsPopReady site self.old }
        requires within { IsWithin 0 (length words.old.items) (pop_access site self.old) }
        requires room { vec_len events.old < vec_capacity events.old }
        ensures words { words.new.items ≡ words_after (pop_access site self.old) words.old.items }
        ensures told { events.new.items ≡ events.old.items
            ++ option_to_list (told_of (pop_event T.of_words site self.old
            (seen_at (pop_access site self.old) words.old.items))) }
        ensures next { pop_next T.of_words site self.old
            (seen_at (pop_access site self.old) words.old.items) ≡ goes_or_ends result self.new }
        ensures ready { IsPopReady site self.new }
    {
        match *self {
            CellPop::LoadsRead => {
                let read = perform(words, Access::Load(site.base + 1));
                tell(events, None);
                *self = CellPop::LoadsWrite(read);
                None
            }
            CellPop::LoadsWrite(read) => {
                let write = perform(words, Access::Load(site.base));
                tell(events, told(waiting_event(site, read, write)));
                if site.is_empty(read, write) {
                    return Some(None);
                }
                *self = load_from(site, read, site.cell_at(read), [0; WIDTH], 0);
                None
            }
            CellPop::LoadsWord(read, cell, _, loaded) => {
                let seen = perform(words, Access::Load(cell + loaded));
                tell(events, None);
                if let CellPop::LoadsWord(_, _, got, _) = self {
                    got[loaded] = seen;
                }
                if let CellPop::LoadsWord(_, _, _, count) = self {
                    *count = loaded + 1;
                }
                if loaded + 1 >= site.width {
                    if let CellPop::LoadsWord(_, _, got, _) = *self {
                        *self = CellPop::StoresRead(read, got);
                    }
                }
                None
            }
            CellPop::StoresRead(read, got) => {
                perform(words, CellPop::StoresRead(read, got).access(site));
                let out = T::of_words(&got);
                tell(events, told(departed(out)));
                Some(out)
            }
        }
    }
}

/// The event of a value that leaves, if the words are those of a value.
#[inline]
fn departed<T: Words>(out: Option<T>) -> CellEvent<T>
    ensures { result ≡ departed_as out }
{
    match out {
        Some(value) => CellEvent::HandOut(value),
        None => CellEvent::Quiet,
    }
}

/// On to this word of the value, or to the read position if there is none.
#[inline]
fn load_from<const WIDTH: usize>(
    site: CellSite,
    read: u64,
    cell: usize,
    got: [u64; WIDTH],
    loaded: usize,
) -> CellPop<WIDTH>
    requires { cell + site.width < 2 ^ 64 }
    ensures pop { result ≡ words_from site read cell got.entry loaded }
    ensures ready { IsPopReady site result }
{
    if loaded >= site.width {
        CellPop::StoresRead(read, got)
    } else {
        CellPop::LoadsWord(read, cell, got, loaded)
    }
}

/// What a look at the write position shows.
#[inline]
fn waiting_event<T: Words>(site: CellSite, read: u64, write: u64) -> CellEvent<T>
    ensures { result ≡ seen_waiting site read write }
{
    if site.is_empty(read, write) {
        CellEvent::SeesEmpty
    } else {
        CellEvent::SeesWaiting
    }
}

/// The access that a look at emptiness makes next.
#[inline]
pub(crate) fn empty_look_access(look: EmptyLook, site: CellSite) -> Access
    requires { site.base + size site < 2 ^ 64 }
    ensures { result ≡ look_access site look }
{
    match look {
        EmptyLook::LoadsRead => Access::Load(site.base + 1),
        EmptyLook::LoadsWrite(_) => Access::Load(site.base),
    }
}

/// Where it goes after an access that found `seen`.
#[inline]
pub(crate) fn empty_look_next(look: EmptyLook, site: CellSite, seen: u64) -> Next<EmptyLook, bool>
    ensures { result ≡ look_next site look seen }
{
    match look {
        EmptyLook::LoadsRead => Next::Goes(EmptyLook::LoadsWrite(seen)),
        EmptyLook::LoadsWrite(read) => Next::Ends(site.is_empty(read, seen)),
    }
}

/// What an access that found `seen` sees.
#[inline]
pub(crate) fn empty_look_event<T: Words>(look: EmptyLook, site: CellSite, seen: u64) -> CellEvent<T>
    ensures { result ≡ look_moment site look seen }
{
    match look {
        EmptyLook::LoadsRead => CellEvent::Quiet,
        EmptyLook::LoadsWrite(read) => waiting_event(site, read, seen),
    }
}
