//! The two parties of a queue of values, each at rest or inside one of its programs.
use crate::event::{CellEvent, CellReply, told};
use crate::pop::{CellPop, empty_look_access, empty_look_event, empty_look_next};
use crate::push::{CellPush, full_look_access, full_look_event, full_look_next};
use crate::site::CellSite;
use iox_steps::{Access, EmptyLook, FullLook, Next, Progress, perform, tell};
use iox_words::Words;

/// Where the party is that pushes and looks at fullness.
#[derive(Clone, Copy)]
pub enum CellPushing<T> {
    /// no call is under way
    AtRest,
    /// inside a push
    Pushes(CellPush<T>),
    /// inside a look at fullness
    Looks(FullLook),
}

/// Where the party is that pops values of `WIDTH` words and looks at emptiness.
#[derive(Clone, Copy)]
pub enum CellPopping<const WIDTH: usize> {
    /// no call is under way
    AtRest,
    /// inside a pop
    Pops(CellPop<WIDTH>),
    /// inside a look at emptiness
    Looks(EmptyLook),
}

impl<T: Words> CellPushing<T> {
    ghost use Rattle.std.specs.Prelude.{◌≡◌, ◌+◌, ◌^◌, ◌<◌, ◌++◌, length, vec_len};
    ghost use Rattle.std.specs.Option.{option_to_list};
    ghost use Rattle.std.specs.Vec.{vec_capacity};
    ghost use Rattle.iox_steps.specs.Accesses.{IsWithin, seen_at, words_after};
    ghost use Rattle.iox_cell_queues.specs.Cells.{size};
    ghost use Rattle.iox_cell_queues.specs.CellEventLists.{told as told_of};
    ghost use Rattle.iox_cell_queues.specs.CellSides.{pushing_access, pushing_after, pushing_progress, pushing_event};
    ghost use Rattle.iox_cell_queues.specs.CellReady.{IsPusherReady};

    /// The access that it makes next.
    #[inline]
    pub fn access(self, site: CellSite) -> Access
        requires in_memory { site.base + size site < 2 ^ 64 }
        requires ready { IsPusherReady site self }
        ensures { result ≡ pushing_access T.words site self }
    {
        match self {
            CellPushing::AtRest => Access::Local,
            CellPushing::Pushes(push) => push.access(site),
            CellPushing::Looks(look) => full_look_access(look, site),
        }
    }

    /// Continues after an access that found `seen`.
    #[inline]
    pub fn advance(&mut self, site: CellSite, seen: u64) -> Progress<CellReply<T>>
        requires in_memory { site.base + size site < 2 ^ 64 }
        requires ready { IsPusherReady site self.old }
        ensures site { self.new ≡ pushing_after site self.old seen }
        ensures answer { result ≡ pushing_progress site self.old seen }
        ensures ready { IsPusherReady site self.new }
    {
        match *self {
            CellPushing::AtRest => Progress::Going,
            CellPushing::Pushes(push) => match push.next(site, seen) {
                Next::Goes(push) => {
                    *self = CellPushing::Pushes(push);
                    Progress::Going
                }
                Next::Ends(pushed) => {
                    *self = CellPushing::AtRest;
                    Progress::Done(CellReply::Pushed(pushed))
                }
            },
            CellPushing::Looks(look) => match full_look_next(look, site, seen) {
                Next::Goes(look) => {
                    *self = CellPushing::Looks(look);
                    Progress::Going
                }
                Next::Ends(full) => {
                    *self = CellPushing::AtRest;
                    Progress::Done(CellReply::Full(full))
                }
            },
        }
    }

    /// What an access that found `seen` does to the queue, or sees there.
    #[inline]
    pub fn event(self, site: CellSite, seen: u64) -> CellEvent<T>
        ensures { result ≡ pushing_event site self seen }
    {
        match self {
            CellPushing::AtRest => CellEvent::Quiet,
            CellPushing::Pushes(push) => push.event(site, seen),
            CellPushing::Looks(look) => full_look_event(look, site, seen),
        }
    }

    /// Makes its next access, writes down its event, and continues in place.
    #[inline]
    pub(crate) fn step(
        &mut self,
        site: CellSite,
        words: &mut Vec<u64>,
        events: &mut Vec<CellEvent<T>>,
    ) -> Progress<CellReply<T>>
        requires in_memory { site.base + size site < 2 ^ 64 }
        requires ready { IsPusherReady site self.old }
        requires within { IsWithin 0 (length words.old.items)
            (pushing_access T.words site self.old) }
        requires room { vec_len events.old < vec_capacity events.old }
        ensures words { words.new.items
            ≡ words_after (pushing_access T.words site self.old) words.old.items }
        ensures told { events.new.items ≡ events.old.items
            ++ option_to_list (told_of (pushing_event site self.old
            (seen_at (pushing_access T.words site self.old) words.old.items))) }
        ensures site { self.new ≡ pushing_after site self.old
            (seen_at (pushing_access T.words site self.old) words.old.items) }
        ensures answer { result ≡ pushing_progress site self.old
            (seen_at (pushing_access T.words site self.old) words.old.items) }
        ensures ready { IsPusherReady site self.new }
    {
        match self {
            CellPushing::AtRest => {
                perform(words, Access::Local);
                tell(events, None);
                Progress::Going
            }
            CellPushing::Pushes(push) => match push.step(site, words, events) {
                None => Progress::Going,
                Some(room) => {
                    *self = CellPushing::AtRest;
                    Progress::Done(CellReply::Pushed(room))
                }
            },
            CellPushing::Looks(look) => {
                let look = *look;
                let seen = perform(words, full_look_access(look, site));
                tell(events, told(full_look_event(look, site, seen)));
                self.advance(site, seen)
            }
        }
    }
}

impl<const WIDTH: usize> CellPopping<WIDTH> {
    ghost use Rattle.std.specs.Prelude.{◌≡◌, ◌+◌, ◌^◌, ◌<◌, ◌++◌, length, vec_len};
    ghost use Rattle.std.specs.Option.{option_to_list};
    ghost use Rattle.std.specs.Vec.{vec_capacity};
    ghost use Rattle.iox_steps.specs.Accesses.{IsWithin, seen_at, words_after};
    ghost use Rattle.iox_cell_queues.specs.Cells.{size};
    ghost use Rattle.iox_cell_queues.specs.CellEventLists.{told as told_of};
    ghost use Rattle.iox_cell_queues.specs.CellSides.{popping_access, popping_after, popping_progress, popping_event};
    ghost use Rattle.iox_cell_queues.specs.CellReady.{IsPopperReady};

    /// The access that it makes next.
    #[inline]
    pub fn access(self, site: CellSite) -> Access
        requires in_memory { site.base + size site < 2 ^ 64 }
        requires ready { IsPopperReady site self }
        ensures { result ≡ popping_access site self.entry }
    {
        match self {
            CellPopping::AtRest => Access::Local,
            CellPopping::Pops(pop) => pop.access(site),
            CellPopping::Looks(look) => empty_look_access(look, site),
        }
    }

    /// Continues after an access that found `seen`.
    #[inline]
    pub fn advance<T: Words>(&mut self, site: CellSite, seen: u64) -> Progress<CellReply<T>>
        requires in_memory { site.base + size site < 2 ^ 64 }
        requires wide { WIDTH ≡ site.width }
        requires ready { IsPopperReady site self.old }
        ensures site { self.new ≡ popping_after T.of_words site self.old seen }
        ensures answer { result ≡ popping_progress T.of_words site self.old seen }
        ensures ready { IsPopperReady site self.new }
    {
        match *self {
            CellPopping::AtRest => Progress::Going,
            CellPopping::Pops(pop) => match pop.next(site, seen) {
                Next::Goes(pop) => {
                    *self = CellPopping::Pops(pop);
                    Progress::Going
                }
                Next::Ends(value) => {
                    *self = CellPopping::AtRest;
                    Progress::Done(CellReply::Popped(value))
                }
            },
            CellPopping::Looks(look) => match empty_look_next(look, site, seen) {
                Next::Goes(look) => {
                    *self = CellPopping::Looks(look);
                    Progress::Going
                }
                Next::Ends(empty) => {
                    *self = CellPopping::AtRest;
                    Progress::Done(CellReply::Empty(empty))
                }
            },
        }
    }

    /// What an access that found `seen` does to the queue, or sees there.
    #[inline]
    pub fn event<T: Words>(self, site: CellSite, seen: u64) -> CellEvent<T>
        ensures { result ≡ popping_event T.of_words site self.entry seen }
    {
        match self {
            CellPopping::AtRest => CellEvent::Quiet,
            CellPopping::Pops(pop) => pop.event(site, seen),
            CellPopping::Looks(look) => empty_look_event(look, site, seen),
        }
    }

    /// Makes its next access, writes down its event, and continues in place.
    #[inline]
    pub(crate) fn step<T: Words>(
        &mut self,
        site: CellSite,
        words: &mut Vec<u64>,
        events: &mut Vec<CellEvent<T>>,
    ) -> Progress<CellReply<T>>
        requires in_memory { site.base + size site < 2 ^ 64 }
        requires wide { WIDTH ≡ site.width }
        requires ready { IsPopperReady site self.old }
        requires within { IsWithin 0 (length words.old.items) (popping_access site self.old) }
        requires room { vec_len events.old < vec_capacity events.old }
        ensures words { words.new.items
            ≡ words_after (popping_access site self.old) words.old.items }
        ensures told { events.new.items ≡ events.old.items
            ++ option_to_list (told_of (popping_event T.of_words site self.old
            (seen_at (popping_access site self.old) words.old.items))) }
        ensures site { self.new ≡ popping_after T.of_words site self.old
            (seen_at (popping_access site self.old) words.old.items) }
        ensures answer { result ≡ popping_progress T.of_words site self.old
            (seen_at (popping_access site self.old) words.old.items) }
        ensures ready { IsPopperReady site self.new }
    {
        match self {
            CellPopping::AtRest => {
                perform(words, Access::Local);
                tell(events, None);
                Progress::Going
            }
            CellPopping::Pops(pop) => match pop.step(site, words, events) {
                None => Progress::Going,
                Some(out) => {
                    *self = CellPopping::AtRest;
                    Progress::Done(CellReply::Popped(out))
                }
            },
            CellPopping::Looks(look) => {
                let look = *look;
                let seen = perform(words, empty_look_access(look, site));
                tell(events, told(empty_look_event(look, site, seen)));
                self.advance(site, seen)
            }
        }
    }
}
