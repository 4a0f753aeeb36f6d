//! The two parties of a queue, each at rest or inside one of its programs.
ghost use Rattle.std.specs.Prelude.{◌≡◌, ◌<◌, ◌++◌, vec_len};
ghost use Rattle.std.specs.Option.{option_to_list};
ghost use Rattle.std.specs.Vec.{vec_capacity};
ghost use Rattle.iox_steps.specs.Replies.{push_reply as reply_of};
ghost use Rattle.iox_steps.specs.EventLists.{told};

use crate::access::{Access, Next, Progress};
use crate::machine::tell;
use crate::pop::{EmptyLook, Pop};
use crate::push::{FullLook, Push, PushReply};
use crate::site::{QueueKind, Site};

/// Where the party is that pushes and looks at fullness.
#[derive(Clone, Copy)]
pub enum Pushing {
    /// no call is under way
    AtRest,
    /// inside a push
    Pushes(Push),
    /// inside a look at fullness
    Looks(FullLook),
}

/// Where the party is that pops and looks at emptiness.
#[derive(Clone, Copy)]
pub enum Popping {
    /// no call is under way
    AtRest,
    /// inside a pop
    Pops(Pop),
    /// inside a look at emptiness
    Looks(EmptyLook),
}

/// What an access does to the queue, or sees there.
#[derive(Clone, Copy, Debug, PartialEq, Eq)]
pub enum QueueEvent {
    /// neither
    Quiet,
    /// a value joins those that wait
    Publish(u64),
    /// the oldest value leaves, to the party that pops
    HandOut(u64),
    /// the oldest value leaves, pushed out
    Evict,
    /// the party that pushed a value out learns it
    Learn(u64),
    /// no value waits
    SeesEmpty,
    /// a value waits
    SeesWaiting,
    /// as many values wait as may
    SeesFull,
    /// one more value may wait
    SeesRoom,
    /// the write position is the last one
    SeesEnd,
}

/// What a call on a queue answers.
#[derive(Clone, Copy, Debug, PartialEq, Eq)]
pub enum QueueReply {
    /// of a push that may be refused: was there room?
    Pushed(bool),
    /// of a push that may overflow: the value pushed out, or its own at the last position
    HandedBack(Option<u64>),
    /// of a look at fullness: was it full?
    Full(bool),
    /// of a pop: the oldest value, if one was there
    Popped(Option<u64>),
    /// of a look at emptiness: was it empty?
    Empty(bool),
}

impl Pushing {
    ghost use Rattle.std.specs.Prelude.{◌≡◌, ◌+◌, ◌^◌, ◌<◌};
    ghost use Rattle.iox_steps.specs.Sites.{size};
    ghost use Rattle.iox_steps.specs.Sides.{pushing_access, pushing_after, pushing_progress, pushing_event};

    /// The access that it makes next.
    #[inline]
    pub fn access(self, site: Site) -> Access
        requires { site.base + size site < 2 ^ 64 }
        ensures { result ≡ pushing_access site self }
    {
        match self {
            Pushing::AtRest => Access::Local,
            Pushing::Pushes(place) => place.access(site),
            Pushing::Looks(place) => place.access(site),
        }
    }

    /// Continues after an access that found `seen`.
    #[inline]
    pub fn advance(&mut self, site: Site, seen: u64) -> Progress<QueueReply>
        requires { site.base + size site < 2 ^ 64 }
        ensures place { self.new ≡ pushing_after site self.old seen }
        ensures answer { result ≡ pushing_progress site self.old seen }
    {
        match *self {
            Pushing::AtRest => Progress::Going,
            Pushing::Pushes(place) => match place.next(site, seen) {
                Next::Goes(place) => {
                    *self = Pushing::Pushes(place);
                    Progress::Going
                }
                Next::Ends(reply) => {
                    *self = Pushing::AtRest;
                    Progress::Done(push_reply(site.kind, reply))
                }
            },
            Pushing::Looks(place) => match place.next(site, seen) {
                Next::Goes(place) => {
                    *self = Pushing::Looks(place);
                    Progress::Going
                }
                Next::Ends(full) => {
                    *self = Pushing::AtRest;
                    Progress::Done(QueueReply::Full(full))
                }
            },
        }
    }

    /// What an access that found `seen` does to the queue, or sees there.
    #[inline]
    pub fn event(self, site: Site, seen: u64) -> QueueEvent
        ensures { result ≡ pushing_event site self seen }
    {
        match self {
            Pushing::AtRest => QueueEvent::Quiet,
            Pushing::Pushes(place) => place.event(site, seen),
            Pushing::Looks(place) => place.event(site, seen),
        }
    }
}

impl Popping {
    ghost use Rattle.std.specs.Prelude.{◌≡◌, ◌+◌, ◌^◌, ◌<◌};
    ghost use Rattle.iox_steps.specs.Sites.{size};
    ghost use Rattle.iox_steps.specs.Sides.{popping_access, popping_after, popping_progress, popping_event};

    /// The access that it makes next.
    #[inline]
    pub fn access(self, site: Site) -> Access
        requires { site.base + size site < 2 ^ 64 }
        ensures { result ≡ popping_access site self }
    {
        match self {
            Popping::AtRest => Access::Local,
            Popping::Pops(place) => place.access(site),
            Popping::Looks(place) => place.access(site),
        }
    }

    /// Continues after an access that found `seen`.
    #[inline]
    pub fn advance(&mut self, site: Site, seen: u64) -> Progress<QueueReply>
        requires { site.base + size site < 2 ^ 64 }
        ensures place { self.new ≡ popping_after site self.old seen }
        ensures answer { result ≡ popping_progress site self.old seen }
    {
        match *self {
            Popping::AtRest => Progress::Going,
            Popping::Pops(place) => match place.next(site, seen) {
                Next::Goes(place) => {
                    *self = Popping::Pops(place);
                    Progress::Going
                }
                Next::Ends(value) => {
                    *self = Popping::AtRest;
                    Progress::Done(QueueReply::Popped(value))
                }
            },
            Popping::Looks(place) => match place.next(site, seen) {
                Next::Goes(place) => {
                    *self = Popping::Looks(place);
                    Progress::Going
                }
                Next::Ends(empty) => {
                    *self = Popping::AtRest;
                    Progress::Done(QueueReply::Empty(empty))
                }
            },
        }
    }

    /// What an access that found `seen` does to the queue, or sees there.
    #[inline]
    pub fn event(self, site: Site, seen: u64) -> QueueEvent
        ensures { result ≡ popping_event site self seen }
    {
        match self {
            Popping::AtRest => QueueEvent::Quiet,
            Popping::Pops(place) => place.event(site, seen),
            Popping::Looks(place) => place.event(site, seen),
        }
    }
}

/// What a push of a queue of this kind answers.
#[inline]
fn push_reply(kind: QueueKind, reply: PushReply) -> QueueReply
    ensures { result ≡ reply_of kind reply }
{
    match (kind, reply) {
        (QueueKind::Index, PushReply::Refused(_)) => QueueReply::Pushed(false),
        (QueueKind::Index, PushReply::Pushed) => QueueReply::Pushed(true),
        (QueueKind::Index, PushReply::PushedOut(_)) => QueueReply::Pushed(true),
        (QueueKind::Overflowing, PushReply::Refused(value)) => QueueReply::HandedBack(Some(value)),
        (QueueKind::Overflowing, PushReply::Pushed) => QueueReply::HandedBack(None),
        (QueueKind::Overflowing, PushReply::PushedOut(old)) => QueueReply::HandedBack(Some(old)),
    }
}

/// Writes the event, unless it is quiet, behind the events, which have room for it.
#[inline]
pub fn tell_event(events: &mut Vec<QueueEvent>, event: QueueEvent)
    requires { vec_len events.old < vec_capacity events.old }
    ensures { events.new.items ≡ events.old.items ++ option_to_list (told event) }
{
    match event {
        QueueEvent::Quiet => tell(events, None),
        event => tell(events, Some(event)),
    }
}
