//! A way that a receive visits, and where its words stand.
ghost use Rattle.std.specs.Prelude.{◌≡◌, ◌+◌, ◌*◌, ◌<◌, ◌≤◌, ◌^◌};

use iox_model::way::Way;
use iox_steps::{QueueKind, Site};

/// What is the same on all ways that a receive visits.
#[derive(Clone, Copy)]
pub struct ReceiveTerms {
    /// The kind of the queues in which messages wait.
    pub kind: QueueKind,
    /// How many messages may wait in each of them.
    pub capacity: usize,
    /// How many words behind such a queue the one begins in which messages return.
    pub back: usize,
    /// How many messages may return on each way.
    pub room: usize,
    /// How many words behind such a queue the request state of a client's first lane stands.
    pub state: usize,
    /// How many words lie from the request state of one lane to that of the next.
    pub lane_words: usize,
    /// How many messages of a way may be handles.
    pub limit: u64,
    /// Whether a request is received also where nobody waits for responses.
    pub fire_and_forget: bool,
    /// The number of the handle that it makes.
    pub number: u64,
}

/// A way that a receive visits, and what stands there.
#[derive(Clone, Copy)]
pub struct Source {
    /// The way itself.
    pub way: Way,
    /// The node of its sender.
    pub node: u64,
    /// The place of the queue in which its messages wait.
    pub place: usize,
    /// The place of the first slot of its sender.
    pub region: usize,
    /// How many slots its sender has.
    pub slots: u64,
    /// How many words each slot has.
    pub slot_words: usize,
    /// How many lanes its sender has, if that is a client.
    pub lanes: u64,
}

impl ReceiveTerms {
    ghost use Rattle.std.specs.Prelude.{◌≡◌};
    ghost use Rattle.iox_wire_receives.specs.Sources.{messages_at, returning_at};

    /// Where the messages of a way wait.
    #[inline(always)]
    pub fn messages(self, source: Source) -> Site
        ensures { result ≡ messages_at self source }
    {
        Site {
            kind: self.kind,
            base: source.place,
            capacity: self.capacity,
        }
    }

    /// Where they return.
    #[inline(always)]
    pub fn returning(self, source: Source) -> Site
        requires { source.place + self.back < 2 ^ 64 }
        ensures { result ≡ returning_at self source }
    {
        Site {
            kind: QueueKind::Index,
            base: source.place + self.back,
            capacity: self.room,
        }
    }
}

/// Where the part of that number begins, of so many that have so many words each. What has no
/// such part is at 0.
#[inline(always)]
pub fn part_of(base: usize, part: u64, count: u64, words: usize) -> usize
    requires { base + count * words < 2 ^ 64 }
    ensures there { part < count → result ≡ base + part * words }
    ensures within { result + words < 2 ^ 64 }
{
    if part < count {
        base + part as usize * words
    } else {
        0
    }
}
