//! The sides of the two parties of a queue, and what they can be asked to do.
ghost use Rattle.std.specs.Prelude.{◌≡◌, ◌+◌, ◌^◌, ◌<◌};
ghost use Rattle.iox_steps.specs.Sites.{size};
ghost use Rattle.iox_queue_steps.specs.Queues.{side_access, side_after, side_progress};

use iox_steps::{Access, Popping, Progress, Pushing, QueueReply, Site};

/// One of the two parties of a queue, and where it is.
#[derive(Clone, Copy)]
pub enum Side {
    /// the party that pushes and looks at fullness
    Pusher(Pushing),
    /// the party that pops and looks at emptiness
    Popper(Popping),
}

/// What a party of a queue can be asked to do.
#[derive(Clone, Copy)]
pub enum Call {
    /// of the pusher: pushes the value
    Push(u64),
    /// of the pusher: is the queue full?
    IsFull,
    /// of the popper: takes the oldest value, if one is there
    Pop,
    /// of the popper: is the queue empty?
    IsEmpty,
}

impl Side {
    /// The access that the party makes next.
    #[inline]
    pub fn access(self, site: Site) -> Access
        requires { site.base + size site < 2 ^ 64 }
        ensures { result ≡ side_access site self }
    {
        match self {
            Side::Pusher(pushes) => pushes.access(site),
            Side::Popper(pops) => pops.access(site),
        }
    }

    /// Continues after an access that found `seen`.
    #[inline]
    pub fn advance(&mut self, site: Site, seen: u64) -> Progress<QueueReply>
        requires { site.base + size site < 2 ^ 64 }
        ensures place { self.new ≡ side_after site self.old seen }
        ensures answer { result ≡ side_progress site self.old seen }
    {
        match self {
            Side::Pusher(pushes) => pushes.advance(site, seen),
            Side::Popper(pops) => pops.advance(site, seen),
        }
    }
}
