//! What a receive comes to.
ghost use Rattle.std.specs.Prelude.{◌≡◌};
ghost use Rattle.iox_control.specs.Replies.{came_of};

/// What a receive came to.
#[derive(Clone, Copy, Debug, PartialEq, Eq)]
pub enum Received {
    /// A message was taken; this is the number of its handle.
    Handle(u64),
    /// Nothing that is wanted waits.
    Nothing,
    /// Something waits, and the receiver has as many messages as it may.
    AtLimit,
}

/// What a receive came to, but for the number of the handle: it is the last that was given.
#[derive(Clone, Copy)]
pub enum Came {
    /// A message was taken, and has a handle.
    Handle,
    /// Nothing that is wanted waits.
    Nothing,
    /// Something waits, and the receiver has as many messages as it may.
    AtLimit,
}

impl Received {
    /// What it came to, but for the number of the handle.
    #[inline(always)]
    pub fn came(self) -> Came
        ensures { result ≡ came_of self }
    {
        match self {
            Received::Handle(_) => Came::Handle,
            Received::Nothing => Came::Nothing,
            Received::AtLimit => Came::AtLimit,
        }
    }
}
