//! What an end of a handle, and a release, come to.

use iox_handles::Entry;

/// What a release came to.
#[derive(Clone, Copy, Debug, PartialEq, Eq)]
pub struct Ending {
    /// The handle that was released.
    pub entry: Entry,
    /// Where a pool may be gone, the place of the pool of the handle's port.
    pub place: Option<usize>,
}

/// What the end of a handle came to.
#[derive(Clone, Copy)]
pub(crate) struct Ended {
    /// The handle that ended.
    pub entry: Entry,
    /// Whether something may go: its port, or the pool of its message.
    pub goes: bool,
}
