//! The handle that names an entry of a container.
ghost use Rattle.std.specs.Prelude.{◌≡◌};

/// Names an entry of a container. No container gives a handle twice.
#[derive(Clone, Copy, Debug, PartialEq, Eq)]
pub struct ContainerHandle {
    pub(crate) container_id: u64,
    pub(crate) index: usize,
    pub(crate) ticket: u64,
}

impl ContainerHandle {
    /// The slot of the entry.
    #[inline]
    pub fn index(&self) -> usize
        ensures { result ≡ self.now.index }
    {
        self.index
    }
}
