//! What a slot of a container has.
ghost use Rattle.std.specs.Prelude.{◌≡◌, ◌↔◌, IsTrue};
ghost use Rattle.iox_container.specs.Containers.{handle_of};

use super::ContainerHandle;
use iox_sets::mpmc::robust_unique_index_set::OwnerId;
use iox_words::Words;

/// A value with its owner, and the ticket under which it was added.
#[derive(Clone, Copy, Debug)]
pub struct Entry<T> {
    pub(crate) value: T,
    pub(crate) owner: OwnerId,
    pub(crate) ticket: u64,
}

impl<T: Words> Entry<T> {
    /// The handle of the entry in this slot.
    #[inline]
    pub(crate) fn handle(self, container_id: u64, index: usize) -> ContainerHandle
        ensures { result ≡ handle_of container_id index self }
    {
        ContainerHandle {
            container_id,
            index,
            ticket: self.ticket,
        }
    }
}

/// Whether two slots have the same entry, or both none.
pub(crate) fn is_same_slot<T: Words>(a: Option<Entry<T>>, b: Option<Entry<T>>) -> bool
    ensures { IsTrue result ↔ a ≡ b }
{
    match (a, b) {
        (None, None) => true,
        (Some(a), Some(b)) => {
            a.ticket == b.ticket && a.owner == b.owner && is_same_value(a.value, b.value)
        }
        _ => false,
    }
}

/// Whether two values are the same, which their words tell.
fn is_same_value<T: Words>(a: T, b: T) -> bool
    ensures { IsTrue result ↔ a ≡ b }
{
    a.known();
    b.known();
    for index in 0..T::WORDS {
        if a.word(index) != b.word(index) {
            return false;
        }
    }
    true
}
