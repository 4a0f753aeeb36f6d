//! Tests of handles, by which they are counted.
ghost use Rattle.std.specs.Prelude.{◌≡◌, Bool};
ghost use Rattle.iox_handles.specs.declared.entry.Entry.{Entry};

use crate::entry::Entry;

/// A test that a handle passes or not.
pub trait EntryTest {
    ghost passes: { Self → Entry → Bool };

    /// Whether the handle passes.
    fn passes(&self, entry: Entry) -> bool
        ensures { result ≡ passes self.now entry };
}
