//! The entries as a slice.
use super::Entries;
use iox_wire_locals::Entry;

impl Entries {
    ghost use Rattle.std.specs.Prelude.{◌≡◌};

    /// All entries, oldest first.
    #[inline(always)]
    pub fn all(&self) -> &[Entry]
        ensures { result.now ≡ self.now.entries }
    {
        &self.entries
    }
}
